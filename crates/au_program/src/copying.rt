//! Copies of physical plans: a run takes the plan that it runs.
ghost use Rattle.std.specs.Prelude.{◌≡◌, IfOk, Ok};
ghost use Rattle.au_physical.specs.Physicals.{physical_tree};

use au_physical::Physical;
use au_plain::{PAgg, copy_expr, copy_rows};
use au_value::{NoMemory, both};
use std::alloc::Global;

/// A copy of a physical plan, with copies of the rows and the values in it.
pub fn copy_physical(alloc: Global, plan: &Physical) -> Result<Physical, NoMemory>
    ensures { IfOk result (λ p. physical_tree p ≡ physical_tree plan.now) }
{
    match plan {
        Physical::Scan(table, width) => Ok(Physical::Scan(*table, *width)),
        Physical::Rows(width, rows) => Ok(Physical::Rows(*width, copy_rows(alloc, rows)?)),
        Physical::Extend(e, of) => {
            let below = boxed(alloc, copy_physical(alloc, of));
            let (term, of) = both(copy_expr(alloc, e), below)?;
            Ok(Physical::Extend(term, of))
        }
        Physical::Keep(places, of) => {
            let below = boxed(alloc, copy_physical(alloc, of));
            let (places, of) = both(copy_places(alloc, places), below)?;
            Ok(Physical::Keep(places, of))
        }
        Physical::Filter(e, of) => {
            let below = boxed(alloc, copy_physical(alloc, of));
            let (term, of) = both(copy_expr(alloc, e), below)?;
            Ok(Physical::Filter(term, of))
        }
        Physical::Nested(e, left, right) => {
            let left = boxed(alloc, copy_physical(alloc, left));
            let right = boxed(alloc, copy_physical(alloc, right));
            let (term, sides) = both(copy_expr(alloc, e), both(left, right))?;
            Ok(Physical::Nested(term, sides.0, sides.1))
        }
        Physical::Hash(pairs, e, left, right) => {
            let left = boxed(alloc, copy_physical(alloc, left));
            let right = boxed(alloc, copy_physical(alloc, right));
            let test = both(copy_pairs(alloc, pairs), copy_expr(alloc, e));
            let (test, sides) = both(test, both(left, right))?;
            Ok(Physical::Hash(test.0, test.1, sides.0, sides.1))
        }
        Physical::Overlap(bounds, e, left, right) => {
            let left = boxed(alloc, copy_physical(alloc, left));
            let right = boxed(alloc, copy_physical(alloc, right));
            let (term, sides) = both(copy_expr(alloc, e), both(left, right))?;
            Ok(Physical::Overlap(*bounds, term, sides.0, sides.1))
        }
        Physical::Union(left, right) => {
            let left = boxed(alloc, copy_physical(alloc, left));
            let right = boxed(alloc, copy_physical(alloc, right));
            let sides = both(left, right)?;
            Ok(Physical::Union(sides.0, sides.1))
        }
        Physical::Group(keys, aggs, of) => {
            let below = boxed(alloc, copy_physical(alloc, of));
            let lists = both(copy_places(alloc, keys), copy_aggs(alloc, aggs));
            let (lists, of) = both(lists, below)?;
            Ok(Physical::Group(lists.0, lists.1, of))
        }
    }
}

// The plan in a box, if it could be made.
fn boxed(alloc: Global, plan: Result<Physical, NoMemory>) -> Result<Box<Physical>, NoMemory>
    ensures { IfOk result (λ b. plan ≡ Ok b.value) }
{
    let plan = plan?;
    Ok(Box::new(alloc, plan)?)
}

// A copy of some places.
fn copy_places(alloc: Global, places: &[usize]) -> Result<Vec<usize>, NoMemory>
    ensures { IfOk result (λ v. v.items ≡ places.now) }
{
    let copied = Vec::from_slice(alloc, places)?;
    Ok(copied)
}

// A copy of some pairs of places.
fn copy_pairs(alloc: Global, pairs: &[(usize, usize)]) -> Result<Vec<(usize, usize)>, NoMemory>
    ensures { IfOk result (λ v. v.items ≡ pairs.now) }
{
    let copied = Vec::from_slice(alloc, pairs)?;
    Ok(copied)
}

// A copy of some aggregates.
fn copy_aggs(alloc: Global, aggs: &[PAgg]) -> Result<Vec<PAgg>, NoMemory>
    ensures { IfOk result (λ v. v.items ≡ aggs.now) }
{
    let copied = Vec::from_slice(alloc, aggs)?;
    Ok(copied)
}
