//! Plans, made one operator at a time.
ghost use Rattle.std.specs.Prelude.{◌≡◌, ◌++◌, IfOk, drop, map};
ghost use Rattle.std.specs.Vec.Iter.{into_iter_items};
ghost use Rattle.au_plain.specs.PTerms.{pterm};
ghost use Rattle.au_plain.specs.Plans.{plan_tree};
ghost use Rattle.au_plain.specs.Plans as tree;

use crate::expr::PExpr;
use crate::plan::{PAgg, Plan};
use au_value::{NoMemory, beside, both};
use std::alloc::Global;

/// The plan with a column added.
pub fn extend(alloc: Global, column: PExpr, plan: Plan) -> Result<Plan, NoMemory>
    ensures { IfOk result (λ p. plan_tree p ≡ tree.Extend (pterm column) (plan_tree plan)) }
{
    Ok(Plan::Extend(column, Box::new(alloc, plan)?))
}

/// The plan with these columns added, one after the other.
pub fn extend_all(alloc: Global, added: Vec<PExpr>, plan: Plan) -> Result<Plan, NoMemory>
    ensures { IfOk result (λ p. plan_tree p ≡ tree.extend_all (map pterm added.items) (plan_tree plan)) }
{
    let mut all = plan;
    for column in added {
        all = extend(alloc, column, all)?;
    }
    Ok(all)
}

/// The columns of these places.
pub fn keep(alloc: Global, places: Vec<usize>, plan: Plan) -> Result<Plan, NoMemory>
    ensures { IfOk result (λ p. plan_tree p ≡ tree.Keep places.items (plan_tree plan)) }
{
    Ok(Plan::Keep(places, Box::new(alloc, plan)?))
}

/// The rows for which the test holds.
pub fn filter(alloc: Global, test: PExpr, plan: Plan) -> Result<Plan, NoMemory>
    ensures { IfOk result (λ p. plan_tree p ≡ tree.Filter (pterm test) (plan_tree plan)) }
{
    Ok(Plan::Filter(test, Box::new(alloc, plan)?))
}

/// The pairs of rows for which the test holds.
pub fn join(alloc: Global, test: PExpr, left: Plan, right: Plan) -> Result<Plan, NoMemory>
    ensures { IfOk result (λ p. plan_tree p ≡ tree.Join (pterm test) (plan_tree left) (plan_tree right)) }
{
    let sides = both(Box::new(alloc, left), Box::new(alloc, right));
    let ((left, right), test) = beside(sides, test)?;
    Ok(Plan::Join(test, left, right))
}

/// The left rows, then the right rows.
pub fn union(alloc: Global, left: Plan, right: Plan) -> Result<Plan, NoMemory>
    ensures { IfOk result (λ p. plan_tree p ≡ tree.Union (plan_tree left) (plan_tree right)) }
{
    let (left, right) = both(Box::new(alloc, left), Box::new(alloc, right))?;
    Ok(Plan::Union(left, right))
}

/// One row for each list of values in the key columns.
pub fn group(alloc: Global, keys: Vec<usize>, aggs: Vec<PAgg>, plan: Plan) -> Result<Plan, NoMemory>
    ensures { IfOk result (λ p. plan_tree p ≡ tree.Group keys.items aggs.items (plan_tree plan)) }
{
    Ok(Plan::Group(keys, aggs, Box::new(alloc, plan)?))
}
