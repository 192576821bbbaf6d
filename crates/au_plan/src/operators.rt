//! Physical plans, made one operator at a time.
ghost use Rattle.std.specs.Prelude.{◌≡◌, IfOk, Ok};
ghost use Rattle.au_plain.specs.PTerms.{pterm};
ghost use Rattle.au_plan.specs.Made.{MadeOf, MadeOfTwo};
ghost use Rattle.au_physical.specs.Physicals as tree;

use au_physical::Physical;
use au_plain::{PAgg, PExpr};
use au_value::{NoMemory, beside, both};
use std::alloc::Global;

/// What was made, in a box, or the fault that hindered it.
pub(crate) fn boxed<A: Drop>(alloc: Global, of: Result<A, NoMemory>) -> Result<Box<A>, NoMemory>
    ensures { IfOk result (λ b. of ≡ Ok b.value) }
{
    match of {
        Ok(of) => Ok(Box::new(alloc, of)?),
        Err(fault) => Err(fault),
    }
}

/// The rows of what was made, with a column added.
pub(crate) fn extend(
    alloc: Global,
    column: PExpr,
    of: Result<Physical, NoMemory>,
) -> Result<Physical, NoMemory>
    ensures { MadeOf (tree.Extend (pterm column)) of result }
{
    let (of, column) = beside(boxed(alloc, of), column)?;
    Ok(Physical::Extend(column, of))
}

/// The columns of these places.
pub(crate) fn keep(
    alloc: Global,
    places: Vec<usize>,
    of: Result<Physical, NoMemory>,
) -> Result<Physical, NoMemory>
    ensures { MadeOf (tree.Keep places.items) of result }
{
    let (of, places) = beside(boxed(alloc, of), places)?;
    Ok(Physical::Keep(places, of))
}

/// The rows for which the test holds.
pub(crate) fn filter(
    alloc: Global,
    test: PExpr,
    of: Result<Physical, NoMemory>,
) -> Result<Physical, NoMemory>
    ensures { MadeOf (tree.Filter (pterm test)) of result }
{
    let (of, test) = beside(boxed(alloc, of), test)?;
    Ok(Physical::Filter(test, of))
}

/// One row for each list of values in the key columns.
pub(crate) fn group(
    alloc: Global,
    keys: Vec<usize>,
    aggs: Vec<PAgg>,
    of: Result<Physical, NoMemory>,
) -> Result<Physical, NoMemory>
    ensures { MadeOf (tree.Group keys.items aggs.items) of result }
{
    let (of, (keys, aggs)) = beside(boxed(alloc, of), (keys, aggs))?;
    Ok(Physical::Group(keys, aggs, of))
}

/// The left rows, then the right rows.
pub(crate) fn union(
    alloc: Global,
    left: Result<Physical, NoMemory>,
    right: Result<Physical, NoMemory>,
) -> Result<Physical, NoMemory>
    ensures { MadeOfTwo (λ l r p. p ≡ tree.Union l r) left right result }
{
    let (left, right) = both(boxed(alloc, left), boxed(alloc, right))?;
    Ok(Physical::Union(left, right))
}
