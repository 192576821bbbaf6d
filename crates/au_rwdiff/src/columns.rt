//! The columns of Difference: what is taken from a row, and what is left.
ghost use Rattle.std.specs.Prelude.{◌≡◌, IfOk, map, ◌∷◌, []};
ghost use Rattle.au_plain.specs.PTerms.{pterm, greatest_of_two as greatest};
ghost use Rattle.au_rwexpr.specs.Counts.{positive as is_positive, zero_term};
ghost use Rattle.au_plain.specs.PTerms as term;
ghost use Rattle.au_rwdiff.specs.Differences as columns;

use au_plain::{Comparison2, PExpr, case, compare, greatest_of_two, subtract};
use au_rwexpr::{RangeColumns, same_guesses, surely_equal};
use au_value::{NoMemory, Value};
use std::alloc::Global;

/// Three zeros.
pub(crate) fn no_columns(alloc: Global) -> Result<Vec<PExpr>, NoMemory>
    ensures { IfOk result (λ v. map pterm v.items ≡ columns.no_columns) }
{
    three(alloc, zero(), zero(), zero())
}

/// What a right row takes from a left row that it overlaps, by the places of the right row's cells and of its counts.
pub(crate) fn taken_columns(
    alloc: Global,
    count: usize,
    cells: RangeColumns,
    counts: RangeColumns,
) -> Result<Vec<PExpr>, NoMemory>
    ensures { IfOk result (λ v. map pterm v.items ≡ columns.taken_columns count cells.first counts.first) }
{
    let own = RangeColumns::at(0)?;
    let same = same_guesses(alloc, own, cells, count)?;
    let guess = case(alloc, same, counts.sg(), zero())?;
    let sure = surely_equal(alloc, own, cells, count)?;
    let least = case(alloc, sure, counts.lo(), zero())?;
    three(alloc, counts.hi(), guess, least)
}

/// What is left of a row's counts, by their places and those of the sums of what is taken.
pub(crate) fn left_columns(
    alloc: Global,
    counts: RangeColumns,
    sums: RangeColumns,
) -> Result<Vec<PExpr>, NoMemory>
    ensures { IfOk result (λ v. map pterm v.items ≡ columns.left_columns counts.first sums.first) }
{
    let least = less(alloc, counts.lo(), sums.lo())?;
    let guess = less(alloc, counts.sg(), sums.sg())?;
    let most = less(alloc, counts.hi(), sums.hi())?;
    three(alloc, least, guess, most)
}

/// Whether a count is not 0.
pub(crate) fn positive(alloc: Global, count: PExpr) -> Result<PExpr, NoMemory>
    ensures { IfOk result (λ e. pterm e ≡ is_positive (pterm count)) }
{
    compare(alloc, Comparison2::Less, zero(), count)
}

// A count less another, and 0 where that is more.
fn less(alloc: Global, count: PExpr, taken: PExpr) -> Result<PExpr, NoMemory>
    ensures { IfOk result (λ e. pterm e ≡ greatest (term.Subtract (pterm count) (pterm taken)) zero_term) }
{
    greatest_of_two(alloc, subtract(alloc, count, taken)?, zero())
}

fn three(alloc: Global, a: PExpr, b: PExpr, c: PExpr) -> Result<Vec<PExpr>, NoMemory>
    ensures { IfOk result (λ v. map pterm v.items ≡ pterm a ∷ pterm b ∷ pterm c ∷ []) }
{
    let mut all = Vec::with_capacity(alloc, 3)?;
    all.push(a)?;
    all.push(b)?;
    all.push(c)?;
    Ok(all)
}

fn zero() -> PExpr
    ensures { pterm result ≡ zero_term }
{
    PExpr::Literal(Value::Int(0))
}
