//! Tests of two lists of ranges in one row, column by column.
ghost use Rattle.std.specs.Prelude.{◌≡◌, IfOk, true};
ghost use Rattle.au_plain.specs.PTerms.{pterm};
ghost use Rattle.au_plain.specs.PTerms as term;
ghost use Rattle.au_value.specs.declared.value.Value.{Value};
ghost use Rattle.au_rwexpr.specs.Meets as tests;

use crate::nodes::{certainly_equal, overlap};
use crate::range_columns::RangeColumns;
use crate::row_places::behind;
use au_plain::{Comparison2, PExpr, and, compare};
use au_value::{NoMemory, Value};
use std::alloc::Global;

/// Whether so many ranges, from two places on, overlap one by one.
///
/// `NoMemory` comes also where a row cannot have so many columns.
pub fn meets(
    alloc: Global,
    left: RangeColumns,
    right: RangeColumns,
    columns: usize,
) -> Result<PExpr, NoMemory>
    ensures { IfOk result (λ e. pterm e ≡ tests.meets_term left.first right.first columns) }
{
    if columns == 0 {
        return Ok(always());
    }
    let rest = meets(alloc, behind(left)?, behind(right)?, columns - 1)?;
    and(alloc, overlap(alloc, left, right)?, rest)
}

/// Whether the guesses of so many ranges, from two places on, are equal.
///
/// `NoMemory` comes also where a row cannot have so many columns.
pub fn same_guesses(
    alloc: Global,
    left: RangeColumns,
    right: RangeColumns,
    columns: usize,
) -> Result<PExpr, NoMemory>
    ensures { IfOk result (λ e. pterm e ≡ tests.same_guesses left.first right.first columns) }
{
    if columns == 0 {
        return Ok(always());
    }
    let rest = same_guesses(alloc, behind(left)?, behind(right)?, columns - 1)?;
    let test = compare(alloc, Comparison2::Equal, left.sg(), right.sg())?;
    and(alloc, test, rest)
}

/// Whether so many ranges, from two places on, are certain and equal.
///
/// `NoMemory` comes also where a row cannot have so many columns.
pub fn surely_equal(
    alloc: Global,
    left: RangeColumns,
    right: RangeColumns,
    columns: usize,
) -> Result<PExpr, NoMemory>
    ensures { IfOk result (λ e. pterm e ≡ tests.surely_equal left.first right.first columns) }
{
    if columns == 0 {
        return Ok(always());
    }
    let rest = surely_equal(alloc, behind(left)?, behind(right)?, columns - 1)?;
    and(alloc, certainly_equal(alloc, left, right)?, rest)
}

// The test of no columns.
fn always() -> PExpr
    ensures { pterm result ≡ term.Literal (Value.Flag true) }
{
    PExpr::Literal(Value::Flag(true))
}
