//! Plans that change each row of their input.
ghost use Rattle.std.specs.Prelude.{◌≡◌, ◌*◌, IfOk};
ghost use Rattle.au_plain.specs.PTerms.{pterm};
ghost use Rattle.au_plain.specs.PTerms as term;
ghost use Rattle.au_plain.specs.Plans.{plan_tree};
ghost use Rattle.au_plain.specs.Plans as tree;
ghost use Rattle.au_rwexpr.specs.Counts.{zero_term};
ghost use Rattle.au_rwgroup.specs.Groups.{all_sure as are_sure, sure as sure_term};
ghost use Rattle.au_rwpoints.specs.RowPlans as plan;

use crate::row_places::{guess_row_places, possible_places};
use au_plain::{Comparison2, PExpr, Plan, and, case, compare, extend, filter, keep, not};
use au_rwexpr::{RangeColumns, behind};
use au_value::{NoMemory, Value, beside, both};
use std::alloc::Global;

/// The guesses of each row, of which a copy is certain where all its ranges are.
///
/// `NoMemory` comes also where a row cannot have so many columns, here and below.
pub(crate) fn guess_rows(alloc: Global, of: Plan, columns: usize) -> Result<Plan, NoMemory>
    ensures { IfOk result (λ p. plan_tree p ≡ plan.guess_plan columns (plan_tree of)) }
{
    let places = guess_row_places(alloc, columns);
    let (places, wide) = both(places, with_sure_least(alloc, of, columns))?;
    keep(alloc, places, wide)
}

/// The rows of which the first so many columns are not all certain, with no copy certain or guessed.
pub(crate) fn other_rows(
    alloc: Global,
    of: Plan,
    columns: usize,
    keys: usize,
) -> Result<Plan, NoMemory>
    ensures { IfOk result (λ p. plan_tree p ≡ plan.other_plan columns keys (plan_tree of)) }
{
    let places = possible_places(alloc, columns);
    let (places, unsure) = both(places, unsure_rows(alloc, of, keys))?;
    keep(alloc, places, unsure)
}

// The rows of which the first so many columns are not all certain, with a 0 behind them.
fn unsure_rows(alloc: Global, of: Plan, keys: usize) -> Result<Plan, NoMemory>
    ensures { IfOk result (λ p. plan_tree p ≡ tree.Extend zero_term (tree.Filter (term.Not (are_sure 0 keys)) (plan_tree of))) }
{
    let (test, of) = beside(is_unsure(alloc, keys), of)?;
    extend(alloc, zero(), filter(alloc, test, of)?)
}

// Whether the first so many columns are not all certain.
fn is_unsure(alloc: Global, keys: usize) -> Result<PExpr, NoMemory>
    ensures { IfOk result (λ e. pterm e ≡ term.Not (are_sure 0 keys)) }
{
    let sure = all_sure(alloc, RangeColumns::at(0)?, keys)?;
    not(alloc, sure)
}

// Each row with its least behind it, where it has only certain ranges, and else 0.
fn with_sure_least(alloc: Global, of: Plan, columns: usize) -> Result<Plan, NoMemory>
    ensures { IfOk result (λ p. plan_tree p ≡ tree.Extend (plan.sure_least columns) (plan_tree of)) }
{
    let (least, of) = beside(sure_least(alloc, columns), of)?;
    extend(alloc, least, of)
}

// The least of a row that has only certain ranges, and else 0.
fn sure_least(alloc: Global, columns: usize) -> Result<PExpr, NoMemory>
    ensures { IfOk result (λ e. pterm e ≡ plan.sure_least columns) }
{
    let triple = RangeColumns::of(columns)?;
    let sure = all_sure(alloc, RangeColumns::at(0)?, columns)?;
    case(alloc, sure, triple.lo(), zero())
}

// Whether so many ranges, from a place on, are certain.
fn all_sure(alloc: Global, first: RangeColumns, columns: usize) -> Result<PExpr, NoMemory>
    ensures { IfOk result (λ e. pterm e ≡ are_sure first.first columns) }
{
    if columns == 0 {
        return Ok(PExpr::Literal(Value::Flag(true)));
    }
    if columns == 1 {
        return is_sure(alloc, first);
    }
    let rest = all_sure(alloc, behind(first)?, columns - 1)?;
    let test = is_sure(alloc, first)?;
    and(alloc, test, rest)
}

// Whether a range is certain.
fn is_sure(alloc: Global, cell: RangeColumns) -> Result<PExpr, NoMemory>
    ensures { IfOk result (λ e. pterm e ≡ sure_term cell.first) }
{
    compare(alloc, Comparison2::Equal, cell.lo(), cell.hi())
}

fn zero() -> PExpr
    ensures { pterm result ≡ zero_term }
{
    PExpr::Literal(Value::Int(0))
}
