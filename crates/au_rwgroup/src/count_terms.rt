//! Terms over counts and certain ranges.
ghost use Rattle.std.specs.Prelude.{◌≡◌, IfOk};
ghost use Rattle.au_plain.specs.PTerms.{pterm};
ghost use Rattle.au_plain.specs.PTerms as term;
ghost use Rattle.au_rwexpr.specs.Counts.{one_term, positive as is_positive, zero_term};
ghost use Rattle.au_rwgroup.specs.Folds.{times_above as above_term, times_below as below_term};
ghost use Rattle.au_rwgroup.specs.Groups.{all_sure as are_sure, sure as sure_term};
ghost use Rattle.au_rwgroup.specs.Totals.{signed as signed_term};

use au_plain::{Comparison2, PExpr, and, case, compare, multiply};
use au_rwexpr::{RangeColumns, behind};
use au_value::{NoMemory, Value, both};
use std::alloc::Global;

pub(crate) fn zero() -> PExpr
    ensures { pterm result ≡ zero_term }
{
    PExpr::Literal(Value::Int(0))
}

pub(crate) fn one() -> PExpr
    ensures { pterm result ≡ one_term }
{
    PExpr::Literal(Value::Int(1))
}

/// Whether a count is not 0.
pub(crate) fn positive(alloc: Global, count: PExpr) -> Result<PExpr, NoMemory>
    ensures { IfOk result (λ e. pterm e ≡ is_positive (pterm count)) }
{
    compare(alloc, Comparison2::Less, zero(), count)
}

/// Whether so many ranges, from a place on, are certain.
///
/// `NoMemory` comes also where a row cannot have so many columns.
pub(crate) fn all_sure(
    alloc: Global,
    first: RangeColumns,
    columns: usize,
) -> Result<PExpr, NoMemory>
    ensures { IfOk result (λ e. pterm e ≡ are_sure first.first columns) }
{
    if columns == 0 {
        return Ok(PExpr::Literal(Value::Flag(true)));
    }
    if columns == 1 {
        return is_sure(alloc, first);
    }
    let rest = all_sure(alloc, behind(first)?, columns - 1)?;
    let test = is_sure(alloc, first)?;
    and(alloc, test, rest)
}

// Whether a range is certain.
fn is_sure(alloc: Global, cell: RangeColumns) -> Result<PExpr, NoMemory>
    ensures { IfOk result (λ e. pterm e ≡ sure_term cell.first) }
{
    compare(alloc, Comparison2::Equal, cell.lo(), cell.hi())
}

/// A column times the first count where it is below 0, and times the second where not.
pub(crate) fn signed(
    alloc: Global,
    below: PExpr,
    above: PExpr,
    column: usize,
) -> Result<PExpr, NoMemory>
    ensures { IfOk result (λ e. pterm e ≡ signed_term (pterm below) (pterm above) (term.Column column)) }
{
    let less = multiply(alloc, below, PExpr::Column(column));
    let both_terms = both(less, multiply(alloc, above, PExpr::Column(column)));
    let test = compare(alloc, Comparison2::Less, PExpr::Column(column), zero());
    let (test, (less, more)) = both(test, both_terms)?;
    case(alloc, test, less, more)
}

/// A column times a count where it is below 0, and 0 where not.
pub(crate) fn times_below(alloc: Global, count: PExpr, column: usize) -> Result<PExpr, NoMemory>
    ensures { IfOk result (λ e. pterm e ≡ below_term (pterm count) (term.Column column)) }
{
    let product = multiply(alloc, count, PExpr::Column(column));
    let test = compare(alloc, Comparison2::Less, PExpr::Column(column), zero());
    let (test, product) = both(test, product)?;
    case(alloc, test, product, zero())
}

/// A column times a count where it is not below 0, and 0 where it is.
pub(crate) fn times_above(alloc: Global, count: PExpr, column: usize) -> Result<PExpr, NoMemory>
    ensures { IfOk result (λ e. pterm e ≡ above_term (pterm count) (term.Column column)) }
{
    let product = multiply(alloc, count, PExpr::Column(column));
    let test = compare(alloc, Comparison2::Less, PExpr::Column(column), zero());
    let (test, product) = both(test, product)?;
    case(alloc, test, zero(), product)
}
