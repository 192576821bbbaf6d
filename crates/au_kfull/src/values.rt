//! Difference, groups and sums over rows of values with counts: the guesses of the bounded operators over the rows as
//! certain ranges.
ghost use Rattle.std.specs.Prelude.{◌≡◌, List};
ghost use Rattle.au_value.specs.declared.kinds.Kind.{Kind};
ghost use Rattle.au_kfull.specs.Gives.{GivesOrOverflows};
ghost use Rattle.au_kfull.specs.Embedding.{IsCountedTable};
ghost use Rattle.au_kfull.specs.NonPositive.{counted_operators, values_fit};
ghost use Rattle.au_kfull.specs.Outputs.{CanGroup, CanTotal};

use crate::embedding::{embed, guesses};
use crate::{differences, groups, totals};
use au_algebra::{Agg, Rel};
use au_annot::Count;
use au_expr::EvalFault;
use au_value::Value;
use std::alloc::Global;

/// The left rows without the right ones, as many copies as the right side has.
pub(crate) fn difference(
    alloc: Global,
    left: &Rel<Value, Count>,
    right: &Rel<Value, Count>,
) -> Result<Rel<Value, Count>, EvalFault>
    requires { (ks : List Kind) × IsCountedTable ks left.now × IsCountedTable ks right.now }
    ensures { GivesOrOverflows result (λ r. r ≡ counted_operators.difference left.now right.now) (values_fit.difference left.now right.now) }
{
    let left = embed(alloc, left.rows())?;
    let right = embed(alloc, right.rows())?;
    let rest = differences::difference(alloc, &left, &right)?;
    Ok(guesses(alloc, rest.rows())?)
}

/// The keys, and the aggregates over the rows that have them.
pub(crate) fn group(
    alloc: Global,
    keys: usize,
    aggs: &[Agg],
    of: &Rel<Value, Count>,
) -> Result<Rel<Value, Count>, EvalFault>
    requires { (ks : List Kind) × IsCountedTable ks of.now × CanGroup ks aggs.now }
    ensures { GivesOrOverflows result (λ r. r ≡ counted_operators.group keys aggs.now of.now) (values_fit.group keys aggs.now of.now) }
{
    let rows = embed(alloc, of.rows())?;
    let groups = groups::group(alloc, keys, aggs, &rows)?;
    Ok(guesses(alloc, groups.rows())?)
}

/// One row, of sums over all rows.
pub(crate) fn total(
    alloc: Global,
    aggs: &[Agg],
    of: &Rel<Value, Count>,
) -> Result<Rel<Value, Count>, EvalFault>
    requires { (ks : List Kind) × IsCountedTable ks of.now × CanTotal ks aggs.now }
    ensures { GivesOrOverflows result (λ r. r ≡ counted_operators.total aggs.now of.now) (values_fit.total aggs.now of.now) }
{
    let rows = embed(alloc, of.rows())?;
    let sums = totals::total(alloc, aggs, &rows)?;
    Ok(guesses(alloc, sums.rows())?)
}
