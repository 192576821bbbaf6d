//! Difference, groups and sums over all rows, over any domain and annotation that has them.
ghost use Rattle.std.specs.Prelude.{◌≡◌, Bool, IfErr, IfOk, IsTrue, List, OnOk, Some, false};
ghost use Rattle.au_value.specs.declared.kinds.Kind.{Kind};
ghost use Rattle.au_expr.specs.Holding.{WhichWorld};
ghost use Rattle.au_expr.specs.declared.fault.EvalFault.TheVariants as fault;
ghost use Rattle.au_algebra.specs.Entries.{Entry};
ghost use Rattle.au_algebra.specs.Laws.{IsRelation};
ghost use Rattle.au_algebra.specs.Ordinary as ordinary;
ghost use Rattle.au_algebra.specs.Ordinary.{Rows};
ghost use Rattle.au_algebra.specs.Typing.{group_kinds, total_kinds};
ghost use Rattle.au_kfull.specs.Embedding.{IsCountedTable};
ghost use Rattle.au_kfull.specs.NonPositive.{NonPositive, RangesStandFor, ValuesStandFor, bounded_operators, counted_operators, ranges_fit, values_fit};
ghost use Rattle.au_kfull.specs.Outputs.{CanGroup, CanTotal};

use crate::{differences, groups, totals, values};
use au_algebra::{Agg, Rel};
use au_annot::{Count, Triple};
use au_expr::{Domain, EvalFault, PlainDomain, RangeDomain};
use au_keval::Weigh;
use au_value::{Range, Value};
use std::alloc::Global;

/// Annotations over whose relations the operators that are not positive are defined.
///
/// Each call gives what `operators` says. The result has columns of the kinds that the operator gives, and stands, in
/// any possible world and in the guess world, for the ordinary operator's rows over the rows that its operands stand
/// for. `Overflow` comes exactly where `fits` fails, unless memory is wanting before.
pub trait Full<D: Domain>: Weigh<D> {
    /// What each operator gives, over numbers without bounds.
    ghost operators: { NonPositive (Entry D.Cell Self) (List (Entry D.Cell Self)) };

    /// Whether the numbers of each lie in the range.
    ghost fits: { NonPositive (Entry D.Cell Self) Bool };

    /// Relations with columns of these kinds.
    ghost is_relation: { List Kind → List (Entry D.Cell Self) → Type 0 };

    /// The lists of rows that a relation stands for in a world.
    ghost stands_for: { WhichWorld → List (Entry D.Cell Self) → Rows → Type 0 };

    /// The left rows without the right ones: as many copies of a row are taken out as the right side has.
    fn difference(
        alloc: Global,
        left: &Rel<D::Cell, Self>,
        right: &Rel<D::Cell, Self>,
    ) -> Result<Rel<D::Cell, Self>, EvalFault>
        requires { (ks : List Kind) × is_relation ks left.now × is_relation ks right.now }
        ensures rows { IfOk result (λ r. r ≡ operators.difference left.now right.now) }
        ensures kinds { IfOk result (λ r. (ks : List Kind) → is_relation ks left.now → is_relation ks right.now → is_relation ks r) }
        ensures stands { IfOk result (λ r. (w : WhichWorld) (xs ys : Rows) → stands_for w left.now xs → stands_for w right.now ys → stands_for w r (ordinary.difference xs ys)) }
        ensures fits { OnOk result (IsTrue (fits.difference left.now right.now)) }
        ensures overflow { IfErr result (λ f. f ≡ fault.Overflow → fits.difference left.now right.now ≡ false) };

    /// For each list of values in so many leading columns these, and then the aggregates over the rows that have them.
    fn group(
        alloc: Global,
        keys: usize,
        aggs: &[Agg],
        of: &Rel<D::Cell, Self>,
    ) -> Result<Rel<D::Cell, Self>, EvalFault>
        requires { (ks : List Kind) × is_relation ks of.now × CanGroup ks aggs.now }
        ensures rows { IfOk result (λ r. r ≡ operators.group keys aggs.now of.now) }
        ensures kinds { IfOk result (λ r. (ks js : List Kind) → is_relation ks of.now → group_kinds keys aggs.now ks ≡ Some js → is_relation js r) }
        ensures stands { IfOk result (λ r. (w : WhichWorld) (xs : Rows) → stands_for w of.now xs → stands_for w r (ordinary.group keys aggs.now xs)) }
        ensures fits { OnOk result (IsTrue (fits.group keys aggs.now of.now)) }
        ensures overflow { IfErr result (λ f. f ≡ fault.Overflow → fits.group keys aggs.now of.now ≡ false) };

    /// One row, of sums over all rows. A sum over no rows is 0.
    fn total(
        alloc: Global,
        aggs: &[Agg],
        of: &Rel<D::Cell, Self>,
    ) -> Result<Rel<D::Cell, Self>, EvalFault>
        requires { (ks : List Kind) × is_relation ks of.now × CanTotal ks aggs.now }
        ensures rows { IfOk result (λ r. r ≡ operators.total aggs.now of.now) }
        ensures kinds { IfOk result (λ r. (ks js : List Kind) → is_relation ks of.now → total_kinds aggs.now ks ≡ Some js → is_relation js r) }
        ensures stands { IfOk result (λ r. (w : WhichWorld) (xs : Rows) → stands_for w of.now xs → stands_for w r (ordinary.total aggs.now xs)) }
        ensures fits { OnOk result (IsTrue (fits.total aggs.now of.now)) }
        ensures overflow { IfErr result (λ f. f ≡ fault.Overflow → fits.total aggs.now of.now ≡ false) };
}

/// The bounded operators.
impl Full<RangeDomain> for Triple {
    ghost operators = { bounded_operators };

    ghost fits = { ranges_fit };

    ghost is_relation = { IsRelation };

    ghost stands_for = { RangesStandFor };

    fn difference(
        alloc: Global,
        left: &Rel<Range, Triple>,
        right: &Rel<Range, Triple>,
    ) -> Result<Rel<Range, Triple>, EvalFault> {
        differences::difference(alloc, left, right)
    }

    fn group(
        alloc: Global,
        keys: usize,
        aggs: &[Agg],
        of: &Rel<Range, Triple>,
    ) -> Result<Rel<Range, Triple>, EvalFault> {
        groups::group(alloc, keys, aggs, of)
    }

    fn total(
        alloc: Global,
        aggs: &[Agg],
        of: &Rel<Range, Triple>,
    ) -> Result<Rel<Range, Triple>, EvalFault> {
        totals::total(alloc, aggs, of)
    }
}

/// The ordinary operators on rows with the number of their copies: the guesses of the bounded operators, each value
/// taken as a range of its own.
impl Full<PlainDomain> for Count {
    ghost operators = { counted_operators };

    ghost fits = { values_fit };

    ghost is_relation = { IsCountedTable };

    ghost stands_for = { ValuesStandFor };

    fn difference(
        alloc: Global,
        left: &Rel<Value, Count>,
        right: &Rel<Value, Count>,
    ) -> Result<Rel<Value, Count>, EvalFault> {
        values::difference(alloc, left, right)
    }

    fn group(
        alloc: Global,
        keys: usize,
        aggs: &[Agg],
        of: &Rel<Value, Count>,
    ) -> Result<Rel<Value, Count>, EvalFault> {
        values::group(alloc, keys, aggs, of)
    }

    fn total(
        alloc: Global,
        aggs: &[Agg],
        of: &Rel<Value, Count>,
    ) -> Result<Rel<Value, Count>, EvalFault> {
        values::total(alloc, aggs, of)
    }
}
