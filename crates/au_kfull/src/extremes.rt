//! The least and the greatest value of a column.
ghost use Rattle.std.specs.Prelude.{◌≡◌, ◌<◌, [], ◌∷◌, MatchOption, length};
ghost use Rattle.au_value.specs.Extremes.{preferred};
ghost use Rattle.au_value.specs.Order.{kind_of};
ghost use Rattle.au_value.specs.declared.kinds.Kind.{Kind};
ghost use Rattle.au_algebra.specs.Bounded.{range_at, or_else};
ghost use Rattle.au_kfull.specs.Extremes.{extreme_of, opposite as opposite_of, values_at, HasColumn, HaveColumn};
ghost use Rattle.au_kfull.specs.Groups.{end_of as end_of_range};

use crate::sums::{Bound, end_of};
use crate::tuple::Tuple;
use au_annot::Triple;
use au_value::{Extreme, Range, Value, is_first};

// The other end.
fn opposite(which: Extreme) -> Extreme
    ensures { result ≡ opposite_of which }
{
    match which {
        Extreme::Least => Extreme::Greatest,
        Extreme::Greatest => Extreme::Least,
    }
}

// The lesser or the greater of two values.
fn better<'a>(which: Extreme, a: &'a Value, b: &'a Value) -> &'a Value
    requires { kind_of a.now ≡ kind_of b.now }
    ensures { result.now ≡ preferred which a.now b.now }
{
    if is_first(which, a, b) { a } else { b }
}

// One of the three values in a column of a row.
fn value_at<'a>(bound: Bound, at: usize, row: &Tuple<'a, Range, Triple>) -> &'a Value
    requires { at < length row.now.cells }
    ensures { result.now ≡ end_of_range bound (range_at at row.now) }
{
    let cells = row.cells();
    end_of(bound, &cells[at])
}

// The least or the greatest over a row and others.
fn extreme_from<'a>(
    which: Extreme,
    bound: Bound,
    at: usize,
    first: &Tuple<'a, Range, Triple>,
    others: &[Tuple<'a, Range, Triple>],
) -> &'a Value
    requires { (k : Kind) × HasColumn k at first.now × HaveColumn k at others.now }
    ensures { result.now ≡ extreme_of which (values_at bound at (first.now ∷ others.now)) }
{
    let mut best = value_at(bound, at, first);
    for row in others {
        best = better(which, best, value_at(bound, at, row));
    }
    best
}

// The least or the greatest over some rows, if there are any.
fn extreme_over<'a>(
    which: Extreme,
    bound: Bound,
    at: usize,
    rows: &[Tuple<'a, Range, Triple>],
) -> Option<&'a Value>
    requires { (k : Kind) × HaveColumn k at rows.now }
    ensures { MatchOption result (rows.now ≡ []) (λ v. (0 < length rows.now) × (v.now ≡ extreme_of which (values_at bound at rows.now))) }
{
    match rows.split_first() {
        Some((first, others)) => Some(extreme_from(which, bound, at, first, others)),
        None => None,
    }
}

/// The least or the greatest over some rows.
pub(crate) fn nearest<'a>(
    which: Extreme,
    bound: Bound,
    at: usize,
    rows: &[Tuple<'a, Range, Triple>],
) -> &'a Value
    requires some { 0 < length rows.now }
    requires columns { (k : Kind) × HaveColumn k at rows.now }
    ensures { result.now ≡ extreme_of which (values_at bound at rows.now) }
{
    let Some(value) = extreme_over(which, bound, at, rows) else {
        unreachable!()
    };
    value
}

/// The least or the greatest over the rows that are surely there, or the other one over all where none is.
pub(crate) fn farthest<'a>(
    which: Extreme,
    bound: Bound,
    at: usize,
    sure: &[Tuple<'a, Range, Triple>],
    rows: &[Tuple<'a, Range, Triple>],
) -> &'a Value
    requires some { 0 < length rows.now }
    requires columns { (k : Kind) × HaveColumn k at sure.now × HaveColumn k at rows.now }
    ensures { result.now ≡ or_else sure.now (extreme_of which (values_at bound at sure.now)) (extreme_of (opposite_of which) (values_at bound at rows.now)) }
{
    match extreme_over(which, bound, at, sure) {
        Some(value) => value,
        None => nearest(opposite(which), bound, at, rows),
    }
}
