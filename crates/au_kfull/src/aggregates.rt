//! The ranges of the aggregates of an output.
ghost use Rattle.std.specs.Prelude.{◌≡◌, ◌<◌, ◌&&◌, true, IfOk, OkIff, filter, length, nat_le, if◌then◌else◌};
ghost use Rattle.std.specs.List.{list_all};
ghost use Rattle.au_value.specs.Ranges.{IsRange, all_certain, range as range_of};
ghost use Rattle.au_value.specs.declared.kinds.Kind.{Kind};
ghost use Rattle.au_value.specs.declared.value.Value.TheVariants as value;
ghost use Rattle.au_value.specs.Numeral.{is_i128};
ghost use Rattle.au_algebra.specs.Bounded.{aggregate as aggregate_of, guess_if};
ghost use Rattle.au_algebra.specs.Fits.{agg_numbers};
ghost use Rattle.au_algebra.specs.declared.query.Agg.TheVariants as agg;
ghost use Rattle.au_kfull.specs.Extremes.{extreme_of, values_at, HasExtremes, HaveColumn, IsPossible};
ghost use Rattle.au_kfull.specs.Gives.{GivesOrOverflows};
ghost use Rattle.au_kfull.specs.Groups.{seen, MagnitudesFit};
ghost use Rattle.au_kfull.specs.Keys.{keys_of as the_keys};
ghost use Rattle.au_kfull.specs.declared.sums.Bound.TheVariants as bound;

use crate::counts::{has_certain_keys, is_guessed};
use crate::extremes::{farthest, nearest};
use crate::grouping::Grouping;
use crate::keys::Keys;
use crate::sums::{Bound, sum};
use crate::tuple::Tuple;
use au_algebra::Agg;
use au_annot::Triple;
use au_expr::EvalFault;
use au_value::{Extreme, NoMemory, Overflow, Range, Value, copy};
use std::alloc::Global;

// The range of three numbers, whose guess is the lower one where the output is not guessed.
fn sum_between(guessed: bool, lo: i128, sg: i128, hi: i128) -> Range
    requires { IsRange (guess_if guessed (range_of (value.Int lo) (value.Int sg) (value.Int hi))) }
    ensures { result ≡ guess_if guessed (range_of (value.Int lo) (value.Int sg) (value.Int hi)) }
{
    if guessed {
        Range::of(Value::Int(lo), Value::Int(sg), Value::Int(hi))
    } else {
        Range::of(Value::Int(lo), Value::Int(lo), Value::Int(hi))
    }
}

// The range of a sum.
fn sum_range(group: &Grouping<'_>, at: usize) -> Result<Range, Overflow>
    requires { IsRange (aggregate_of (seen group.now) (agg.Sum at)) }
    ensures { OkIff result (MagnitudesFit (seen group.now) at) (aggregate_of (seen group.now) (agg.Sum at)) }
{
    let lo = sum(
        Bound::Lower,
        group.keys,
        group.is_certain,
        at,
        &group.members,
    )?;
    let sg = sum(
        Bound::Guess,
        group.keys,
        group.is_certain,
        at,
        &group.belonging,
    )?;
    let hi = sum(
        Bound::Upper,
        group.keys,
        group.is_certain,
        at,
        &group.members,
    )?;
    Ok(sum_between(group.is_guessed, lo, sg, hi))
}

// The certain members with a copy in every world.
fn surely_there<'a>(
    alloc: Global,
    keys: Keys,
    certain: bool,
    rows: &[Tuple<'a, Range, Triple>],
) -> Result<Vec<Tuple<'a, Range, Triple>>, NoMemory>
    ensures { IfOk result (λ v. v.items ≡ filter (λ r. (all_certain (the_keys keys r.cells) && certain) && nat_le 1 r.annot.least) rows.now) }
{
    let mut found = Vec::new(alloc);
    for row in rows {
        if has_certain_keys(keys, row) && certain && row.annot().least().get() >= 1 {
            found.push(row.again())?;
        }
    }
    Ok(found)
}

// The rows with a copy in the guess world.
fn guessed_there<'a>(
    alloc: Global,
    rows: &[Tuple<'a, Range, Triple>],
) -> Result<Vec<Tuple<'a, Range, Triple>>, NoMemory>
    ensures { IfOk result (λ v. v.items ≡ filter (λ r. nat_le 1 r.annot.guess) rows.now) }
{
    let mut found = Vec::new(alloc);
    for row in rows {
        if is_guessed(row) {
            found.push(row.again())?;
        }
    }
    Ok(found)
}

// The least or the greatest guess, or the lower end where the output is not guessed.
fn guess<'a>(
    which: Extreme,
    at: usize,
    guessed: bool,
    rows: &[Tuple<'a, Range, Triple>],
    lo: &'a Value,
) -> &'a Value
    requires some { guessed ≡ true → 0 < length rows.now }
    requires columns { (k : Kind) × HaveColumn k at rows.now }
    ensures { result.now ≡ (if guessed then extreme_of which (values_at bound.Guess at rows.now) else lo.now) }
{
    if guessed {
        nearest(which, Bound::Guess, at, rows)
    } else {
        lo
    }
}

// The range of copies of three values.
fn range(lo: &Value, sg: &Value, hi: &Value) -> Result<Range, NoMemory>
    requires { IsRange (range_of lo.now sg.now hi.now) }
    ensures { IfOk result (λ r. r ≡ range_of lo.now sg.now hi.now) }
{
    Ok(Range::of(copy(lo)?, copy(sg)?, copy(hi)?))
}

// The range of a least value.
fn least_range(alloc: Global, group: &Grouping<'_>, at: usize) -> Result<Range, NoMemory>
    requires possible { HasExtremes (seen group.now) at }
    requires ordered { IsRange (aggregate_of (seen group.now) (agg.Min at)) }
    ensures { IfOk result (λ r. r ≡ aggregate_of (seen group.now) (agg.Min at)) }
{
    let sure = surely_there(alloc, group.keys, group.is_certain, &group.members)?;
    let guessed = guessed_there(alloc, &group.belonging)?;
    let lo = nearest(Extreme::Least, Bound::Lower, at, &group.members);
    let hi = farthest(Extreme::Least, Bound::Upper, at, &sure, &group.members);
    let sg = guess(Extreme::Least, at, group.is_guessed, &guessed, lo);
    range(lo, sg, hi)
}

// The range of a greatest value.
fn greatest_range(alloc: Global, group: &Grouping<'_>, at: usize) -> Result<Range, NoMemory>
    requires possible { HasExtremes (seen group.now) at }
    requires ordered { IsRange (aggregate_of (seen group.now) (agg.Max at)) }
    ensures { IfOk result (λ r. r ≡ aggregate_of (seen group.now) (agg.Max at)) }
{
    let sure = surely_there(alloc, group.keys, group.is_certain, &group.members)?;
    let guessed = guessed_there(alloc, &group.belonging)?;
    let lo = farthest(Extreme::Greatest, Bound::Lower, at, &sure, &group.members);
    let hi = nearest(Extreme::Greatest, Bound::Upper, at, &group.members);
    let sg = guess(Extreme::Greatest, at, group.is_guessed, &guessed, lo);
    range(lo, sg, hi)
}

/// The range of an aggregate over the rows of an output.
pub(crate) fn aggregate(alloc: Global, group: &Grouping<'_>, agg: Agg) -> Result<Range, EvalFault>
    requires possible { IsPossible (seen group.now) agg }
    requires ordered { IsRange (aggregate_of (seen group.now) agg) }
    ensures { GivesOrOverflows result (λ r. r ≡ aggregate_of (seen group.now) agg) (list_all is_i128 (agg_numbers (seen group.now) agg)) }
{
    match agg {
        Agg::Sum(at) => Ok(sum_range(group, at)?),
        Agg::Min(at) => Ok(least_range(alloc, group, at)?),
        Agg::Max(at) => Ok(greatest_range(alloc, group, at)?),
    }
}
