//! The sums of an output of a group.
ghost use Rattle.std.specs.Prelude.{◌≡◌, ◌<◌, ◌^◌, ◌*ℤ◌, IsTrue, OkIff, map, nat_abs, pos, sum_by, if◌then◌else◌};
ghost use Rattle.au_value.specs.Numeral.{is_i128};
ghost use Rattle.au_expr.specs.Ordinary.{number as number_of};
ghost use Rattle.au_algebra.specs.Bounded.{range_at, sure as sure_of};
ghost use Rattle.au_algebra.specs.Lists.{int_sum};
ghost use Rattle.au_kfull.specs.Groups.{end_of, like, term_of};

use crate::counts::has_certain_keys;
use crate::keys::Keys;
use crate::tuple::Tuple;
use au_annot::{Annot, Count, Triple};
use au_value::{Adder, Overflow, Range, Value};

/// One of a range's three values.
#[derive(Clone, Copy)]
pub(crate) enum Bound {
    Lower,
    Guess,
    Upper,
}

/// The value of a range that is named.
pub(crate) fn end_of(bound: Bound, range: &Range) -> &Value
    ensures { result.now ≡ end_of bound range.now }
{
    match bound {
        Bound::Lower => range.lo(),
        Bound::Guess => range.sg(),
        Bound::Upper => range.hi(),
    }
}

// The number of a value, and 0 where it is none.
fn number(value: &Value) -> i128
    ensures value { result ≡ number_of value.now }
    ensures fits { IsTrue (is_i128 (number_of value.now)) }
{
    match value {
        Value::Int(n) => *n,
        Value::Text(_) | Value::Flag(_) => 0,
    }
}

// The number in a column of a row, and 0 past the last.
fn number_at(bound: Bound, at: usize, row: &Tuple<'_, Range, Triple>) -> i128
    ensures value { result ≡ number_of (end_of bound (range_at at row.now)) }
{
    match row.cells().get(at) {
        Some(range) => number(end_of(bound, range)),
        None => 0,
    }
}

// How many copies a member has in each group of a world at least.
fn sure(keys: Keys, certain: bool, row: &Tuple<'_, Range, Triple>) -> Count
    ensures value { result ≡ sure_of (like keys certain) row.now }
    ensures fits { sure_of (like keys certain) row.now < 2 ^ 127 }
{
    if has_certain_keys(keys, row) && certain {
        row.annot().least()
    } else {
        Count::zero()
    }
}

// The number, so many times.
fn times(count: Count, n: i128) -> Result<i128, Overflow>
    ensures { OkIff result (IsTrue (is_i128 (pos count *ℤ n))) (pos count *ℤ n) }
{
    (count.get() as i128).checked_mul(n).ok_or(Overflow)
}

// What a row adds to a sum: at least, in the guess world, or at most.
fn term(
    bound: Bound,
    keys: Keys,
    certain: bool,
    at: usize,
    row: &Tuple<'_, Range, Triple>,
) -> Result<i128, Overflow>
    ensures { let t = term_of (like keys certain) bound at row.now in OkIff result (IsTrue (is_i128 t)) t }
{
    let n = number_at(bound, at, row);
    let count = match bound {
        Bound::Lower if n < 0 => row.annot().most(),
        Bound::Upper if n >= 0 => row.annot().most(),
        Bound::Guess => row.annot().guess(),
        _ => sure(keys, certain, row),
    };
    times(count, n)
}

/// The sum of what the rows add. `Overflow` comes exactly where the sum of the magnitudes leaves the range.
pub(crate) fn sum(
    bound: Bound,
    keys: Keys,
    certain: bool,
    at: usize,
    rows: &[Tuple<'_, Range, Triple>],
) -> Result<i128, Overflow>
    ensures { let terms = map (term_of (like keys certain) bound at) rows.now in OkIff result (sum_by nat_abs terms < 2 ^ 127) (int_sum terms) }
{
    let mut adder = Adder::new();
    for row in rows {
        adder.add(term(bound, keys, certain, at, row)?)?;
    }
    Ok(adder.total())
}
