//! The order of lists of ranges: by guesses, then by lower ends, then by upper ends.
ghost use Rattle.std.specs.Prelude.{◌≡◌, map};
ghost use Rattle.std.specs.Cmp.Lexicographic.{slice_cmp};
ghost use Rattle.au_value.specs.Order.{order as order_of};
ghost use Rattle.au_algebra.specs.Bounded.{ranges_order};
ghost use Rattle.au_algebra.specs.Ends.{end_of};

use au_value::{Range, Value, compare};
use std::cmp::Ordering;

/// One of a range's three values.
#[derive(Clone, Copy)]
pub(crate) enum End {
    Guess,
    Lower,
    Upper,
}

// The value of a range that is named.
fn value_at(end: End, range: &Range) -> &Value
    ensures { result.now ≡ end_of end range.now }
{
    match end {
        End::Guess => range.sg(),
        End::Lower => range.lo(),
        End::Upper => range.hi(),
    }
}

// The order of the named values of two lists of ranges.
fn compare_ends(end: End, a: &[Range], b: &[Range]) -> Ordering
    ensures { result ≡ slice_cmp order_of (map (end_of end) a.now) (map (end_of end) b.now) }
{
    let mut left = a;
    let mut right = b;
    while let Some((x, xs)) = left.split_first() {
        let Some((y, ys)) = right.split_first() else {
            return Ordering::Greater;
        };
        let decided = compare(value_at(end, x), value_at(end, y));
        if decided.is_ne() {
            return decided;
        }
        left = xs;
        right = ys;
    }
    if right.is_empty() {
        Ordering::Equal
    } else {
        Ordering::Less
    }
}

/// The order of two lists of ranges, also of lists whose ranges are of several kinds.
pub(crate) fn compare_ranges(a: &[Range], b: &[Range]) -> Ordering
    ensures { result ≡ ranges_order a.now b.now }
{
    compare_ends(End::Guess, a, b)
        .then_with(|| compare_ends(End::Lower, a, b))
        .then_with(|| compare_ends(End::Upper, a, b))
}
