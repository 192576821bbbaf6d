//! The order of rows of values, from the first column on.
ghost use Rattle.std.specs.Prelude.{◌≡◌};
ghost use Rattle.std.specs.Cmp.Lexicographic.{slice_cmp};
ghost use Rattle.au_value.specs.Order.{order as order_of};

use au_value::{Value, compare};
use std::cmp::Ordering;

/// The order of two rows of values.
pub fn compare_values(a: &[Value], b: &[Value]) -> Ordering
    ensures { result ≡ slice_cmp order_of a.now b.now }
{
    let mut left = a;
    let mut right = b;
    while let Some((x, xs)) = left.split_first() {
        let Some((y, ys)) = right.split_first() else {
            return Ordering::Greater;
        };
        let decided = compare(x, y);
        if decided.is_ne() {
            return decided;
        }
        left = xs;
        right = ys;
    }
    if right.is_empty() {
        Ordering::Equal
    } else {
        Ordering::Less
    }
}
