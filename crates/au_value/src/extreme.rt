//! The ends of some values: the least, and the greatest.
ghost use Rattle.std.specs.Prelude.{◌≡◌, if◌then◌else◌};
ghost use Rattle.au_value.specs.Order.{kind_of};
ghost use Rattle.au_value.specs.Extremes.{preferred};

use crate::value::{Value, compare, order};

/// Which end of some values is sought.
#[derive(Clone, Copy, Debug, PartialEq, Eq)]
pub enum Extreme {
    /// The least value.
    Least,
    /// The greatest value.
    Greatest,
}

/// Whether the first of two values of one kind is the lesser, or the greater.
pub fn is_first(how: Extreme, a: &Value, b: &Value) -> bool
    requires { kind_of a.now ≡ kind_of b.now }
    ensures { preferred how a.now b.now ≡ (if result then a.now else b.now) }
{
    match how {
        Extreme::Least => order(a, b).is_le(),
        Extreme::Greatest => order(a, b).is_gt(),
    }
}

/// The same of two values of any kinds: numbers below texts below flags.
pub fn comes_first(how: Extreme, a: &Value, b: &Value) -> bool
    ensures { preferred how a.now b.now ≡ (if result then a.now else b.now) }
{
    match how {
        Extreme::Least => compare(a, b).is_le(),
        Extreme::Greatest => compare(a, b).is_gt(),
    }
}
