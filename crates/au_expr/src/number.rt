//! The numbers of values, and arithmetic that is refused where it leaves 128 bits.
ghost use Rattle.std.specs.Prelude.{◌≡◌, IsTrue, OkIff, ◌+ℤ◌, ◌-ℤ◌, ◌*ℤ◌, neg_ℤ};
ghost use Rattle.au_value.specs.Numeral.{is_i128};
ghost use Rattle.au_value.specs.Order.{kind_of};
ghost use Rattle.au_expr.specs.Ends.{lesser_int as lesser_of, greater_int as greater_of};
ghost use Rattle.au_value.specs.declared.kinds.Kind.{Kind};
ghost use Rattle.au_expr.specs.Figures.{Fit};
ghost use Rattle.au_expr.specs.Numbers.{number_if_any};
ghost use Rattle.au_expr.specs.Ordinary.{number as number_of, is_true};

use au_value::{Overflow, Value};

/// The number of a value of that kind.
pub(crate) fn number(value: &Value) -> i128
    requires { kind_of value.now ≡ Kind.Int }
    ensures value { result ≡ number_of value.now }
    ensures fits { Fit (number_if_any value.now) }
{
    match value {
        Value::Int(n) => *n,
        _ => unreachable!(),
    }
}

/// The flag of a value of that kind.
pub(crate) fn flag(value: &Value) -> bool
    requires { kind_of value.now ≡ Kind.Flag }
    ensures { result ≡ is_true value.now }
{
    match value {
        Value::Flag(b) => *b,
        _ => unreachable!(),
    }
}

/// Reads the number of a value, if it is one: a number that is held in memory fits.
pub(crate) fn read(value: &Value)
    ensures { Fit (number_if_any value.now) }
{
    if let Value::Int(n) = value {
        let _n = *n;
    }
}

pub(crate) fn sum(a: i128, b: i128) -> Result<i128, Overflow>
    ensures { OkIff result (IsTrue (is_i128 (a +ℤ b))) (a +ℤ b) }
{
    a.checked_add(b).ok_or(Overflow)
}

pub(crate) fn difference(a: i128, b: i128) -> Result<i128, Overflow>
    ensures { OkIff result (IsTrue (is_i128 (a -ℤ b))) (a -ℤ b) }
{
    a.checked_sub(b).ok_or(Overflow)
}

pub(crate) fn product(a: i128, b: i128) -> Result<i128, Overflow>
    ensures { OkIff result (IsTrue (is_i128 (a *ℤ b))) (a *ℤ b) }
{
    a.checked_mul(b).ok_or(Overflow)
}

pub(crate) fn negation(a: i128) -> Result<i128, Overflow>
    ensures { OkIff result (IsTrue (is_i128 (neg_ℤ a))) (neg_ℤ a) }
{
    a.checked_neg().ok_or(Overflow)
}

pub(crate) fn lesser(a: i128, b: i128) -> i128
    ensures { result ≡ lesser_of a b }
{
    if a <= b { a } else { b }
}

pub(crate) fn greater(a: i128, b: i128) -> i128
    ensures { result ≡ greater_of a b }
{
    if a <= b { b } else { a }
}
