//! Fixed-point numbers written as texts.
ghost use Rattle.std.specs.Prelude.{◌≡◌, ◌≤◌, ◌-◌, ◌*◌, ◌^◌, true, length, position};
ghost use Rattle.std.specs.Str.Parse.{digits_value};
ghost use Rattle.au_value.specs.Decimal.{Reads, decimal_units, decimal_value, held_sum, is_decimal, is_fraction, is_point};
ghost use Rattle.au_value.specs.Numeral.{has_minus as has_minus_of, is_digits as is_digits_of};
ghost use Rattle.au_value.specs.Order.{is_scale};

use crate::numeral::{is_digits, without_minus};
use num_traits::checked_pow;
use std::str;

/// The number that a text writes, in units of 10^-`scale`: the text is an optional `-`, 1 to 39 decimal digits and,
/// where a `.` follows these, 1 to `scale` digits more, and the units lie in -2^127 to 2^127-1. It is `None` for any
/// other text. The scale is from 1 to 9. It takes no memory.
pub fn read_decimal(text: &[u8], scale: u32) -> Option<i128>
    requires { is_scale scale ≡ true }
    ensures { result ≡ decimal_value scale text.now }
{
    let units = units(text, scale)?;
    if has_minus(text) {
        0i128.checked_sub_unsigned(units)
    } else {
        0i128.checked_add_unsigned(units)
    }
}

fn has_minus(text: &[u8]) -> bool
    ensures { result ≡ has_minus_of text.now }
{
    match text.split_first() {
        Some((b'-', _)) => true,
        _ => false,
    }
}

// The units without the sign.
fn units(text: &[u8], scale: u32) -> Option<u128>
    requires { is_scale scale ≡ true }
    ensures { Reads (is_decimal scale text.now) (decimal_units scale text.now) result }
{
    match point(text) {
        None => with_zeros(without_minus(text), scale),
        Some(point) => sum(
            with_zeros(without_minus(&text[..point]), scale),
            fraction(&text[point + 1..], scale),
        ),
    }
}

// The place of the first point.
fn point(text: &[u8]) -> Option<usize>
    ensures { result ≡ position is_point text.now }
{
    text.iter().position(|byte| *byte == b'.')
}

// The sum of two numbers, where 128 bits hold all three.
fn sum(a: Option<u128>, b: Option<u128>) -> Option<u128>
    ensures { result ≡ held_sum a b }
{
    match (a, b) {
        (Some(m), Some(n)) => m.checked_add(n),
        _ => None,
    }
}

// The units of the digits behind the point.
fn fraction(digits: &[u8], scale: u32) -> Option<u128>
    requires { is_scale scale ≡ true }
    ensures { Reads (is_fraction scale digits.now) (digits_value 10 digits.now * 10 ^ (scale - length digits.now)) result }
{
    let places = digits.len();
    if places > scale as usize {
        return None;
    }
    with_zeros(digits, scale - places as u32)
}

// The number that digits and so many zeros write.
fn with_zeros(digits: &[u8], zeros: u32) -> Option<u128>
    requires { zeros ≤ 9 }
    ensures { Reads (is_digits_of digits.now) (digits_value 10 digits.now * 10 ^ zeros) result }
{
    let number = number(digits)?;
    number.checked_mul(checked_pow(10u128, zeros as usize)?)
}

// The number that digits write.
fn number(digits: &[u8]) -> Option<u128>
    ensures { Reads (is_digits_of digits.now) (digits_value 10 digits.now) result }
{
    if !is_digits(digits) {
        return None;
    }
    match str::from_utf8(digits) {
        Ok(numeral) => u128::from_str_radix(numeral, 10).ok(),
        Err(_) => None,
    }
}
