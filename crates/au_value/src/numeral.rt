//! Whole numbers written as texts.
ghost use Rattle.std.specs.Prelude.{◌≡◌};
ghost use Rattle.std.specs.Char.{is_ascii_digit};
ghost use Rattle.std.specs.List.{list_all};
ghost use Rattle.au_value.specs.Numeral.{numeral_value, is_digits as is_digits_of, without_minus as without_minus_of};

use std::str;

/// The number that an optional `-` and 1 to 39 decimal digits write, where it lies in -2^127 to 2^127-1, and `None` for
/// any other text. It takes no memory.
pub fn read_numeral(text: &[u8]) -> Option<i128>
    ensures { result ≡ numeral_value text.now }
{
    if !is_digits(without_minus(text)) {
        return None;
    }
    match str::from_utf8(text) {
        Ok(numeral) => i128::from_str_radix(numeral, 10).ok(),
        Err(_) => None,
    }
}

pub(crate) fn without_minus(text: &[u8]) -> &[u8]
    ensures { result.now ≡ without_minus_of text.now }
{
    match text.split_first() {
        Some((b'-', digits)) => digits,
        _ => text,
    }
}

pub(crate) fn is_digits(text: &[u8]) -> bool
    ensures { result ≡ is_digits_of text.now }
{
    !text.is_empty() && text.len() <= 39 && all_digits(text)
}

/// Whether each byte is a decimal digit.
pub fn all_digits(text: &[u8]) -> bool
    ensures { result ≡ list_all is_ascii_digit text.now }
{
    text.iter().all(|byte| byte.is_ascii_digit())
}
