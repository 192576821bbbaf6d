//! What the fields of a table file write.
ghost use Rattle.std.specs.Prelude.{◌≡◌, ◌<◌, ◌≤◌, ◌^◌, IfSome, Some, option_map, if◌then◌else◌, neg_ℤ, pos};
ghost use Rattle.au_value.specs.declared.value.Value.{Value};
ghost use Rattle.au_value.specs.Numeral.{has_minus, numeral_value, without_minus};
ghost use Rattle.au_value.specs.Order.{kind_of};
ghost use Rattle.au_blocks.specs.FewDigits.{AreFew};
ghost use Rattle.au_blocks.specs.Inferring.{is_numeral as is_numeral_of};
ghost use Rattle.au_blocks.specs.Spellings.{count_written as count_written_of, copies_written, cut_dots, flag_written as flag_written_of, is_count as is_count_of, number_written as number_written_of, ordered_copies, ordered_range as ordered_range_of, part_texts, parts as parts_of, number_range, range_written as range_written_of, three};

use crate::times::Times;
use au_value::{Kind, Range, Value, all_digits, order, read_decimal, read_numeral};

/// The greatest number of copies.
const MAX_COPIES: u64 = 1_000_000_000_000;

// The number that a field writes in a column of this kind: of units, where the kind has a scale.
pub(crate) fn number_written(kind: Kind, field: &str) -> Option<i128>
    ensures { result ≡ number_written_of kind field.now }
{
    match kind {
        Kind::Int => whole_number(field),
        Kind::Dec(scale) => {
            if 1 <= scale && scale <= 9 {
                read_decimal(field.as_bytes(), scale)
            } else {
                None
            }
        }
        Kind::Text | Kind::Flag => None,
    }
}

// The number of a numeral. Few digits are read in one pass, as a number of 64 bits, which takes a part of the time.
fn whole_number(field: &str) -> Option<i128>
    ensures { result ≡ numeral_value field.now }
{
    match short_number(field) {
        Some(number) => Some(number as i128),
        None => read_numeral(field.as_bytes()),
    }
}

/// The number that an optional `-` and 1 to 18 digits write, and perhaps none of any other text.
pub(crate) fn short_number(field: &str) -> Option<i64>
    ensures { IfSome result (λ n. numeral_value field.now ≡ Some n) }
{
    let (minus, digits) = cut_minus(field.as_bytes());
    let number = few_digits(digits)?;
    Some(signed(minus, number))
}

// Whether a text begins with `-`, and the text without it.
fn cut_minus(text: &[u8]) -> (bool, &[u8])
    ensures minus { result.0 ≡ has_minus text.now }
    ensures digits { result.1.now ≡ without_minus text.now }
{
    match text.split_first() {
        Some((b'-', digits)) => (true, digits),
        _ => (false, text),
    }
}

// The number that 1 to 18 digits write, which 64 bits hold.
fn few_digits(text: &[u8]) -> Option<u64>
    ensures { IfSome result (AreFew text.now) }
{
    if text.is_empty() || 18 < text.len() {
        return None;
    }
    let mut number = 0;
    for byte in text {
        if !byte.is_ascii_digit() {
            return None;
        }
        number = number * 10 + (*byte - b'0') as u64;
    }
    Some(number)
}

// A number with its sign.
fn signed(minus: bool, number: u64) -> i64
    requires { number < 10 ^ 18 }
    ensures { result ≡ (if minus then neg_ℤ (pos number) else pos number) }
{
    if minus {
        -(number as i64)
    } else {
        number as i64
    }
}

// Whether a field is a numeral. Few digits are one, whatever their number.
pub(crate) fn is_numeral(field: &str) -> bool
    ensures { result ≡ is_numeral_of field.now }
{
    if is_count(field) {
        return true;
    }
    read_numeral(field.as_bytes()).is_some()
}

// The flag that a field writes.
pub(crate) fn flag_written(field: &str) -> Option<bool>
    ensures { option_map Value.Flag result ≡ flag_written_of field.now }
{
    if field == "true" {
        Some(true)
    } else if field == "false" {
        Some(false)
    } else {
        None
    }
}

// The range that a field writes in a column of numbers.
pub(crate) fn range_written(kind: Kind, field: &str) -> Option<Range>
    ensures { result ≡ range_written_of kind field.now }
{
    let (first, second, third) = parts(field)?;
    range(
        number_written(kind, first),
        number_written(kind, second),
        number_written(kind, third),
    )
}

// The range of three numbers, if they are in order.
fn range(lo: Option<i128>, guess: Option<i128>, hi: Option<i128>) -> Option<Range>
    ensures { result ≡ three number_range lo guess hi }
{
    match (lo, guess, hi) {
        (Some(lo), Some(guess), Some(hi)) => {
            ordered_range(Value::Int(lo), Value::Int(guess), Value::Int(hi))
        }
        _ => None,
    }
}

// The range of three numbers as values, if they are in order.
fn ordered_range(lo: Value, guess: Value, hi: Value) -> Option<Range>
    requires first { kind_of lo ≡ kind_of guess }
    requires second { kind_of guess ≡ kind_of hi }
    ensures { result ≡ ordered_range_of lo guess hi }
{
    if order(&lo, &guess).is_le() && order(&guess, &hi).is_le() {
        Some(Range::of(lo, guess, hi))
    } else {
        None
    }
}

// The numbers of copies that a field writes.
pub(crate) fn times_written(field: &str) -> Option<Times>
    ensures { result ≡ copies_written field.now }
{
    if let Some(count) = count_written(field) {
        return Some(Times::of(count, count, count));
    }
    let (first, second, third) = parts(field)?;
    times(
        count_written(first),
        count_written(second),
        count_written(third),
    )
}

// Three numbers of copies, if they are in order.
fn times(least: Option<u64>, guess: Option<u64>, most: Option<u64>) -> Option<Times>
    requires { IfSome most (λ n. n ≤ 10 ^ 12) }
    ensures { result ≡ three ordered_copies least guess most }
{
    match (least, guess, most) {
        (Some(least), Some(guess), Some(most)) => {
            if least <= guess && guess <= most {
                Some(Times::of(least, guess, most))
            } else {
                None
            }
        }
        _ => None,
    }
}

// The number of copies that digits write.
fn count_written(field: &str) -> Option<u64>
    ensures value { result ≡ count_written_of field.now }
    ensures few { IfSome result (λ n. n ≤ 10 ^ 12) }
{
    if !is_count(field) {
        return None;
    }
    match u64::from_str_radix(field, 10) {
        Ok(count) => {
            if count <= MAX_COPIES {
                Some(count)
            } else {
                None
            }
        }
        Err(_) => None,
    }
}

// Whether a field is 1 to 13 digits.
fn is_count(field: &str) -> bool
    ensures { result ≡ is_count_of field.now }
{
    !field.is_empty() && field.len() <= 13 && all_digits(field.as_bytes())
}

// The three parts of a field that has `..` between them.
fn parts(field: &str) -> Option<(&str, &str, &str)>
    ensures { option_map (λ p. part_texts p.0.now p.1.now p.2.now) result ≡ parts_of field.now }
{
    let (first, rest) = cut(field)?;
    let (second, third) = cut(rest)?;
    Some((first, second, third))
}

// What stands before and behind the first `..`.
fn cut(field: &str) -> Option<(&str, &str)>
    ensures { option_map (λ p. (p.0.now, p.1.now)) result ≡ cut_dots field.now }
{
    field.split_once("..")
}
