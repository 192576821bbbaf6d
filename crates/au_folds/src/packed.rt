//! Keys of several numbers that are packed into one each: no list is made for a key, and one number is compared.
ghost use Rattle.std.specs.Prelude.{◌≡◌, ◌<◌, ◌+◌, ◌-◌, ◌^◌, IfOk, IfSome, IsTrue, map, nat_eq, pos, true, ℤ};
ghost use Rattle.std.specs.Int.{w128};
ghost use Rattle.std.specs.Int.RustNames.{FitsSigned};
ghost use Rattle.au_codes.specs.CellMeaning.{same_cells};
ghost use Rattle.au_columns.specs.Batches.{row_at, rows_of};
ghost use Rattle.au_columns.specs.Steps.{number_at};
ghost use Rattle.au_folds.specs.Keyed.{lists};
ghost use Rattle.au_folds.specs.Packed.{IsPackedOf, high_part, low_part, unpacked, width_of};

use crate::keyed::{are_equal, number};
use au_value::NoMemory;
use std::alloc::Global;

/// The bits of each number of a key that has so many behind the first.
pub(crate) fn width(deep: usize) -> u32
    ensures is { result ≡ width_of deep }
    ensures small { result < 127 }
{
    if deep < 12 {
        126 / (deep as u32 + 1)
    } else {
        10
    }
}

/// The keys that stand in columns, of which there are so many, if all can be packed.
pub(crate) fn packed_keys(
    alloc: Global,
    columns: &[Vec<i128>],
    count: usize,
    deep: usize,
) -> Result<Option<Vec<i128>>, NoMemory>
    ensures { IfOk result (λ found. IfSome found (λ v. map (unpacked (width_of deep) deep) v.items ≡ rows_of count (lists columns.now))) }
{
    let width = width(deep);
    let mut keys = Vec::with_capacity(alloc, count)?;
    for row in 0..count {
        let key = row_packed(columns, row, width);
        if !holds_row(key, columns, row, deep, width) {
            return Ok(None);
        }
        keys.push(key)?;
    }
    Ok(Some(keys))
}

// The numbers of a row as one. Where they don't fit, it holds others.
#[inline(always)]
fn row_packed(columns: &[Vec<i128>], row: usize, width: u32) -> i128
    requires { width < 127 }
{
    let mut key = 0;
    for i in 0..columns.len() {
        key = joined(key, number(&columns[columns.len() - 1 - i], row), width);
    }
    key
}

// Whether a key holds the numbers of a row.
#[inline(always)]
fn holds_row(key: i128, columns: &[Vec<i128>], row: usize, deep: usize, width: u32) -> bool
    requires { width < 127 }
    ensures { IsTrue result → same_cells (row_at (lists columns.now) row) (unpacked width deep key) ≡ true }
{
    if !is_next(columns.len(), deep) {
        return false;
    }
    let mut rest = key;
    for i in 0..deep {
        if !are_equal(number(&columns[i], row), low(rest, width)) {
            return false;
        }
        rest = high(rest, width);
    }
    are_equal(number(&columns[deep], row), rest)
}

// Whether a number is the next one after another.
#[inline(always)]
fn is_next(more: usize, less: usize) -> bool
    ensures { result ≡ nat_eq more (less + 1) }
{
    if more == 0 { false } else { more - 1 == less }
}

/// The first number of a key.
#[inline(always)]
fn low(key: i128, width: u32) -> i128
    requires { width < 127 }
    ensures { result ≡ low_part width key }
{
    if key < 0 { key } else { key & ones(width) }
}

// So many ones, as bits.
#[inline(always)]
fn ones(width: u32) -> i128
    requires { width < 127 }
    ensures { result ≡ pos (2 ^ width - 1) }
{
    (1i128 << width) - 1
}

// What is left of a key behind its first number.
#[inline(always)]
fn high(key: i128, width: u32) -> i128
    requires { width < 127 }
    ensures { result ≡ high_part width key }
{
    if key < 0 { 0 } else { key >> width }
}

/// The numbers of a key.
pub(crate) fn unpacked_list(
    alloc: Global,
    key: i128,
    deep: usize,
    width: u32,
) -> Result<Vec<i128>, NoMemory>
    requires { width < 127 }
    ensures { IfOk result (λ v. v.items ≡ unpacked width deep key) }
{
    let mut numbers = Vec::new(alloc);
    let mut rest = key;
    for _ in 0..deep {
        numbers.push(low(rest, width))?;
        rest = high(rest, width);
    }
    numbers.push(rest)?;
    Ok(numbers)
}

/// The number at a place of a key, and 0 past the last.
#[inline(always)]
pub(crate) fn number_in(key: i128, place: usize, deep: usize, width: u32) -> i128
    requires { width < 127 }
    ensures { result ≡ number_at (unpacked width deep key) place }
{
    if place > deep {
        return 0;
    }
    let mut rest = key;
    for _ in 0..place {
        rest = high(rest, width);
    }
    if place < deep { low(rest, width) } else { rest }
}

/// The numbers of a key as one. Where they don't fit, it holds others.
pub(crate) fn list_packed(key: &[i128], width: u32) -> i128
    requires { width < 127 }
    ensures { IsPackedOf width key.now result }
{
    if key.len() < 2 {
        return number(key, 0);
    }
    let rest = list_packed(&key[1..], width);
    joined(rest, key[0], width)
}

// A number before the others.
#[inline(always)]
fn joined(high: i128, low: i128, width: u32) -> i128
    requires { width < 127 }
    ensures { (q : ℤ) → FitsSigned w128 q → high ≡ high_part width q → low ≡ low_part width q → result ≡ q }
{
    (high << width) | low
}

/// Whether a key that is packed holds these numbers.
pub(crate) fn holds_list(packed: i128, key: &[i128], deep: usize, width: u32) -> bool
    requires { width < 127 }
    ensures { result ≡ same_cells key.now (unpacked width deep packed) }
{
    if !is_next(key.len(), deep) {
        return false;
    }
    let mut rest = packed;
    for i in 0..deep {
        if !are_equal(key[i], low(rest, width)) {
            return false;
        }
        rest = high(rest, width);
    }
    are_equal(key[deep], rest)
}
