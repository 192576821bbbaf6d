//! Columns of numbers that are made of lists, one item for each alternative of a table.
ghost use Rattle.std.specs.Prelude.{◌≡◌, ◌<◌, IfOk, length, map};
ghost use Rattle.std.specs.List.{All};
ghost use Rattle.au_value.specs.declared.value.Value.TheVariants as value;
ghost use Rattle.au_value.specs.Ranges.{greater as greater_of, lesser as lesser_of};
ghost use Rattle.au_algebra.specs.Lists.{greatest as greatest_of, least as least_of};
ghost use Rattle.au_codes.specs.Codes.{code as code_in};
ghost use Rattle.au_codes.specs.TextCodes.{text_code};
ghost use Rattle.au_batches.specs.Listed.{IsListed, listed_value, once_count, own as own_of};

use au_blocks::Extent;
use au_codes::{Codebook, code_text};
use au_value::{NoMemory, Word};
use std::alloc::Global;

/// The numbers of a part in a column of numbers: of each block the least, that of the marked alternative, or the greatest.
pub(crate) fn listed_numbers(
    alloc: Global,
    extents: &[Extent],
    numbers: &[i64],
    part: usize,
) -> Result<Vec<i64>, NoMemory>
    requires { All (IsListed numbers.now) extents.now }
    ensures { IfOk result (λ v. map value.Int v.items ≡ map (listed_value value.Int numbers.now part) extents.now) }
{
    let mut made = Vec::with_capacity(alloc, extents.len())?;
    for extent in extents {
        made.push(*listed_number(extent, numbers, part))?;
    }
    Ok(made)
}

/// The codes of a part in a column of texts, likewise.
pub(crate) fn listed_texts(
    alloc: Global,
    book: &Codebook,
    extents: &[Extent],
    texts: &[Word],
    part: usize,
) -> Result<Vec<i128>, NoMemory>
    requires { All (IsListed texts.now) extents.now }
    ensures { IfOk result (λ v. v.items ≡ map (λ e. code_in (text_code book.now) (listed_value value.Text texts.now part e)) extents.now) }
{
    let mut made = Vec::with_capacity(alloc, extents.len())?;
    for extent in extents {
        made.push(code_text(book, listed_text(extent, texts, part)))?;
    }
    Ok(made)
}

/// The counts of a number, of blocks whose alternatives stand once.
pub(crate) fn listed_counts(
    alloc: Global,
    extents: &[Extent],
    number: usize,
) -> Result<Vec<i64>, NoMemory>
    ensures { IfOk result (λ v. map value.Int v.items ≡ map (once_count number) extents.now) }
{
    let mut made = Vec::with_capacity(alloc, extents.len())?;
    for extent in extents {
        made.push(listed_count(extent, number))?;
    }
    Ok(made)
}

// The number of a part of a block.
fn listed_number<'a>(extent: &Extent, numbers: &'a [i64], part: usize) -> &'a i64
    requires { IsListed numbers.now extent.now }
    ensures { value.Int result.now ≡ listed_value value.Int numbers.now part extent.now }
{
    let own = own(extent, numbers);
    match part {
        0 => least_number(own),
        1 => &own[extent.guess.unwrap_or(0)],
        _ => greatest_number(own),
    }
}

// The text of a part of a block.
fn listed_text<'a>(extent: &Extent, texts: &'a [Word], part: usize) -> &'a Word
    requires { IsListed texts.now extent.now }
    ensures { value.Text result.now ≡ listed_value value.Text texts.now part extent.now }
{
    let words = own(extent, texts);
    match part {
        0 => least_text(words),
        1 => &words[extent.guess.unwrap_or(0)],
        _ => greatest_text(words),
    }
}

// A count of a block whose alternatives stand once.
fn listed_count(extent: &Extent, number: usize) -> i64
    ensures { value.Int result ≡ once_count number extent.now }
{
    match number {
        0 => if extent.optional { 0 } else { 1 },
        1 => match extent.guess {
            Some(_) => 1,
            None => 0,
        },
        2 => 1,
        _ => 0,
    }
}

// The items of a block.
pub(crate) fn own<'a, T>(extent: &Extent, items: &'a [T]) -> &'a [T]
    requires { IsListed items.now extent.now }
    ensures { result.now ≡ own_of items.now extent.now }
{
    let (_, others) = items.split_at(extent.first);
    let (own, _) = others.split_at(extent.count);
    own
}

// The least of some numbers.
fn least_number<'a>(numbers: &'a [i64]) -> &'a i64
    requires { 0 < length numbers.now }
    ensures { value.Int result.now ≡ least_of (map value.Int numbers.now) }
{
    let mut least = &numbers[0];
    for place in 1..numbers.len() {
        least = lesser_number(least, &numbers[place]);
    }
    least
}

// The greatest of some numbers.
fn greatest_number<'a>(numbers: &'a [i64]) -> &'a i64
    requires { 0 < length numbers.now }
    ensures { value.Int result.now ≡ greatest_of (map value.Int numbers.now) }
{
    let mut greatest = &numbers[0];
    for place in 1..numbers.len() {
        greatest = greater_number(greatest, &numbers[place]);
    }
    greatest
}

// The least of some texts.
fn least_text<'a>(texts: &'a [Word]) -> &'a Word
    requires { 0 < length texts.now }
    ensures { value.Text result.now ≡ least_of (map value.Text texts.now) }
{
    let mut least = &texts[0];
    for place in 1..texts.len() {
        least = lesser_text(least, &texts[place]);
    }
    least
}

// The greatest of some texts.
fn greatest_text<'a>(texts: &'a [Word]) -> &'a Word
    requires { 0 < length texts.now }
    ensures { value.Text result.now ≡ greatest_of (map value.Text texts.now) }
{
    let mut greatest = &texts[0];
    for place in 1..texts.len() {
        greatest = greater_text(greatest, &texts[place]);
    }
    greatest
}

// The lesser of two numbers.
fn lesser_number<'a>(a: &'a i64, b: &'a i64) -> &'a i64
    ensures { value.Int result.now ≡ lesser_of (value.Int a.now) (value.Int b.now) }
{
    if a.cmp(b).is_le() { a } else { b }
}

// The greater of two numbers.
fn greater_number<'a>(a: &'a i64, b: &'a i64) -> &'a i64
    ensures { value.Int result.now ≡ greater_of (value.Int a.now) (value.Int b.now) }
{
    if a.cmp(b).is_le() { b } else { a }
}

// The lesser of two texts.
fn lesser_text<'a>(a: &'a Word, b: &'a Word) -> &'a Word
    ensures { value.Text result.now ≡ lesser_of (value.Text a.now) (value.Text b.now) }
{
    if a.order(b).is_le() { a } else { b }
}

// The greater of two texts.
fn greater_text<'a>(a: &'a Word, b: &'a Word) -> &'a Word
    ensures { value.Text result.now ≡ greater_of (value.Text a.now) (value.Text b.now) }
{
    if a.order(b).is_le() { b } else { a }
}
