//! The number of a text, and the text of a number.
ghost use Rattle.std.specs.Prelude.{◌≡◌, ◌<◌, ◌≤◌, ◌+◌, ◌++◌, ◌*◌, ◌^◌, [], IfOk, OnOk, pos, take};
ghost use Rattle.au_codes.specs.Decoding.{decoded_text, text_of as text_by_tag, text_or_none, unpacked};
ghost use Rattle.au_codes.specs.TextCodes.{short_number, tag as tag_in, text_number};

use crate::book::Codebook;
use crate::packing::{pack, unpack};
use au_value::{NoMemory, Word};
use std::alloc::Global;
use std::str;

// How many tags there are.
const TAGS: u128 = 2147483648;

/// The number of a text. Of a long one that the book doesn't have it says nothing.
pub fn code_text(book: &Codebook, word: &Word) -> i128
    ensures { result ≡ pos (text_number book.now word.now) }
{
    joined(pack(word.as_str().as_bytes()), tag(book, word))
}

/// The number of a text of at most 12 bytes, for which no book is needed.
pub fn code_short(text: &[u8]) -> Option<i128>
    ensures { result ≡ short_number text.now }
{
    if text.len() > 12 {
        return None;
    }
    Some(joined(pack(text), text.len()))
}

// What tells apart the texts whose first 12 bytes are alike.
fn tag(book: &Codebook, word: &Word) -> usize
    ensures is { result ≡ tag_in book.now word.now }
    ensures small { result < 2 ^ 31 }
{
    let length = word.as_str().len();
    if length <= 12 {
        return length;
    }
    13 + book.below(word)
}

// Bytes and a tag as one number.
fn joined(front: u128, tag: usize) -> i128
    requires front { front < 2 ^ 96 }
    requires tag { tag < 2 ^ 31 }
    ensures { result ≡ pos (front * 2 ^ 31 + tag) }
{
    (front * TAGS + tag as u128) as i128
}

/// The text of a number, and the empty text where it is that of none.
pub fn decode_text(alloc: Global, book: &Codebook, number: i128) -> Result<Word, NoMemory>
    ensures { IfOk result (λ w. w ≡ decoded_text book.now number) }
{
    if number < 0 {
        return Word::of(alloc, "");
    }
    let number = number as u128;
    text_of(alloc, book, number / TAGS, (number % TAGS) as usize)
}

// The text of 12 bytes and a tag.
fn text_of(alloc: Global, book: &Codebook, front: u128, tag: usize) -> Result<Word, NoMemory>
    ensures { IfOk result (λ w. w ≡ text_by_tag book.now front tag) }
{
    if tag <= 12 {
        return short_text(alloc, front, tag);
    }
    match book.text(tag - 13) {
        Some(word) => word.copy(),
        None => Word::of(alloc, ""),
    }
}

// The text of the first of 12 bytes, if they are one.
fn short_text(alloc: Global, front: u128, length: usize) -> Result<Word, NoMemory>
    requires { length ≤ 12 }
    ensures { IfOk result (λ w. w ≡ text_or_none (take length (unpacked 12 front []))) }
{
    let bytes = unpack(front);
    match str::from_utf8(&bytes[..length]) {
        Ok(text) => Word::of(alloc, text),
        Err(_) => Word::of(alloc, ""),
    }
}

/// Puts the bytes of a number's text behind others, and none where it is that of no text.
pub fn push_text(room: &mut Vec<u8>, book: &Codebook, number: i128) -> Result<(), NoMemory>
    ensures { OnOk result (room.new.items ≡ room.old.items ++ decoded_text book.now number) }
{
    if number < 0 {
        return Ok(());
    }
    let number = number as u128;
    push_text_of(room, book, number / TAGS, (number % TAGS) as usize)
}

// The same of the text of 12 bytes and a tag.
fn push_text_of(
    room: &mut Vec<u8>,
    book: &Codebook,
    front: u128,
    tag: usize,
) -> Result<(), NoMemory>
    ensures { OnOk result (room.new.items ≡ room.old.items ++ text_by_tag book.now front tag) }
{
    if tag <= 12 {
        return push_short(room, front, tag);
    }
    match book.text(tag - 13) {
        Some(word) => push_bytes(room, word.as_str().as_bytes()),
        None => Ok(()),
    }
}

// The same of the first of 12 bytes, if they are a text.
fn push_short(room: &mut Vec<u8>, front: u128, length: usize) -> Result<(), NoMemory>
    requires { length ≤ 12 }
    ensures { OnOk result (room.new.items ≡ room.old.items ++ text_or_none (take length (unpacked 12 front []))) }
{
    let bytes = unpack(front);
    match str::from_utf8(&bytes[..length]) {
        Ok(text) => push_bytes(room, text.as_bytes()),
        Err(_) => Ok(()),
    }
}

// Puts bytes behind others.
fn push_bytes(room: &mut Vec<u8>, bytes: &[u8]) -> Result<(), NoMemory>
    ensures { OnOk result (room.new.items ≡ room.old.items ++ bytes.now) }
{
    room.extend_from_slice(bytes)?;
    Ok(())
}
