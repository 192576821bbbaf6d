//! The texts of a table's cells.
ghost use Rattle.std.specs.Prelude.{◌≡◌, ◌++◌, OnOk, decimal, codes, map};
ghost use Rattle.au_print.specs.Texts.{number_text};
ghost use Rattle.au_print.specs.Tables.{printable_byte as printable_byte_of, printable, begins_character as begins_character_of, characters as characters_of, printable_value, cell_text, triple_text};

use crate::fixed::push_fixed;
use au_annot::{Count, Triple};
use au_value::{Kind, NoMemory, Range, Value};
use itoa::Buffer;

// A control character is shown as a question mark.
fn printable_byte(byte: u8) -> u8
    ensures { result ≡ printable_byte_of byte }
{
    if byte < 0x20 || byte == 0x7F {
        b'?'
    } else {
        byte
    }
}

// Each byte of a character but its first has the form 10xxxxxx.
fn begins_character(byte: u8) -> bool
    ensures { result ≡ begins_character_of byte }
{
    byte < 0x80 || byte >= 0xC0
}

/// The number of characters.
pub fn characters(text: &[u8]) -> usize
    ensures { result ≡ characters_of text.now }
{
    let mut count = 0;
    for byte in text {
        if begins_character(*byte) {
            count += 1;
        }
    }
    count
}

/// Puts a text as it is shown behind another.
pub fn push_printable(text: &mut Vec<u8>, bytes: &[u8]) -> Result<(), NoMemory>
    ensures { OnOk result (text.new.items ≡ text.old.items ++ printable bytes.now) }
{
    for byte in bytes {
        text.push(printable_byte(*byte))?;
    }
    Ok(())
}

fn push_value(text: &mut Vec<u8>, kind: Kind, value: &Value) -> Result<(), NoMemory>
    ensures { OnOk result (text.new.items ≡ text.old.items ++ printable_value kind value.now) }
{
    match value {
        Value::Int(n) => push_number(text, kind, *n),
        Value::Text(word) => push_printable(text, word.as_str().as_bytes()),
        Value::Flag(true) => push_printable(text, b"true"),
        Value::Flag(false) => push_printable(text, b"false"),
    }
}

// No character of a number is a control character.
fn push_number(text: &mut Vec<u8>, kind: Kind, n: i128) -> Result<(), NoMemory>
    ensures { OnOk result (text.new.items ≡ text.old.items ++ printable (number_text kind n)) }
{
    match kind {
        Kind::Dec(scale) => push_fixed(text, n, scale),
        Kind::Int | Kind::Text | Kind::Flag => {
            let mut buffer = Buffer::new();
            push_printable(text, buffer.format(n).as_bytes())
        }
    }
}

/// Puts the value of a certain range of a column of this kind behind a text, and else its three values.
pub fn push_cell(text: &mut Vec<u8>, kind: Kind, range: &Range) -> Result<(), NoMemory>
    ensures { OnOk result (text.new.items ≡ text.old.items ++ cell_text kind range.now) }
{
    if range.is_certain() {
        return push_value(text, kind, range.sg());
    }
    text.push(b'[')?;
    push_value(text, kind, range.lo())?;
    text.push(b'/')?;
    push_value(text, kind, range.sg())?;
    text.push(b'/')?;
    push_value(text, kind, range.hi())?;
    text.push(b']')?;
    Ok(())
}

fn push_count(text: &mut Vec<u8>, count: Count) -> Result<(), NoMemory>
    ensures { OnOk result (text.new.items ≡ text.old.items ++ decimal count) }
{
    let mut buffer = Buffer::new();
    text.extend_from_slice(buffer.format(count.get()).as_bytes())?;
    Ok(())
}

/// Puts the three counts behind a text.
pub fn push_triple(text: &mut Vec<u8>, triple: Triple) -> Result<(), NoMemory>
    ensures { OnOk result (text.new.items ≡ text.old.items ++ triple_text triple) }
{
    push_count(text, triple.least())?;
    text.push(b'/')?;
    push_count(text, triple.guess())?;
    text.push(b'/')?;
    push_count(text, triple.most())
}
