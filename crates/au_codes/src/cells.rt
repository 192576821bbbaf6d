//! The number that stands for a value, and the value of a number.
ghost use Rattle.std.specs.Prelude.{◌≡◌, IfOk, length};
ghost use Rattle.au_codes.specs.Codes.{code as code_in, coded_row, flag as flag_of};
ghost use Rattle.au_codes.specs.Decoding.{decoded, decoded_row};
ghost use Rattle.au_codes.specs.TextCodes.{text_code};

use crate::book::Codebook;
use crate::text_codes::{code_text, decode_text};
use au_plain::PRow;
use au_value::{Kind, NoMemory, Value};
use std::alloc::Global;

/// The number that stands for a value. Of a long text that the book doesn't have it says nothing.
pub fn code(book: &Codebook, value: &Value) -> i128
    ensures { result ≡ code_in (text_code book.now) value.now }
{
    match value {
        Value::Int(number) => *number,
        Value::Text(word) => code_text(book, word),
        Value::Flag(flag) => flag_number(*flag),
    }
}

// 1 for true, and 0 for false.
fn flag_number(flag: bool) -> i128
    ensures { result ≡ flag_of flag }
{
    if flag { 1 } else { 0 }
}

/// The cells of a row.
pub fn code_row(alloc: Global, book: &Codebook, row: &[Value]) -> Result<Vec<i128>, NoMemory>
    ensures { IfOk result (λ cells. cells.items ≡ coded_row (text_code book.now) row.now) }
{
    let mut cells = Vec::with_capacity(alloc, row.len())?;
    for value in row {
        cells.push(code(book, value))?;
    }
    Ok(cells)
}

/// The value of a kind that a number stands for: at `Text` the empty text where it is the number of none.
pub fn decode(alloc: Global, book: &Codebook, kind: Kind, number: i128) -> Result<Value, NoMemory>
    ensures { IfOk result (λ v. v ≡ decoded book.now kind number) }
{
    match kind {
        Kind::Text => Ok(Value::Text(decode_text(alloc, book, number)?)),
        Kind::Flag => Ok(Value::Flag(number != 0)),
        _ => Ok(Value::Int(number)),
    }
}

/// The row of these kinds that cells stand for.
pub fn decode_row(
    alloc: Global,
    book: &Codebook,
    kinds: &[Kind],
    cells: &[i128],
) -> Result<PRow, NoMemory>
    requires { length cells.now ≡ length kinds.now }
    ensures { IfOk result (λ row. row.items ≡ decoded_row book.now kinds.now cells.now) }
{
    let mut row = Vec::with_capacity(alloc, kinds.len())?;
    for place in 0..kinds.len() {
        row.push(decode(alloc, book, kinds[place], cells[place])?)?;
    }
    Ok(row)
}
