//! Texts as cells of their columns.
ghost use Rattle.std.specs.Prelude.{◌≡◌, true, unwrap_or, IfOk};
ghost use Rattle.au_blocks.specs.Read.{cell as cell_of};
ghost use Rattle.au_blocks.specs.Spellings.{is_number_kind, range_written as range_written_of};
ghost use Rattle.au_value.specs.Ranges.{certain};

use crate::cell::Cell;
use crate::spellings::{flag_written, number_written, range_written};
use au_value::{Kind, NoMemory, Value, Word};
use std::alloc::Global;

// The cell of a text: of the value that it writes, or else the range. Where it writes neither, it stays a text.
pub(crate) fn cell(alloc: Global, kind: Kind, text: &str) -> Result<Cell, NoMemory>
    ensures { IfOk result (λ c. c ≡ cell_of (kind, text.now)) }
{
    match kind {
        Kind::Text => text_cell(alloc, text),
        Kind::Flag => truth(alloc, text),
        Kind::Int | Kind::Dec(_) => number(alloc, kind, text),
    }
}

fn text_cell(alloc: Global, text: &str) -> Result<Cell, NoMemory>
    ensures { IfOk result (λ c. c ≡ certain (Value.Text text.now)) }
{
    Ok(Cell::certain(Value::Text(Word::of(alloc, text)?)))
}

fn truth(alloc: Global, text: &str) -> Result<Cell, NoMemory>
    ensures { IfOk result (λ c. c ≡ cell_of (Kind.Flag, text.now)) }
{
    match flag_written(text) {
        Some(truth) => Ok(Cell::certain(Value::Flag(truth))),
        None => text_cell(alloc, text),
    }
}

// The cell of a text in a column of numbers.
fn number(alloc: Global, kind: Kind, text: &str) -> Result<Cell, NoMemory>
    requires { is_number_kind kind ≡ true }
    ensures { IfOk result (λ c. c ≡ cell_of (kind, text.now)) }
{
    match number_written(kind, text) {
        Some(number) => Ok(Cell::certain(Value::Int(number))),
        None => ranged(alloc, kind, text),
    }
}

// The cell of a text in a column of numbers that writes no number.
fn ranged(alloc: Global, kind: Kind, text: &str) -> Result<Cell, NoMemory>
    ensures { IfOk result (λ c. c ≡ unwrap_or (range_written_of kind text.now) (certain (Value.Text text.now))) }
{
    match range_written(kind, text) {
        Some(range) => Cell::between(alloc, range),
        None => text_cell(alloc, text),
    }
}
