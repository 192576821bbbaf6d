//! Rows that a plan has written out, as a batch.
ghost use Rattle.std.specs.Prelude.{◌≡◌, IfOk, Some, map};
ghost use Rattle.au_codes.specs.Careful.{fitting};
ghost use Rattle.au_codes.specs.CellMeaning.{cell, cell_in};
ghost use Rattle.au_vector.specs.Widths.{HaveWidth};

use au_columns::{Batch, Column};
use au_plain::PRow;
use au_value::{NoMemory, Value};
use std::alloc::Global;

/// The cells of rows of a width.
pub(crate) fn written(alloc: Global, width: usize, rows: &[PRow]) -> Result<Batch, NoMemory>
    requires { HaveWidth width (map (λ row. row.items) rows.now) }
    ensures { IfOk result (λ b. b ≡ map (map cell) (map (λ row. row.items) rows.now)) }
{
    let mut batch = Batch::new(alloc, rows.len());
    for place in 0..width {
        let column = column_at(alloc, rows, place)?;
        batch = batch.with_column(alloc, column)?;
    }
    Ok(batch)
}

// The cells of one place.
fn column_at(alloc: Global, rows: &[PRow], place: usize) -> Result<Column, NoMemory>
    ensures { IfOk result (λ c. c ≡ map (λ row. cell_in (map cell row.items) place) rows.now) }
{
    let mut column = Column::new(alloc);
    for row in rows {
        column.push(alloc, cell_at(row, place))?;
    }
    Ok(column)
}

// The cell of a place, and 0 past the last.
fn cell_at(row: &[Value], place: usize) -> i128
    ensures { result ≡ cell_in (map cell row.now) place }
{
    match row.get(place) {
        Some(value) => number(value),
        None => 0,
    }
}

// The number of a value that stands in a plan over cells.
fn number(value: &Value) -> i128
    ensures { result ≡ cell value.now }
{
    match value {
        Value::Int(number) => *number,
        Value::Text(_) => 0,
        Value::Flag(flag) => *flag as i128,
    }
}
