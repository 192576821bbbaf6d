//! Rows of values as columns of numbers. No row of cells is made.
ghost use Rattle.std.specs.Prelude.{◌≡◌, IfOk, List, map};
ghost use Rattle.au_algebra.specs.Lists.{value_at as value_at_of};
ghost use Rattle.au_codes.specs.Codes.{code as code_in, coded_rows};
ghost use Rattle.au_codes.specs.TextCodes.{text_code};
ghost use Rattle.au_plain.specs.PlanKinds.{HaveKinds};
ghost use Rattle.au_value.specs.declared.kinds.Kind.{Kind as KindOf};
ghost use Rattle.au_exec.specs.HeldRows.{first_width, lent_rows};

use au_codes::{Codebook, code};
use au_columns::{Batch, Column};
use au_plain::PRow;
use au_value::{NoMemory, Value};
use std::alloc::Global;

/// The codes of some rows of the same kinds: a column of numbers for each place.
pub(crate) fn coded_values(alloc: Global, book: &Codebook, rows: &[PRow]) -> Result<Batch, NoMemory>
    requires kinds { (ks : List KindOf) × HaveKinds ks (lent_rows rows.now) }
    ensures { IfOk result (λ batch. batch ≡ coded_rows (text_code book.now) (lent_rows rows.now)) }
{
    let mut batch = Batch::new(alloc, rows.len());
    for place in 0..width(rows) {
        let column = coded_column(alloc, book, rows, place)?;
        batch = batch.with_column(alloc, column)?;
    }
    Ok(batch)
}

// How wide the first row is.
fn width(rows: &[PRow]) -> usize
    ensures { result ≡ first_width (lent_rows rows.now) }
{
    if rows.is_empty() { 0 } else { rows[0].len() }
}

// The codes of the values in a place.
fn coded_column(
    alloc: Global,
    book: &Codebook,
    rows: &[PRow],
    place: usize,
) -> Result<Column, NoMemory>
    ensures { IfOk result (λ c. c ≡ map (code_in (text_code book.now)) (map (λ row. value_at_of row place) (lent_rows rows.now))) }
{
    let mut numbers = Column::new(alloc);
    for row in rows {
        numbers.push(alloc, code_at(book, row, place))?;
    }
    Ok(numbers)
}

// The code of the value in a place of a row, and 0 past the last.
fn code_at(book: &Codebook, row: &[Value], place: usize) -> i128
    ensures { result ≡ code_in (text_code book.now) (value_at_of row.now place) }
{
    if place < row.len() {
        code(book, &row[place])
    } else {
        0
    }
}
