//! The rows of values that the rows of a batch stand for.
ghost use Rattle.std.specs.Prelude.{◌≡◌, ◌<◌, [], IfOk, get_or, length, map};
ghost use Rattle.std.specs.List.{AllByRecursion};
ghost use Rattle.au_codes.specs.Decoding.{decoded_row};
ghost use Rattle.au_exec.specs.HeldRows.{rows_of};

use crate::term_kinds::kind_at;
use au_codes::{Codebook, decode};
use au_columns::Batch;
use au_plain::PRow;
use au_value::{Kind, NoMemory};
use std::alloc::Global;

/// The rows for which those of a batch stand, where their numbers are those of values of these kinds. A row takes one
/// allocation, and one for each long text.
pub(crate) fn decoded_values(
    alloc: Global,
    book: &Codebook,
    kinds: &[Kind],
    batch: &Batch,
) -> Result<Vec<PRow>, NoMemory>
    requires wide { AllByRecursion (λ cells. length cells ≡ length kinds.now) batch.now }
    ensures { IfOk result (λ v. rows_of v ≡ map (decoded_row book.now kinds.now) batch.now) }
{
    let mut rows = Vec::with_capacity(alloc, batch.len())?;
    for place in 0..batch.len() {
        let row = row_values(alloc, book, kinds, batch, place)?;
        rows.push(row)?;
    }
    Ok(rows)
}

// The values of one row.
fn row_values(
    alloc: Global,
    book: &Codebook,
    kinds: &[Kind],
    batch: &Batch,
    place: usize,
) -> Result<PRow, NoMemory>
    requires within { place < length batch.now }
    requires wide { length (get_or batch.now place []) ≡ length kinds.now }
    ensures { IfOk result (λ row. row.items ≡ decoded_row book.now kinds.now (get_or batch.now place [])) }
{
    let mut row = Vec::with_capacity(alloc, kinds.len())?;
    for at in 0..kinds.len() {
        let kind = kind_at(kinds, at);
        let value = decode(alloc, book, kind, batch.cell(place, at))?;
        row.push(value)?;
    }
    Ok(row)
}
