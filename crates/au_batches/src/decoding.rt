//! The relation that the rows of a batch stand for.
ghost use Rattle.std.specs.Prelude.{◌≡◌, ◌<◌, ◌^◌, IfOk, length, map};
ghost use Rattle.au_algebra.specs.Entries.{entry};
ghost use Rattle.au_codes.specs.Decoding.{decoded_row};
ghost use Rattle.au_encode.specs.Encode.{AreEncoded, IsEncoded, decode, decode_row};

use crate::coded_row::CodedRow;
use au_algebra::Rel;
use au_annot::Triple;
use au_codes::Codebook;
use au_columns::Batch;
use au_value::{Kind, NoMemory, Range};
use std::alloc::Global;

/// The relation that the rows of a batch encode, where their numbers stand for values of these kinds, each row with so many
/// columns, in their order. A row takes one allocation, and one for each long text.
pub fn decoded(
    alloc: Global,
    book: &Codebook,
    kinds: &[Kind],
    batch: &Batch,
    columns: usize,
) -> Result<Rel<Range, Triple>, NoMemory>
    requires { AreEncoded columns (map (decoded_row book.now kinds.now) batch.now) }
    ensures { IfOk result (λ rel. rel ≡ decode columns (map (decoded_row book.now kinds.now) batch.now)) }
{
    let mut rel = Rel {
        rows: Vec::with_capacity(alloc, batch.len())?,
    };
    for place in 0..batch.len() {
        let row = CodedRow::of(book, kinds, batch, place);
        let (cells, triple) = decoded_entry(alloc, &row, columns)?;
        rel.push(cells, triple)?;
    }
    Ok(rel)
}

// The ranges and the triple that a row encodes.
fn decoded_entry(
    alloc: Global,
    row: &CodedRow<'_>,
    columns: usize,
) -> Result<(Vec<Range>, Triple), NoMemory>
    requires encoded { IsEncoded columns row.now }
    requires few { length row.now < 2 ^ 64 }
    ensures { IfOk result (λ r. entry r.0.items r.1 ≡ decode_row columns row.now) }
{
    let cells = row.ranges(alloc, columns)?;
    Ok((cells, row.triple(columns)))
}
