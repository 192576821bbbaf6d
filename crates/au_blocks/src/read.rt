//! The block table of a file's bytes.
ghost use Rattle.std.specs.Prelude.{◌≡◌, ◌<◌, ◌≤◌, ◌⊎◌, ◌∷◌, Some, Ok, Err, IfOk, IfErr, drop, length};
ghost use Rattle.au_csv.specs.Texts.{text_records};
ghost use Rattle.au_blocks.specs.Defects.{table_defects};
ghost use Rattle.au_blocks.specs.Read.{contents, first, table_of, unless};

use crate::faults::TableFault;
use crate::format::Format;
use crate::layout::layout;
use crate::one_pass::table_in_one_pass;
use crate::rows::alternatives;
use crate::schema::schema;
use crate::table::Table;
use au_csv::{Rec, records};
use au_value::Word;
use std::alloc::Global;

/// The block table of the bytes of a table file.
///
/// The first record is the header. Where it begins with `_block` and `_role`, each further record has a block's label and
/// a role, and the records of one label form a block; elsewhere each record is a block of one alternative. Where it begins
/// with `_block`, `_role` and `_times`, each alternative has numbers of copies besides, and a field of a column of numbers
/// may be a range `lo..guess..hi`. A column has the kind that is written behind its name, or else `Int` where all of its
/// fields are numerals, or `Text`. Values of a kind `Dec` are in units of its scale.
///
/// The answer is a fault exactly where the bytes are no block table, and it is the first in the order that [`TableFault`]
/// gives.
pub fn read_table(alloc: Global, bytes: &[u8]) -> Result<Table, TableFault>
    ensures table { IfOk result (λ t. table_of bytes.now ≡ Ok t) }
    ensures fault { IfErr result (λ e. (e ≡ TableFault.NoMemory) ⊎ (table_of bytes.now ≡ Err e)) }
{
    match table_in_one_pass(alloc, bytes)? {
        Some(table) => Ok(table),
        None => table_of_kept(alloc, bytes),
    }
}

// The same by way of all records, which are kept.
fn table_of_kept(alloc: Global, bytes: &[u8]) -> Result<Table, TableFault>
    ensures table { IfOk result (λ t. table_of bytes.now ≡ Ok t) }
    ensures fault { IfErr result (λ e. (e ≡ TableFault.NoMemory) ⊎ (table_of bytes.now ≡ Err e)) }
{
    let held = records(alloc, bytes)?;
    let rows = held.rows(alloc)?;
    table_of_records(alloc, rows.as_slice())
}

// The header, which is the first record.
fn header_of(alloc: Global, rows: &[Rec<'_>]) -> Result<Vec<Word>, TableFault>
    ensures header { IfOk result (λ header. rows.now ≡ header.items ∷ drop 1 rows.now) }
    ensures fault { IfErr result (λ e. (e ≡ TableFault.NoMemory) ⊎ (first (table_defects rows.now) ≡ Some e)) }
{
    let Some((header, _)) = rows.split_first() else {
        return Err(TableFault::NoHeader);
    };
    Ok(header.words(alloc)?)
}

// The records below the header.
fn below<'a, 'b>(rows: &'a [Rec<'b>]) -> &'a [Rec<'b>]
    requires { 0 < length rows.now }
    ensures { result.now ≡ drop 1 rows.now }
{
    &rows[1..]
}

// The block table of these records, the header first.
fn table_of_records(alloc: Global, rows: &[Rec<'_>]) -> Result<Table, TableFault>
    ensures table { IfOk result (λ t. unless (first (table_defects rows.now)) (contents rows.now) ≡ Ok t) }
    ensures fault { IfErr result (λ e. (e ≡ TableFault.NoMemory) ⊎ (first (table_defects rows.now) ≡ Some e)) }
{
    let header = header_of(alloc, rows)?;
    table_under(alloc, header.as_slice(), below(rows))
}

// The block table of a header and the records below it.
fn table_under(alloc: Global, header: &[Word], rows: &[Rec<'_>]) -> Result<Table, TableFault>
    ensures table { IfOk result (λ t. unless (first (table_defects (header.now ∷ rows.now))) (contents (header.now ∷ rows.now)) ≡ Ok t) }
    ensures fault { IfErr result (λ e. (e ≡ TableFault.NoMemory) ⊎ (first (table_defects (header.now ∷ rows.now)) ≡ Some e)) }
{
    let columns = schema(alloc, header, rows)?;
    let format = Format::of(header);
    let (extents, records) = layout(alloc, format, rows)?;
    let alternatives = alternatives(alloc, format, columns.as_slice(), records.as_slice())?;
    Ok(Table::of(columns, alternatives, extents))
}
