//! The encoded rows of a block table.
ghost use Rattle.std.specs.Prelude.{◌≡◌, ◌<◌, ◌++◌, ◌∷◌, [], IsTrue, IfOk, OnOk, List, length, map, true};
ghost use Rattle.std.specs.List.{AllByRecursion, list_all};
ghost use Rattle.au_value.specs.declared.kinds.Kind.{Kind};
ghost use Rattle.au_expr.specs.Figures.{fit};
ghost use Rattle.au_expr.specs.Numbers.{number_if_any};
ghost use Rattle.au_blocks.specs.Scalars.{scalar_value};
ghost use Rattle.au_blocks.specs.Tables.{IsBlockTable, column_kinds, fits_kinds, table};
ghost use Rattle.au_algebra.specs.Entries.{entry};
ghost use Rattle.au_plain.specs.PlanKinds.{FitRows, HaveKinds, row_fits};
ghost use Rattle.au_encode.specs.Encode.{AreEncoded, encode, encode_cells, encode_row, encoded_kinds};
ghost use Rattle.au_translate.specs.Translate.{bounded_blocks, bounded_table, candidate_cell, marked_or_first as marked_or_first_of, ranges_of, span_in};

use crate::bounds::{greatest_end, guess, least_end, marked_or_first, triple};
use au_annot::Triple;
use au_blocks::{Alternative, Block, Blocks, Column, Scalar, Table};
use au_encode::{empty_row, push_counts};
use au_plain::PRow;
use au_value::{NoMemory, Value};
use std::alloc::Global;

/// The encoded rows of the table's bounded relation, in block order: per column least, guess and greatest, then the three
/// counts of the triple (see [`bounded`](crate::bounded)).
///
/// The relation itself is not made. It takes time linear in the table's cells, and copies three values a cell of a row
/// that it makes; of a block of one alternative no value is compared.
pub fn encoded(alloc: Global, table: &Table) -> Result<Vec<PRow>, NoMemory>
    ensures rows { IfOk result (λ rows. map (λ row. row.items) rows.items ≡ encode (bounded_table table.now)) }
    ensures encodings { IfOk result (λ rows. AreEncoded (length table.now.columns) (map (λ row. row.items) rows.items)) }
    ensures kinds { IfOk result (λ rows. HaveKinds (encoded_kinds (column_kinds table.now)) (map (λ row. row.items) rows.items)) }
    ensures fit { IfOk result (λ rows. FitRows (map (λ row. row.items) rows.items)) }
{
    encoded_blocks(alloc, table.columns(), &table.blocks())
}

// The same of some blocks of a table of these columns.
fn encoded_blocks(
    alloc: Global,
    columns: &[Column],
    blocks: &Blocks<'_>,
) -> Result<Vec<PRow>, NoMemory>
    requires { IsBlockTable (table columns.now blocks.now) }
    ensures rows { IfOk result (λ rows. map (λ row. row.items) rows.items ≡ encode (bounded_blocks blocks.now)) }
    ensures encodings { IfOk result (λ rows. AreEncoded (length columns.now) (map (λ row. row.items) rows.items)) }
    ensures kinds { IfOk result (λ rows. HaveKinds (encoded_kinds (column_kinds (table columns.now blocks.now))) (map (λ row. row.items) rows.items)) }
    ensures fit { IfOk result (λ rows. FitRows (map (λ row. row.items) rows.items)) }
{
    let mut rows = Vec::with_capacity(alloc, blocks.len())?;
    for place in 0..blocks.len() {
        push_block(alloc, &mut rows, &blocks.get(place))?;
    }
    Ok(rows)
}

// A block's row behind the others, unless it has no copies in any world.
fn push_block(alloc: Global, rows: &mut Vec<PRow>, block: &Block<'_>) -> Result<(), NoMemory>
    requires { (ks : List Kind) × IsTrue (list_all (λ a. fits_kinds ks a.cells) block.now.alternatives) }
    ensures rows { OnOk result (map (λ row. row.items) rows.new.items ≡ map (λ row. row.items) rows.old.items ++ encode (bounded_blocks (block.now ∷ []))) }
    ensures fit { OnOk result (FitRows (map (λ row. row.items) rows.old.items) → FitRows (map (λ row. row.items) rows.new.items)) }
{
    let triple = triple(block);
    if triple.most().get() == 0 {
        return Ok(());
    }
    rows.push(encoded_row(alloc, block, triple)?)?;
    Ok(())
}

// The encoded row of a block's ranges with a triple.
fn encoded_row(alloc: Global, block: &Block<'_>, triple: Triple) -> Result<PRow, NoMemory>
    requires { (ks : List Kind) × IsTrue (list_all (λ a. fits_kinds ks a.cells) block.now.alternatives) }
    ensures row { IfOk result (λ row. row.items ≡ encode_row (entry (ranges_of block.now) triple)) }
    ensures fits { IfOk result (λ row. row_fits row.items ≡ true) }
{
    let shown = marked_or_first(block);
    let mut row = empty_row(alloc, shown.width())?;
    for at in 0..shown.width() {
        push_column(&mut row, block, at, &shown)?;
    }
    push_counts(&mut row, triple)?;
    Ok(row)
}

// The range of a column behind a row of a block, of which this alternative is shown.
fn push_column<'a>(
    row: &mut PRow,
    block: &Block<'a>,
    at: usize,
    shown: &Alternative<'a>,
) -> Result<(), NoMemory>
    requires wide { AllByRecursion (λ a. at < length a.cells) block.now.alternatives }
    requires shown { shown.now ≡ marked_or_first_of block.now }
    requires within { at < length shown.now.cells }
    ensures row { OnOk result (row.new.items ≡ row.old.items ++ encode_cells (span_in block.now.alternatives at (candidate_cell at shown.now).sg ∷ [])) }
    ensures fits { OnOk result (row_fits row.old.items ≡ true → row_fits row.new.items ≡ true) }
{
    row.push(copied(least_end(block, at, shown))?)?;
    row.push(copied(guess(shown, at))?)?;
    row.push(copied(greatest_end(block, at, shown))?)?;
    Ok(())
}

/// A copy of a value. Its number, if it is one, lies in the range of its type.
pub(crate) fn copied(value: Scalar<'_>) -> Result<Value, NoMemory>
    ensures value { IfOk result (λ v. v ≡ scalar_value value.entry) }
    ensures fits { IfOk result (λ v. fit (number_if_any v) ≡ true) }
{
    match value {
        Scalar::Int(n) => Ok(Value::Int(n)),
        Scalar::Text(_) | Scalar::Flag(_) => value.to_value(),
    }
}
