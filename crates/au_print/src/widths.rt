//! The widths of a table's columns.
ghost use Rattle.std.specs.Prelude.{◌≡◌, OnOk, IfOk, map, max, length, fold, codes};
ghost use Rattle.au_algebra.specs.Entries.{entry};
ghost use Rattle.au_print.specs.Tables.{printable, characters as characters_of, widened, cell_texts, triple_text, column_widths, triple_width, widened_at};

use crate::cells::{characters, push_cell, push_triple};
use au_annot::Triple;
use au_value::{Kind, NoMemory, Range, Word};
use std::alloc::Global;

/// A column for each name, and last the one of multiplicities.
#[derive(Drop)]
pub struct Widths {
    pub columns: Vec<usize>,
    pub row: usize,
}

/// Each width is the greatest number of characters of a column's texts.
pub fn measure(
    alloc: Global,
    names: &[Word],
    kinds: &[Kind],
    rows: &[(Vec<Range>, Triple)],
) -> Result<Widths, NoMemory>
    ensures columns { IfOk result (λ w. w.columns.items ≡ column_widths names.now kinds.now (map (λ r. entry r.0.items r.1) rows.now)) }
    ensures row { IfOk result (λ w. w.row ≡ triple_width (map (λ r. entry r.0.items r.1) rows.now)) }
{
    let mut columns = name_widths(alloc, names)?;
    let mut row = 3;
    let mut text = Vec::new(alloc);
    for (ranges, triple) in rows {
        widen(&mut columns, &mut text, kinds, ranges.as_slice())?;
        text.clear();
        push_triple(&mut text, *triple)?;
        row = row.max(characters(text.as_slice()));
    }
    Ok(Widths { columns, row })
}

// The widths of the header's texts.
fn name_widths(alloc: Global, names: &[Word]) -> Result<Vec<usize>, NoMemory>
    ensures { IfOk result (λ w. w.items ≡ map (λ n. characters_of (printable n)) names.now) }
{
    let mut widths = Vec::new(alloc);
    for name in names {
        widths.push(characters(name.as_str().as_bytes()))?;
    }
    Ok(widths)
}

// Widens columns to a row's texts, each made in the memory of one.
fn widen(
    columns: &mut Vec<usize>,
    text: &mut Vec<u8>,
    kinds: &[Kind],
    ranges: &[Range],
) -> Result<(), NoMemory>
    ensures { OnOk result (columns.new.items ≡ widened columns.old.items (cell_texts kinds.now ranges.now)) }
{
    for (i, range) in ranges.iter().enumerate() {
        if let Some(kind) = kinds.get(i) {
            text.clear();
            push_cell(text, *kind, range)?;
            let width = characters(text.as_slice());
            widen_at(columns, i, width);
        }
    }
    Ok(())
}

// Widens one column, if there is one at this place.
fn widen_at(columns: &mut Vec<usize>, i: usize, width: usize)
    ensures { columns.new.items ≡ widened_at columns.old.items i width }
{
    if i < columns.len() && columns[i] < width {
        columns[i] = width;
    }
}
