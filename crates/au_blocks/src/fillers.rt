//! The columns of a table that is read in one pass.
ghost use Rattle.std.specs.Prelude.{◌≡◌, ℕ, List, [], true, false, length, map, IfOk};
ghost use Rattle.std.specs.List.{All, list_all};
ghost use Rattle.au_csv.specs.Texts.{Record};
ghost use Rattle.au_blocks.specs.Columns.{alternatives_of, is_wide};
ghost use Rattle.au_blocks.specs.Headers.{has_copies};
ghost use Rattle.au_blocks.specs.OnePass.{are_values, columns_over, filled, with_row};

use crate::alternatives::Alternatives;
use crate::cells::Cells;
use crate::fields::cell_text;
use crate::filler::Filler;
use crate::format::Format;
use au_csv::Rec;
use au_value::{Kind, NoMemory};
use std::alloc::Global;

/// Fillers without cells, of these kinds.
pub(crate) fn fillers(alloc: Global, kinds: &[Kind], room: usize) -> Result<Vec<Filler>, NoMemory>
    ensures { IfOk result (λ v. v.items ≡ map (λ k. filled k []) kinds.now) }
{
    let mut columns = Vec::with_capacity(alloc, kinds.len())?;
    for kind in kinds {
        columns.push(Filler::new(alloc, *kind, room)?)?;
    }
    Ok(columns)
}

/// Puts the cells of a record behind those of the columns, unless one is no value of its column's kind, or none of 64 bits.
pub(crate) fn push_row(
    alloc: Global,
    columns: &mut [Filler],
    format: Format,
    record: &Rec<'_>,
) -> Result<bool, NoMemory>
    ensures cells { IfOk result (λ fits. fits ≡ true → columns.new ≡ with_row format «record».now 0 columns.old) }
    ensures values { IfOk result (λ fits. fits ≡ true → are_values format «record».now 0 (map (λ c. c.kind) columns.old) ≡ true) }
{
    for place in 0..columns.len() {
        if !columns[place].push(alloc, cell_text(format, record, place))? {
            return Ok(false);
        }
    }
    Ok(true)
}

/// The alternatives whose cells these are.
pub(crate) fn filled_alternatives(
    alloc: Global,
    columns: Vec<Filler>,
    count: usize,
) -> Result<Alternatives, NoMemory>
    requires { All (λ c. length c.cells ≡ count) columns.items }
    ensures { (f : Format) (kinds : List Kind) (rows : List Record) → has_copies f ≡ false → columns.items ≡ columns_over f rows 0 kinds → length rows ≡ count → list_all (is_wide f (length kinds)) rows ≡ true → IfOk result (λ a. a ≡ alternatives_of f kinds rows) }
{
    let cells = all_cells(alloc, columns)?;
    Ok(Alternatives::of(cells, Vec::new(alloc), count))
}

// The cells of each column.
fn all_cells(alloc: Global, columns: Vec<Filler>) -> Result<Vec<Cells>, NoMemory>
    ensures { IfOk result (λ v. v.items ≡ map (λ c. c.cells) columns.items) }
{
    let mut cells = Vec::with_capacity(alloc, columns.len())?;
    for column in columns {
        cells.push(column.into_cells())?;
    }
    Ok(cells)
}
