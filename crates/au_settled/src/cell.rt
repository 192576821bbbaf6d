//! The numbers of rows.
ghost use Rattle.std.specs.Prelude.{◌≡◌, [], get_or};
ghost use Rattle.au_codes.specs.CellMeaning.{cell_in};

use au_columns::Batch;

/// The number of a row in a column, and 0 past the last row or column.
#[inline(always)]
pub(crate) fn cell(rows: &Batch, row: usize, place: usize) -> i128
    ensures { result ≡ cell_in (get_or rows.now row []) place }
{
    if row < rows.len() {
        rows.cell(row, place)
    } else {
        0
    }
}
