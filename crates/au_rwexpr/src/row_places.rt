//! Lists of places in a row.
ghost use Rattle.std.specs.Prelude.{◌≡◌, ◌+◌, ◌*◌, ◌<◌, ◌^◌, ◌++◌, IfOk, OnOk};
ghost use Rattle.au_rwexpr.specs.Cells.{cell_places, three_places};

use crate::range_columns::RangeColumns;
use au_value::NoMemory;

/// Adds the three places of a range.
pub fn push_three(places: &mut Vec<usize>, columns: RangeColumns) -> Result<(), NoMemory>
    ensures { OnOk result (places.new.items ≡ places.old.items ++ three_places columns.first) }
{
    places.push(columns.first)?;
    places.push(columns.first + 1)?;
    places.push(columns.first + 2)?;
    Ok(())
}

/// Adds the places of so many ranges from one on.
pub fn push_cells(places: &mut Vec<usize>, from: usize, columns: usize) -> Result<(), NoMemory>
    requires { from + 3 * columns < 2 ^ 64 }
    ensures { OnOk result (places.new.items ≡ places.old.items ++ cell_places from columns) }
{
    let mut place = from;
    let mut left = columns;
    while left > 0 {
        push_three(places, RangeColumns::at(place)?)?;
        place += 3;
        left -= 1;
    }
    Ok(())
}

/// The three columns behind others. `NoMemory` comes where a row cannot have so many.
pub fn behind(columns: RangeColumns) -> Result<RangeColumns, NoMemory>
    ensures { IfOk result (λ r. r.first ≡ columns.first + 3) }
{
    match columns.first.checked_add(3) {
        Some(place) => RangeColumns::at(place),
        None => Err(NoMemory),
    }
}
