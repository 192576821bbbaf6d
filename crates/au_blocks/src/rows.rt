//! The alternatives of records, made a column at a time.
ghost use Rattle.std.specs.Prelude.{◌≡◌, true, length, map, IfOk};
ghost use Rattle.std.specs.List.{list_all};
ghost use Rattle.au_blocks.specs.Columns.{all_cells, all_copies, alternatives_of, is_wide, places_from};
ghost use Rattle.au_blocks.specs.Entries.{copies_in};
ghost use Rattle.au_blocks.specs.Order.{lent_records};

use crate::alternatives::Alternatives;
use crate::cells::Cells;
use crate::column::Column;
use crate::filling::filled;
use crate::format::Format;
use crate::row_faults::times_in;
use crate::times::Times;
use au_csv::Rec;
use au_value::{Kind, NoMemory};
use std::alloc::Global;

// A column's place, and the kind of its values.
#[derive(Clone, Copy)]
struct Place {
    place: usize,
    kind: Kind,
}

// The alternatives of records below a header of these columns.
pub(crate) fn alternatives(
    alloc: Global,
    format: Format,
    columns: &[Column],
    records: &[&Rec<'_>],
) -> Result<Alternatives, NoMemory>
    requires { list_all (is_wide format (length columns.now)) (lent_records records.now) ≡ true }
    ensures { IfOk result (λ a. a ≡ alternatives_of format (map (λ c. c.kind) columns.now) (lent_records records.now)) }
{
    let places = places(alloc, columns)?;
    let cells = all_filled(alloc, format, &places, records)?;
    let times = all_times(alloc, format, records)?;
    Ok(Alternatives::of(cells, times, records.len()))
}

// The places and the kinds of columns.
fn places(alloc: Global, columns: &[Column]) -> Result<Vec<Place>, NoMemory>
    ensures { IfOk result (λ v. v.items ≡ places_from 0 (map (λ c. c.kind) columns.now)) }
{
    let mut places = Vec::with_capacity(alloc, columns.len())?;
    for place in 0..columns.len() {
        places.push(Place {
            place,
            kind: columns[place].kind,
        })?;
    }
    Ok(places)
}

// The cells of these columns.
fn all_filled(
    alloc: Global,
    format: Format,
    places: &[Place],
    records: &[&Rec<'_>],
) -> Result<Vec<Cells>, NoMemory>
    ensures { IfOk result (λ v. v.items ≡ all_cells format records.now places.now) }
{
    let mut columns = Vec::with_capacity(alloc, places.len())?;
    for at in places {
        columns.push(filled(alloc, format, at.kind, at.place, records)?)?;
    }
    Ok(columns)
}

// The numbers of copies of records, and none where their format has none.
fn all_times(alloc: Global, format: Format, records: &[&Rec<'_>]) -> Result<Vec<Times>, NoMemory>
    ensures { IfOk result (λ v. v.items ≡ all_copies format records.now) }
{
    if format.has_copies() {
        return listed_times(alloc, format, records);
    }
    Ok(Vec::new(alloc))
}

// The numbers of copies of records.
fn listed_times(alloc: Global, format: Format, records: &[&Rec<'_>]) -> Result<Vec<Times>, NoMemory>
    ensures { IfOk result (λ v. v.items ≡ map (λ r. copies_in format r.now) records.now) }
{
    let mut times = Vec::with_capacity(alloc, records.len())?;
    for record in records {
        times.push(times_in(format, record))?;
    }
    Ok(times)
}
