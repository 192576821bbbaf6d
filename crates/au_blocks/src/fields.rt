//! The fields of a record below the header.
ghost use Rattle.std.specs.Prelude.{◌≡◌, length};
ghost use Rattle.au_blocks.specs.Entries.{field as field_of};
ghost use Rattle.au_blocks.specs.Headers.{cells_of};

use crate::format::Format;
use au_csv::Rec;

// The field of a record at a place, empty where there is none.
pub(crate) fn field<'a>(record: &Rec<'a>, place: usize) -> &'a str
    ensures { result.now ≡ field_of place «record».now }
{
    match record.get(place) {
        Some(text) => text,
        None => "",
    }
}

// How many cells a record has.
pub(crate) fn cell_count(format: Format, record: &Rec<'_>) -> usize
    ensures { result ≡ length (cells_of format «record».now) }
{
    record.len().saturating_sub(format.lead())
}

// The text of the cell at a place, empty where there is none.
pub(crate) fn cell_text<'a>(format: Format, record: &Rec<'a>, place: usize) -> &'a str
    ensures { result.now ≡ field_of place (cells_of format «record».now) }
{
    let lead = format.lead();
    if place < record.len().saturating_sub(lead) {
        field(record, lead + place)
    } else {
        ""
    }
}
