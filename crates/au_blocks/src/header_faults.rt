//! What makes a header no block table's.
ghost use Rattle.std.specs.Prelude.{◌≡◌, ◌<◌, [], length, position, slice_index_or};
ghost use Rattle.std.specs.Str.{str_eq_ignore_ascii_case};
ghost use Rattle.au_blocks.specs.Defects.{column_defects, header_defects};
ghost use Rattle.au_blocks.specs.Headers.{column_names};
ghost use Rattle.au_blocks.specs.Read.{first};

use crate::faults::TableFault;
use crate::format::Format;
use crate::header::is_unknown;
use au_value::Word;

/// The greatest number of columns.
const MAX_COLUMNS: usize = 64;

/// The greatest number of bytes of a column's name.
const MAX_NAME: usize = 128;

// The first defect of a header whose columns have these names and fields.
pub(crate) fn header_fault(format: Format, names: &[Word], fields: &[Word]) -> Option<TableFault>
    requires { names.now ≡ column_names format fields.now }
    ensures { result ≡ first (header_defects format fields.now) }
{
    if fields.len() > MAX_COLUMNS {
        return Some(TableFault::TooManyColumns);
    }
    for place in 0..fields.len() {
        if let Some(fault) = column_fault(format, names, place, fields[place].as_str()) {
            return Some(fault);
        }
    }
    None
}

// The first defect of the column at a place, which has this header field.
fn column_fault(format: Format, names: &[Word], place: usize, field: &str) -> Option<TableFault>
    requires { place < length names.now }
    ensures { result ≡ first (column_defects format names.now (place, slice_index_or names.now place [], field.now)) }
{
    let name = names[place].as_str();
    if name.len() > MAX_NAME {
        return Some(TableFault::BadColumnName(place));
    }
    if is_unknown(format, field) {
        return Some(TableFault::UnknownKind(place));
    }
    match same_name(&names[..place], name) {
        Some(other) => Some(TableFault::SameName(other, place)),
        None => None,
    }
}

// The first of these names that is the same, ignoring ASCII case.
fn same_name(names: &[Word], name: &str) -> Option<usize>
    ensures { result ≡ position (λ other. str_eq_ignore_ascii_case other name.now) names.now }
{
    names
        .iter()
        .position(|other| other.as_str().eq_ignore_ascii_case(name))
}
