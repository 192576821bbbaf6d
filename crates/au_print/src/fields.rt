//! The fields of a printed record.
ghost use Rattle.std.specs.Prelude.{◌≡◌, [], ◌∷◌, ◌++◌, OnOk, decimal};
ghost use Rattle.csv.specs.Records.{fields_of, partial_of};
ghost use Rattle.au_print.specs.Texts.{number_text, value_text, value_texts, three_names, range_fields, cells_fields, count_fields, header_fields};

use crate::numbers::form_number;
use au_annot::Triple;
use au_value::{Kind, NoMemory, Range, Value, Word};
use csv::ByteRecord;
use itoa::Buffer;
use std::alloc::Global;

/// Adds a number's decimal digits.
pub fn push_count(row: &mut ByteRecord, count: u128) -> Result<(), NoMemory>
    requires { partial_of row.old ≡ [] }
    ensures fields { OnOk result (fields_of row.new ≡ fields_of row.old ++ (decimal count ∷ [])) }
    ensures whole { OnOk result (partial_of row.new ≡ []) }
{
    let mut buffer = Buffer::new();
    row.push_field(buffer.format(count).as_bytes())?;
    Ok(())
}

/// Adds the text of a value of a column of this kind. `room` is the memory in which a fixed-point number is formed; what
/// it holds is of no account.
pub fn push_value(
    row: &mut ByteRecord,
    room: &mut Vec<u8>,
    kind: Kind,
    value: &Value,
) -> Result<(), NoMemory>
    requires { partial_of row.old ≡ [] }
    ensures fields { OnOk result (fields_of row.new ≡ fields_of row.old ++ (value_text kind value.now ∷ [])) }
    ensures whole { OnOk result (partial_of row.new ≡ []) }
{
    match value {
        Value::Int(n) => push_number(row, room, kind, *n)?,
        Value::Text(text) => row.push_field(text.as_str().as_bytes())?,
        Value::Flag(true) => row.push_field(b"true")?,
        Value::Flag(false) => row.push_field(b"false")?,
    }
    Ok(())
}

// Adds the text of a number of a column of this kind.
fn push_number(
    row: &mut ByteRecord,
    room: &mut Vec<u8>,
    kind: Kind,
    n: i128,
) -> Result<(), NoMemory>
    requires { partial_of row.old ≡ [] }
    ensures fields { OnOk result (fields_of row.new ≡ fields_of row.old ++ (number_text kind n ∷ [])) }
    ensures whole { OnOk result (partial_of row.new ≡ []) }
{
    form_number(room, kind, n)?;
    row.push_field(room.as_slice())?;
    Ok(())
}

/// Adds the texts of a row's values, in columns of these kinds.
pub fn push_values(
    row: &mut ByteRecord,
    room: &mut Vec<u8>,
    kinds: &[Kind],
    values: &[Value],
) -> Result<(), NoMemory>
    requires { partial_of row.old ≡ [] }
    ensures fields { OnOk result (fields_of row.new ≡ fields_of row.old ++ value_texts kinds.now values.now) }
    ensures whole { OnOk result (partial_of row.new ≡ []) }
{
    let mut kinds = kinds;
    let mut values = values;
    while let Some((kind, other_kinds)) = kinds.split_first() {
        let Some((value, other_values)) = values.split_first() else {
            return Ok(());
        };
        push_value(row, room, *kind, value)?;
        kinds = other_kinds;
        values = other_values;
    }
    Ok(())
}

/// Adds a name with an ending.
fn push_with(
    alloc: Global,
    row: &mut ByteRecord,
    name: &[u8],
    ending: &[u8],
) -> Result<(), NoMemory>
    requires { partial_of row.old ≡ [] }
    ensures fields { OnOk result (fields_of row.new ≡ fields_of row.old ++ ((name.now ++ ending.now) ∷ [])) }
    ensures whole { OnOk result (partial_of row.new ≡ []) }
{
    let mut joined = Vec::from_slice(alloc, name)?;
    joined.extend_from_slice(ending)?;
    row.push_field(joined.as_slice())?;
    Ok(())
}

/// Adds the three names of a column.
fn push_name(alloc: Global, row: &mut ByteRecord, name: &[u8]) -> Result<(), NoMemory>
    requires { partial_of row.old ≡ [] }
    ensures fields { OnOk result (fields_of row.new ≡ fields_of row.old ++ (three_names name.now)) }
    ensures whole { OnOk result (partial_of row.new ≡ []) }
{
    push_with(alloc, row, name, b"_lo")?;
    row.push_field(name)?;
    push_with(alloc, row, name, b"_hi")
}

fn push_range(
    row: &mut ByteRecord,
    room: &mut Vec<u8>,
    kind: Kind,
    range: &Range,
) -> Result<(), NoMemory>
    requires { partial_of row.old ≡ [] }
    ensures fields { OnOk result (fields_of row.new ≡ fields_of row.old ++ (range_fields kind range.now)) }
    ensures whole { OnOk result (partial_of row.new ≡ []) }
{
    push_value(row, room, kind, range.lo())?;
    push_value(row, room, kind, range.sg())?;
    push_value(row, room, kind, range.hi())
}

fn push_ranges(
    row: &mut ByteRecord,
    room: &mut Vec<u8>,
    kinds: &[Kind],
    ranges: &[Range],
) -> Result<(), NoMemory>
    requires { partial_of row.old ≡ [] }
    ensures fields { OnOk result (fields_of row.new ≡ fields_of row.old ++ cells_fields kinds.now ranges.now) }
    ensures whole { OnOk result (partial_of row.new ≡ []) }
{
    let mut kinds = kinds;
    let mut ranges = ranges;
    while let Some((kind, other_kinds)) = kinds.split_first() {
        let Some((range, other_ranges)) = ranges.split_first() else {
            return Ok(());
        };
        push_range(row, room, *kind, range)?;
        kinds = other_kinds;
        ranges = other_ranges;
    }
    Ok(())
}

fn push_triple(row: &mut ByteRecord, triple: Triple) -> Result<(), NoMemory>
    requires { partial_of row.old ≡ [] }
    ensures fields { OnOk result (fields_of row.new ≡ fields_of row.old ++ (count_fields triple)) }
    ensures whole { OnOk result (partial_of row.new ≡ []) }
{
    push_count(row, triple.least().get())?;
    push_count(row, triple.guess().get())?;
    push_count(row, triple.most().get())
}

/// The header's fields.
pub fn push_header(alloc: Global, row: &mut ByteRecord, names: &[Word]) -> Result<(), NoMemory>
    requires { partial_of row.old ≡ [] }
    ensures fields { OnOk result (fields_of row.new ≡ fields_of row.old ++ (header_fields names.now)) }
    ensures whole { OnOk result (partial_of row.new ≡ []) }
{
    push_name(alloc, row, b"row")?;
    for name in names {
        push_name(alloc, row, name.as_str().as_bytes())?;
    }
    Ok(())
}

/// A row's fields, in columns of these kinds. `room` is as in [`push_value`].
pub fn push_row(
    row: &mut ByteRecord,
    room: &mut Vec<u8>,
    kinds: &[Kind],
    ranges: &[Range],
    triple: Triple,
) -> Result<(), NoMemory>
    requires { partial_of row.old ≡ [] }
    ensures fields { OnOk result (fields_of row.new ≡ fields_of row.old ++ (count_fields triple ++ cells_fields kinds.now ranges.now)) }
    ensures whole { OnOk result (partial_of row.new ≡ []) }
{
    push_triple(row, triple)?;
    push_ranges(row, room, kinds, ranges)
}
