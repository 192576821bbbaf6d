//! The fields of a row whose values are held as codes.
ghost use Rattle.std.specs.Prelude.{◌≡◌, ◌<◌, ◌+◌, ◌^◌, ◌∷◌, ◌++◌, [], OnOk, get_or, length};
ghost use Rattle.std.specs.Fmt.{signed_decimal};
ghost use Rattle.au_value.specs.Ranges.{IsRange, range};
ghost use Rattle.au_algebra.specs.Lists.{value_at};
ghost use Rattle.au_codes.specs.CellMeaning.{cell_in};
ghost use Rattle.au_encode.specs.Encode.{IsEncoded, decode_cells};
ghost use Rattle.au_print.specs.Begun.{HasFields, fields_behind, first_field};
ghost use Rattle.au_print.specs.CodedValues.{value_of};
ghost use Rattle.au_print.specs.Lent.{row_values};
ghost use Rattle.au_print.specs.Records.{IsReady, written};
ghost use Rattle.au_print.specs.Texts.{cells_fields, range_fields};

use crate::begun::{add_field, begin_record};
use crate::coded_value::{CodedValue, form_next, form_value};
use crate::lent::LentAnswer;
use crate::numbers::form_number;
use au_codes::Codebook;
use au_columns::Batch;
use au_value::{Kind, NoMemory};
use csv::Writer;

/// Begins a record by three counts, which stand from a place of a row on.
pub(crate) fn write_counts(
    writer: &mut Writer<Vec<u8>>,
    room: &mut Vec<u8>,
    batch: &Batch,
    row: usize,
    place: usize,
) -> Result<(), NoMemory>
    requires ready { IsReady writer.old }
    requires row { row < length batch.now }
    requires place { place + 2 < 2 ^ 64 }
    ensures begun { OnOk result (HasFields 2 writer.new) }
    ensures text { OnOk result (written writer.new (λ v. v.items) ≡ written writer.old (λ v. v.items) ++ (first_field (signed_decimal (cell_in (get_or batch.now row []) place))
        ++ fields_behind (signed_decimal (cell_in (get_or batch.now row []) (place + 1)) ∷ signed_decimal (cell_in (get_or batch.now row []) (place + 2)) ∷ []))) }
{
    form_number(room, Kind::Int, number(batch, row, place))?;
    begin_record(writer, room.as_slice())?;
    form_number(room, Kind::Int, number(batch, row, place + 1))?;
    add_field(writer, room.as_slice())?;
    form_number(room, Kind::Int, number(batch, row, place + 2))?;
    add_field(writer, room.as_slice())
}

/// Writes the fields of the ranges of a row behind others.
pub(crate) fn write_cells(
    writer: &mut Writer<Vec<u8>>,
    room: &mut Vec<u8>,
    answer: &LentAnswer<'_>,
    row: usize,
) -> Result<(), NoMemory>
    requires begun { HasFields 2 writer.old }
    requires row { row < length answer.now.batch.now }
    requires encoded { IsEncoded (length answer.now.kinds.now) (row_values answer.now row) }
    ensures begun { OnOk result (HasFields 2 writer.new) }
    ensures text { OnOk result (written writer.new (λ v. v.items) ≡ written writer.old (λ v. v.items)
        ++ fields_behind (cells_fields answer.now.kinds.now (decode_cells (length answer.now.kinds.now) (row_values answer.now row)))) }
{
    // Read for the proof alone: there are no more values than kinds.
    let _most = number_of(answer.value_kinds);
    let mut kinds = answer.kinds;
    let mut place = 0;
    while let Some((kind, other_kinds)) = kinds.split_first() {
        let lo = value_at_place(answer, row, place);
        let sg = value_at_place(answer, row, place + 1);
        let hi = value_at_place(answer, row, place + 2);
        write_range(writer, room, answer.book, *kind, lo, sg, hi)?;
        kinds = other_kinds;
        place += 3;
    }
    Ok(())
}

// Writes the three fields of a range in a column of this kind. What is equal is formed once.
fn write_range(
    writer: &mut Writer<Vec<u8>>,
    room: &mut Vec<u8>,
    book: &Codebook,
    kind: Kind,
    lo: CodedValue,
    sg: CodedValue,
    hi: CodedValue,
) -> Result<(), NoMemory>
    requires begun { HasFields 2 writer.old }
    requires range { IsRange (range (value_of book.now lo) (value_of book.now sg) (value_of book.now hi)) }
    ensures begun { OnOk result (HasFields 2 writer.new) }
    ensures text { OnOk result (written writer.new (λ v. v.items) ≡ written writer.old (λ v. v.items) ++ fields_behind (range_fields kind (range (value_of book.now lo) (value_of book.now sg) (value_of book.now hi)))) }
{
    form_value(room, book, kind, lo)?;
    add_field(writer, room.as_slice())?;
    form_next(room, book, kind, lo, sg)?;
    add_field(writer, room.as_slice())?;
    form_next(room, book, kind, sg, hi)?;
    add_field(writer, room.as_slice())
}

// The value in a place of a row.
fn value_at_place(answer: &LentAnswer<'_>, row: usize, place: usize) -> CodedValue
    requires row { row < length answer.now.batch.now }
    requires place { place < length (row_values answer.now row) }
    ensures { value_of answer.now.book.now result ≡ value_at (row_values answer.now row) place }
{
    CodedValue {
        kind: kind_at(answer.value_kinds, place),
        number: number(answer.batch, row, place),
    }
}

// The number in a place of a row.
fn number(batch: &Batch, row: usize, place: usize) -> i128
    requires { row < length batch.now }
    ensures { result ≡ cell_in (get_or batch.now row []) place }
{
    batch.cell(row, place)
}

// The kind in a place.
fn kind_at(kinds: &[Kind], place: usize) -> Kind
    requires { place < length kinds.now }
    ensures { result ≡ get_or kinds.now place result }
{
    kinds[place]
}

/// How many kinds there are.
pub(crate) fn number_of(kinds: &[Kind]) -> usize
    ensures { result ≡ length kinds.now }
{
    kinds.len()
}
