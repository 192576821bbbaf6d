//! Answers whose rows are held as codes, as CSV.
ghost use Rattle.std.specs.Prelude.{◌≡◌, ◌≤◌, ◌<◌, ◌+◌, ◌*◌, ◌^◌, ◌++◌, [], IfOk, OnOk, get_or, length, slice_range};
ghost use Rattle.au_encode.specs.Encode.{AreEncoded, IsEncoded, decode};
ghost use Rattle.au_print.specs.Lent.{cells_text, plain_rows, row_values, rows_text};
ghost use Rattle.au_print.specs.Records.{IsReady, written};
ghost use Rattle.au_print.specs.Texts.{csv_text as text_of};

use crate::begun::end_record;
use crate::coded_fields::{number_of, write_cells, write_counts};
use crate::header::headed;
use crate::lent::LentAnswer;
use crate::page::finish;
use au_value::{Kind, NoMemory};
use csv::Writer;
use std::alloc::Global;

/// The text that [`csv_text`](crate::csv_text) gives of the relation that the rows encode. No row of values is made, and no
/// allocation for a row.
pub fn coded_csv(alloc: Global, answer: &LentAnswer<'_>) -> Result<Vec<u8>, NoMemory>
    requires columns { length answer.now.kinds.now ≡ length answer.now.names.now }
    requires rows { AreEncoded (length answer.now.kinds.now) (plain_rows answer.now) }
    ensures { IfOk result (λ t. t.items ≡ text_of answer.now.names.now answer.now.kinds.now (decode (length answer.now.kinds.now) (plain_rows answer.now))) }
{
    let mut writer = headed(alloc, answer.names)?;
    let mut room = Vec::new(alloc);
    write_rows(&mut writer, &mut room, answer, 0, answer.batch.len())?;
    finish(writer)
}

/// Writes the records of the rows from one place to before another. In `room` each field's text is formed; what it holds is
/// of no account.
pub(crate) fn write_rows(
    writer: &mut Writer<Vec<u8>>,
    room: &mut Vec<u8>,
    answer: &LentAnswer<'_>,
    first: usize,
    end: usize,
) -> Result<(), NoMemory>
    requires ready { IsReady writer.old }
    requires within { (first ≤ end) × (end ≤ length answer.now.batch.now) }
    requires rows { AreEncoded (length answer.now.kinds.now) (plain_rows answer.now) }
    ensures ready { OnOk result (IsReady writer.new) }
    ensures text { OnOk result (written writer.new (λ v. v.items) ≡ written writer.old (λ v. v.items) ++ rows_text answer.now (slice_range answer.now.batch.now first end)) }
{
    for row in first..end {
        write_row(writer, room, answer, row)?;
    }
    Ok(())
}

// Writes the record of the row in a place.
fn write_row(
    writer: &mut Writer<Vec<u8>>,
    room: &mut Vec<u8>,
    answer: &LentAnswer<'_>,
    row: usize,
) -> Result<(), NoMemory>
    requires ready { IsReady writer.old }
    requires row { row < length answer.now.batch.now }
    requires encoded { IsEncoded (length answer.now.kinds.now) (row_values answer.now row) }
    ensures ready { OnOk result (IsReady writer.new) }
    ensures text { OnOk result (written writer.new (λ v. v.items) ≡ written writer.old (λ v. v.items) ++ cells_text answer.now (get_or answer.now.batch.now row [])) }
{
    let counts = counts_place(answer.kinds, answer.value_kinds);
    write_counts(writer, room, answer.batch, row, counts)?;
    write_cells(writer, room, answer, row)?;
    end_record(writer)
}

// The place of a row's first count.
fn counts_place(kinds: &[Kind], value_kinds: &[Kind]) -> usize
    requires { 3 * length kinds.now + 2 < length value_kinds.now }
    ensures is { result ≡ 3 * length kinds.now }
    ensures small { result + 2 < 2 ^ 64 }
{
    // Read for the proof alone: there is a kind for each value.
    let _most = number_of(value_kinds);
    3 * kinds.len()
}
