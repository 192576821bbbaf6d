//! Answers as CSV.
ghost use Rattle.std.specs.Prelude.{◌≡◌, ◌++◌, IfOk, OnOk, length, flat_map};
ghost use Rattle.std.specs.List.{AllByRecursion};
ghost use Rattle.au_algebra.specs.Entries.{entry};
ghost use Rattle.au_print.specs.Records.{IsReady, written};
ghost use Rattle.au_print.specs.Texts.{csv_text as text_of, record_text, row_fields};

use crate::answer::Answer;
use crate::fields::push_row;
use crate::header::headed;
use crate::page::{finish, write};
use au_annot::Triple;
use au_value::{Kind, NoMemory, Range};
use csv::{ByteRecord, Writer};
use std::alloc::Global;

/// The text of an answer: a header record, and a record for each row in order, with 3 + 3c fields for c columns.
pub fn csv_text(alloc: Global, answer: &Answer) -> Result<Vec<u8>, NoMemory>
    requires columns { length answer.now.kinds.items ≡ length answer.now.names.items }
    requires rows { AllByRecursion (λ r. length r.cells ≡ length answer.now.names.items) answer.now.rows }
    ensures { IfOk result (λ t. t.items ≡ text_of answer.now.names.items answer.now.kinds.items answer.now.rows) }
{
    let mut writer = headed(alloc, answer.names.as_slice())?;
    let kinds = answer.kinds.as_slice();
    let rows = answer.rows.rows.as_slice();
    write_rows(alloc, &mut writer, kinds, rows)?;
    finish(writer)
}

// The rows' records, made one after the other in the memory of one.
fn write_rows(
    alloc: Global,
    writer: &mut Writer<Vec<u8>>,
    kinds: &[Kind],
    rows: &[(Vec<Range>, Triple)],
) -> Result<(), NoMemory>
    requires { IsReady writer.old }
    ensures { OnOk result (written writer.new (λ v. v.items) ≡ written writer.old (λ v. v.items) ++ flat_map (λ r. record_text (row_fields kinds.now (entry r.0.items r.1))) rows.now) }
{
    let mut record = ByteRecord::new(alloc);
    let mut room = Vec::new(alloc);
    for (ranges, triple) in rows {
        record.clear();
        push_row(&mut record, &mut room, kinds, ranges.as_slice(), *triple)?;
        write(writer, &record)?;
    }
    Ok(())
}
