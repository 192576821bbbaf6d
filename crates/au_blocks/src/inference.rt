//! The kinds of columns, supposed by the first records of a text.
ghost use Rattle.std.specs.Prelude.{◌≡◌, ◌∷◌, [], ◌++◌, ℕ, true, List, Ok, IfOk};
ghost use Rattle.au_csv.specs.Reader.{HasRead, last_record};
ghost use Rattle.au_csv.specs.Texts.{Record, text_records};
ghost use Rattle.au_blocks.specs.Marks.{AreLeft, any_mark};
ghost use Rattle.au_blocks.specs.OnePass.{AreSupposed};

use crate::format::Format;
use crate::kinds::{column_kinds, narrow, unwritten_columns};
use au_csv::{CsvFault, RecordReader};
use au_value::{Kind, NoMemory};
use std::alloc::Global;

// By how many records kinds are supposed.
const FIRST: usize = 100;

/// The kinds that the columns of a text with these written kinds may have, by its first records: where none is written, texts
/// if an alternative among them has no numeral, and else whole numbers.
///
/// Nothing is read where each kind is written.
pub(crate) fn supposed_kinds(
    alloc: Global,
    bytes: &[u8],
    format: Format,
    written: &[Option<Kind>],
) -> Result<Vec<Kind>, NoMemory>
    ensures { (header : Record) (rows : List Record) → text_records bytes.now ≡ Ok (header ∷ rows) → IfOk result (λ kinds. AreSupposed format rows 0 written.now kinds.items) }
{
    let mut marks = unwritten_columns(alloc, written, true)?;
    narrow_by_first(alloc, bytes, format, &mut marks)?;
    column_kinds(alloc, written, marks)
}

// Takes the marks of the columns in which an alternative among the first records has no numeral.
fn narrow_by_first(
    alloc: Global,
    bytes: &[u8],
    format: Format,
    marks: &mut [bool],
) -> Result<(), NoMemory>
    ensures { (header : Record) (rows : List Record) → text_records bytes.now ≡ Ok (header ∷ rows) → IfOk result (λ done. AreLeft format rows marks.old marks.new) }
{
    if !any_marked(marks) {
        return Ok(());
    }
    let mut reader = RecordReader::new(alloc, bytes);
    if !reads_one(&mut reader)? {
        return Ok(());
    }
    for _ in 0..FIRST {
        if !any_marked(marks) || !reads_one(&mut reader)? {
            return Ok(());
        }
        narrow(format, &reader.record(), marks);
    }
    Ok(())
}

// Reads the next record, if there is one and it is text.
fn reads_one(reader: &mut RecordReader<'_>) -> Result<bool, NoMemory>
    ensures { (bytes : List ℕ) (rows : List Record) → HasRead bytes rows reader.old → IfOk result (λ found. found ≡ true → HasRead bytes (rows ++ last_record reader.new ∷ []) reader.new) }
{
    match reader.read() {
        Ok(found) => Ok(found),
        Err(CsvFault::NotText(_)) => Ok(false),
        Err(CsvFault::NoMemory) => Err(NoMemory),
    }
}

fn any_marked(marks: &[bool]) -> bool
    ensures { result ≡ any_mark marks.now }
{
    marks.iter().any(|mark| *mark)
}
