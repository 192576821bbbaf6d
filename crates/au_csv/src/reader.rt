//! The records of a text, one after the other.
ghost use Rattle.std.specs.Prelude.{◌≡◌, ◌⊎◌, ◌||◌, ◌+◌, ◌≤◌, ◌++◌, ◌∷◌, [], ℕ, List, length, true, false, Ok, Err, IfOk, IfErr};
ghost use Rattle.csv.specs.Reading.{error_kind, stops_reader};
ghost use Rattle.csv.specs.Records.{fields_of};
ghost use Rattle.au_csv.specs.Faults.{is_not_text};
ghost use Rattle.au_csv.specs.Setups.{is_set_up};
ghost use Rattle.au_csv.specs.Texts.{Record, text_records};

use crate::faults::CsvFault;
use crate::rec::Rec;
use csv::{Error, ErrorKind, Reader, ReaderBuilder, StringRecord};
use std::alloc::Global;

/// Reads the records of a text one after the other, and keeps the last one alone.
#[derive(Drop)]
pub struct RecordReader<'a> {
    reader: Reader<&'a [u8]>,
    row: StringRecord,
    // How many records were read.
    number: usize,
    ghost set_up: { is_set_up reader ≡ true },
}

impl<'a> RecordReader<'a> {
    ghost use Rattle.au_csv.specs.Reader.{HasRead, last_record};

    /// The reader of a text, of which it has read nothing. [`records`](crate::records) says what a record is.
    pub fn new(alloc: Global, bytes: &'a [u8]) -> RecordReader<'a>
        ensures { HasRead bytes.now [] result }
    {
        let reader = ReaderBuilder::new()
            .has_headers(false)
            .flexible(true)
            .from_reader(alloc, bytes);
        RecordReader {
            reader,
            row: StringRecord::new(alloc),
            number: 0,
        }
    }

    /// Reads the next record, which [`RecordReader::record`] lends then. False at the end of the text.
    ///
    /// `NotText` names this record, the first with a field that isn't UTF-8. Nothing is promised of a read behind a fault or
    /// behind the end.
    pub fn read(&mut self) -> Result<bool, CsvFault>
        ensures more { (bytes : List ℕ) (rows : List Record) → HasRead bytes rows self.old → IfOk result (λ found. found ≡ true → HasRead bytes (rows ++ last_record self.new ∷ []) self.new) }
        ensures all { (bytes : List ℕ) (rows : List Record) → HasRead bytes rows self.old → IfOk result (λ found. found ≡ false → text_records bytes ≡ Ok rows) }
        ensures fault { (bytes : List ℕ) (rows : List Record) → HasRead bytes rows self.old → IfErr result (λ e. (e ≡ CsvFault.NoMemory) ⊎ (text_records bytes ≡ Err e)) }
        ensures few { (bytes : List ℕ) (rows : List Record) → HasRead bytes rows self.old → length rows ≤ length bytes + 1 }
    {
        match self.reader.read_record(&mut self.row) {
            Ok(true) => {
                // There is at most one record more than there are bytes, so that the number wraps behind the last alone.
                self.number = self.number.wrapping_add(1);
                Ok(true)
            }
            Ok(false) => Ok(false),
            Err(error) => Err(fault_of(&error, self.number)),
        }
    }

    /// The record that was read last.
    pub fn record(&self) -> Rec<'_>
        ensures { result ≡ last_record self.now }
    {
        Rec::of(&self.row, 0, self.row.len())
    }

    // The same, as it is held.
    pub(crate) fn row(&self) -> &StringRecord
        ensures { fields_of result.now ≡ last_record self.now }
    {
        &self.row
    }
}

// The fault of a reader of bytes that are in memory, whose next record has this number. A slice gives its bytes and no fault,
// so that the reader under them never is the cause, though the reader's contract doesn't say it.
fn fault_of(error: &Error, number: usize) -> CsvFault
    requires { (stops_reader (error_kind error.now) || is_not_text (error_kind error.now)) ≡ true }
    ensures { (result ≡ CsvFault.NoMemory) ⊎ ((result ≡ CsvFault.NotText number) × (is_not_text (error_kind error.now) ≡ true)) }
{
    match error.kind() {
        ErrorKind::OutOfMemory | ErrorKind::Io(_) => CsvFault::NoMemory,
        ErrorKind::Utf8 { .. } => CsvFault::NotText(number),
        _ => unreachable!(),
    }
}
