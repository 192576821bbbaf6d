//! The records of a text.
ghost use Rattle.std.specs.Prelude.{◌≡◌, ◌⊎◌, Ok, Err, IfOk, IfErr};
ghost use Rattle.au_csv.specs.Texts.{text_records};

use crate::faults::CsvFault;
use crate::kept::{Records, push_record};
use crate::reader::RecordReader;
use csv::StringRecord;
use std::alloc::Global;

// Records take no fewer bytes than these mostly, so that the room that is held for them stays in proportion to the text.
const SHORT: usize = 16;

// How many bytes are counted at once.
const AT_ONCE: usize = 192;

/// The records of a text: its fields stand between commas, and a field in double quotes may hold commas, ends of lines
/// and doubled quotes. One byte order mark at the start is dropped. Records may differ in length, no record is a header,
/// and blanks are kept.
///
/// `NotText` comes exactly where a field isn't UTF-8, and names the first such record.
pub fn records(alloc: Global, bytes: &[u8]) -> Result<Records, CsvFault>
    ensures records { IfOk result (λ rs. text_records bytes.now ≡ Ok rs) }
    ensures fault { IfErr result (λ e. (e ≡ CsvFault.NoMemory) ⊎ (text_records bytes.now ≡ Err e)) }
{
    let room = room_for(bytes);
    let mut fields = StringRecord::with_capacity(
        alloc,
        bytes.len(),
        count(bytes, b',').saturating_add(room),
    )?;
    let mut stops = Vec::with_capacity(alloc, room)?;
    let mut reader = RecordReader::new(alloc, bytes);
    // There is at most one record more than there are bytes, and then the end.
    let turns = bytes.len() as u128 + 2;
    for _ in 0..turns {
        match reader.read() {
            Ok(true) => push_record(&mut fields, &mut stops, reader.row())?,
            Ok(false) => return Ok(Records::of(fields, stops)),
            Err(fault) => return Err(fault),
        }
    }
    unreachable!()
}

// For how many records there should be room at once: a list that grows moves.
fn room_for(bytes: &[u8]) -> usize {
    count(bytes, b'\n')
        .min(bytes.len() / SHORT)
        .saturating_add(1)
}

// How many bytes of this value there are.
fn count(bytes: &[u8], value: u8) -> usize {
    let mut count = 0usize;
    for few in bytes.chunks(AT_ONCE) {
        count = count.wrapping_add(count_few(few, value) as usize);
    }
    count
}

// The same of at most 255 bytes: a counter of one byte is quick, since the machine adds sixteen of them at once.
fn count_few(bytes: &[u8], value: u8) -> u8 {
    let mut count = 0u8;
    for byte in bytes {
        if *byte == value {
            count = count.wrapping_add(1);
        }
    }
    count
}
