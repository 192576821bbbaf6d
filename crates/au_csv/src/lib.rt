//! The records of a CSV text.
//!
//! [`records`] reads the text of a table file: fields between commas, quoted by double quotes where they hold commas or
//! ends of lines (RFC 4180, as the `csv` crate reads it). [`Records::rows`] lends each of the [`Records`]. A [`Rec`] is a
//! list of texts, which [`Rec::len`] and [`Rec::get`] read. Records may differ in length, and no record is a header here.
//!
//! ```text
//! match records(alloc, bytes) {
//!     Ok(records) => records.rows(alloc)..,
//!     Err(CsvFault::NotText(record)) => ..,
//!     Err(CsvFault::NoMemory) => ..,
//! }
//! ```
//!
//! [`RecordReader`] reads the same records one after the other and keeps the last one alone, for who makes something else of
//! them at once.
//!
//! ```text
//! let mut reader = RecordReader::new(alloc, bytes);
//! while reader.read()? {
//!     reader.record().get(0)..
//! }
//! ```
#![tactic(auto)]

mod faults;
mod kept;
mod read;
mod reader;
mod rec;

pub use faults::CsvFault;
pub use kept::Records;
pub use read::records;
pub use reader::RecordReader;
pub use rec::Rec;
