//! Rows of ranges with a triple as plain rows, and back.
//!
//! An encoded row has `lo`, `sg` and `hi` of each column, then least, guess and most as numbers (see docs/FORMATS.md).
//! [`encode`] gives the plain rows of a relation, and [`decode`] the relation that plain rows encode; [`decode_rows`] gives
//! the same of rows that are lent, in several threads. [`empty_row`], [`push_range`] and [`push_counts`] make an encoded row
//! where there is no relation to encode.
//!
//! ```text
//! let mut rel = Rel::new(alloc);
//! rel.push(cells, triple)?;
//! let rows = encode(alloc, &rel)?;
//! let again = decode(alloc, rows, 2)?;
//! // it has the rows of `rel`, each with two columns
//! ```
#![tactic(auto)]

mod decoding;
mod decoding_rows;
mod encoding;

pub use decoding::decode;
pub use decoding_rows::decode_rows;
pub use encoding::{empty_row, encode, push_counts, push_range};
