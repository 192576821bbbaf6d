//! Block tables as batches of codes, and batches back to relations.
//!
//! [`coded_places`] makes of some blocks of a table the codes of the values in some places of their encoded rows, a column
//! at a time: no row is made, and columns that are equal are shared. [`add_texts`] gathers the long texts that the book of
//! these codes needs; [`decoded`] reads the relation that the rows of a batch encode.
//!
//! ```text
//! let mut texts = LongTexts::new(alloc);
//! add_texts(&mut texts, table.columns(), &table.blocks(), &places)?;
//! let book = texts.book()?;
//! let batch = coded_places(alloc, &book, table.columns(), &slice, &places)?;
//! let relation = decoded(alloc, &book, &kinds, &batch, width)?;
//! ```
//!
//! It belongs to docs/ARCHITECTURE.md.
#![tactic(auto)]

mod block_texts;
mod coded_blocks;
mod coded_row;
mod decoding;
mod listed;

pub use block_texts::add_texts;
pub use coded_blocks::coded_places;
pub use decoding::decoded;
