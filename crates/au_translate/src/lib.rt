//! Block tables as relations: with bounds over all worlds, and as they are in the guess world.
//!
//! [`bounded`] makes a row of ranges with a triple of each block, [`bounded_rows`] those of some of a table's blocks, and
//! [`encoded`] the same rows as plain rows. [`place_value`] lends the value in a place of a block's plain row, of which none
//! is made; [`read_numbers`] and [`read_cells`] tell that the numbers of such rows lie in the range, too. [`guessed`] gives the
//! rows of the guess world, each with its number of copies. [`bounded_answer_holds`] is the law on whole queries over such
//! tables: the bounded answer bounds the ordinary answer in every world, and its guesses are the ordinary answer in the guess
//! world.
//!
//! ```text
//! let rows = bounded(alloc, &table)?;
//! let guesses = guessed(alloc, &table)?;
//! for (cells, triple) in rows.rows() {
//!     let known = cells[0].is_certain();
//! }
//! ```
#![tactic(auto)]

mod bounds;
mod encodings;
mod guesses;
mod held_numbers;
mod lent_places;
mod relations;
mod theorems;

pub use encodings::encoded;
pub use guesses::guessed;
pub use held_numbers::{read_cells, read_numbers};
pub use lent_places::{place_value, row_count};
pub use relations::{bounded, bounded_rows};
pub use theorems::bounded_answer_holds;
