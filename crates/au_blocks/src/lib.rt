//! Block tables: rows of which one alternative holds, and the table files that hold them.
//!
//! [`read_table`] reads the bytes of a CSV file as a [`Table`], or names the first of their defects, a [`TableFault`].
//! A table has columns and blocks: [`Table::columns`] and [`Table::blocks`] read it. A [`Block`] has at least one
//! alternative, may be optional, and marks one choice as the guess: [`Block::alternatives`], [`Block::optional`] and
//! [`Block::guess`] read it. An [`Alternative`] has a cell for each column, which lies between [`Alternative::lo`] and
//! [`Alternative::hi`] and is guessed as [`Alternative::sg`], and its [`Times`] say how many copies of it there are.
//! [`guess_world_is_world`] is the law that the guess world of tables is one of their worlds.
//!
//! A table is held by columns: the [`Alternatives`] of all blocks lie block behind block, and an [`Extent`] says which of
//! them form a block. What lends a block or an alternative copies none of it.
//!
//! ```text
//! let table = read_table(alloc, bytes)?;
//! let blocks = table.blocks();
//! for place in 0..blocks.len() {
//!     let block = blocks.get(place);
//!     let guess = block.guess();
//!     let first = block.alternatives().get(0).sg(0);
//! }
//! ```
#![tactic(auto)]

mod alternative;
mod alternatives;
mod block;
mod block_places;
mod blocks;
mod candidates;
mod cell;
mod cells;
mod column;
mod extent;
mod extents;
mod faults;
mod fields;
mod filler;
mod fillers;
mod filling;
mod format;
mod gather;
mod header;
mod header_faults;
mod inference;
mod intake;
mod item;
mod kinds;
mod layout;
mod one_pass;
mod read;
mod role;
mod row_faults;
mod rows;
mod runs;
mod scalar;
mod schema;
mod seen;
mod spellings;
mod table;
mod tally;
mod times;
mod values;
mod worlds;

pub use alternative::Alternative;
pub use alternatives::Alternatives;
pub use block::Block;
pub use blocks::Blocks;
pub use candidates::Candidates;
pub use column::{Column, copy_columns};
pub use extent::Extent;
pub use faults::TableFault;
pub use read::read_table;
pub use scalar::Scalar;
pub use table::Table;
pub use times::Times;
pub use worlds::{guess_world_is_world, orders_have_two_worlds};
