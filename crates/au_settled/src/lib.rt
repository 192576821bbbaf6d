//! The normal form of a bounded relation that lies encoded in columns of numbers, without a row being made.
//!
//! [`settled`] takes rows of numbers of which each has three for each of so many columns, lower end, guess and upper end,
//! and three counts behind them. Rows that are equal in all but their counts become one, with the sums of these, and the
//! rows are ordered by their guesses, then by their lower ends, then by their upper ends. Where the rows stand so already
//! their columns are shared. [`settled_is_normal`] tells that the numbers are codes of the normal form, where they are
//! codes of an encoded relation.
//!
//! ```text
//! let rows = settled(alloc, &batch, 2)?;               // nine numbers a row
//! ```
//!
//! It belongs to docs/ARCHITECTURE.md.
#![tactic(auto)]

mod cell;
mod counts;
mod gathering;
mod order;
mod places;
mod runs;
mod settling;
mod theorems;

pub use settling::settled;
pub use theorems::{rows_worked, settled_is_normal};
