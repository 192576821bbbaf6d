//! Groups of rows by key columns, with aggregates, to which batches of columns are added one after the other.
//!
//! [`Groups`] keeps of the rows that were added each key once, in the order in which keys come first, and for each aggregate
//! a list by the groups' places: sums with their magnitudes, or the best numbers. A batch is added by the place of each
//! row's group, and then by one loop for each aggregate. A key of several numbers is held as one number, into which they are
//! packed, until the first key comes that doesn't fit. No row is kept, and no call takes memory for each row but the places
//! of one batch and its columns. Groups of rows that stand behind others are merged with theirs, so that workers can share
//! the rows. [`grouped`] groups the rows of one batch. [`Keys`] are the keys of one batch alone, with the place of each one.
//!
//! ```text
//! let mut groups = Groups::new(alloc, &[0], &[PAgg::Sum(1), PAgg::Max(2)])?;
//! groups = groups.add(alloc, &first)?;             // `Overflow` only where a sum's magnitudes leave 128 bits
//! groups = groups.merge(alloc, of_the_rows_behind)?;
//! let rows = groups.finish(alloc)?;                // one row for each number in column 0: it, the sum, the greatest
//! let same = grouped(alloc, &[0], &[PAgg::Sum(1), PAgg::Max(2)], &both)?;
//! ```
//!
//! It belongs to docs/ARCHITECTURE.md.
#![tactic(auto)]

mod fold;
mod groups;
mod held;
mod joining;
mod keyed;
mod keys;
mod numbers;
mod packed;
mod results;
mod seen;
mod theorems;

pub use groups::{Groups, grouped};
pub use keys::Keys;
pub use theorems::{
    rows_come_in_parts, tables_are_groups, tables_come_in_parts, tables_stay_alike,
};
