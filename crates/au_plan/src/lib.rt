//! Plans made ready to run.
//!
//! [`improve`] gives a [`Physical`] that stands for a plan. Conjuncts without arithmetic are moved towards the tables and
//! columns that nobody reads are left out, by the passes of `au_passes`. Then each join is a hash join, a join of
//! overlapping ranges or a nested loop, by the conjuncts of its condition. What a `Physical` means is said in
//! `au_physical`. [`narrow_scans`] tells which columns of a table such a plan reads, where each of its Scans reads the same
//! ones, and lets it scan these alone.
//!
//! ```text
//! let pairs = join(alloc, always, left, right)?;
//! let physical = improve(alloc, filter(alloc, condition, pairs)?)?;
//! // the conjuncts of the condition are tested in the join, or on the side that they read
//! ```
//!
//! It belongs to docs/ARCHITECTURE.md.
#![tactic(auto)]

mod choice;
mod crossing;
mod equalities;
mod improvement;
mod join;
mod narrowing;
mod operators;
mod range_tests;

pub use au_physical::{Bounds, Physical};
pub use improvement::improve;
pub use narrowing::narrow_scans;
