//! Passes over plans that keep what a plan gives: its kinds, and its rows in their order.
//!
//! [`push`] moves the conjuncts of conditions towards the tables, as far as they are without arithmetic. [`prune`] leaves
//! out the columns that nobody reads, with the numbers that they would have made. [`push_conjuncts`] and
//! [`condition_of`] take a condition apart and put it together. Both passes take time linear in the plan's size.
//!
//! ```text
//! let pairs = join(alloc, always, left, right)?;
//! let pushed = push(alloc, filter(alloc, condition, pairs)?)?;
//! // the conjuncts of the condition are tested in the join, or on the side that they read
//! let pruned = prune(alloc, pushed)?;
//! ```
//!
//! It belongs to docs/ARCHITECTURE.md.
#![tactic(auto)]

mod columns;
mod conjuncts;
mod narrow;
mod pruning;
mod pushdown;
mod reads;
mod renumber;

pub use conjuncts::{condition_of, push_conjuncts};
pub use pruning::prune;
pub use pushdown::push;
