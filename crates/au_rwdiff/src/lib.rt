//! Difference as a plan over encoded rows.
//!
//! [`difference`] puts the plan of Difference on top of two plans, of which the left one gives a combined relation. What
//! the plan gives is said for whatever tables and relations the inputs stand for, so that it can be nested with the other
//! operators.
//!
//! ```text
//! let layout = Layout { columns: 2 };
//! let left = combine(alloc, Plan::Scan(0, 9), &layout)?;
//! let plan = difference(alloc, left, Plan::Scan(1, 9), &layout)?;
//! // over encoded rows it gives the combined left rows, each less what the right rows may, do and must take from it
//! ```
//!
//! It belongs to docs/ARCHITECTURE.md.
#![tactic(auto)]

mod columns;
mod subtraction;

pub use subtraction::difference;
