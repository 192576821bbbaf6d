//! Combine as a plan over encoded rows: one row for all rows with the same guesses.
//!
//! [`combine`] puts the plan of Combine on top of a plan. What it gives is said for whatever tables and relation the
//! input stands for, so that it can be nested with the other operators. [`boxes`] is its grouping with aggregates of the
//! caller's choice: a row for each list of guesses, with the hulls of the ranges. [`group`], [`triple_sums`] and
//! [`push_run`] make a grouping, sums and a run of places.
//!
//! ```text
//! let layout = Layout { columns: 2 };
//! let plan = combine(alloc, Plan::Scan(0, 9), &layout)?;
//! // over encoded rows it gives one row for each list of guesses: the hulls, the guesses and the sum of the triples
//! ```
//!
//! It belongs to docs/ARCHITECTURE.md.
#![tactic(auto)]

mod combining;
mod groups;
mod places;

pub use combining::{combine, triple_sums};
pub use groups::{boxes, group};
pub use places::push_run;
