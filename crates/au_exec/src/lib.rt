//! Plans over tables and rows of values, run by way of their codes.
//!
//! A [`Source`] is a table that a plan scans, as it is given: blocks of a table with the places of their encoded rows that
//! are read, rows of values that stand in memory, or what an earlier plan gave. [`run_coded`] gathers one book of the long
//! texts of all sources and of the plan, makes a column of codes of each place of each source, and runs the plan over these
//! by `au_vector`. What it gives stays coded: [`Coded`] brings it into its normal form, lends its parts, or reads it as rows of
//! values, or as the relation that they encode. The clauses speak of values alone. No source's rows are made as rows of cells. A [`Run`] gives the rows of a plan over lists
//! of rows batch by batch: [`Run::next_batch`] up to 256 at once, and [`Run::all`] all that are left.
//!
//! The values are told from their numbers by the kinds of the plan's rows, which [`kinds_of`] reckons from the first row of
//! each source. Where a plan has no row because a source has none, they aren't known ([`known_kinds_hold`]); what codes give
//! stands for the rows of the plan by [`ready_plans_stand`].
//!
//! ```text
//! let sources = [Source::of_blocks(table.columns(), table.blocks(), &places), Source::of_rows(&rows)];
//! let found = run_coded(&crew, alloc, plan, &sources)?;
//! let relation = found.relation(alloc, 2)?;     // rows that encode 2 columns each
//! ```
//!
//! It belongs to docs/ARCHITECTURE.md.
#![tactic(auto)]

mod advance;
mod answer_kinds;
mod batches;
mod block_kinds;
mod coded;
mod coded_sources;
mod decoded_values;
mod gathering;
mod holding;
mod plan_kinds;
mod readying;
mod running;
mod source;
mod state;
mod taking;
mod term_kinds;
mod theorems;
mod value_columns;

pub use batches::{Batch, Run};
pub use coded::{Coded, run_coded};
pub use plan_kinds::kinds_of;
pub use source::Source;
pub use theorems::{known_kinds_hold, ready_plans_stand};
