//! Groups and distinct rows by points as plans over encoded rows.
//!
//! The points are boxes of Group's plan (`au_rwgroup`): [`group`] joins them with the rows whose keys hold them, which are
//! summed by their key ranges before, and puts the groups of the rows with unsure keys behind their outputs. [`distinct`]
//! puts the distinct guesses and the distinct rows with unsure ranges one after the other. What a plan gives is said for
//! whatever tables and relation its input stands for, so that the calls can be nested with the other operators.
//!
//! ```text
//! let layout = Layout { columns: 2 };
//! let plan = group(alloc, Plan::Scan(0, 9), 1, &[Agg::Sum(1)], Folding::EqualKeys, &layout)?;
//! // it gives a row with certain keys for each list of guessed keys, and rows for the keys that nobody guessed
//! ```
//!
//! It belongs to docs/ARCHITECTURE.md.
#![tactic(auto)]

mod grouping;
mod point_boxes;
mod row_places;
mod row_plans;

pub use grouping::{distinct, group};
