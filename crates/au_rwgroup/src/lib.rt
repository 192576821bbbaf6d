//! Groups, distinct rows and totals as plans over encoded rows.
//!
//! Each call puts the plan of one operator over the bounded relation of its input on top of a plan: [`group`],
//! [`distinct`] and [`total`]. What the plan gives is said for whatever tables and relation the input stands for, so
//! that the calls can be nested with the other operators. [`group_over`] is Group's plan over boxes that are not the hulls
//! of keys, for which [`group_columns`] and [`kept_aggregates`] say what is asked of the rows that belong to each.
//!
//! ```text
//! let layout = Layout { columns: 2 };
//! let plan = group(alloc, Plan::Scan(0, 9), 1, &[Agg::Sum(1)], Folding::EqualKeys, &layout)?;
//! // over encoded rows it gives a row for each list of guessed keys: the hulls of the keys, and the sum's bounds
//! ```
//!
//! It belongs to docs/ARCHITECTURE.md.
#![tactic(auto)]

mod count_terms;
mod distinct_rows;
mod folding;
mod folds;
mod group_aggregates;
mod group_places;
mod grouping;
mod guessed_keys;
mod joined_row;
mod literal_rows;
mod member_columns;
mod pair_tests;
mod result_columns;
mod totals;

pub use distinct_rows::distinct;
pub use folding::Folding;
pub use group_aggregates::kept_aggregates;
pub use grouping::{group, group_over};
pub use guessed_keys::{group_columns, push_all};
pub use totals::total;
