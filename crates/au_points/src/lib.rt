//! Grouping by points: one row for each list of guessed keys, whose keys are these, and Group's own rows over the rows
//! with unsure keys for the groups whose keys nobody guessed.
//!
//! Where the keys of a few rows are unsure, the rows of the other groups keep certain keys and narrow aggregates. The
//! definitions are in specs/, and the laws that they keep are the contracts of the functions here, which do nothing.
//!
//! It belongs to docs/SEMANTICS.md.
#![tactic(auto)]

mod theorems;

pub use theorems::{
    any_grouping, any_product_by_points, bounded_by_points_answers, hulls_are_group,
    others_are_possible, points_are_distinct, points_guess_alike, points_keep_groups,
    points_lie_within, same_where_all_certain, same_where_certain, worked_rows,
};
