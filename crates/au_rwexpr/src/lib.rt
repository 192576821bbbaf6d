//! Expressions over ranges as plain columns.
//!
//! [`flatten`] gives the columns of an expression over encoded rows: three for each node, those of its parts first, so
//! that no expression is copied. The last three hold `lo`, `sg` and `hi` of the whole. [`RangeColumns`] names three such
//! columns by their places. [`meets`], [`same_guesses`] and [`surely_equal`] compare the ranges of two rows column by column.
//!
//! ```text
//! let layout = Layout { columns: 2 };
//! let steps = flatten(alloc, &condition, &layout)?;
//! let last = width_of(&layout)? + steps.columns.len() - 3;
//! let wider = extend_all(alloc, steps.columns, plan)?;
//! let possible = filter(alloc, RangeColumns::at(last)?.hi(), wider)?;
//! ```
//!
//! The calls that reckon with widths and places, and those of the operators above, give `NoMemory` also where a row cannot
//! have so many columns, as their places pass the greatest `usize`: no memory could hold such a row. No clause tells this
//! case from the others, since none says when memory is wanting.
//!
//! It belongs to docs/ARCHITECTURE.md.
#![tactic(auto)]

mod expressions;
mod nodes;
mod pairwise;
mod range_columns;
mod row_places;

pub use expressions::{flatten, push_columns};
pub use nodes::{Node, certainly_equal, overlap};
pub use pairwise::{meets, same_guesses, surely_equal};
pub use range_columns::{RangeColumns, width_of};
pub use row_places::{behind, push_cells, push_three};
