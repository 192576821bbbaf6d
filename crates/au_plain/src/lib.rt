//! Plain bag algebra: expressions and plans over rows of values, as an ordinary engine has them.
//!
//! A [`Plan`] is a tree of operators over tables of [`PRow`]s, with columns by place and expressions [`PExpr`]. What a
//! plan means on lists of rows, which plans are typed, and the numbers that a plan makes, are the definitions in specs/
//! (see docs/SEMANTICS.md). Calls such as [`add`] and [`extend`] make terms and plans, one node at a time;
//! [`copy_expr`] and [`copy_plan`] copy them.
//!
//! ```text
//! let twice = add(alloc, PExpr::Column(0), PExpr::Column(0))?;
//! let plan = extend(alloc, twice, Plan::Scan(0, 1))?;
//! // over the rows 1 and 2 it gives the rows 1, 2 and 2, 4
//! ```
//!
//! It belongs to docs/ARCHITECTURE.md.
#![tactic(auto)]

mod copies;
mod expr;
mod layout;
mod plan;
mod plans;
mod rows;
mod terms;
mod width;

pub use copies::{copy_expr, copy_plan, of_part, of_parts};
pub use expr::{Comparison2, PExpr};
pub use layout::{Layout, Steps};
pub use plan::{PAgg, PRow, Plan};
pub use plans::{extend, extend_all, filter, group, join, keep, union};
pub use rows::copy_rows;
pub use terms::{
    add, and, case, compare, greatest_of_two, least_of_two, multiply, negate, not, or, subtract,
};
pub use width::width_of;
