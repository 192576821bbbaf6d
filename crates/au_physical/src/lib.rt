//! Plans that an engine runs as they stand: each join says how its pairs are found.
//!
//! A [`Physical`] is a [`Plan`](au_plain::Plan) whose joins are nested loops, hash joins or joins of overlapping ranges.
//! What it means on lists of plain rows, read in order, when it is typed, and the numbers that it makes, are the
//! definitions in specs/ (see docs/SEMANTICS.md). [`is_chain`] tells of a plan whether it works row by row over one table.
//!
//! ```text
//! // the pairs of rows of two tables whose ranges at 0 and 2 overlap
//! let at = Bounds { left_lo: 0, left_hi: 2, right_lo: 0, right_hi: 2 };
//! let always = PExpr::Literal(Value::Flag(true));
//! let left = Box::new(alloc, Physical::Scan(0, 6))?;
//! let pairs = Physical::Overlap(at, always, left, Box::new(alloc, Physical::Scan(1, 6))?);
//! ```
//!
//! It belongs to docs/ARCHITECTURE.md.
#![tactic(auto)]

mod chains;
mod physical;

pub use chains::is_chain;
pub use physical::{Bounds, Physical};
