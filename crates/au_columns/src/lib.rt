//! Batches of rows as columns of whole numbers, and the operators over them that work row by row.
//!
//! A [`Column`] holds numbers in 64 bits as long as they fit, and else in 128. A [`Batch`] is rows of cells, held by columns
//! that batches may share. [`evaluate`] gives an expression's value on each row, worked a column at a time; where a step
//! leaves 128 bits it is worked row by row, so that of a CASE the branch that is taken counts alone. [`run_chain`] runs a chain
//! of Extend, Keep and Filter: what a plan over cells gives, as `au_codes` defines it, and refusals exactly where its numbers
//! leave 128 bits. No call takes memory for each row. A batch is shared by [`Batch::share`], cut into runs of rows by
//! [`Batch::part`], and set beside another by [`Batch::pairs`], place for place; a [`Collected`] puts batches one behind the
//! other.
//!
//! ```text
//! let mut batch = Batch::new(alloc, 1024);
//! batch = batch.with_column(alloc, prices)?;           // each column has 1,024 numbers
//! batch = batch.with_column(alloc, counts)?;
//! let sums = evaluate(alloc, &batch, &tree)?;          // one number for each row
//! let rows = run_chain(alloc, &plan, batch)?;          // the rows of the plan over this batch
//! let first = rows.part(alloc, 0, rows.len() / 2)?;    // its first half
//! let both = Collected::new(alloc).put(alloc, &first)?.put(alloc, &first)?.batch(alloc)?;
//! ```
//!
//! It belongs to docs/ARCHITECTURE.md.
#![tactic(auto)]

mod batch;
mod chain;
mod collected;
mod column;
mod columnwise;
mod evaluation;
mod narrow;
mod operand;
mod operation;
mod reading;
mod rowwise;
mod step;
mod wide;

pub use batch::Batch;
pub use chain::{below, filtered, operators_of, run_chain, worked};
pub use collected::Collected;
pub use column::Column;
pub use evaluation::evaluate;
