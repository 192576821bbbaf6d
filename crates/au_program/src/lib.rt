//! The planning of a query: all plans by which it is answered, made of its typed tree and of the tables' columns before any row is
//! read.
//!
//! [`program_of`] makes the [`Program`] of a tree: one plan over its [`Sources`], which are tables and what the plans of earlier
//! steps find. [`rewritten`] makes one plan of a whole tree without steps, for those who run it themselves, and
//! [`counted_plan`] that over rows with the number of their copies. All of these go by the calls of the rewriting crates, which
//! write one operator each; what is planned here is which of them stand in one plan, what is found first, and which columns
//! are read.
//!
//! ```text
//! let rules = Rules { compress: None, points: false };
//! let program = program_of(alloc, &typed.query, schemas.as_slice(), rules, false)?;
//! run_over(&program.sources, &program.plan)
//! ```
//!
//! It belongs to docs/ARCHITECTURE.md.
#![tactic(auto)]

mod compressing;
mod copying;
mod counted;
mod counted_steps;
mod placing;
mod planning;
mod program;
mod readiness;
mod rewriting;
mod rules;
mod sources;
mod stage;
mod steps;

pub use copying::copy_physical;
pub use counted::counted_plan;
pub use counted_steps::Counted;
pub use placing::{count, more};
pub use program::{Program, program_of};
pub use rewriting::{encoded_kinds, rewritten};
pub use rules::Rules;
pub use sources::{Pairing, Sources, Ways};
