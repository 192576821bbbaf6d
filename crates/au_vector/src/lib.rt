//! Physical plans over cells, run over batches of columns.
//!
//! [`run_plan`] gives the rows of a plan over tables of cells, as `au_codes` defines them, and refuses it exactly where its
//! numbers leave 128 bits. A [`Crew`] says how many workers share the plan. The rows, and their order, are those of one
//! worker.
//!
//! ```text
//! let crew = Crew::new(&rt, 4, NoGate);
//! let rows = run_plan(&crew, alloc, &plan, &tables)?;     // the plan is over codes, as `code_plan` makes it
//! ```
//!
//! It belongs to docs/ARCHITECTURE.md.
#![tactic(auto)]

mod crew;
mod feeding;
mod pieces;
mod running;
mod sink;
mod steps;
mod stream;
mod theorems;
mod written;

pub use crew::Crew;
pub use running::run_plan;
pub use theorems::typed_plans_are_wide;
