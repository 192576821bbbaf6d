//! Physical plans as lines for people.
//!
//! [`push_plan`] writes a plan behind a text: a line for each operator, with the lines of what it reads below. Columns,
//! expressions and aggregates are spelled as in the text of a plan (`au_sqltext`). The lines are defined in specs/Lines.
//!
//! ```text
//! push_plan(&mut text, 1, &plan)?;
//! //   keep c0, c4
//! //   join on x.c0 = y.c1
//! //     scan t0
//! //     filter (0 < c2)
//! //     scan t1
//! ```
//!
//! It belongs to docs/FORMATS.md.
#![tactic(auto)]

mod margin;
mod operators;
mod plans;
mod width;

pub use plans::push_plan;
