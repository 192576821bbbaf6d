//! Query trees over relations, and what a query means: in one world, and with bounds over all worlds.
//!
//! A [`Query`] is a tree of operators with columns by position, and a [`Rel`] is rows of cells with annotations: ranges
//! with triples, or values with counts. [`normal`] brings a bounded relation into the order in which it is shown. The
//! definitions of the answers are in specs/, and the laws that the bounded answer keeps are the contracts of
//! [`answer_is_bounded`] and the functions beside it.
//!
//! ```text
//! let mut rel = Rel::new(alloc);
//! rel.push(cells, triple)?;
//! let shown = normal(alloc, rel)?;
//! for (cells, triple) in shown.rows() {
//!     let guess = cells[0].sg();
//! }
//! ```
#![tactic(auto)]

mod normal_form;
mod query;
mod range_order;
mod rel;
mod theorems;

pub use normal_form::normal;
pub use query::{Agg, Query};
pub use rel::Rel;
pub use theorems::{
    answer_is_bounded, answer_is_relation, any_product, bounds_up_to_order, forms_keep_both,
    guess_is_exact, positive_guesses,
};
