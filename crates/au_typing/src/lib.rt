//! Names and kinds: a statement over tables of known columns as a query tree.
//!
//! `resolve` gives the tree of a statement, and the names and kinds of its columns, or a `TypingFault` with the byte of
//! the query at which that defect stands.
//!
//! ```text
//! let text = "SELECT city, SUM(amount) AS s FROM orders GROUP BY city";
//! let statement = parse(alloc, tokens(alloc, text)?.items(), text.len())?;
//! let typed = resolve(alloc, &statement, &schemas)?;
//! // its columns are city, a text, and s, a whole number
//! ```
#![tactic(auto)]

mod aggregates;
mod fault;
mod from_items;
mod kinds;
mod made_columns;
mod operators;
mod outputs;
mod part;
mod scales;
mod schema;
mod scope;
mod select;
mod sets;
mod setting;
mod shape;
mod terms;
mod theorems;
mod trees;
mod typed;

pub use fault::TypingFault;
pub use schema::Schema;
pub use theorems::tree_is_typed;
pub use typed::{Typed, resolve};
