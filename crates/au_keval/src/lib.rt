//! Queries of the four positive operators, over any domain of cells and any annotation.
//!
//! [`positive`] gives the rows of a tree of Table, Select, Project, Product and Union (Green, Karvounarakis, Tannen, PODS
//! 2007). [`Weigh`] gives the annotation of a condition's truth: counts and pairs weigh conditions on values, triples
//! conditions on ranges. [`Carry`] is a map between two such settings, and [`hom`] the law that it commutes with the
//! evaluation; [`Guessing`] takes the guesses of ranges and triples. The meaning of each operator is in
//! docs/SEMANTICS.md.
//!
//! ```text
//! let join = Query::Product(Box::new(alloc, Query::Table(0))?, Box::new(alloc, Query::Table(1))?);
//! let answer = positive::<RangeDomain, Triple>(alloc, &join, &[orders, rates])?;
//! for (cells, triple) in answer.rows() {
//!     let most = triple.most();
//! }
//! ```
#![tactic(auto)]

mod carry;
mod evaluation;
pub mod operators;
mod product;
mod project;
mod row;
mod rows;
mod select;
mod theorems;
mod union;
mod weigh;

pub use carry::{Carry, Guessing, hom};
pub use evaluation::positive;
pub use theorems::{condition_is_numbers, reading_is_bounded, reading_is_counted};
pub use weigh::{Weigh, zero_or_one};
