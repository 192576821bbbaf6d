//! Annotations of tuples: counts, and pairs and triples of counts, as semirings with an order.
//!
//! `Annot` is what a generic evaluator needs of an annotation: zero, one, sum, product and a partial order, with their
//! laws. `Count` says how often a tuple occurs, `Triple` how often it occurs at least, in the selected-guess world and
//! at most, and `Pair` how often it occurs at least and in the selected-guess world. Sums and products of unbounded
//! numbers are what the calls mean; `Overflow` comes exactly where a component of that exceeds 2^127-1. No call takes
//! memory.
//!
//! ```text
//! let (one, two) = (Count::of(1)?, Count::of(2)?);
//! let row = Triple::of(one, one, two)?;
//! let joined = row.times(row)?;
//! joined.most().get() // 4
//! ```
#![tactic(auto)]

mod annot;
mod count;
mod pair;
mod triple;

pub use annot::{Annot, Monus};
pub use count::Count;
pub use pair::Pair;
pub use triple::Triple;
