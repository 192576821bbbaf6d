//! Every query tree over bounded relations, and over values with counts, evaluated by the definitions.
//!
//! [`direct`] gives the bounded relation of a tree over rows of ranges with triples (Feng, Huber, Glavic, Kennedy, SIGMOD
//! 2021; the formulas of grouping are in docs/SEMANTICS.md). [`ordinary`] gives the answer over values with counts: the
//! guesses of the bounded relation, each value taken as a range of its own. [`difference`], [`group`], [`distinct`],
//! [`total`] and [`combine`] are single operators. [`Full`] has the three that are not positive over any domain and
//! annotation: ranges with triples, and values with counts. A row that is only read is lent.
//!
//! Rows are found by their guesses by hashing: those that are combined, those that belong to an output, and the right
//! rows of a difference with the guesses of a left one, among which all are that are certainly equal to it. Overlap is
//! tested row by row: an output is compared with all rows where the keys of some row are unsure, a left row that is
//! certain with the right rows that are unsure, and any other left row with all right rows. So over values, and over
//! rows that are certain in these columns, each of these operators is one pass. A product forms all pairs.
//!
//! ```text
//! let kept = difference(alloc, &orders, &returned)?;
//! let sums = group(alloc, 1, &[Agg::Sum(2)], &kept)?;
//! let answer = direct(alloc, &query, &[orders, returned])?;
//! let shown = combine(alloc, &answer)?;
//! ```
#![tactic(auto)]

mod aggregates;
mod combination;
mod counts;
mod differences;
mod embedding;
mod evaluation;
mod extremes;
mod full;
mod grouping;
mod groups;
mod hull;
mod keys;
mod meeting;
mod output;
mod positives;
mod same_guesses;
mod sums;
mod totals;
mod tuple;
mod values;

pub use combination::combine;
pub use differences::difference;
pub use evaluation::{direct, ordinary};
pub use full::Full;
pub use groups::{distinct, group};
pub use totals::total;
