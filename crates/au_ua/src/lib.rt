//! Queries over values that tell apart what is certain (Feng, Huber, Glavic, Kennedy, SIGMOD 2019).
//!
//! [`ua_table`] makes of each block its marked row, with a pair of counts: how often it is there in every world at least,
//! and how often in the guess world. [`ua`] answers a query of the four positive operators over such tables; its rows keep
//! what the pairs say, by the law [`ua_answer_holds`]. [`not_positive`] finds what other queries have beyond these four,
//! and [`ua_text`] gives an answer as CSV. [`counted_blocks`] and [`counted_places`] make the rows of a table as plain rows
//! with two counts, for the plans of `au_rwcounted`, whose rows are those of [`ua`] by the law [`ua_answer_is_counted`].
//!
//! ```text
//! let table = ua_table(alloc, &table)?;
//! let rows = ua(alloc, &query, &[table])?;
//! out.put(ua_text(alloc, names, kinds, &rows)?.as_slice())
//! ```
#![tactic(auto)]

mod answer;
mod counted_rows;
mod positivity;
mod summed_rows;
mod tables;
mod text;
mod theorems;

pub use answer::ua;
pub use counted_rows::{counted_blocks, counted_places};
pub use positivity::not_positive;
pub use tables::ua_table;
pub use text::ua_text;
pub use theorems::{ua_answer_holds, ua_answer_is_counted, ua_fits, ua_text_fits};
