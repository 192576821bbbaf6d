//! Answers as texts. The formats are told in docs/FORMATS.md.
//!
//! An [`Answer`] has the names, the kinds and the rows of a bounded answer. [`csv_text`] is its text as CSV: a least, a
//! guessed and a greatest multiplicity, and a lower bound, a guess and an upper bound for each column. A [`LentAnswer`] has
//! its rows as codes, by columns. [`coded_csv`] gives the text of the relation that these encode, with no row of values
//! made, and [`coded_csv_by`] the same by several workers. [`table_text`] is the text of an [`Answer`] for the eye, a line
//! for each row, in aligned columns. [`guess_text`] is the text of an answer over the guess world, each row once behind its
//! count, and [`demo_text`] the four lines of a demonstration. A fixed-point number is printed with as many digits behind
//! its point as its column's kind says.
//!
//! ```text
//! let answer = Answer { names, kinds, rows: normal(alloc, rows)? };
//! out.put(csv_text(alloc, &answer)?.as_slice())?;
//! out.put(table_text(alloc, &answer)?.as_slice())?;
//! out.put(guess_text(alloc, answer.names.as_slice(), answer.kinds.as_slice(), &guessed)?.as_slice())
//! ```
#![tactic(auto)]

mod answer;
mod begun;
mod cells;
mod coded_fields;
mod coded_form;
mod coded_pieces;
mod coded_value;
mod csv_form;
mod demo_form;
mod fields;
mod fixed;
mod guess_form;
mod guess_rows;
mod header;
mod lent;
mod numbers;
mod page;
mod repeated;
mod table_form;
mod value_order;
mod widths;
pub mod writing;

pub use answer::Answer;
pub use coded_form::coded_csv;
pub use coded_pieces::coded_csv_by;
pub use csv_form::csv_text;
pub use demo_form::demo_text;
pub use guess_form::guess_text;
pub use lent::LentAnswer;
pub use table_form::table_text;
