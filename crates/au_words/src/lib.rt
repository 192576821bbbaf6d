//! The words of a command line: which command is asked for, its options, and its query, plan and tables.
//!
//! A query stands behind each word of [`Command`]: `answer`, `direct`, `guess`, `ua`, `rewrite` and `explain`.
//!
//! The words are read with clap. What clap takes beyond the form that docs/FORMATS.md gives, as an option twice or a
//! number with a leading zero, is refused by a [`UsageFault`].
//!
//! ```text
//! let line = CommandLine::of(alloc, words)?;
//! match line.read(alloc)? {
//!     Asked::Query(request) => answer(request),
//!     Asked::Demo { start, blocks, workers } => demo(start, blocks, workers),
//!     Asked::Encode(table) => encode(table),
//!     Asked::Plain { plan, tables } => plain(plan, tables),
//! }
//! ```
#![tactic(auto)]

mod answer_form;
mod fault;
mod words;

pub use answer_form::Form;
pub use fault::UsageFault;
pub use words::{Asked, Command, CommandLine, Request, TableWord, WordsFault};
