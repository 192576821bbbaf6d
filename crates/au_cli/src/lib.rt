//! The program: its words, its files, and how a run ends.
//!
//! `run` does all that the program does, over any shelf of files and any two sinks, and answers how it ended, an
//! `Outcome`. `Outcome::code` is the exit status.
//!
//! `answer`, `direct`, `guess`, `ua`, `rewrite` and `explain` go by `requests`, which reads the query, and `answering`, which
//! asks `au_engine` for the text; `encode`, `plain` and `demo` have a module each.
//!
//! ```text
//! let outcome = run(&rt, alloc, words.as_slice(), &mut shelf, &mut out, &mut err, NoGate);
//! outcome.code()
//! ```
#![tactic(auto)]

mod answering;
mod demo;
mod encoding;
mod files;
mod line;
mod outcome;
mod plain;
mod reading;
mod requests;
mod theorems;
mod top;
mod two_files;

pub use au_engine::{LimitFault, QueryFault};
pub use au_io::{RealShelf, RealSink, Sink};
pub use au_par::NoGate;
pub use au_sqltext::PlanFault;
pub use au_value::Word;
pub use au_words::UsageFault;
pub use line::fault_line;
pub use outcome::Outcome;
pub use theorems::outputs_are_answered;
pub use top::run;
