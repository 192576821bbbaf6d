//! The road of a query: from its text to its statement, and from a statement over block tables to its bounded answer.
//!
//! [`read_query`] reads the text, and [`answer`] gives the answer with its names and kinds: of the typed tree `au_program` makes
//! a program, all the plans by which it is answered, which is then run over the encoded rows of the tables; the rows of the last
//! plan are brought into their normal form, and decoded. [`coded_answer`] leaves them coded. [`answer_directly`] gives the same rows by the generic evaluator, [`guess_answer`] those of
//! the guess world, by one plan over rows with the number of their copies, and [`ua_answer`] these with how often each is
//! certain. [`rewritten_text`] is the text of the one plan of a whole tree, which another engine may run, [`encoded_text`] that
//! of the encoded rows which it reads, and [`plain_answer`] runs such a plan over the rows of tables in the guess world.
//! [`explained_text`] tells by which plans [`answer`] goes. docs/ARCHITECTURE.md shows the road.
//!
//! ```text
//! let statement = read_query(alloc, "SELECT city FROM orders")?;
//! let options = Options { combine: false, workers: 1, compress: None, points: false };
//! let answer = answer(&rt, alloc, &statement, tables.as_slice(), options, NoGate)?;
//! ```
//!
//! It belongs to docs/ARCHITECTURE.md.
#![tactic(auto)]

mod answers;
mod exchange;
mod faults;
mod options;
mod reading;
mod running;
mod theorems;
mod typing;

pub use answers::answering::{answer, answer_directly};
pub use answers::certainty::{UaAnswer, ua_answer};
pub use answers::coded_answer::{CodedAnswer, coded_answer};
pub use answers::guess_size::fits_plain;
pub use answers::guessing::{GuessAnswer, guess_answer};
pub use exchange::explaining::explained_text;
pub use exchange::plain::{PlainFault, plain_answer};
pub use exchange::texts::{encoded_text, rewritten_text};
pub use faults::{EngineFault, LimitFault, QueryFault};
pub use options::Options;
pub use reading::read_query;
pub use theorems::{
    encoded_tables_are_read, encoded_tables_hold, plans_answer, read_rows_are_few,
    read_tables_are_written, texts_are_read,
};
