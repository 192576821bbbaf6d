//! Relations split into their guesses and a few wide rows, for products that would pair too many rows.
//!
//! [`guess_part`] keeps the guess values of each row, and [`compressed`] puts all that is possible into at most so many
//! rows. A product may then be formed of the guess parts and of the compressed parts: [`compressed_answers`] is the law
//! that the answer of each query still bounds its ordinary answer, with exact guesses (Feng, Huber, Glavic, Kennedy,
//! SIGMOD 2021).
//!
//! ```text
//! let guesses = guess_part(alloc, &orders)?;
//! let wide = compressed(alloc, &orders, 32)?;
//! wide.rows().len() // at most 32
//! ```
#![tactic(auto)]

mod guesses;
mod hull;
mod runs;
mod theorems;

pub use guesses::guess_part;
pub use runs::compressed;
pub use theorems::{compressed_answers, compressed_products};
