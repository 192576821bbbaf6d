//! Values, ranges of values and their order, numerals, fixed-point numbers, and exact sums.
//!
//! The crate at the bottom: everything above speaks of its `Value` (a whole number of 128 bits, a text or a
//! flag), of its `Range` (a lower bound, a guess and an upper bound of one kind) and of its `Word` (a text). [`both`] and
//! [`beside`] join what was made side by side.
//!
//! ```text
//! let low = Value::Int(10);
//! let high = Value::Int(12);
//! let range = Range::of(copy(&low)?, low, high);
//! range.holds(&Value::Int(11))
//! ```
#![tactic(auto)]

mod adding;
mod comparison;
mod decimal;
mod extreme;
mod faults;
mod kinds;
mod numeral;
mod range;
mod results;
mod theorems;
mod value;
mod word;

pub use adding::Adder;
pub use comparison::Comparison;
pub use decimal::read_decimal;
pub use extreme::{Extreme, comes_first, is_first};
pub use faults::{NoMemory, Overflow};
pub use kinds::Kind;
pub use numeral::{all_digits, read_numeral};
pub use range::Range;
pub use results::{beside, both};
pub use theorems::{hull_holds_both, order_is_total};
pub use value::{Value, compare, copies, copy, kind, order};
pub use word::Word;
