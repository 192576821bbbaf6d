//! The ordinary operators as plans over rows with counts.
//!
//! A row with counts is a plain row: the values, and behind them one number for each count, as the number of copies, or
//! certain and guessed copies. [`scan_counted`], [`select_counted`], [`project_counted`], [`product_counted`] and
//! [`union_counted`] stand for any number of counts; [`distinct_counted`], [`group_counted`], [`total_counted`] and
//! [`difference_counted`] for the number of copies alone. No call holds an input twice. What a plan gives is said for
//! whatever tables and rows its inputs stand for, so that the calls can be nested at will. [`read_counted`] and
//! [`read_pairs`] read the rows of a plan back, and [`plain`] writes an ordinary expression as a plain one.
//!
//! ```text
//! let layout = CountedLayout { columns: 2, counts: 1 };
//! let table = scan_counted(0, &layout)?;
//! let some = select_counted(alloc, table, &condition, &layout)?;
//! let plan = group_counted(alloc, some, 1, &aggregates, 2)?;
//! ```
//!
//! It belongs to docs/ARCHITECTURE.md.
#![tactic(auto)]

mod expressions;
mod grouping;
mod layout;
mod pairing;
mod places;
mod projection;
mod reading;
mod scanning;
mod selection;
mod subtraction;
mod theorems;
mod totals;
mod uniting;

pub use expressions::plain;
pub use grouping::{distinct_counted, group_counted};
pub use layout::CountedLayout;
pub use pairing::product_counted;
pub use projection::project_counted;
pub use reading::{read_counted, read_pairs};
pub use scanning::scan_counted;
pub use selection::select_counted;
pub use subtraction::difference_counted;
pub use theorems::{
    answer_stands, counts_hold, operators_stand, pair_answers_are_counted, positive_answer_holds,
    worked_rows,
};
pub use totals::total_counted;
pub use uniting::union_counted;
