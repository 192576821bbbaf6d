//! Expressions over a row, and their value over a domain of cells.
//!
//! An `Expr` is evaluated by `evaluate` over a `Domain`: `PlainDomain` gives its ordinary value on a row of values,
//! `RangeDomain` a range that holds this value wherever the row's ranges hold the values, with the value on the
//! guesses as its guess (Feng, Huber, Glavic, Kennedy, SIGMOD 2021).
//!
//! ```text
//! let square = Expr::Multiply(Box::new(alloc, Expr::Column(0))?, Box::new(alloc, Expr::Column(0))?);
//! let row = [Range::of(Value::Int(-2), Value::Int(-2), Value::Int(3))];
//! let range = evaluate::<RangeDomain>(&square, &row)?;
//! // the range is -6, 4, 9
//! ```
#![tactic(auto)]

mod combine;
mod domain;
mod ends;
mod evaluation;
mod expr;
mod fault;
mod number;
mod plain;
mod ranges;
mod theorems;
mod truth;
mod view;

pub use domain::Domain;
pub use evaluation::evaluate;
pub use expr::Expr;
pub use fault::EvalFault;
pub use plain::PlainDomain;
pub use ranges::RangeDomain;
pub use theorems::ranges_hold_values;
pub use truth::ThreeWay;
