//! Expressions.
use au_value::{Comparison, Value};

/// An expression over a row, of whole numbers, texts and flags.
#[derive(Drop)]
pub enum Expr {
    /// The column of this number, from 0.
    Column(usize),
    Literal(Value),
    Add(Box<Expr>, Box<Expr>),
    Subtract(Box<Expr>, Box<Expr>),
    Multiply(Box<Expr>, Box<Expr>),
    Negate(Box<Expr>),
    Compare(Comparison, Box<Expr>, Box<Expr>),
    And(Box<Expr>, Box<Expr>),
    Or(Box<Expr>, Box<Expr>),
    Not(Box<Expr>),
    /// The condition, what it gives where it holds, and what else.
    Case(Box<Expr>, Box<Expr>, Box<Expr>),
}
