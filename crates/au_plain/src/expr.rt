//! Plain expressions, whose parts may stand in a list.
use au_value::Value;

/// A comparison of two values of one kind.
#[derive(Clone, Copy, Debug, PartialEq, Eq)]
pub enum Comparison2 {
    /// `=`
    Equal,
    /// `<`
    Less,
    /// `<=`
    AtMost,
}

/// An expression over a plain row. All its parts are evaluated, but for a CASE, of which the chosen branch alone is.
#[derive(Drop)]
pub enum PExpr {
    /// The column of this number, from 0.
    Column(usize),
    Literal(Value),
    Add(Box<PExpr>, Box<PExpr>),
    Subtract(Box<PExpr>, Box<PExpr>),
    Multiply(Box<PExpr>, Box<PExpr>),
    Negate(Box<PExpr>),
    Compare(Comparison2, Box<PExpr>, Box<PExpr>),
    And(Box<PExpr>, Box<PExpr>),
    Or(Box<PExpr>, Box<PExpr>),
    Not(Box<PExpr>),
    /// The condition, what it gives where it holds, and what else.
    Case(Box<PExpr>, Box<PExpr>, Box<PExpr>),
    /// The least of the values of one kind. The list is not empty.
    Least(Vec<PExpr>),
    /// The greatest of the values of one kind. The list is not empty.
    Greatest(Vec<PExpr>),
}
