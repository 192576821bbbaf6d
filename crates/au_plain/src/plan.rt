//! Plans over tables of plain rows.
use crate::expr::PExpr;
use au_value::Value;

/// A plain row: the values of its columns.
pub type PRow = Vec<Value>;

/// An aggregate over a column, counted in the input row.
#[derive(Clone, Copy, Debug, PartialEq, Eq)]
pub enum PAgg {
    Sum(usize),
    Min(usize),
    Max(usize),
}

/// A tree of operators of an ordinary engine.
#[derive(Drop)]
pub enum Plan {
    /// The rows of the table of this number, from 0, and their width.
    Scan(usize, usize),
    /// A width, and the rows, each of this width.
    Rows(usize, Vec<PRow>),
    /// Each row with the value of the expression added on the right.
    Extend(PExpr, Box<Plan>),
    /// Of each row the columns of these places, in this order.
    Keep(Vec<usize>, Box<Plan>),
    /// The rows for which the expression is true.
    Filter(PExpr, Box<Plan>),
    /// Each left row followed by each right row, where the expression is true of the joined row.
    Join(PExpr, Box<Plan>, Box<Plan>),
    /// The left rows, then the right rows.
    Union(Box<Plan>, Box<Plan>),
    /// One row for each list of values in the columns of these places: these, and then the aggregates in order.
    Group(Vec<usize>, Vec<PAgg>, Box<Plan>),
}
