//! Trees of queries, with columns by position.
use au_expr::Expr;

/// An aggregate over a column, counted in the input row.
#[derive(Clone, Copy, Debug, PartialEq, Eq)]
pub enum Agg {
    Sum(usize),
    Min(usize),
    Max(usize),
}

/// A tree of operators.
#[derive(Drop)]
pub enum Query {
    /// The rows of a table, counted from 0.
    Table(usize),
    /// The rows whose condition is true.
    Select(Expr, Box<Query>),
    /// Each row's list of item values.
    Project(Vec<Expr>, Box<Query>),
    /// Each pair of rows, the left row's columns first.
    Product(Box<Query>, Box<Query>),
    /// The left rows and the right rows.
    Union(Box<Query>, Box<Query>),
    /// The left rows, one copy less for each copy on the right.
    Difference(Box<Query>, Box<Query>),
    /// Each row once.
    Distinct(Box<Query>),
    /// A row for each list of values in so many leading columns: these, and then the aggregates in order.
    Group(usize, Vec<Agg>, Box<Query>),
    /// One row, of sums over all rows.
    Total(Vec<Agg>, Box<Query>),
}
