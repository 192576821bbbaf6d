//! How the columns of an encoded row lie in a plain row, and columns that are to be added to it.
use crate::expr::PExpr;

/// The places of an encoded row with so many columns: `lo`, `sg` and `hi` of column `i` at `3 * i`, `3 * i + 1` and
/// `3 * i + 2`, then `least`, `guess` and `most` from `3 * columns` on.
#[derive(Clone, Copy, Debug, PartialEq, Eq)]
pub struct Layout {
    pub columns: usize,
}

/// Columns to be added on the right, one after the other. Each may refer to those before it.
#[derive(Drop)]
pub struct Steps {
    pub columns: Vec<PExpr>,
}
