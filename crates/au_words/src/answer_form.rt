//! The form in which a bounded answer is printed.

/// A form of a bounded answer.
#[derive(Clone, Copy, Debug, PartialEq, Eq)]
pub enum Form {
    /// CSV: three multiplicities, and a lower bound, a guess and an upper bound for each column.
    Csv,

    /// An aligned table, for the eye.
    Table,
}
