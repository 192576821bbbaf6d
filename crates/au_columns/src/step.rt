//! What an expression makes of the numbers of two of its parts.
use au_plain::Comparison2;
use au_value::Extreme;

/// What makes one number of two.
#[derive(Clone, Copy)]
pub(crate) enum Arithmetic {
    Add,
    Subtract,
    Multiply,
    /// The lesser, or the greater.
    Extreme(Extreme),
}

/// What holds of two numbers, or doesn't.
#[derive(Clone, Copy)]
pub(crate) enum Test {
    Compare(Comparison2),
    And,
    Or,
}
