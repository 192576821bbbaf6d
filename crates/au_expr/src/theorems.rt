//! The law of expressions over ranges. It is the contract of a function that does nothing.
ghost use Rattle.au_expr.specs.Holding.{RangesHoldValues};

/// Where a row of ranges holds a row of values, the range of a typed expression holds its ordinary value, and
/// the guess of that range is the ordinary value on the guesses.
pub fn ranges_hold_values()
    ensures { RangesHoldValues }
{}
