//! Laws of values. Each is the contract of a function that does nothing.
ghost use Rattle.au_value.specs.Laws.{OrderIsTotal, HullHoldsBoth};

/// The order of values is total.
pub fn order_is_total()
    ensures { OrderIsTotal }
{}

/// The hull of two ranges holds each value that either holds.
pub fn hull_holds_both()
    ensures { HullHoldsBoth }
{}
