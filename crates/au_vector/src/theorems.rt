//! Laws of plans over cells. Each is the contract of a function that does nothing.
ghost use Rattle.au_vector.specs.Widths.{TypedPlansAreWide};

/// A plan that is typed for tables has its widths over their cells.
pub fn typed_plans_are_wide()
    ensures { TypedPlansAreWide }
{}
