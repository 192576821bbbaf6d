//! Values that are let go when others have been made of them.
ghost use Rattle.std.specs.Prelude.{◌≡◌};

/// What was made. What it was made of is let go.
pub(crate) fn first_of<A, B: Drop>(made: A, _held: B) -> A
    ensures { result ≡ made }
{
    made
}
