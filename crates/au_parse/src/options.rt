//! Parts that were read side by side.
//!
//! A function that holds an owned part past an early return drops it there, and the proof of each such drop is long.
//! This call holds the parts in its place.
ghost use Rattle.std.specs.Prelude.{◌≡◌};
ghost use Rattle.au_parse.specs.Expressions.{both};

/// Both parts, if both could be read.
pub(crate) fn paired<A: Drop, B: Drop>(first: Option<A>, second: Option<B>) -> Option<(A, B)>
    ensures { result ≡ both (λ a b. (a, b)) first second }
{
    match first {
        Some(a) => match second {
            Some(b) => Some((a, b)),
            None => None,
        },
        None => None,
    }
}
