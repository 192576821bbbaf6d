//! Where a block lies.

/// Which alternatives of a table form a block: so many from the first on. Besides, whether none of them may hold, and the
/// number of the one that is the guess, or `None` where absence is.
#[derive(Clone, Copy, Debug, PartialEq, Eq)]
pub struct Extent {
    pub first: usize,
    pub count: usize,
    pub optional: bool,
    pub guess: Option<usize>,
}
