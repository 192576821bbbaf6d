//! How the rows of a grouping are made ready for its boxes.

/// Whether rows with equal key ranges are summed before they meet the boxes.
///
/// The groups are the same either way, so this is a question of time alone.
#[derive(Clone, Copy, Debug, PartialEq, Eq)]
pub enum Folding {
    /// One row for those with equal key ranges, which pays where key ranges repeat.
    EqualKeys,
    /// Each row by itself, which pays where nearly all key ranges differ.
    Rows,
}
