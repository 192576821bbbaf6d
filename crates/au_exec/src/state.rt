//! How far a run is.
use au_physical::Physical;
use au_plain::PRow;
use std::vec::IntoIter;

/// How far a run is.
#[derive(Drop)]
pub(crate) enum State {
    /// Nothing is done yet.
    Waiting(Box<Physical>, Vec<Vec<PRow>>),
    /// All rows were made, and these are left.
    Going(IntoIter<PRow>),
}
