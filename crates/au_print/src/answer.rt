//! The answer of a query.
use au_algebra::Rel;
use au_annot::Triple;
use au_value::{Kind, Range, Word};

/// A bounded answer: a name and a kind for each column, and rows that have one range of that kind per column.
#[derive(Drop)]
pub struct Answer {
    pub names: Vec<Word>,
    pub kinds: Vec<Kind>,
    pub rows: Rel<Range, Triple>,
}
