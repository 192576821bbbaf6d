//! Answers whose rows are held as codes.
use au_codes::Codebook;
use au_columns::Batch;
use au_value::{Kind, Word};

/// A bounded answer whose parts are lent: a name and a kind for each column, and rows of numbers.
///
/// By the book and `value_kinds` the numbers of a row stand for a plain row of values, and this encodes a range for each
/// column and a triple.
#[derive(Clone, Copy)]
pub struct LentAnswer<'a> {
    pub names: &'a [Word],
    pub kinds: &'a [Kind],
    pub book: &'a Codebook,
    pub value_kinds: &'a [Kind],
    pub batch: &'a Batch,
}
