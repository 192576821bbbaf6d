//! The tables that a statement may name.

use au_blocks::Column;
use au_value::Word;

/// A table's name and its columns. Of two tables of one name the first is meant.
#[derive(Drop)]
pub struct Schema {
    pub name: Word,
    pub columns: Vec<Column>,
}
