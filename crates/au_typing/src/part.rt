//! Well-typed queries.
ghost use Rattle.std.specs.Prelude.{◌≡◌, IsTrue, IfOk};
ghost use Rattle.au_algebra.specs.Trees.{tree};
ghost use Rattle.au_typing.specs.MadeColumns.{makes_few_columns};

use crate::made_columns::makes_few_columns;
use au_algebra::Query;
use au_blocks::Column;
use au_value::NoMemory;

/// A well-typed query: its tree, which makes few columns, the names and kinds of its own, and whether one of its SELECTs
/// joins.
#[derive(Drop)]
pub(crate) struct Part {
    pub query: Query,
    pub columns: Vec<Column>,
    pub joins: bool,
    ghost few: { IsTrue (makes_few_columns (tree query)) },
}

impl Part {
    /// A query of this tree. `NoMemory` comes where the tree makes more columns than it may.
    pub fn new(query: Query, columns: Vec<Column>, joins: bool) -> Result<Part, NoMemory>
        ensures query { IfOk result (λ p. p.query ≡ query) }
        ensures columns { IfOk result (λ p. p.columns ≡ columns) }
        ensures joins { IfOk result (λ p. p.joins ≡ joins) }
    {
        if makes_few_columns(&query) {
            Ok(Part {
                query,
                columns,
                joins,
            })
        } else {
            Err(NoMemory)
        }
    }
}
