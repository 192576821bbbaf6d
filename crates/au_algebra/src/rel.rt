//! Relations: rows of cells, each with an annotation.
ghost use Rattle.std.specs.Prelude.{◌≡◌, [], ◌∷◌, ◌++◌, if◌then◌else◌, is_ok, map};
ghost use Rattle.au_algebra.specs.Entries.{entry};

use au_value::NoMemory;
use std::alloc::Global;
use std::marker::Model;

/// Rows of cells, each with an annotation: ranges with triples, or values with counts. Contracts see the list of its
/// entries.
#[derive(Drop)]
pub struct Rel<C, K> {
    pub rows: Vec<(Vec<C>, K)>,
}

impl<C, K> Model for Rel<C, K> {
    ghost use Rattle.std.specs.Prelude.{List, map};
    ghost use Rattle.au_algebra.specs.Entries.{Entry, entry};

    ghost Value = { List (Entry C K) };

    ghost view = { λ r. map (λ row. entry row.0.items row.1) r.rows.items };
}

impl<C, K> Rel<C, K> {
    /// No row. It takes no memory.
    pub fn new(alloc: Global) -> Rel<C, K>
        ensures { result ≡ [] }
    {
        Rel {
            rows: Vec::new(alloc),
        }
    }

    /// Puts a row behind the others. Where memory is wanting the relation is unchanged.
    pub fn push(&mut self, cells: Vec<C>, annot: K) -> Result<(), NoMemory>
    where
        C: Drop,
        K: Drop,
        ensures { self.new ≡ (if is_ok result then self.old ++ entry cells.items annot ∷ [] else self.old) }
    {
        self.rows.push((cells, annot))?;
        Ok(())
    }

    /// The rows, in their order.
    pub fn rows(&self) -> &[(Vec<C>, K)]
        ensures { map (λ row. entry row.0.items row.1) result.now ≡ self.now }
    {
        self.rows.as_slice()
    }
}
