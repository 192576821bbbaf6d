//! Rows that a relation lends.
ghost use Rattle.std.specs.Prelude.{◌≡◌, ◌++◌, IfOk, OnOk, [], ◌∷◌, map};
ghost use Rattle.au_algebra.specs.Bounded.{present};
ghost use Rattle.au_algebra.specs.Entries.{Entry, entry};

use au_algebra::Rel;
use au_annot::Triple;
use au_value::{NoMemory, Range};
use std::alloc::Global;
use std::marker::Model;

/// The cells of a row, and a copy of its annotation.
#[derive(Drop)]
pub(crate) struct Tuple<'a, C, K> {
    cells: &'a [C],
    annot: K,
}

impl<'a, C, K> Model for Tuple<'a, C, K> {
    ghost use Rattle.au_algebra.specs.Entries.{Entry, entry};

    ghost Value = { Entry C K };

    ghost view = { λ t. entry t.cells.now t.annot };
}

impl<'a, C, K: Copy> Tuple<'a, C, K> {
    pub(crate) fn new(cells: &'a [C], annot: K) -> Tuple<'a, C, K>
        ensures { result ≡ entry cells.now annot }
    {
        Tuple { cells, annot }
    }

    pub(crate) fn cells(&self) -> &'a [C]
        ensures { result.now ≡ self.now.cells }
    {
        self.cells
    }

    pub(crate) fn annot(&self) -> K
        ensures { result ≡ self.now.annot }
    {
        self.annot
    }

    /// The same row.
    pub(crate) fn again(&self) -> Tuple<'a, C, K>
        ensures { result ≡ self.now }
    {
        Tuple {
            cells: self.cells,
            annot: self.annot,
        }
    }
}

/// The rows of a list, lent.
pub(crate) fn tuples<C, K: Copy>(
    alloc: Global,
    rows: &[(Vec<C>, K)],
) -> Result<Vec<Tuple<'_, C, K>>, NoMemory>
    ensures { IfOk result (λ v. v.items ≡ map (λ r. entry r.0.items r.1) rows.now) }
{
    let mut lent = Vec::new(alloc);
    for (cells, annot) in rows {
        lent.push(Tuple::new(cells, *annot))?;
    }
    Ok(lent)
}

/// The same rows.
pub(crate) fn all_again<'a, C, K: Copy>(
    alloc: Global,
    rows: &[Tuple<'a, C, K>],
) -> Result<Vec<Tuple<'a, C, K>>, NoMemory>
    ensures { IfOk result (λ v. v.items ≡ rows.now) }
{
    let mut same = Vec::with_capacity(alloc, rows.len())?;
    for row in rows {
        same.push(row.again())?;
    }
    Ok(same)
}

/// Puts a row behind the others where a copy of it is possible.
pub(crate) fn push_present(
    rel: &mut Rel<Range, Triple>,
    cells: Vec<Range>,
    triple: Triple,
) -> Result<(), NoMemory>
    ensures { OnOk result (rel.new ≡ rel.old ++ present (entry cells.items triple ∷ [])) }
{
    if triple.most().get() == 0 {
        Ok(())
    } else {
        rel.push(cells, triple)
    }
}
