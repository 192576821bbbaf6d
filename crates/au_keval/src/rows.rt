//! Rows that a table lends or an operator made.
ghost use Rattle.std.specs.Prelude.{◌≡◌, [], flat_map, ◌<◌, length, unwrap_or, slice_get};
ghost use Rattle.au_keval.specs.Evaluation.{rows_in};
ghost use Rattle.au_keval.specs.Held.{held_entries, MakesRows, PutsRows};
ghost use Rattle.au_keval.specs.Passes.{kept};
ghost use Rattle.au_keval.specs.Reading.{annotations};

use crate::row::{Row, push_copy, push_exactly};
use crate::weigh::Weigh;
use au_algebra::Rel;
use au_expr::{Domain, EvalFault};
use std::alloc::Global;

/// The rows of a table, or those that an operator made, of which none has the annotation zero.
#[derive(Drop)]
pub enum Rows<'a, C, K> {
    Lent(&'a [Row<C, K>]),
    Made(Vec<Row<C, K>>),
}

/// The rows of the table with this number.
pub fn table<C, K>(tables: &[Rel<C, K>], i: usize) -> &[Row<C, K>]
    requires { i < length tables.now }
    ensures { held_entries result.now ≡ unwrap_or (slice_get tables.now i) [] }
{
    tables[i].rows()
}

/// The rows, to be read.
pub fn slice<'b, C, K>(rows: &'b Rows<'_, C, K>) -> &'b [Row<C, K>]
    ensures { held_entries result.now ≡ rows_in rows.now }
{
    match rows {
        Rows::Lent(rows) => rows,
        Rows::Made(rows) => rows.as_slice(),
    }
}

/// Puts copies of the rows behind others, without those of annotation zero.
pub(crate) fn push_present<D: Domain, K: Weigh<D>>(
    alloc: Global,
    done: &mut Vec<Row<D::Cell, K>>,
    rows: &[Row<D::Cell, K>],
) -> Result<(), EvalFault>
    ensures { let a = annotations K.zero K.one K.plus K.times K.at_most K.weight D.truth_of in PutsRows (flat_map (kept a) (held_entries rows.now)) done.old.items done.new.items result }
{
    for row in rows {
        push_copy::<D, K>(alloc, done, row.0.as_slice(), row.1)?;
    }
    Ok(())
}

/// Copies of the rows of a table.
pub fn copied<D: Domain, K: Weigh<D>>(
    alloc: Global,
    rows: &[Row<D::Cell, K>],
) -> Result<Vec<Row<D::Cell, K>>, EvalFault>
    ensures { MakesRows (held_entries rows.now) result }
{
    let mut done = Vec::new(alloc);
    for row in rows {
        push_exactly::<D, K>(alloc, &mut done, row.0.as_slice(), row.1)?;
    }
    Ok(done)
}
