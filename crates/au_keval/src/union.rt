//! Union: the left rows and the right rows.
ghost use Rattle.std.specs.Prelude.{◌≡◌, ◌++◌, MatchResult, flat_map};
ghost use Rattle.au_expr.specs.declared.fault.EvalFault.TheVariants as fault;
ghost use Rattle.au_keval.specs.Evaluation.{rows_in, IsPresent};
ghost use Rattle.au_keval.specs.Held.{MakesRows, PutsRows};
ghost use Rattle.au_keval.specs.Passes.{kept};
ghost use Rattle.au_keval.specs.Reading.{annotations};

use crate::row::Row;
use crate::rows::{Rows, push_present};
use crate::weigh::Weigh;
use au_expr::{Domain, EvalFault};
use std::alloc::Global;

// The rows, as they are where an operator made them.
fn owned<D: Domain, K: Weigh<D>>(
    alloc: Global,
    rows: Rows<'_, D::Cell, K>,
) -> Result<Vec<Row<D::Cell, K>>, EvalFault>
    requires { IsPresent (annotations K.zero K.one K.plus K.times K.at_most K.weight D.truth_of) rows }
    ensures { let a = annotations K.zero K.one K.plus K.times K.at_most K.weight D.truth_of in MakesRows (flat_map (kept a) (rows_in rows.entry)) result }
{
    match rows {
        Rows::Lent(rows) => {
            let mut done = Vec::new(alloc);
            push_present::<D, K>(alloc, &mut done, rows)?;
            Ok(done)
        }
        Rows::Made(rows) => Ok(rows),
    }
}

// Moves the rows behind others.
fn append<C: Drop, K: Drop>(
    done: &mut Vec<Row<C, K>>,
    rows: Vec<Row<C, K>>,
) -> Result<(), EvalFault>
    ensures { MatchResult result (λ _. done.new.items ≡ done.old.items ++ rows.items) (λ f. f ≡ fault.NoMemory) }
{
    let mut rows = rows;
    match done.append(&mut rows) {
        Ok(()) => Ok(()),
        Err(_) => Err(EvalFault::NoMemory),
    }
}

// Puts the rows behind others.
fn push_rows<D: Domain, K: Weigh<D>>(
    alloc: Global,
    done: &mut Vec<Row<D::Cell, K>>,
    rows: Rows<'_, D::Cell, K>,
) -> Result<(), EvalFault>
    requires { IsPresent (annotations K.zero K.one K.plus K.times K.at_most K.weight D.truth_of) rows }
    ensures { let a = annotations K.zero K.one K.plus K.times K.at_most K.weight D.truth_of in PutsRows (flat_map (kept a) (rows_in rows.entry)) done.old.items done.new.items result }
{
    match rows {
        Rows::Lent(rows) => push_present::<D, K>(alloc, done, rows),
        Rows::Made(rows) => append(done, rows),
    }
}

/// The left rows and the right rows, without those of annotation zero.
pub fn union<D: Domain, K: Weigh<D>>(
    alloc: Global,
    left: Rows<'_, D::Cell, K>,
    right: Rows<'_, D::Cell, K>,
) -> Result<Vec<Row<D::Cell, K>>, EvalFault>
    requires left { IsPresent (annotations K.zero K.one K.plus K.times K.at_most K.weight D.truth_of) left }
    requires right { IsPresent (annotations K.zero K.one K.plus K.times K.at_most K.weight D.truth_of) right }
    ensures { let a = annotations K.zero K.one K.plus K.times K.at_most K.weight D.truth_of in MakesRows (flat_map (kept a) (rows_in left.entry) ++ flat_map (kept a) (rows_in right.entry)) result }
{
    let mut done = owned::<D, K>(alloc, left)?;
    push_rows::<D, K>(alloc, &mut done, right)?;
    Ok(done)
}
