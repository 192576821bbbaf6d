//! Project: each row's list of item values.
ghost use Rattle.std.specs.Prelude.{map};
ghost use Rattle.std.specs.List.{AllByRecursion};
ghost use Rattle.au_expr.specs.Terms.{term};
ghost use Rattle.au_keval.specs.Held.{held_entry, held_entries};
ghost use Rattle.au_keval.specs.Passes.{HaveKinds, HasSomeKind, PutsItem, HasItems, ProjectsOne, ProjectsAll};
ghost use Rattle.au_keval.specs.Reading.{annotations};

use crate::row::{Row, push};
use crate::weigh::Weigh;
use au_expr::{Domain, EvalFault, Expr, evaluate};
use std::alloc::Global;

// Puts the value of the item behind others.
fn push_value<D: Domain>(
    item: &Expr,
    row: &[D::Cell],
    done: &mut Vec<D::Cell>,
) -> Result<(), EvalFault>
    requires { HasSomeKind D.is_kind row.now (term item.now) }
    ensures { PutsItem D.operators D.figures D.is_kind row.now (term item.now) done.old.items done.new.items result }
{
    let value = evaluate::<D>(item, row)?;
    match done.push(value) {
        Ok(()) => Ok(()),
        Err(_) => Err(EvalFault::NoMemory),
    }
}

// The values of the items on the row.
fn values<D: Domain>(
    alloc: Global,
    items: &[Expr],
    row: &[D::Cell],
) -> Result<Vec<D::Cell>, EvalFault>
    requires { AllByRecursion (HasSomeKind D.is_kind row.now) (map term items.now) }
    ensures { HasItems D.operators D.figures D.is_kind row.now (map term items.now) result }
{
    let mut done = Vec::new(alloc);
    for item in items {
        push_value::<D>(item, row, &mut done)?;
    }
    Ok(done)
}

// Puts the row's items behind others, unless its annotation is zero.
fn project_row<D: Domain, K: Weigh<D>>(
    alloc: Global,
    items: &[Expr],
    row: &Row<D::Cell, K>,
    done: &mut Vec<Row<D::Cell, K>>,
) -> Result<(), EvalFault>
    requires { HaveKinds D.is_kind (map term items.now) (held_entry row.now) }
    ensures { let a = annotations K.zero K.one K.plus K.times K.at_most K.weight D.truth_of in ProjectsOne D.operators D.figures a K.in_range D.is_kind (map term items.now) (held_entry row.now) done.old.items done.new.items result }
{
    let cells = values::<D>(alloc, items, row.0.as_slice())?;
    push::<D, K>(done, cells, row.1)
}

/// The items of each row, without rows of annotation zero.
pub fn project<D: Domain, K: Weigh<D>>(
    alloc: Global,
    items: &[Expr],
    rows: &[Row<D::Cell, K>],
) -> Result<Vec<Row<D::Cell, K>>, EvalFault>
    requires { AllByRecursion (HaveKinds D.is_kind (map term items.now)) (held_entries rows.now) }
    ensures { let a = annotations K.zero K.one K.plus K.times K.at_most K.weight D.truth_of in ProjectsAll D.operators D.figures a K.in_range D.is_kind (map term items.now) (held_entries rows.now) result }
{
    let mut done = Vec::new(alloc);
    for row in rows {
        project_row::<D, K>(alloc, items, row, &mut done)?;
    }
    Ok(done)
}
