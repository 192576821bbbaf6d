//! Select: each row's annotation times its condition's.
ghost use Rattle.std.specs.List.{AllByRecursion};
ghost use Rattle.au_expr.specs.Terms.{term};
ghost use Rattle.au_algebra.specs.Entries.{entry};
ghost use Rattle.au_keval.specs.Evaluation.{rows_in};
ghost use Rattle.au_keval.specs.Held.{held_entry, held_entries};
ghost use Rattle.au_keval.specs.Passes.{IsCondition, Weighs, SelectsOne, SelectsAll};
ghost use Rattle.au_keval.specs.Reading.{annotations};

use crate::row::{Row, push, push_copy};
use crate::rows::Rows;
use crate::weigh::Weigh;
use au_expr::{Domain, EvalFault, Expr, evaluate};
use std::alloc::Global;

// The annotation of a row with these cells, times the condition's.
fn weighed<D: Domain, K: Weigh<D>>(
    condition: &Expr,
    cells: &[D::Cell],
    annot: K,
) -> Result<K, EvalFault>
where
    D::Truth: Drop,
    requires { IsCondition D.is_kind (term condition.now) (entry cells.now annot) }
    ensures { let a = annotations K.zero K.one K.plus K.times K.at_most K.weight D.truth_of in Weighs D.operators D.figures a K.in_range K.IsValid (term condition.now) (entry cells.now annot) result }
{
    let flag = evaluate::<D>(condition, cells)?;
    let truth = D::truth(&flag);
    Ok(annot.times(K::weight(&truth))?)
}

// Puts a copy of the row behind the others, unless its annotation becomes zero.
fn select_lent<D: Domain, K: Weigh<D>>(
    alloc: Global,
    condition: &Expr,
    row: &Row<D::Cell, K>,
    done: &mut Vec<Row<D::Cell, K>>,
) -> Result<(), EvalFault>
where
    D::Truth: Drop,
    requires { IsCondition D.is_kind (term condition.now) (held_entry row.now) }
    ensures { let a = annotations K.zero K.one K.plus K.times K.at_most K.weight D.truth_of in SelectsOne D.operators D.figures a K.in_range K.IsValid (term condition.now) (held_entry row.now) done.old.items done.new.items result }
{
    let annot = weighed::<D, K>(condition, row.0.as_slice(), row.1)?;
    push_copy::<D, K>(alloc, done, row.0.as_slice(), annot)
}

// Puts the row behind the others, unless its annotation becomes zero.
fn select_made<D: Domain, K: Weigh<D>>(
    condition: &Expr,
    row: Row<D::Cell, K>,
    done: &mut Vec<Row<D::Cell, K>>,
) -> Result<(), EvalFault>
where
    D::Truth: Drop,
    requires { IsCondition D.is_kind (term condition.now) (held_entry row) }
    ensures { let a = annotations K.zero K.one K.plus K.times K.at_most K.weight D.truth_of in SelectsOne D.operators D.figures a K.in_range K.IsValid (term condition.now) (held_entry row) done.old.items done.new.items result }
{
    let (cells, annot) = row;
    let annot = weighed::<D, K>(condition, cells.as_slice(), annot)?;
    push::<D, K>(done, cells, annot)
}

// Copies of the rows, without those whose annotation becomes zero.
fn select_from<D: Domain, K: Weigh<D>>(
    alloc: Global,
    condition: &Expr,
    rows: &[Row<D::Cell, K>],
) -> Result<Vec<Row<D::Cell, K>>, EvalFault>
where
    D::Truth: Drop,
    requires { AllByRecursion (IsCondition D.is_kind (term condition.now)) (held_entries rows.now) }
    ensures { let a = annotations K.zero K.one K.plus K.times K.at_most K.weight D.truth_of in SelectsAll D.operators D.figures a K.in_range K.IsValid (term condition.now) (held_entries rows.now) result }
{
    let mut done = Vec::new(alloc);
    for row in rows {
        select_lent::<D, K>(alloc, condition, row, &mut done)?;
    }
    Ok(done)
}

// The rows, without those whose annotation becomes zero.
fn select_of<D: Domain, K: Weigh<D>>(
    alloc: Global,
    condition: &Expr,
    rows: Vec<Row<D::Cell, K>>,
) -> Result<Vec<Row<D::Cell, K>>, EvalFault>
where
    D::Truth: Drop,
    requires { AllByRecursion (IsCondition D.is_kind (term condition.now)) (held_entries rows.items) }
    ensures { let a = annotations K.zero K.one K.plus K.times K.at_most K.weight D.truth_of in SelectsAll D.operators D.figures a K.in_range K.IsValid (term condition.now) (held_entries rows.items) result }
{
    let mut done = Vec::new(alloc);
    for row in rows {
        select_made::<D, K>(condition, row, &mut done)?;
    }
    Ok(done)
}

/// The rows with their annotation times the condition's, without those whose annotation becomes zero.
pub fn select<D: Domain, K: Weigh<D>>(
    alloc: Global,
    condition: &Expr,
    rows: Rows<'_, D::Cell, K>,
) -> Result<Vec<Row<D::Cell, K>>, EvalFault>
where
    D::Truth: Drop,
    requires { AllByRecursion (IsCondition D.is_kind (term condition.now)) (rows_in rows) }
    ensures { let a = annotations K.zero K.one K.plus K.times K.at_most K.weight D.truth_of in SelectsAll D.operators D.figures a K.in_range K.IsValid (term condition.now) (rows_in rows.entry) result }
{
    match rows {
        Rows::Lent(rows) => select_from::<D, K>(alloc, condition, rows),
        Rows::Made(rows) => select_of::<D, K>(alloc, condition, rows),
    }
}
