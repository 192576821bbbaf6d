//! What is kept of an aggregate, for each group.
ghost use Rattle.std.specs.Prelude.{◌≡◌, true, false, IfOk, MatchResult, flat_map, length, map};
ghost use Rattle.au_expr.specs.Figures.{fit};
ghost use Rattle.au_expr.specs.declared.fault.EvalFault.TheVariants as fault;
ghost use Rattle.au_folds.specs.Held.{kept_in, kept_in_all};
ghost use Rattle.au_folds.specs.Kept.{kept_numbers, kept_with, nothing_kept};

use crate::numbers::{add_terms, improve_all};
use au_columns::Batch;
use au_expr::EvalFault;
use au_plain::PAgg;
use au_value::{Adder, Extreme, NoMemory};
use std::alloc::Global;

/// An aggregate's column, with the sums or the best numbers by the groups' places.
#[derive(Drop)]
pub(crate) enum Fold {
    Sum(usize, Vec<Adder>),
    Least(usize, Vec<i128>),
    Greatest(usize, Vec<i128>),
}

/// What is kept where there are no groups.
pub(crate) fn nothing(alloc: Global, aggs: &[PAgg]) -> Result<Vec<Fold>, NoMemory>
    ensures { IfOk result (λ v. kept_in_all v.items ≡ map nothing_kept aggs.now) }
{
    let mut folds = Vec::with_capacity(alloc, aggs.len())?;
    for agg in aggs {
        folds.push(no_groups(alloc, *agg))?;
    }
    Ok(folds)
}

// The same of one aggregate.
fn no_groups(alloc: Global, agg: PAgg) -> Fold
    ensures { kept_in result ≡ nothing_kept agg }
{
    match agg {
        PAgg::Sum(column) => Fold::Sum(column, Vec::new(alloc)),
        PAgg::Min(column) => Fold::Least(column, Vec::new(alloc)),
        PAgg::Max(column) => Fold::Greatest(column, Vec::new(alloc)),
    }
}

/// Puts rows into what is kept of each aggregate, each at its place.
pub(crate) fn put_all(
    alloc: Global,
    folds: &mut [Fold],
    places: &[usize],
    rows: &Batch,
) -> Result<(), EvalFault>
    requires long { length places.now ≡ length rows.now }
    requires fits { fit (flat_map kept_numbers (kept_in_all folds.old)) ≡ true }
    ensures { MatchResult result (λ _. (kept_in_all folds.new ≡ map (kept_with places.now rows.now) (kept_in_all folds.old)) × (fit (flat_map kept_numbers (kept_in_all folds.new)) ≡ true)) (λ f. f ≡ fault.Overflow → fit (flat_map kept_numbers (map (kept_with places.now rows.now) (kept_in_all folds.old))) ≡ false) }
{
    if folds.is_empty() {
        return Ok(());
    }
    put(alloc, &mut folds[0], places, rows)?;
    put_all(alloc, &mut folds[1..], places, rows)
}

// The same of one aggregate.
fn put(alloc: Global, fold: &mut Fold, places: &[usize], rows: &Batch) -> Result<(), EvalFault>
    requires long { length places.now ≡ length rows.now }
    requires fits { fit (kept_numbers (kept_in fold.old)) ≡ true }
    ensures { MatchResult result (λ _. (kept_in fold.new ≡ kept_with places.now rows.now (kept_in fold.old)) × (fit (kept_numbers (kept_in fold.new)) ≡ true)) (λ f. f ≡ fault.Overflow → fit (kept_numbers (kept_with places.now rows.now (kept_in fold.old))) ≡ false) }
{
    match fold {
        Fold::Sum(column, sums) => {
            let terms = rows.numbers(alloc, *column)?;
            add_terms(sums, places, &terms)?;
            Ok(())
        }
        Fold::Least(column, bests) => {
            let numbers = rows.numbers(alloc, *column)?;
            improve_all(Extreme::Least, bests, places, &numbers)?;
            Ok(())
        }
        Fold::Greatest(column, bests) => {
            let numbers = rows.numbers(alloc, *column)?;
            improve_all(Extreme::Greatest, bests, places, &numbers)?;
            Ok(())
        }
    }
}
