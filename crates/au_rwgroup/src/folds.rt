//! The rows that meet the boxes: those with equal key ranges in one, or each by itself.
ghost use Rattle.std.specs.Prelude.{◌≡◌, ◌+◌, ◌*◌, ◌++◌, ◌∷◌, [], IfOk, OnOk, length, map};
ghost use Rattle.au_algebra.specs.declared.query.Agg.TheVariants as agg;
ghost use Rattle.au_plain.specs.PTerms.{pterm};
ghost use Rattle.au_plain.specs.Plans.{plan_tree};
ghost use Rattle.au_rwexpr.specs.Cells.{cell_places, run};
ghost use Rattle.au_rwexpr.specs.Counts.{zero_term};
ghost use Rattle.au_rwgroup.specs.declared.folding.Folding.TheVariants as folding;
ghost use Rattle.au_rwgroup.specs.Folds.{all_fold_terms, fold_aggs, fold_columns as terms_of, fold_places as places_of, fold_terms, folds as folded};

use crate::count_terms::{positive, times_above, times_below, zero};
use crate::folding::Folding;
use crate::group_aggregates::fold_aggregates;
use au_algebra::Agg;
use au_combine::{group, push_run};
use au_plain::{PAgg, PExpr, Plan, extend_all, keep, multiply};
use au_rwexpr::{RangeColumns, behind, push_cells};
use au_value::{NoMemory, beside, both};
use std::alloc::Global;

/// One row for the rows of a plan that have equal ranges of the first so many columns, and that are alike in whether
/// they surely have a copy and whether they have one in the guess world: these ranges, these two tests, and five
/// values for each aggregate. Or one row with these columns for each row of the plan.
///
/// `NoMemory` comes also where a row cannot have so many columns.
pub(crate) fn folds(
    alloc: Global,
    how: Folding,
    of: Plan,
    columns: usize,
    keys: usize,
    aggs: &[Agg],
) -> Result<Plan, NoMemory>
    ensures { IfOk result (λ p. plan_tree p ≡ folded how columns keys aggs.now (plan_tree of)) }
{
    match how {
        Folding::EqualKeys => of_equal_keys(alloc, of, columns, keys, aggs),
        Folding::Rows => of_rows(alloc, of, columns, keys, aggs),
    }
}

// One row for those with equal key ranges.
fn of_equal_keys(
    alloc: Global,
    of: Plan,
    columns: usize,
    keys: usize,
    aggs: &[Agg],
) -> Result<Plan, NoMemory>
    ensures { IfOk result (λ p. plan_tree p ≡ folded folding.EqualKeys columns keys aggs.now (plan_tree of)) }
{
    let parts = fold_parts(alloc, columns, keys, aggs);
    let ((added, (places, over)), of) = beside(parts, of)?;
    let (wide, (places, over)) = beside(extend_all(alloc, added, of), (places, over))?;
    group(alloc, places, over, wide)
}

// One row for each.
fn of_rows(
    alloc: Global,
    of: Plan,
    columns: usize,
    keys: usize,
    aggs: &[Agg],
) -> Result<Plan, NoMemory>
    ensures { IfOk result (λ p. plan_tree p ≡ folded folding.Rows columns keys aggs.now (plan_tree of)) }
{
    let parts = row_parts(alloc, columns, keys, aggs);
    let ((added, places), of) = beside(parts, of)?;
    let (wide, places) = beside(extend_all(alloc, added, of), places)?;
    keep(alloc, places, wide)
}

// The columns that are added to each row, and the places of the keys, the tests and what the row gives.
fn row_parts(
    alloc: Global,
    columns: usize,
    keys: usize,
    aggs: &[Agg],
) -> Result<(Vec<PExpr>, Vec<usize>), NoMemory>
    ensures added { IfOk result (λ r. map pterm r.0.items ≡ terms_of (3 * columns) aggs.now) }
    ensures places { IfOk result (λ r. r.1.items ≡ places_of columns keys ++ run (3 * columns + 5) (5 * length aggs.now)) }
{
    let triple = RangeColumns::of(columns)?;
    let tests = behind(triple)?;
    let added = fold_columns(alloc, triple, aggs);
    both(added, row_places(alloc, tests, keys, aggs.len()))
}

// The places of the keys, of the two tests, and of five values for each of so many aggregates.
fn row_places(
    alloc: Global,
    tests: RangeColumns,
    keys: usize,
    aggs: usize,
) -> Result<Vec<usize>, NoMemory>
    ensures { IfOk result (λ v. v.items ≡ (cell_places 0 keys ++ (tests.first ∷ (tests.first + 1) ∷ [])) ++ run (tests.first + 2) (5 * aggs)) }
{
    let values = five_each(aggs)?;
    let Some(_end) = (tests.first + 2).checked_add(values) else {
        return Err(NoMemory);
    };
    let mut places = fold_places(alloc, tests, keys)?;
    push_run(&mut places, tests.first + 2, values)?;
    Ok(places)
}

// How many values so many aggregates have. `NoMemory` comes where a row cannot have so many columns.
fn five_each(aggs: usize) -> Result<usize, NoMemory>
    ensures { IfOk result (λ n. n ≡ 5 * aggs) }
{
    match aggs.checked_mul(5) {
        Some(values) => Ok(values),
        None => Err(NoMemory),
    }
}

type Grouping = (Vec<usize>, Vec<PAgg>);

// The columns that are added to each row, the places of the keys and the tests, and the aggregates.
fn fold_parts(
    alloc: Global,
    columns: usize,
    keys: usize,
    aggs: &[Agg],
) -> Result<(Vec<PExpr>, Grouping), NoMemory>
    ensures added { IfOk result (λ r. map pterm r.0.items ≡ terms_of (3 * columns) aggs.now) }
    ensures places { IfOk result (λ r. r.1.0.items ≡ places_of columns keys) }
    ensures over { IfOk result (λ r. r.1.1.items ≡ fold_aggs (3 * columns + 5) aggs.now) }
{
    let triple = RangeColumns::of(columns)?;
    let tests = behind(triple)?;
    let added = fold_columns(alloc, triple, aggs);
    let places = fold_places(alloc, tests, keys);
    let over = fold_aggregates(alloc, tests.first + 2, aggs);
    both(added, both(places, over))
}

// What is added to a row: the two tests, and what it gives to each aggregate.
fn fold_columns(alloc: Global, triple: RangeColumns, aggs: &[Agg]) -> Result<Vec<PExpr>, NoMemory>
    ensures { IfOk result (λ v. map pterm v.items ≡ terms_of triple.first aggs.now) }
{
    let mut columns = Vec::new(alloc);
    columns.push(positive(alloc, triple.lo())?)?;
    columns.push(positive(alloc, triple.sg())?)?;
    push_all_terms(alloc, triple, aggs, &mut columns)?;
    Ok(columns)
}

fn push_all_terms(
    alloc: Global,
    triple: RangeColumns,
    aggs: &[Agg],
    columns: &mut Vec<PExpr>,
) -> Result<(), NoMemory>
    ensures { OnOk result (map pterm columns.new.items ≡ map pterm columns.old.items ++ all_fold_terms triple.first aggs.now) }
{
    for agg in aggs {
        push_terms(alloc, triple, *agg, columns)?;
    }
    Ok(())
}

// Adds what a row gives to one aggregate.
fn push_terms(
    alloc: Global,
    triple: RangeColumns,
    agg: Agg,
    columns: &mut Vec<PExpr>,
) -> Result<(), NoMemory>
    ensures { OnOk result (map pterm columns.new.items ≡ map pterm columns.old.items ++ fold_terms triple.first agg) }
{
    match agg {
        Agg::Sum(column) => push_sum_terms(alloc, triple, column, columns),
        Agg::Min(column) => {
            let cell = RangeColumns::of(column)?;
            push_ends(cell.lo(), cell.sg(), cell.hi(), cell.hi(), columns)
        }
        Agg::Max(column) => {
            let cell = RangeColumns::of(column)?;
            push_ends(cell.hi(), cell.sg(), cell.lo(), cell.lo(), columns)
        }
    }
}

// Adds what a row adds to a sum: as a member that is not certain, and what comes besides where it is certain.
fn push_sum_terms(
    alloc: Global,
    triple: RangeColumns,
    column: usize,
    columns: &mut Vec<PExpr>,
) -> Result<(), NoMemory>
    ensures { OnOk result (map pterm columns.new.items ≡ map pterm columns.old.items ++ fold_terms triple.first (agg.Sum column)) }
{
    let cell = RangeColumns::of(column)?;
    let (low, high) = (cell.first, cell.first + 2);
    columns.push(times_below(alloc, triple.hi(), low)?)?;
    columns.push(multiply(alloc, triple.sg(), cell.sg())?)?;
    columns.push(times_above(alloc, triple.hi(), high)?)?;
    columns.push(times_above(alloc, triple.lo(), low)?)?;
    columns.push(times_below(alloc, triple.lo(), high)?)?;
    Ok(())
}

// Adds four ends of a range, and nothing for a sum.
fn push_ends(
    outer: PExpr,
    guess: PExpr,
    inner: PExpr,
    far: PExpr,
    columns: &mut Vec<PExpr>,
) -> Result<(), NoMemory>
    ensures { OnOk result (map pterm columns.new.items ≡ map pterm columns.old.items ++ (pterm outer ∷ pterm guess ∷ pterm inner ∷ pterm far ∷ zero_term ∷ [])) }
{
    columns.push(outer)?;
    columns.push(guess)?;
    columns.push(inner)?;
    columns.push(far)?;
    columns.push(zero())?;
    Ok(())
}

// The places of the ends of the keys, and of the two tests.
fn fold_places(alloc: Global, tests: RangeColumns, keys: usize) -> Result<Vec<usize>, NoMemory>
    ensures { IfOk result (λ v. v.items ≡ cell_places 0 keys ++ (tests.first ∷ (tests.first + 1) ∷ [])) }
{
    let _end = RangeColumns::of(keys)?;
    let mut places = Vec::new(alloc);
    push_cells(&mut places, 0, keys)?;
    places.push(tests.first)?;
    places.push(tests.first + 1)?;
    Ok(places)
}
