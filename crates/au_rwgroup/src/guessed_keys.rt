//! The grouping by guessed keys, on which Distinct and Group stand.
ghost use Rattle.std.specs.Prelude.{◌≡◌, ◌+◌, ◌*◌, ◌<◌, ◌^◌, ◌++◌, ◌∷◌, [], IfOk, OnOk, length, map};
ghost use Rattle.au_plain.specs.PTerms.{pterm};
ghost use Rattle.au_plain.specs.PTerms as term;
ghost use Rattle.au_plain.specs.Plans.{plan_tree};
ghost use Rattle.au_rwexpr.specs.Cells.{cell_places, run};
ghost use Rattle.au_rwexpr.specs.Counts.{one_term, positive as is_positive, zero_term};
ghost use Rattle.au_plain.specs.Plans.{extend_all as extended};
ghost use Rattle.au_rwexpr.specs.Flatten.{hi, lo, sg};
ghost use Rattle.au_combine.specs.Boxes.{boxes as boxed};
ghost use Rattle.au_rwgroup.specs.Groups.{all_sure as are_sure, first_aggs, first_grouping as grouped, group_columns as counting};

use crate::count_terms::{all_sure, one, positive, zero};
use au_combine::{boxes, push_run};
use au_plain::{PAgg, PExpr, Plan, add, and, case, extend, extend_all, keep};
use au_rwexpr::{RangeColumns, behind, push_cells};
use au_value::{NoMemory, beside, both};
use std::alloc::Global;

/// One row for each list of guesses of the first so many columns of a plan's rows: the hulls of these keys, the triple
/// of the group, and further aggregates over the rows that have the guesses.
///
/// The first `columns` ranges of the plan's rows are followed by the triple. The aggregates are over these columns.
/// `NoMemory` comes also where a row cannot have so many columns.
pub(crate) fn first_grouping(
    alloc: Global,
    of: Plan,
    columns: usize,
    keys: usize,
    kept: Vec<PAgg>,
) -> Result<Plan, NoMemory>
    ensures { IfOk result (λ p. plan_tree p ≡ grouped columns keys kept.items (plan_tree of)) }
{
    let further = kept.len();
    let groups = counted_boxes(alloc, of, columns, keys, kept)?;
    let (most, groups) = beside(most_of_both(alloc, keys), groups)?;
    let summed = extend(alloc, most, groups)?;
    let (places, summed) = beside(group_places(alloc, keys, further), summed)?;
    keep(alloc, places, summed)
}

// The boxes of the keys, with what tells of the triple of the group, and then the further aggregates.
fn counted_boxes(
    alloc: Global,
    of: Plan,
    columns: usize,
    keys: usize,
    kept: Vec<PAgg>,
) -> Result<Plan, NoMemory>
    ensures { IfOk result (λ p. plan_tree p ≡ boxed keys (first_aggs (3 * columns + 3) kept.items) (extended (counting columns keys) (plan_tree of))) }
{
    let aggs = group_aggregates(alloc, columns, kept);
    let parts = both(group_columns(alloc, columns, keys), aggs);
    let ((added, aggs), of) = beside(parts, of)?;
    let (wide, aggs) = beside(extend_all(alloc, added, of), aggs)?;
    boxes(alloc, wide, keys, aggs)
}

/// What a row adds to the triple of its group, for so many columns and keys.
///
/// `NoMemory` comes also where a row cannot have so many columns.
pub fn group_columns(alloc: Global, columns: usize, keys: usize) -> Result<Vec<PExpr>, NoMemory>
    ensures { IfOk result (λ v. map pterm v.items ≡ counting columns keys) }
{
    let triple = RangeColumns::of(columns)?;
    let counted = both(
        least_column(alloc, triple, keys),
        guess_column(alloc, triple),
    );
    let by_keys = both(unsure_column(alloc, triple, keys), sure_column(alloc, keys));
    let ((least, guess), (unsure, sure)) = both(counted, by_keys)?;
    four(alloc, least, guess, unsure, sure)
}

// 1 where a copy is in the guess world.
fn guess_column(alloc: Global, triple: RangeColumns) -> Result<PExpr, NoMemory>
    ensures { IfOk result (λ e. pterm e ≡ term.Case (is_positive (sg triple.first)) one_term zero_term) }
{
    let there = positive(alloc, triple.sg())?;
    case(alloc, there, one(), zero())
}

// The most copies where the keys are unsure.
fn unsure_column(alloc: Global, triple: RangeColumns, keys: usize) -> Result<PExpr, NoMemory>
    ensures { IfOk result (λ e. pterm e ≡ term.Case (are_sure 0 keys) zero_term (hi triple.first)) }
{
    let sure = sure_keys(alloc, keys)?;
    case(alloc, sure, zero(), triple.hi())
}

// 1 where the keys are sure.
fn sure_column(alloc: Global, keys: usize) -> Result<PExpr, NoMemory>
    ensures { IfOk result (λ e. pterm e ≡ term.Case (are_sure 0 keys) one_term zero_term) }
{
    let sure = sure_keys(alloc, keys)?;
    case(alloc, sure, one(), zero())
}

/// Four terms as a list.
pub(crate) fn four(
    alloc: Global,
    a: PExpr,
    b: PExpr,
    c: PExpr,
    d: PExpr,
) -> Result<Vec<PExpr>, NoMemory>
    ensures { IfOk result (λ v. v.items ≡ a ∷ b ∷ c ∷ d ∷ []) }
{
    let held = (a, b, c, d);
    let (mut all, (a, b, c, d)) = beside(Vec::with_capacity(alloc, 4), held)?;
    let (_, (b, c, d)) = beside(all.push(a), (b, c, d))?;
    let (_, (c, d)) = beside(all.push(b), (c, d))?;
    let (_, d) = beside(all.push(c), d)?;
    all.push(d)?;
    Ok(all)
}

// 1 where the keys are sure and a copy is in every world.
fn least_column(alloc: Global, triple: RangeColumns, keys: usize) -> Result<PExpr, NoMemory>
    ensures { IfOk result (λ e. pterm e ≡ term.Case (term.And (are_sure 0 keys) (is_positive (lo triple.first))) one_term zero_term) }
{
    let parts = both(sure_keys(alloc, keys), positive(alloc, triple.lo()));
    let (sure, there) = parts?;
    let surely = and(alloc, sure, there)?;
    case(alloc, surely, one(), zero())
}

fn sure_keys(alloc: Global, keys: usize) -> Result<PExpr, NoMemory>
    ensures { IfOk result (λ e. pterm e ≡ are_sure 0 keys) }
{
    all_sure(alloc, RangeColumns::at(0)?, keys)
}

// The aggregates over the added columns, and then further ones.
fn group_aggregates(alloc: Global, columns: usize, kept: Vec<PAgg>) -> Result<Vec<PAgg>, NoMemory>
    ensures { IfOk result (λ v. v.items ≡ first_aggs (3 * columns + 3) kept.items) }
{
    let new = behind(RangeColumns::of(columns)?)?;
    let last = behind(new)?;
    let mut aggs = Vec::new(alloc);
    aggs.push(PAgg::Max(new.first))?;
    aggs.push(PAgg::Max(new.first + 1))?;
    aggs.push(PAgg::Sum(new.first + 2))?;
    aggs.push(PAgg::Max(last.first))?;
    push_all(&mut aggs, kept)?;
    Ok(aggs)
}

/// Adds further aggregates.
pub fn push_all(aggs: &mut Vec<PAgg>, more: Vec<PAgg>) -> Result<(), NoMemory>
    ensures { OnOk result (aggs.new.items ≡ aggs.old.items ++ more.items) }
{
    for agg in more {
        aggs.push(agg)?;
    }
    Ok(())
}

// The copies where the keys are unsure, and one where some are sure.
fn most_of_both(alloc: Global, keys: usize) -> Result<PExpr, NoMemory>
    ensures { IfOk result (λ e. pterm e ≡ term.Add (term.Column (3 * keys + 2)) (term.Column (3 * keys + 3))) }
{
    let counts = RangeColumns::of(keys)?;
    let last = behind(counts)?;
    add(alloc, counts.hi(), last.lo())
}

// The places of the hulls, of the triple, whose sum stands behind all columns, and of so many further columns.
fn group_places(alloc: Global, keys: usize, further: usize) -> Result<Vec<usize>, NoMemory>
    ensures { IfOk result (λ v. v.items ≡ cell_places 0 keys ++ (3 * keys ∷ (3 * keys + 1) ∷ (3 * keys + 4 + further) ∷ run (3 * keys + 4) further)) }
{
    let counts = RangeColumns::of(keys)?;
    let last = behind(counts)?;
    let Some(sum) = (last.first + 1).checked_add(further) else {
        return Err(NoMemory);
    };
    let mut places = Vec::new(alloc);
    push_cells(&mut places, 0, keys)?;
    places.push(counts.first)?;
    places.push(counts.first + 1)?;
    places.push(sum)?;
    push_run(&mut places, last.first + 1, further)?;
    Ok(places)
}
