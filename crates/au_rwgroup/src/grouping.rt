//! Group as a plan.
ghost use Rattle.std.specs.Prelude.{◌≡◌, ◌≤◌, ◌*◌, ◌+◌, ◌<◌, ◌^◌, IfOk, OnOk, flat_map, length, map};
ghost use Rattle.au_plain.specs.PTerms.{pterm};
ghost use Rattle.au_plain.specs.Plans.{plan_tree};
ghost use Rattle.au_plain.specs.Plans as tree;
ghost use Rattle.au_plain.specs.PlanNumbers.{scans};
ghost use Rattle.au_rwexpr.specs.Cells.{run};
ghost use Rattle.au_plain.specs.Plans.{extend_all as extended};
ghost use Rattle.au_rwexpr.specs.Meets as meeting;
ghost use Rattle.au_rwgroup.specs.Adds.{AddsByGroup};
ghost use Rattle.au_rwgroup.specs.Gives.{Groups};
ghost use Rattle.au_rwgroup.specs.Folds.{folds as folded};
ghost use Rattle.au_rwgroup.specs.Groups as first;
ghost use Rattle.au_rwgroup.specs.GroupPlan as plan;
ghost use Rattle.au_rwgroup.specs.JoinedPlaces.{places_of};

use crate::folding::Folding;
use crate::folds::folds;
use crate::group_aggregates::{kept_aggregates, member_aggregates};
use crate::group_places::GroupPlaces;
use crate::guessed_keys::first_grouping;
use crate::joined_row::JoinedRow;
use crate::member_columns::all_member_columns;
use crate::result_columns::{all_result_columns, result_places};
use au_algebra::Agg;
use au_combine::{group as grouped, push_run};
use au_plain::{Layout, PAgg, PExpr, Plan, copy_plan, extend_all, join, keep};
use au_rwexpr::{RangeColumns, meets};
use au_value::{NoMemory, beside, both};
use std::alloc::Global;

/// One row for each list of guesses of the first so many columns of a plan's rows: the hulls of these keys, and the
/// ranges of the aggregates over the rows that may belong to them.
///
/// The layout is that of the plan's rows. Those of the result have the keys, then a column for each aggregate, and are
/// the same however rows are folded.
/// `NoMemory` comes also where a row cannot have so many columns.
#[tactic(auto, using(crate::proofs::GroupLaws::group_scans))]
pub fn group(
    alloc: Global,
    of: Plan,
    keys: usize,
    aggs: &[Agg],
    how: Folding,
    layout: &Layout,
) -> Result<Plan, NoMemory>
    ensures gives { IfOk result (λ p. Groups layout.now.columns keys aggs.now (plan_tree of) (plan_tree p)) }
    ensures adds { IfOk result (λ p. AddsByGroup layout.now.columns keys aggs.now (plan_tree of) (plan_tree p)) }
    ensures columns { OnOk result (keys + length aggs.now < 2 ^ 64) }
    ensures scans { IfOk result (λ p. scans (plan_tree p) ≤ 2 * scans (plan_tree of)) }
{
    let plan = group_plan(alloc, of, keys, aggs, how, layout)?;
    Ok(plan)
}

fn group_plan(
    alloc: Global,
    of: Plan,
    keys: usize,
    aggs: &[Agg],
    how: Folding,
    layout: &Layout,
) -> Result<Plan, NoMemory>
    ensures plan { IfOk result (λ p. plan_tree p ≡ plan.group_plan how layout.now.columns keys aggs.now (plan_tree of)) }
    ensures columns { OnOk result (keys + length aggs.now < 2 ^ 64) }
{
    let (boxes, rows) = hulls_and_rows(alloc, of, keys, aggs, layout)?;
    let plan = group_over(alloc, boxes, rows, keys, aggs, how, layout)?;
    Ok(plan)
}

// The hulls of the keys of a plan's rows, with their triples and what is kept for the aggregates, and the plan.
fn hulls_and_rows(
    alloc: Global,
    of: Plan,
    keys: usize,
    aggs: &[Agg],
    layout: &Layout,
) -> Result<(Plan, Plan), NoMemory>
    ensures hulls { IfOk result (λ r. plan_tree r.0 ≡ first.first_grouping layout.now.columns keys (flat_map plan.kept_for aggs.now) (plan_tree of)) }
    ensures rows { IfOk result (λ r. plan_tree r.1 ≡ plan_tree of) }
{
    let (rows, of) = beside(copy_plan(alloc, &of), of)?;
    let (kept, (rows, of)) = beside(kept_aggregates(alloc, aggs), (rows, of))?;
    let hulls = first_grouping(alloc, of, layout.columns, keys, kept);
    let (hulls, rows) = beside(hulls, rows)?;
    Ok((hulls, rows))
}

/// The outputs of boxes over the rows of a plan that overlap them.
///
/// The boxes have the ranges of so many keys, their triples, and the aggregates of [`kept_aggregates`] over the rows that
/// belong to them. The layout is that of the plan's rows. `NoMemory` comes also where a row cannot have so many columns.
pub fn group_over(
    alloc: Global,
    boxes: Plan,
    of: Plan,
    keys: usize,
    aggs: &[Agg],
    how: Folding,
    layout: &Layout,
) -> Result<Plan, NoMemory>
    ensures plan { IfOk result (λ p. plan_tree p ≡ plan.group_over how layout.now.columns keys aggs.now (plan_tree boxes) (plan_tree of)) }
    ensures columns { OnOk result (keys + length aggs.now < 2 ^ 64) }
{
    let (kept, (boxes, of)) = beside(kept_columns(alloc, aggs), (boxes, of))?;
    let places = GroupPlaces::of(keys, kept, aggs.len());
    let (places, (boxes, of)) = beside(places, (boxes, of))?;
    let columns = all_result_columns(alloc, places.tests(), places.joined.fold, aggs);
    let shown = result_places(alloc, places.triple, keys, places.there + 1, places.aggs);
    let groups = with_members(alloc, how, boxes, of, layout.columns, places, aggs);
    let (shown, (columns, groups)) = both(shown, both(columns, groups))?;
    let (made, shown) = beside(extend_all(alloc, columns, groups), shown)?;
    keep(alloc, shown, made)
}

// How many columns are kept for the aggregates.
fn kept_columns(alloc: Global, aggs: &[Agg]) -> Result<usize, NoMemory>
    ensures { IfOk result (λ n. n ≡ length (flat_map plan.kept_for aggs.now)) }
{
    let kept = kept_aggregates(alloc, aggs)?;
    Ok(kept.len())
}

// Each box with the results over the folds that overlap it.
fn with_members(
    alloc: Global,
    how: Folding,
    boxes: Plan,
    of: Plan,
    columns: usize,
    places: GroupPlaces,
    aggs: &[Agg],
) -> Result<Plan, NoMemory>
    requires aggs { places.aggs ≡ length aggs.now }
    requires kept { places.triple.first + 3 + 2 * length aggs.now < 2 ^ 64 }
    ensures { IfOk result (λ p. plan_tree p ≡ plan.second_grouping places.joined.keys places.joined.fold (plan.all_member_columns (places_of places.joined) (places.triple.first + 3) aggs.now) (plan.all_member_aggs (places.joined.tests + 4) aggs.now) (plan_tree boxes) (folded how columns places.joined.keys aggs.now (plan_tree of))) }
{
    let joined = places.joined;
    let rows = folds(alloc, how, of, columns, joined.keys, aggs);
    let parts = both(member_parts(alloc, places, aggs), rows);
    let (((added, over), rows), boxes) = beside(parts, boxes)?;
    second_grouping(alloc, joined, added, over, boxes, rows)
}

// The columns that are added to each pair, and the aggregates over them.
fn member_parts(
    alloc: Global,
    places: GroupPlaces,
    aggs: &[Agg],
) -> Result<(Vec<PExpr>, Vec<PAgg>), NoMemory>
    requires aggs { places.aggs ≡ length aggs.now }
    requires kept { places.triple.first + 3 + 2 * length aggs.now < 2 ^ 64 }
    ensures added { IfOk result (λ r. map pterm r.0.items ≡ plan.all_member_columns (places_of places.joined) (places.triple.first + 3) aggs.now) }
    ensures over { IfOk result (λ r. r.1.items ≡ plan.all_member_aggs (places.joined.tests + 4) aggs.now) }
{
    let joined = places.joined;
    let added = all_member_columns(alloc, joined, places.triple.first + 3, aggs);
    let over = member_aggregates(alloc, joined.behind_tests(), aggs);
    let (added, over) = both(added, over)?;
    Ok((added, over))
}

// The boxes joined with the folds that overlap them, with further columns, grouped by the boxes.
fn second_grouping(
    alloc: Global,
    joined: JoinedRow,
    columns: Vec<PExpr>,
    aggs: Vec<PAgg>,
    boxes: Plan,
    folds: Plan,
) -> Result<Plan, NoMemory>
    ensures { IfOk result (λ p. plan_tree p ≡ plan.second_grouping joined.keys joined.fold (map pterm columns.items) aggs.items (plan_tree boxes) (plan_tree folds)) }
{
    let wide = member_pairs(alloc, joined, columns, boxes, folds);
    let (wide, aggs) = beside(wide, aggs)?;
    let (keys, (wide, aggs)) = beside(box_places(alloc, joined), (wide, aggs))?;
    grouped(alloc, keys, aggs, wide)
}

// The boxes joined with the folds that overlap them, with further columns.
fn member_pairs(
    alloc: Global,
    joined: JoinedRow,
    columns: Vec<PExpr>,
    boxes: Plan,
    folds: Plan,
) -> Result<Plan, NoMemory>
    ensures { IfOk result (λ p. plan_tree p ≡ extended (map pterm columns.items) (tree.Join (meeting.meets_term joined.fold 0 joined.keys) (plan_tree boxes) (plan_tree folds))) }
{
    let held = (boxes, folds, columns);
    let (overlap, (boxes, folds, columns)) = beside(box_overlap(alloc, joined), held)?;
    let (pairs, columns) = beside(join(alloc, overlap, boxes, folds), columns)?;
    extend_all(alloc, columns, pairs)
}

// Whether the fold overlaps the box.
fn box_overlap(alloc: Global, joined: JoinedRow) -> Result<PExpr, NoMemory>
    ensures { IfOk result (λ e. pterm e ≡ meeting.meets_term joined.fold 0 joined.keys) }
{
    let fold = RangeColumns::at(joined.fold)?;
    meets(alloc, fold, RangeColumns::at(0)?, joined.keys)
}

// The places of the box.
fn box_places(alloc: Global, joined: JoinedRow) -> Result<Vec<usize>, NoMemory>
    ensures { IfOk result (λ v. v.items ≡ run 0 joined.fold) }
{
    let mut keys = Vec::new(alloc);
    push_run(&mut keys, 0, joined.fold)?;
    Ok(keys)
}
