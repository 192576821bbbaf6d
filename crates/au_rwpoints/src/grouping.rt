//! Group and Distinct by points.
ghost use Rattle.std.specs.Prelude.{◌≡◌, ◌≤◌, ◌<◌, ◌+◌, ◌*◌, ◌^◌, IfOk, OnOk, flat_map, length};
ghost use Rattle.au_plain.specs.Plans.{plan_tree};
ghost use Rattle.au_plain.specs.PlanNumbers.{scans};
ghost use Rattle.au_rwgroup.specs.Gives.{Distincts, Groups};
ghost use Rattle.au_rwgroup.specs.GroupPlan.{kept_for};
ghost use Rattle.au_rwpoints.specs.Gives.{DistinctByPoints, GroupsByPoints, PointOutputs};
ghost use Rattle.au_rwpoints.specs.PointPlan.{point_boxes};
ghost use Rattle.au_rwpoints.specs.RowPlans.{guess_plan, other_plan};

use crate::point_boxes::point_boxes as boxes_of;
use crate::row_plans::{guess_rows, other_rows};
use au_algebra::Agg;
use au_plain::{Layout, Plan, copy_plan};
use au_rwcore::union;
use au_rwgroup::{Folding, distinct as distinct_of, group as group_of, group_over};
use au_value::{NoMemory, both};
use std::alloc::Global;

/// One row for each list of guesses of the first so many columns of a plan's rows: these as certain ranges, and the ranges
/// of the aggregates over the rows that may have them; then the groups of the rows with unsure keys, for the groups whose
/// keys nobody guessed.
///
/// The layout is that of the plan's rows. Those of the result have the keys, then a column for each aggregate, and are the
/// same however rows are folded. `NoMemory` comes also where a row cannot have so many columns.
pub fn group(
    alloc: Global,
    of: Plan,
    keys: usize,
    aggs: &[Agg],
    how: Folding,
    layout: &Layout,
) -> Result<Plan, NoMemory>
    ensures gives { IfOk result (λ p. GroupsByPoints layout.now.columns keys aggs.now (plan_tree of) (plan_tree p)) }
    ensures columns { OnOk result (keys + length aggs.now < 2 ^ 64) }
    ensures scans { IfOk result (λ p. scans (plan_tree p) ≤ 4 * scans (plan_tree of)) }
{
    let points = point_groups(alloc, &of, keys, aggs, how, layout);
    let others = other_groups(alloc, of, keys, aggs, how, layout);
    let (points, others) = both(points, others)?;
    let plan = union(alloc, points, others)?;
    Ok(plan)
}

// The outputs of the points.
fn point_groups(
    alloc: Global,
    of: &Plan,
    keys: usize,
    aggs: &[Agg],
    how: Folding,
    layout: &Layout,
) -> Result<Plan, NoMemory>
    ensures gives { IfOk result (λ p. PointOutputs layout.now.columns keys aggs.now (plan_tree of.now) (plan_tree p)) }
    ensures columns { OnOk result (keys + length aggs.now < 2 ^ 64) }
    ensures scans { IfOk result (λ p. scans (plan_tree p) ≤ 2 * scans (plan_tree of.now)) }
{
    let (boxes, rows) = boxes_and_rows(alloc, of, keys, aggs, layout)?;
    let plan = group_over(alloc, boxes, rows, keys, aggs, how, layout)?;
    Ok(plan)
}

// The points of a plan's rows as boxes, and the rows.
fn boxes_and_rows(
    alloc: Global,
    of: &Plan,
    keys: usize,
    aggs: &[Agg],
    layout: &Layout,
) -> Result<(Plan, Plan), NoMemory>
    ensures boxes { IfOk result (λ r. plan_tree r.0 ≡ point_boxes layout.now.columns keys (flat_map kept_for aggs.now) (plan_tree of.now)) }
    ensures rows { IfOk result (λ r. plan_tree r.1 ≡ plan_tree of.now) }
{
    let copy = copy_plan(alloc, of)?;
    let boxes = boxes_of(alloc, copy, layout.columns, keys, aggs);
    let (boxes, rows) = both(boxes, copy_plan(alloc, of))?;
    Ok((boxes, rows))
}

// The groups of the rows with unsure keys.
fn other_groups(
    alloc: Global,
    of: Plan,
    keys: usize,
    aggs: &[Agg],
    how: Folding,
    layout: &Layout,
) -> Result<Plan, NoMemory>
    ensures gives { IfOk result (λ p. Groups layout.now.columns keys aggs.now (other_plan layout.now.columns keys (plan_tree of)) (plan_tree p)) }
    ensures columns { OnOk result (keys + length aggs.now < 2 ^ 64) }
    ensures scans { IfOk result (λ p. scans (plan_tree p) ≤ 2 * scans (plan_tree of)) }
{
    let rows = other_rows(alloc, of, layout.columns, keys)?;
    let plan = group_of(alloc, rows, keys, aggs, how, layout)?;
    Ok(plan)
}

/// One row for each list of guesses of a plan's rows, as certain ranges; then the distinct rows of the rows with unsure
/// ranges, for the rows that nobody guessed.
///
/// The layout is that of the plan's rows, and of the result's. `NoMemory` comes also where a row cannot have so many
/// columns.
pub fn distinct(alloc: Global, of: Plan, layout: &Layout) -> Result<Plan, NoMemory>
    ensures gives { IfOk result (λ p. DistinctByPoints layout.now.columns (plan_tree of) (plan_tree p)) }
    ensures scans { IfOk result (λ p. scans (plan_tree p) ≤ 2 * scans (plan_tree of)) }
{
    let points = distinct_guesses(alloc, &of, layout);
    let others = distinct_others(alloc, of, layout);
    let (points, others) = both(points, others)?;
    let plan = union(alloc, points, others)?;
    Ok(plan)
}

// The distinct guesses of the rows.
fn distinct_guesses(alloc: Global, of: &Plan, layout: &Layout) -> Result<Plan, NoMemory>
    ensures gives { IfOk result (λ p. Distincts layout.now.columns (guess_plan layout.now.columns (plan_tree of.now)) (plan_tree p)) }
    ensures scans { IfOk result (λ p. scans (plan_tree p) ≤ scans (plan_tree of.now)) }
{
    let copy = copy_plan(alloc, of)?;
    let rows = guess_rows(alloc, copy, layout.columns)?;
    let plan = distinct_of(alloc, rows, layout)?;
    Ok(plan)
}

// The distinct rows of those with unsure ranges.
fn distinct_others(alloc: Global, of: Plan, layout: &Layout) -> Result<Plan, NoMemory>
    ensures gives { IfOk result (λ p. Distincts layout.now.columns (other_plan layout.now.columns layout.now.columns (plan_tree of)) (plan_tree p)) }
    ensures scans { IfOk result (λ p. scans (plan_tree p) ≤ scans (plan_tree of)) }
{
    let rows = other_rows(alloc, of, layout.columns, layout.columns)?;
    let plan = distinct_of(alloc, rows, layout)?;
    Ok(plan)
}
