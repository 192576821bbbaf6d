//! The points as boxes of Group's plan.
ghost use Rattle.std.specs.Prelude.{◌≡◌, ◌+◌, ◌*◌, IfOk, flat_map};
ghost use Rattle.au_combine.specs.Boxes.{boxes as boxed};
ghost use Rattle.au_plain.specs.PTerms.{pterm};
ghost use Rattle.au_plain.specs.Plans.{extend_all as extended, plan_tree};
ghost use Rattle.au_rwexpr.specs.Counts.{one_term};
ghost use Rattle.au_rwgroup.specs.Groups.{group_columns as counting};
ghost use Rattle.au_rwgroup.specs.GroupPlan.{kept_for};
ghost use Rattle.au_rwpoints.specs.PointPlan as plan;

use crate::row_places::point_places;
use au_algebra::Agg;
use au_combine::boxes;
use au_plain::{PAgg, PExpr, Plan, extend, extend_all, keep};
use au_rwexpr::{RangeColumns, behind};
use au_rwgroup::{group_columns, kept_aggregates, push_all};
use au_value::{NoMemory, Value, beside, both};
use std::alloc::Global;

/// One row for each list of guesses of the first so many columns of a plan's rows: these as certain ranges, the triple of
/// the point, and what is kept of the rows that guess it for the aggregates.
///
/// `NoMemory` comes also where a row cannot have so many columns.
pub(crate) fn point_boxes(
    alloc: Global,
    of: Plan,
    columns: usize,
    keys: usize,
    aggs: &[Agg],
) -> Result<Plan, NoMemory>
    ensures { IfOk result (λ p. plan_tree p ≡ plan.point_boxes columns keys (flat_map kept_for aggs.now) (plan_tree of)) }
{
    let (kept, of) = beside(kept_aggregates(alloc, aggs), of)?;
    let places = point_places(alloc, keys, kept.len());
    let counted = counted_points(alloc, of, columns, keys, kept);
    let (places, counted) = both(places, counted)?;
    let (once, places) = beside(extend(alloc, one(), counted), places)?;
    keep(alloc, places, once)
}

// The boxes of the keys, with what tells of the triples of their guesses, and then the further aggregates.
fn counted_points(
    alloc: Global,
    of: Plan,
    columns: usize,
    keys: usize,
    kept: Vec<PAgg>,
) -> Result<Plan, NoMemory>
    ensures { IfOk result (λ p. plan_tree p ≡ boxed keys (plan.point_aggs (3 * columns + 3) kept.items) (extended (counting columns keys) (plan_tree of))) }
{
    let over = point_aggregates(alloc, columns, kept);
    let parts = both(group_columns(alloc, columns, keys), over);
    let ((added, over), of) = beside(parts, of)?;
    let (wide, over) = beside(extend_all(alloc, added, of), over)?;
    boxes(alloc, wide, keys, over)
}

// The aggregates over the added columns, and then further ones.
fn point_aggregates(alloc: Global, columns: usize, kept: Vec<PAgg>) -> Result<Vec<PAgg>, NoMemory>
    ensures { IfOk result (λ v. v.items ≡ plan.point_aggs (3 * columns + 3) kept.items) }
{
    let new = behind(RangeColumns::of(columns)?)?;
    let mut over = Vec::new(alloc);
    over.push(PAgg::Max(new.first))?;
    over.push(PAgg::Max(new.first + 1))?;
    push_all(&mut over, kept)?;
    Ok(over)
}

fn one() -> PExpr
    ensures { pterm result ≡ one_term }
{
    PExpr::Literal(Value::Int(1))
}
