//! Groupings as plans.
ghost use Rattle.std.specs.Prelude.{◌≡◌, ◌+◌, ◌*◌, ◌++◌, IfOk};
ghost use Rattle.au_plain.specs.Plans.{plan_tree};
ghost use Rattle.au_plain.specs.Plans as tree;
ghost use Rattle.au_rwexpr.specs.Cells.{run};
ghost use Rattle.au_combine.specs.Boxes.{box_aggs, boxes as boxed, sg_places, weave};

use crate::places::{push_ends, push_guesses, push_run, push_woven};
use au_plain::{PAgg, Plan, keep};
use au_value::{NoMemory, beside, both};
use std::alloc::Global;

/// One row for each list of values in these places: the values, then the aggregates over the rows that have them.
pub fn group(alloc: Global, keys: Vec<usize>, aggs: Vec<PAgg>, plan: Plan) -> Result<Plan, NoMemory>
    ensures { IfOk result (λ p. plan_tree p ≡ tree.Group keys.items aggs.items (plan_tree plan)) }
{
    Ok(Plan::Group(keys, aggs, Box::new(alloc, plan)?))
}

/// One row for each list of guesses of the first so many ranges of a plan's rows: the hulls of these ranges over the
/// rows that have the guesses, then further aggregates over these rows.
///
/// `NoMemory` comes also where a row cannot have so many columns.
pub fn boxes(alloc: Global, of: Plan, columns: usize, further: Vec<PAgg>) -> Result<Plan, NoMemory>
    ensures { IfOk result (λ p. plan_tree p ≡ boxed columns further.items (plan_tree of)) }
{
    let places = box_places(alloc, columns, further.len());
    let (places, groups) = both(places, box_groups(alloc, of, columns, further))?;
    keep(alloc, places, groups)
}

// The rows by the guesses of their ranges, with the ends of these and then the further aggregates.
fn box_groups(alloc: Global, of: Plan, columns: usize, further: Vec<PAgg>) -> Result<Plan, NoMemory>
    ensures { IfOk result (λ p. plan_tree p ≡ tree.Group (sg_places 0 columns) (box_aggs 0 columns ++ further.items) (plan_tree of)) }
{
    let keys = box_keys(alloc, columns);
    let parts = both(keys, box_aggregates(alloc, columns, further));
    let ((keys, aggs), of) = beside(parts, of)?;
    group(alloc, keys, aggs, of)
}

// The places of the guesses.
fn box_keys(alloc: Global, columns: usize) -> Result<Vec<usize>, NoMemory>
    ensures { IfOk result (λ v. v.items ≡ sg_places 0 columns) }
{
    let Some(_ends) = columns.checked_mul(3) else {
        return Err(NoMemory);
    };
    let mut keys = Vec::new(alloc);
    push_guesses(&mut keys, 0, columns)?;
    Ok(keys)
}

// The places of the ranges in a row of guesses, ends and further columns, and then of these.
fn box_places(alloc: Global, columns: usize, further: usize) -> Result<Vec<usize>, NoMemory>
    ensures { IfOk result (λ v. v.items ≡ weave 0 columns columns ++ run (columns + 2 * columns) further) }
{
    let Some(ends) = columns.checked_mul(3) else {
        return Err(NoMemory);
    };
    let Some(_width) = ends.checked_add(further) else {
        return Err(NoMemory);
    };
    let mut places = Vec::new(alloc);
    push_woven(&mut places, 0, columns, columns)?;
    push_run(&mut places, columns + 2 * columns, further)?;
    Ok(places)
}

// The ends of the ranges, and then the further aggregates.
fn box_aggregates(alloc: Global, columns: usize, further: Vec<PAgg>) -> Result<Vec<PAgg>, NoMemory>
    ensures { IfOk result (λ v. v.items ≡ box_aggs 0 columns ++ further.items) }
{
    let Some(_ends) = columns.checked_mul(3) else {
        return Err(NoMemory);
    };
    let mut aggs = Vec::new(alloc);
    push_ends(&mut aggs, 0, columns)?;
    for agg in further {
        aggs.push(agg)?;
    }
    Ok(aggs)
}
