//! Difference as a plan.
ghost use Rattle.std.specs.Prelude.{◌≡◌, ◌≤◌, ◌+◌, ◌*◌, ◌++◌, IfOk, map};
ghost use Rattle.au_plain.specs.PTerms.{pterm};
ghost use Rattle.au_plain.specs.Plans.{plan_tree};
ghost use Rattle.au_plain.specs.PlanNumbers.{scans};
ghost use Rattle.au_rwexpr.specs.Cells.{cell_places, run, three_places};
ghost use Rattle.au_rwdiff.specs.Adds.{AddsByDifference};
ghost use Rattle.au_rwdiff.specs.Differences.{difference_plan as subtracted, summed_plan as summed_tree, taken_plan as taken_tree};
ghost use Rattle.au_rwdiff.specs.Gives.{Subtracts};

use crate::columns::{left_columns, no_columns, positive, taken_columns};
use au_combine::{group, push_run, triple_sums};
use au_plain::{Layout, Plan, copy_plan, extend_all, filter, join, keep, union};
use au_rwexpr::{RangeColumns, behind, meets, push_cells, push_three, width_of};
use au_value::NoMemory;
use std::alloc::Global;

/// The rows of a left plan, which gives a combined relation, each less the rows of a right plan.
///
/// The layout is that of both plans' rows, and of the result's. `NoMemory` comes also where a row cannot have so many
/// columns.
pub fn difference(alloc: Global, left: Plan, right: Plan, layout: &Layout) -> Result<Plan, NoMemory>
    ensures gives { IfOk result (λ p. Subtracts layout.now.columns (plan_tree left) (plan_tree right) (plan_tree p)) }
    ensures adds { IfOk result (λ p. AddsByDifference layout.now.columns (plan_tree left) (plan_tree right) (plan_tree p)) }
    ensures scans { IfOk result (λ p. scans (plan_tree p) ≤ 2 * scans (plan_tree left) + scans (plan_tree right)) }
{
    let plan = difference_plan(alloc, left, right, layout)?;
    Ok(plan)
}

fn difference_plan(
    alloc: Global,
    left: Plan,
    right: Plan,
    layout: &Layout,
) -> Result<Plan, NoMemory>
    ensures { IfOk result (λ p. plan_tree p ≡ subtracted layout.now.columns (plan_tree left) (plan_tree right)) }
{
    let width = width_of(layout)?;
    let counts = RangeColumns::of(layout.columns)?;
    let sums = RangeColumns::at(width)?;
    let new = behind(sums)?;
    let places = left_places(alloc, layout.columns, counts, new)?;
    let less = left_columns(alloc, counts, sums)?;
    let summed = summed_plan(alloc, left, right, layout.columns, width)?;
    let rest = extend_all(alloc, less, summed)?;
    keep(
        alloc,
        places,
        filter(alloc, positive(alloc, new.hi())?, rest)?,
    )
}

// Each left row with the sums of what is taken from it, beside three zeros.
fn summed_plan(
    alloc: Global,
    left: Plan,
    right: Plan,
    columns: usize,
    width: usize,
) -> Result<Plan, NoMemory>
    ensures { IfOk result (λ p. plan_tree p ≡ summed_tree columns width (plan_tree left) (plan_tree right)) }
{
    let sums = triple_sums(alloc, RangeColumns::at(width)?)?;
    let mut keys = Vec::new(alloc);
    push_run(&mut keys, 0, width)?;
    let again = copy_plan(alloc, &left)?;
    let taken = taken_plan(alloc, again, right, columns, width)?;
    let zeros = extend_all(alloc, no_columns(alloc)?, left)?;
    group(alloc, keys, sums, union(alloc, zeros, taken)?)
}

// Each left row with what one of its partners takes from it.
fn taken_plan(
    alloc: Global,
    left: Plan,
    right: Plan,
    columns: usize,
    width: usize,
) -> Result<Plan, NoMemory>
    ensures { IfOk result (λ p. plan_tree p ≡ taken_tree columns width (plan_tree left) (plan_tree right)) }
{
    let own = RangeColumns::at(0)?;
    let partner = RangeColumns::at(width)?;
    let counts = beside(width, RangeColumns::of(columns)?)?;
    let places = taken_places(alloc, width, beside(width, partner)?)?;
    let taken = taken_columns(alloc, columns, partner, counts)?;
    let pairs = join(alloc, meets(alloc, own, partner, columns)?, left, right)?;
    keep(alloc, places, extend_all(alloc, taken, pairs)?)
}

// The columns of a right row, behind a left row of this width. `NoMemory` comes where a row cannot have so many.
fn beside(width: usize, columns: RangeColumns) -> Result<RangeColumns, NoMemory>
    ensures { IfOk result (λ r. r.first ≡ width + columns.first) }
{
    match width.checked_add(columns.first) {
        Some(place) => RangeColumns::at(place),
        None => Err(NoMemory),
    }
}

// The places of a left row and of what is taken.
fn taken_places(alloc: Global, width: usize, taken: RangeColumns) -> Result<Vec<usize>, NoMemory>
    ensures { IfOk result (λ places. places.items ≡ run 0 width ++ three_places taken.first) }
{
    let mut places = Vec::new(alloc);
    push_run(&mut places, 0, width)?;
    push_three(&mut places, taken)?;
    Ok(places)
}

// The places of the ranges and of the counts that are left.
fn left_places(
    alloc: Global,
    columns: usize,
    counts: RangeColumns,
    new: RangeColumns,
) -> Result<Vec<usize>, NoMemory>
    requires { counts.first ≡ 3 * columns }
    ensures { IfOk result (λ places. places.items ≡ cell_places 0 columns ++ three_places new.first) }
{
    let mut places = Vec::new(alloc);
    push_cells(&mut places, 0, columns)?;
    push_three(&mut places, new)?;
    Ok(places)
}
