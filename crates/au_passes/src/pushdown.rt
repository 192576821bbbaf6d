//! Conjuncts of filters, moved towards the tables.
ghost use Rattle.std.specs.Prelude.{◌≡◌, ◌++◌, IfOk, None, Some, filter, flat_map, if◌then◌else◌, map, not, option_map};
ghost use Rattle.au_plain.specs.PTerms.{pterm};
ghost use Rattle.au_plain.specs.Plans.{plan_tree};
ghost use Rattle.au_passes.specs.Conditions.{conjuncts};
ghost use Rattle.au_passes.specs.Keeps.{Keeps};
ghost use Rattle.au_passes.specs.Places.{column_in, is_among};
ghost use Rattle.au_passes.specs.Pushing.{
  above_column,
  below_column,
  can_follow,
  filtered_by,
  follow,
  on_both,
  on_left,
  on_right,
  pushed,
  reading_more,
  reading_only,
  strengthened,
};
ghost use Rattle.au_passes.specs.Tests.{movable, staying, with_columns, without_arithmetic};
ghost use Rattle.au_plain.specs.Widths.{plan_width};

use crate::columns::{
    Change, Places, all_changed, are_light, are_reading_only, changed, is_reading_only,
    is_without_arithmetic,
};
use crate::conjuncts::{condition_of, push_conjuncts};
use au_plain::{PExpr, Plan, copy_expr, extend, group, join, keep, union, width_of};
use au_value::{NoMemory, beside, both};
use std::alloc::Global;

/// The plan with the conjuncts of its filters tested as near to the tables as they can be, with the same rows in the
/// same order.
///
/// Conjuncts with arithmetic stay where they are: a plan without them leaves the range only where the given one does.
/// `NoMemory` comes also where a row cannot have so many columns.
#[tactic(auto, using(crate::proofs::PushLaws::push_keeps))]
pub fn push(alloc: Global, plan: Plan) -> Result<Plan, NoMemory>
    ensures plan { IfOk result (λ q. plan_tree q ≡ pushed (plan_tree plan)) }
    ensures keeps { IfOk result (λ q. Keeps (plan_tree plan) (plan_tree q)) }
{
    let (width, plan) = beside(columns_of(&plan), plan)?;
    let made = strengthen(alloc, plan, width, Vec::new(alloc))?;
    Ok(made)
}

// Some tests, parted by the columns that they read.
#[derive(Drop)]
struct Parted {
    only: Vec<PExpr>,
    more: Vec<PExpr>,
}

// Tests below a column that is added, and above it.
#[derive(Drop)]
struct Around {
    below: Vec<PExpr>,
    above: Vec<PExpr>,
}

// Tests, and the conjuncts of a condition that stay where it is.
#[derive(Drop)]
struct Added {
    tests: Vec<PExpr>,
    staying: Vec<PExpr>,
}

// Tests on pairs: of the left rows, of the right rows, and those that stay on both.
#[derive(Drop)]
struct Sides {
    left: Vec<PExpr>,
    right: Vec<PExpr>,
    both: Vec<PExpr>,
}

// The plan of the rows that pass each of the tests. The plan's rows have so many columns.
fn strengthen(alloc: Global, plan: Plan, width: usize, tests: Vec<PExpr>) -> Result<Plan, NoMemory>
    ensures { IfOk result (λ q. plan_tree q ≡ strengthened width (map pterm tests.items) (plan_tree plan)) }
{
    match plan {
        Plan::Scan(table, columns) => filter_by(alloc, tests, Plan::Scan(table, columns)),
        Plan::Rows(columns, rows) => filter_by(alloc, tests, Plan::Rows(columns, rows)),
        Plan::Extend(column, of) => {
            let of = Box::into_inner(of);
            let place = width.saturating_sub(1);
            let around = around_column(alloc, place, &column, tests)?;
            let below = strengthen(alloc, of, place, around.below)?;
            filter_by(alloc, around.above, extend(alloc, column, below)?)
        }
        Plan::Keep(places, of) => {
            let of = Box::into_inner(of);
            let renamed = all_changed(alloc, &Change::Renamed(places.as_slice()), &tests)?;
            let columns = columns_of(&of)?;
            let below = strengthen(alloc, of, columns, renamed)?;
            keep(alloc, places, below)
        }
        Plan::Filter(condition, of) => {
            let added = with_conjuncts(alloc, tests, condition)?;
            let below = strengthen(alloc, Box::into_inner(of), width, added.tests)?;
            filter_by(alloc, added.staying, below)
        }
        Plan::Join(condition, left, right) => {
            let left = Box::into_inner(left);
            let right = Box::into_inner(right);
            let more = columns_of(&right)?;
            let first = width.saturating_sub(more);
            let sides = sides_of(alloc, first, tests, condition)?;
            let a = strengthen(alloc, left, first, sides.left);
            let b = strengthen(alloc, right, more, sides.right);
            let made = both(condition_of(alloc, sides.both), both(a, b))?;
            join(alloc, made.0, made.1.0, made.1.1)
        }
        Plan::Union(left, right) => {
            let right = Box::into_inner(right);
            let columns = columns_of(&right)?;
            let copies = copies_of(alloc, &tests)?;
            let a = strengthen(alloc, Box::into_inner(left), width, copies);
            let b = strengthen(alloc, right, columns, tests);
            let made = both(a, b)?;
            union(alloc, made.0, made.1)
        }
        Plan::Group(keys, aggs, of) => {
            let of = Box::into_inner(of);
            let columns = columns_of(&of)?;
            let below = strengthen(alloc, of, columns, Vec::new(alloc))?;
            filter_by(alloc, tests, group(alloc, keys, aggs, below)?)
        }
    }
}

// How many columns a plan's rows have. `NoMemory` comes where a row cannot have so many.
fn columns_of(plan: &Plan) -> Result<usize, NoMemory>
    ensures { IfOk result (λ n. n ≡ plan_width (plan_tree plan.now)) }
{
    width_of(plan).ok_or(NoMemory)
}

// The rows of a plan that pass each of the tests.
fn filter_by(alloc: Global, tests: Vec<PExpr>, plan: Plan) -> Result<Plan, NoMemory>
    ensures { IfOk result (λ q. plan_tree q ≡ filtered_by (map pterm tests.items) (plan_tree plan)) }
{
    if tests.is_empty() {
        return Ok(plan);
    }
    let (condition, plan) = beside(condition_of(alloc, tests), plan)?;
    au_plain::filter(alloc, condition, plan)
}

// The tests that read columns of these places alone, and the others, each in their order.
fn part(alloc: Global, places: Places, tests: Vec<PExpr>) -> Result<Parted, NoMemory>
    ensures only { IfOk result (λ p. map pterm p.only.items ≡ reading_only (is_among places) (map pterm tests.items)) }
    ensures more { IfOk result (λ p. map pterm p.more.items ≡ reading_more (is_among places) (map pterm tests.items)) }
{
    let mut only = Vec::new(alloc);
    let mut more = Vec::new(alloc);
    for test in tests {
        if is_reading_only(places, &test) {
            only.push(test)?;
        } else {
            more.push(test)?;
        }
    }
    Ok(Parted { only, more })
}

// The tests on rows with a column, as those on the rows without it and those that stay.
fn around_column(
    alloc: Global,
    place: usize,
    column: &PExpr,
    tests: Vec<PExpr>,
) -> Result<Around, NoMemory>
    ensures below { IfOk result (λ a. map pterm a.below.items ≡ below_column place (pterm column.now) (map pterm tests.items)) }
    ensures above { IfOk result (λ a. map pterm a.above.items ≡ above_column place (pterm column.now) (map pterm tests.items)) }
{
    if let Some(followed) = followed_all(alloc, place, column, &tests)? {
        return Ok(Around {
            below: followed,
            above: Vec::new(alloc),
        });
    }
    let parted = part(alloc, Places::OtherThan(place), tests)?;
    Ok(Around {
        below: parted.only,
        above: parted.more,
    })
}

// The tests with the definition of a column in its place, where it is read and can be followed.
fn followed_all(
    alloc: Global,
    place: usize,
    column: &PExpr,
    tests: &[PExpr],
) -> Result<Option<Vec<PExpr>>, NoMemory>
    ensures { IfOk result (λ o. option_map (λ v. map pterm v.items) o ≡ (if can_follow place (pterm column.now) (map pterm tests.now) then Some (follow place (pterm column.now) (map pterm tests.now)) else None)) }
{
    if are_reading_only(Places::OtherThan(place), tests) || !is_without_arithmetic(column) {
        return Ok(None);
    }
    let followed = changed_conjuncts(alloc, &Change::Defined(place, column), tests)?;
    if are_light(&followed) {
        Ok(Some(followed))
    } else {
        Ok(None)
    }
}

// The tests over other rows, split into conjuncts.
fn changed_conjuncts(
    alloc: Global,
    change: &Change,
    tests: &[PExpr],
) -> Result<Vec<PExpr>, NoMemory>
    ensures { IfOk result (λ v. map pterm v.items ≡ flat_map (λ e. conjuncts (with_columns (column_in change.now) e)) (map pterm tests.now)) }
{
    let mut all = Vec::new(alloc);
    for test in tests {
        push_conjuncts(changed(alloc, change, test)?, &mut all)?;
    }
    Ok(all)
}

// The tests with the conjuncts of a condition that are without arithmetic, and the others of these.
fn with_conjuncts(alloc: Global, tests: Vec<PExpr>, condition: PExpr) -> Result<Added, NoMemory>
    ensures tests { IfOk result (λ a. map pterm a.tests.items ≡ map pterm tests.items ++ movable (pterm condition)) }
    ensures staying { IfOk result (λ a. map pterm a.staying.items ≡ staying (pterm condition)) }
{
    let mut conjuncts = Vec::new(alloc);
    push_conjuncts(condition, &mut conjuncts)?;
    add_movable(alloc, tests, conjuncts)
}

// The tests with those of some conjuncts that are without arithmetic, and the others of these.
fn add_movable(alloc: Global, first: Vec<PExpr>, conjuncts: Vec<PExpr>) -> Result<Added, NoMemory>
    ensures tests { IfOk result (λ a. map pterm a.tests.items ≡ map pterm first.items ++ filter without_arithmetic (map pterm conjuncts.items)) }
    ensures staying { IfOk result (λ a. map pterm a.staying.items ≡ filter (λ e. not (without_arithmetic e)) (map pterm conjuncts.items)) }
{
    let mut tests = first;
    let mut staying = Vec::new(alloc);
    for conjunct in conjuncts {
        if is_without_arithmetic(&conjunct) {
            tests.push(conjunct)?;
        } else {
            staying.push(conjunct)?;
        }
    }
    Ok(Added { tests, staying })
}

// The tests on pairs whose left rows have so many columns, with the conjuncts of a condition.
fn sides_of(
    alloc: Global,
    width: usize,
    tests: Vec<PExpr>,
    condition: PExpr,
) -> Result<Sides, NoMemory>
    ensures left { IfOk result (λ s. map pterm s.left.items ≡ on_left width (map pterm tests.items ++ movable (pterm condition))) }
    ensures right { IfOk result (λ s. map pterm s.right.items ≡ on_right width (map pterm tests.items ++ movable (pterm condition))) }
    ensures both { IfOk result (λ s. map pterm s.both.items ≡ on_both width (map pterm tests.items ++ movable (pterm condition)) ++ staying (pterm condition)) }
{
    let mut added = with_conjuncts(alloc, tests, condition)?;
    let mut sides = side_by_side(alloc, width, added.tests)?;
    sides.both.append(&mut added.staying)?;
    Ok(sides)
}

// The tests on pairs whose left rows have so many columns.
fn side_by_side(alloc: Global, width: usize, tests: Vec<PExpr>) -> Result<Sides, NoMemory>
    ensures left { IfOk result (λ s. map pterm s.left.items ≡ on_left width (map pterm tests.items)) }
    ensures right { IfOk result (λ s. map pterm s.right.items ≡ on_right width (map pterm tests.items)) }
    ensures both { IfOk result (λ s. map pterm s.both.items ≡ on_both width (map pterm tests.items)) }
{
    let left = part(alloc, Places::Before(width), tests)?;
    let right = part(alloc, Places::From(width), left.more)?;
    let counted = all_changed(alloc, &Change::CountedFrom(width), &right.only)?;
    Ok(Sides {
        left: left.only,
        right: counted,
        both: right.more,
    })
}

fn copies_of(alloc: Global, tests: &[PExpr]) -> Result<Vec<PExpr>, NoMemory>
    ensures { IfOk result (λ v. map pterm v.items ≡ map pterm tests.now) }
{
    let mut copies = Vec::with_capacity(alloc, tests.len())?;
    for test in tests {
        copies.push(copy_expr(alloc, test)?)?;
    }
    Ok(copies)
}
