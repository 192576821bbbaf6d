//! The operators of plans that give some columns of other plans.
ghost use Rattle.std.specs.Prelude.{◌≡◌, ◌+◌, ◌-◌, ◌≤◌, ◌==◌, ◌++◌, ◌∷◌, [], IfOk, IsTrue, count_by, drop, if◌then◌else◌, length, map, replicate, slice_index, take, false};
ghost use Rattle.std.specs.List.{range_with_len};
ghost use Rattle.au_plain.specs.PTerms.{pterm};
ghost use Rattle.au_plain.specs.Plans.{plan_tree};
ghost use Rattle.au_plain.specs.Plans as tree;
ghost use Rattle.au_passes.specs.Pruning.{IsKept, Narrowed, renumbered, renumbered_agg};
ghost use Rattle.au_plain.specs.Widths.{plan_width};
ghost use Rattle.au_passes.specs.Reading.{agg_column, at_least_one, chosen, mark_all, ranks, read_aggs, read_places};

use crate::reads::{chosen_aggs, count, mark_aggs, mark_one, marked, places_read, push_ranks};
use crate::renumber::{all_found, renumber, renumber_aggs};
use au_plain::{PAgg, PExpr, Plan, width_of};
use au_value::{NoMemory, beside, both};
use std::alloc::Global;

/// A plan with columns of another one.
#[derive(Drop)]
pub(crate) struct Narrow {
    pub plan: Plan,
    /// For each column of the other plan its place in this one, and any number where it is not there.
    pub found: Vec<usize>,
    /// How many columns this plan gives.
    pub count: usize,
}

/// Which columns of a Keep or of a table are read: their places below it, and where each of its columns is among them.
#[derive(Drop)]
pub(crate) struct Columns {
    pub wanted: Vec<usize>,
    pub found: Vec<usize>,
}

/// The columns that are read of two plans, and where the columns of both together are among them.
#[derive(Drop)]
pub(crate) struct Sides {
    pub left: Vec<bool>,
    pub right: Vec<bool>,
    pub found: Vec<usize>,
    pub count: usize,
}

/// The aggregates of a grouping that are read, and where its columns are.
#[derive(Drop)]
pub(crate) struct Aggregates {
    pub aggs: Vec<PAgg>,
    pub found: Vec<usize>,
}

/// How many columns a plan gives. `NoMemory` comes where a row cannot have so many.
pub(crate) fn width(plan: &Plan) -> Result<usize, NoMemory>
    ensures { IfOk result (λ n. n ≡ plan_width (plan_tree plan.now)) }
{
    width_of(plan).ok_or(NoMemory)
}

// The sum, if a row can have so many columns.
fn added(a: usize, b: usize) -> Result<usize, NoMemory>
    ensures { IfOk result (λ n. n ≡ a + b) }
{
    a.checked_add(b).ok_or(NoMemory)
}

/// A plan with all its columns.
pub(crate) fn whole(alloc: Global, plan: Plan, width: usize) -> Result<Narrow, NoMemory>
    ensures { IfOk result (λ n. (plan_tree n.plan ≡ plan_tree plan) × (n.found.items ≡ range_with_len 0 width) × (n.count ≡ width)) }
{
    let (found, plan) = beside(up_to(alloc, width), plan)?;
    Ok(Narrow {
        plan,
        found,
        count: width,
    })
}

// The numbers below this one.
fn up_to(alloc: Global, n: usize) -> Result<Vec<usize>, NoMemory>
    ensures { IfOk result (λ v. v.items ≡ range_with_len 0 n) }
{
    let mut numbers = Vec::with_capacity(alloc, n)?;
    for i in 0..n {
        numbers.push(i)?;
    }
    Ok(numbers)
}

/// The plan with a column added.
pub(crate) fn extend(alloc: Global, column: PExpr, below: Narrow) -> Result<Narrow, NoMemory>
    ensures { IfOk result (λ n. (plan_tree n.plan ≡ tree.Extend (renumbered below.found.items (pterm column)) (plan_tree below.plan)) × (n.found.items ≡ below.found.items ++ below.count ∷ []) × (n.count ≡ below.count + 1)) }
{
    let Narrow { plan, found, count } = below;
    let mut column = column;
    renumber(&mut column, &found);
    let plan = au_plain::extend(alloc, column, plan);
    let places = both(one_more(found, count), added(count, 1));
    let (plan, (found, count)) = both(plan, places)?;
    Ok(Narrow { plan, found, count })
}

// The places with another one behind them.
fn one_more(mut found: Vec<usize>, place: usize) -> Result<Vec<usize>, NoMemory>
    ensures { IfOk result (λ v. v.items ≡ found.items ++ place ∷ []) }
{
    found.push(place)?;
    Ok(found)
}

/// The plan without a column that is not read.
pub(crate) fn leave_out(below: Narrow) -> Result<Narrow, NoMemory>
    ensures { IfOk result (λ n. (plan_tree n.plan ≡ plan_tree below.plan) × (n.found.items ≡ below.found.items ++ 0 ∷ []) × (n.count ≡ below.count)) }
{
    let Narrow { plan, found, count } = below;
    let (found, plan) = beside(one_more(found, 0), plan)?;
    Ok(Narrow { plan, found, count })
}

/// The rows for which the test holds.
pub(crate) fn filter(alloc: Global, test: PExpr, below: Narrow) -> Result<Narrow, NoMemory>
    ensures { IfOk result (λ n. (plan_tree n.plan ≡ tree.Filter (renumbered below.found.items (pterm test)) (plan_tree below.plan)) × (n.found.items ≡ below.found.items) × (n.count ≡ below.count)) }
{
    let Narrow { plan, found, count } = below;
    let mut test = test;
    renumber(&mut test, &found);
    let (plan, found) = beside(au_plain::filter(alloc, test, plan), found)?;
    Ok(Narrow { plan, found, count })
}

/// Of a table with so many columns those that are read: one at least, if there is one.
pub(crate) fn scan(
    alloc: Global,
    table: usize,
    width: usize,
    marks: Vec<bool>,
) -> Result<Narrow, NoMemory>
    requires { length marks.items ≡ width }
    ensures narrowed { IfOk result (λ n. Narrowed (tree.Scan table width) marks.items (plan_tree n.plan) n.found.items) }
    ensures count { IfOk result (λ n. n.count ≡ plan_width (plan_tree n.plan)) }
{
    let below = whole(alloc, Plan::Scan(table, width), width);
    let (read, below) = both(read_columns(alloc, marks), below)?;
    keep_columns(alloc, read, below)
}

/// Which columns of a Keep of these places are read: one at least, if there is one.
pub(crate) fn kept_columns(
    alloc: Global,
    places: &[usize],
    marks: Vec<bool>,
) -> Result<Columns, NoMemory>
    ensures { IfOk result (λ c. (c.wanted.items ≡ map (slice_index places.now) (read_places (at_least_one marks.items))) × (c.found.items ≡ ranks 0 (at_least_one marks.items))) }
{
    let Columns { wanted, found } = read_columns(alloc, marks)?;
    let (wanted, found) = beside(all_found(alloc, places, &wanted), found)?;
    Ok(Columns { wanted, found })
}

// Which columns are read of those that are marked: one at least, if there is one.
fn read_columns(alloc: Global, marks: Vec<bool>) -> Result<Columns, NoMemory>
    ensures { IfOk result (λ c. (c.wanted.items ≡ read_places (at_least_one marks.items)) × (c.found.items ≡ ranks 0 (at_least_one marks.items))) }
{
    let mut marks = marks;
    mark_one(&mut marks);
    let wanted = marked(alloc, &marks)?;
    let found = ranks_of(alloc, &marks)?;
    Ok(Columns { wanted, found })
}

// Where each marked column is, if the marked ones alone are numbered.
fn ranks_of(alloc: Global, marks: &[bool]) -> Result<Vec<usize>, NoMemory>
    ensures { IfOk result (λ v. v.items ≡ ranks 0 marks.now) }
{
    let mut found = Vec::new(alloc);
    push_ranks(&mut found, 0, marks)?;
    Ok(found)
}

/// The wanted columns of a plan, as a Keep gave them.
pub(crate) fn keep_columns(alloc: Global, read: Columns, below: Narrow) -> Result<Narrow, NoMemory>
    requires { below.count ≡ plan_width (plan_tree below.plan) }
    ensures { IfOk result (λ n. IsKept (map (slice_index below.found.items) read.wanted.items) (plan_tree below.plan) (plan_tree n.plan) × (n.found.items ≡ read.found.items) × (n.count ≡ length read.wanted.items)) }
{
    let Columns { wanted, found } = read;
    let count = wanted.len();
    let plan = keep(alloc, &wanted, below)?;
    Ok(Narrow { plan, found, count })
}

/// The wanted columns of a plan, in this order. Where they are all that it gives no Keep is added.
pub(crate) fn keep(alloc: Global, wanted: &[usize], below: Narrow) -> Result<Plan, NoMemory>
    requires { below.count ≡ plan_width (plan_tree below.plan) }
    ensures { IfOk result (λ q. IsKept (map (slice_index below.found.items) wanted.now) (plan_tree below.plan) (plan_tree q)) }
{
    let Narrow { plan, found, count } = below;
    let (places, plan) = beside(all_found(alloc, &found, wanted), plan)?;
    kept(alloc, places, plan, count)
}

// The columns of these places of a plan with so many columns, without a Keep where they are all of them, in order.
fn kept(alloc: Global, places: Vec<usize>, plan: Plan, count: usize) -> Result<Plan, NoMemory>
    requires { count ≡ plan_width (plan_tree plan) }
    ensures { IfOk result (λ q. IsKept places.items (plan_tree plan) (plan_tree q)) }
{
    if are_all(&places, count) {
        Ok(plan)
    } else {
        au_plain::keep(alloc, places, plan)
    }
}

// Whether these are the places of so many columns, in order.
fn are_all(places: &[usize], count: usize) -> bool
    ensures { IsTrue result → places.now ≡ range_with_len 0 count }
{
    if places.len() != count {
        return false;
    }
    for i in 0..places.len() {
        if places[i] != i {
            return false;
        }
    }
    true
}

/// Which columns of the two sides of a join are read: of each one at least, if there is one.
pub(crate) fn join_sides(alloc: Global, split: usize, marks: &[bool]) -> Result<Sides, NoMemory>
    requires { split ≤ length marks.now }
    ensures marks { IfOk result (λ s. (s.left.items ≡ at_least_one (take split marks.now)) × (s.right.items ≡ at_least_one (drop split marks.now))) }
    ensures found { IfOk result (λ s. (s.found.items ≡ ranks 0 s.left.items ++ ranks (count_by (λ b. b) s.left.items) s.right.items) × (s.count ≡ count_by (λ b. b) s.left.items + count_by (λ b. b) s.right.items)) }
{
    let left = one_at_least(alloc, &marks[..split])?;
    let right = one_at_least(alloc, &marks[split..])?;
    let first = count(&left);
    let mut found = ranks_of(alloc, &left)?;
    push_ranks(&mut found, first, &right)?;
    let count = added(first, count(&right))?;
    Ok(Sides {
        left,
        right,
        found,
        count,
    })
}

// A copy of marks, with the first column marked where none is.
fn one_at_least(alloc: Global, marks: &[bool]) -> Result<Vec<bool>, NoMemory>
    ensures { IfOk result (λ v. v.items ≡ at_least_one marks.now) }
{
    let mut copied = Vec::from_slice(alloc, marks)?;
    mark_one(&mut copied);
    Ok(copied)
}

/// The pairs of rows for which the test holds.
pub(crate) fn join(
    alloc: Global,
    test: PExpr,
    left: Plan,
    right: Plan,
    found: Vec<usize>,
    count: usize,
) -> Result<Narrow, NoMemory>
    ensures { IfOk result (λ n. (plan_tree n.plan ≡ tree.Join (renumbered found.items (pterm test)) (plan_tree left) (plan_tree right)) × (n.found.items ≡ found.items) × (n.count ≡ count)) }
{
    let mut test = test;
    renumber(&mut test, &found);
    let (plan, found) = beside(au_plain::join(alloc, test, left, right), found)?;
    Ok(Narrow { plan, found, count })
}

/// Which columns of both sides of a union are read: one at least, if there is one. The right side has so many columns.
pub(crate) fn union_sides(alloc: Global, right: usize, marks: &[bool]) -> Result<Sides, NoMemory>
    ensures marks { IfOk result (λ s. (s.left.items ≡ at_least_one marks.now) × (s.right.items ≡ at_least_one (take right marks.now ++ replicate (right - length marks.now) false))) }
    ensures found { IfOk result (λ s. (s.found.items ≡ ranks 0 s.left.items) × (s.count ≡ count_by (λ b. b) s.left.items)) }
{
    let left = one_at_least(alloc, marks)?;
    let right = fitted(alloc, right, marks)?;
    let found = ranks_of(alloc, &left)?;
    let count = count(&left);
    Ok(Sides {
        left,
        right,
        found,
        count,
    })
}

// The marks of so many columns, with the first one marked where none is.
fn fitted(alloc: Global, width: usize, marks: &[bool]) -> Result<Vec<bool>, NoMemory>
    ensures { IfOk result (λ v. v.items ≡ at_least_one (take width marks.now ++ replicate (width - length marks.now) false)) }
{
    let mut fitted = Vec::from_slice(alloc, marks)?;
    fitted.resize(width, false)?;
    mark_one(&mut fitted);
    Ok(fitted)
}

/// The left rows, then the right rows.
pub(crate) fn union(
    alloc: Global,
    left: Plan,
    right: Plan,
    found: Vec<usize>,
    count: usize,
) -> Result<Narrow, NoMemory>
    ensures { IfOk result (λ n. (plan_tree n.plan ≡ tree.Union (plan_tree left) (plan_tree right)) × (n.found.items ≡ found.items) × (n.count ≡ count)) }
{
    let (plan, found) = beside(au_plain::union(alloc, left, right), found)?;
    Ok(Narrow { plan, found, count })
}

/// Which aggregates of a grouping are read: without keys one at least, if there is one.
pub(crate) fn group_columns(
    alloc: Global,
    keys: &[usize],
    aggs: &[PAgg],
    marks: &[bool],
) -> Result<Aggregates, NoMemory>
    requires { length marks.now ≡ length keys.now + length aggs.now }
    ensures { IfOk result (λ c. (c.aggs.items ≡ chosen (read_aggs (length keys.now) marks.now) aggs.now) × (c.found.items ≡ range_with_len 0 (length keys.now) ++ ranks (length keys.now) (read_aggs (length keys.now) marks.now))) }
{
    let read = aggs_read(alloc, keys.len(), marks)?;
    let mut found = up_to(alloc, keys.len())?;
    push_ranks(&mut found, keys.len(), &read)?;
    let aggs = chosen_aggs(alloc, aggs, &read)?;
    Ok(Aggregates { aggs, found })
}

fn aggs_read(alloc: Global, keys: usize, marks: &[bool]) -> Result<Vec<bool>, NoMemory>
    requires { keys ≤ length marks.now }
    ensures { IfOk result (λ v. v.items ≡ read_aggs keys marks.now) }
{
    if keys == 0 {
        one_at_least(alloc, &marks[keys..])
    } else {
        Ok(Vec::from_slice(alloc, &marks[keys..])?)
    }
}

/// The columns that the keys and the aggregates of a grouping read, of so many.
pub(crate) fn group_reads(
    alloc: Global,
    width: usize,
    keys: &[usize],
    aggs: &[PAgg],
) -> Result<Vec<bool>, NoMemory>
    ensures { IfOk result (λ v. v.items ≡ mark_all (map agg_column aggs.now) (mark_all keys.now (replicate width false))) }
{
    let mut marks = places_read(alloc, width, keys)?;
    mark_aggs(aggs, &mut marks);
    Ok(marks)
}

/// One row for each list of values of the keys, with the aggregates that are read.
pub(crate) fn group(
    alloc: Global,
    keys: &[usize],
    read: Aggregates,
    below: Narrow,
) -> Result<Narrow, NoMemory>
    ensures { IfOk result (λ n. (plan_tree n.plan ≡ tree.Group (map (slice_index below.found.items) keys.now) (map (renumbered_agg below.found.items) read.aggs.items) (plan_tree below.plan)) × (n.found.items ≡ read.found.items) × (n.count ≡ length keys.now + length read.aggs.items)) }
{
    let Narrow {
        plan,
        found: places,
        ..
    } = below;
    let count = added(keys.len(), read.aggs.len());
    let aggs = renumber_aggs(alloc, &places, &read.aggs);
    let lists = both(all_found(alloc, &places, keys), aggs);
    let (((keys, aggs), count), plan) = beside(both(lists, count), plan)?;
    let (plan, found) = beside(au_plain::group(alloc, keys, aggs, plan), read.found)?;
    Ok(Narrow { plan, found, count })
}
