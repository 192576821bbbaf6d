//! Plans without the columns that nobody reads.
ghost use Rattle.std.specs.Prelude.{◌≡◌, ◌<◌, IfOk, length, replicate, true};
ghost use Rattle.au_plain.specs.Plans.{plan_tree};
ghost use Rattle.au_passes.specs.Keeps.{Keeps};
ghost use Rattle.au_passes.specs.Pruning.{HasColumns, Narrowed, Narrows};
ghost use Rattle.au_plain.specs.Widths.{plan_width};
ghost use Rattle.au_passes.specs.Reading.{read_places};

use crate::narrow::{
    Narrow, extend, filter, group, group_columns, group_reads, join, join_sides, keep,
    keep_columns, kept_columns, leave_out, scan, union, union_sides, whole, width,
};
use crate::reads::{all_read, marked, places_read, reads_last, with_reads, without_last};
use au_plain::Plan;
use au_value::{NoMemory, beside, both};
use std::alloc::Global;

/// The plan without the columns that nobody reads.
///
/// An added column that no operator above it reads goes, with the numbers that it would have made, and so do aggregates;
/// the keys of a grouping stay. A table, and a side of a join or of a union, gives what is read of it. `NoMemory` comes also where a row
/// cannot have as many columns as the plan says.
pub fn prune(alloc: Global, plan: Plan) -> Result<Plan, NoMemory>
    ensures same { IfOk result (λ q. Keeps (plan_tree plan) (plan_tree q)) }
    ensures columns { IfOk result (λ q. HasColumns (plan_tree plan) → HasColumns (plan_tree q)) }
{
    let all = all_marked(alloc, plan)?;
    let pruned = narrow_to(alloc, all.0, all.1)?;
    Ok(pruned)
}

// The plan, and a mark on each of its columns.
fn all_marked(alloc: Global, plan: Plan) -> Result<(Plan, Vec<bool>), NoMemory>
    ensures { IfOk result (λ r. (r.0 ≡ plan) × (r.1.items ≡ replicate (plan_width (plan_tree plan)) true)) }
{
    let marks = marks_of(alloc, &plan);
    let (marks, plan) = beside(marks, plan)?;
    Ok((plan, marks))
}

fn marks_of(alloc: Global, plan: &Plan) -> Result<Vec<bool>, NoMemory>
    ensures { IfOk result (λ v. v.items ≡ replicate (plan_width (plan_tree plan.now)) true) }
{
    let width = width(plan)?;
    all_read(alloc, width)
}

// The plan of the marked columns alone, in their order.
#[cycle(narrow)]
fn narrow_to(alloc: Global, plan: Plan, marks: Vec<bool>) -> Result<Plan, NoMemory>
    requires { length marks.items ≡ plan_width (plan_tree plan) }
    ensures narrows { IfOk result (λ q. Narrows (plan_tree plan) (read_places marks.items) (plan_tree q)) }
    ensures width { IfOk result (λ q. plan_width (plan_tree q) ≡ length (read_places marks.items)) }
    ensures columns { IfOk result (λ q. 0 < length (read_places marks.items) → HasColumns (plan_tree plan) → HasColumns (plan_tree q)) }
{
    let made = both(marked(alloc, &marks), narrow(alloc, plan, marks))?;
    let below = made.1;
    keep(alloc, &made.0, below)
}

// A plan of the marked columns, and of others that it gives as easily.
#[cycle(narrow)]
fn narrow(alloc: Global, plan: Plan, marks: Vec<bool>) -> Result<Narrow, NoMemory>
    requires { length marks.items ≡ plan_width (plan_tree plan) }
    ensures narrowed { IfOk result (λ n. Narrowed (plan_tree plan) marks.items (plan_tree n.plan) n.found.items) }
    ensures count { IfOk result (λ n. n.count ≡ plan_width (plan_tree n.plan)) }
{
    match plan {
        Plan::Scan(table, width) => scan(alloc, table, width, marks),
        Plan::Rows(width, rows) => whole(alloc, Plan::Rows(width, rows), width),
        Plan::Extend(e, of) => {
            if reads_last(&marks) {
                let marks = with_reads(&e, without_last(marks));
                let made = beside(narrow(alloc, Box::into_inner(of), marks), e)?;
                extend(alloc, made.1, made.0)
            } else {
                let below = narrow(alloc, Box::into_inner(of), without_last(marks));
                let made = beside(below, e)?;
                leave_out(made.0)
            }
        }
        Plan::Filter(e, of) => {
            let marks = with_reads(&e, marks);
            let made = beside(narrow(alloc, Box::into_inner(of), marks), e)?;
            filter(alloc, made.1, made.0)
        }
        Plan::Keep(places, of) => {
            let read = kept_columns(alloc, &places, marks)?;
            let marks = places_read(alloc, width(&of)?, &read.wanted)?;
            let made = beside(narrow(alloc, Box::into_inner(of), marks), read)?;
            keep_columns(alloc, made.1, made.0)
        }
        Plan::Join(e, left, right) => {
            let sides = join_sides(alloc, width(&left)?, &with_reads(&e, marks))?;
            let left = narrow_to(alloc, Box::into_inner(left), sides.left);
            let right = narrow_to(alloc, Box::into_inner(right), sides.right);
            let made = beside(both(left, right), e)?;
            join(alloc, made.1, made.0.0, made.0.1, sides.found, sides.count)
        }
        Plan::Union(left, right) => {
            let sides = union_sides(alloc, width(&right)?, &marks)?;
            let left = narrow_to(alloc, Box::into_inner(left), sides.left);
            let right = narrow_to(alloc, Box::into_inner(right), sides.right);
            let made = both(left, right)?;
            union(alloc, made.0, made.1, sides.found, sides.count)
        }
        Plan::Group(keys, aggs, of) => {
            let read = group_columns(alloc, &keys, &aggs, &marks)?;
            let marks = group_reads(alloc, width(&of)?, &keys, &read.aggs)?;
            let made = beside(narrow(alloc, Box::into_inner(of), marks), read)?;
            group(alloc, &keys, made.1, made.0)
        }
    }
}
