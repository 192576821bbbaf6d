//! Scans of tables, and of what plans find that are run first, as sources of their own.
ghost use Rattle.std.specs.Prelude.{◌≡◌, ◌*◌, ◌+◌, IfOk, OnOk, length};
ghost use Rattle.au_plain.specs.Plans.{Scan, plan_tree};
ghost use Rattle.au_program.specs.Programs.{ChoosesGroups, IsTableBehind, ScansGroups, ScansStep};
ghost use Rattle.au_program.specs.Sources.{count as count_of};
ghost use Rattle.au_program.specs.Stages.{GroupsBy};

use crate::placing::{count, put_step, put_table};
use crate::readiness::made_ready;
use crate::sources::{Sources, Ways};
use crate::steps::{Planned, group_by_points_of, group_of, scan};
use au_algebra::Agg;
use au_plain::{Layout, copy_plan};
use au_plan::improve;
use au_rwgroup::Folding;
use au_value::{NoMemory, beside, both};
use std::alloc::Global;

/// Puts the table at a place behind the sources, and gives the Scan of its encoded rows, of so many columns. `NoMemory` comes
/// also where a row cannot have so many columns.
pub(crate) fn scanned_table(
    alloc: Global,
    place: usize,
    columns: usize,
    sources: &mut Sources,
) -> Result<Planned, NoMemory>
    ensures columns { IfOk result (λ p. p.layout.columns ≡ columns) }
    ensures plan { IfOk result (λ p. plan_tree p.plan ≡ Scan (count_of sources.old) (3 * columns + 3)) }
    ensures behind { OnOk result (IsTableBehind place sources.old sources.new) }
{
    let number = count(sources)?;
    put_table(alloc, place, sources)?;
    let scan = scan(number, columns)?;
    Ok(scan)
}

/// Puts what a plan finds over sources of its own behind other sources, and gives the Scan of it.
pub(crate) fn scanned_step(
    alloc: Global,
    of: Planned,
    own: Sources,
    sources: &mut Sources,
) -> Result<Planned, NoMemory>
    ensures { IfOk result (λ p. ScansStep own (plan_tree of.plan) of.layout.columns sources.old sources.new (plan_tree p.plan) p.layout.columns) }
{
    let columns = of.layout.columns;
    let made = made_ready(alloc, of.plan, own);
    let parts = both(count(sources), made)?;
    let (number, made) = parts;
    put_step(alloc, made.sources, Ways::Plan(made.plan), sources)?;
    let scan = scan(number, columns)?;
    Ok(scan)
}

// The groups of what a plan gives, by points or by the hulls of keys. How the rows are folded is a question of time alone.
fn groups_of(
    alloc: Global,
    keys: usize,
    aggs: &[Agg],
    points: bool,
    how: Folding,
    of: Planned,
) -> Result<Planned, NoMemory>
    ensures columns { IfOk result (λ p. p.layout.columns ≡ keys + length aggs.now) }
    ensures plan { IfOk result (λ p. GroupsBy points of.layout.columns keys aggs.now (plan_tree of.plan) (plan_tree p.plan)) }
{
    if points {
        group_by_points_of(alloc, keys, aggs, how, of)
    } else {
        group_of(alloc, keys, aggs, how, of)
    }
}

// Two ways of forming the groups of what a plan gives, with the number of their columns.
fn group_ways(
    alloc: Global,
    keys: usize,
    aggs: &[Agg],
    points: bool,
    of: Planned,
) -> Result<(Ways, usize), NoMemory>
    ensures ways { IfOk result (λ w. ChoosesGroups points keys aggs.now (plan_tree of.plan) of.layout.columns w.0) }
    ensures columns { IfOk result (λ w. w.1 ≡ keys + length aggs.now) }
{
    let made = beside(copied(alloc, &of), of)?;
    let (copy, of) = made;
    let folded = groups_of(alloc, keys, aggs, points, Folding::EqualKeys, of);
    let each = groups_of(alloc, keys, aggs, points, Folding::Rows, copy);
    let plans = both(folded, each)?;
    let (folded, each) = plans;
    let columns = folded.layout.columns;
    let ways = both(improve(alloc, folded.plan), improve(alloc, each.plan))?;
    Ok((Ways::ByKeys(keys, ways.0, ways.1), columns))
}

// A copy of a plan.
fn copied(alloc: Global, of: &Planned) -> Result<Planned, NoMemory>
    ensures columns { IfOk result (λ p. p.layout.columns ≡ of.now.layout.columns) }
    ensures plan { IfOk result (λ p. plan_tree p.plan ≡ plan_tree of.now.plan) }
{
    let columns = of.layout.columns;
    let plan = copy_plan(alloc, &of.plan)?;
    Ok(Planned {
        plan,
        layout: Layout { columns },
    })
}

/// Puts the groups of what a plan gives over sources of its own, by points or by the hulls of keys, behind other sources, and
/// gives the Scan of them. The rows are folded where their keys repeat, which is seen when the groups are formed.
pub(crate) fn scanned_groups(
    alloc: Global,
    keys: usize,
    aggs: &[Agg],
    points: bool,
    of: Planned,
    own: Sources,
    sources: &mut Sources,
) -> Result<Planned, NoMemory>
    ensures { IfOk result (λ p. ScansGroups points keys aggs.now own (plan_tree of.plan) of.layout.columns sources.old sources.new (plan_tree p.plan) p.layout.columns) }
{
    let number = count(sources);
    let ways = group_ways(alloc, keys, aggs, points, of);
    let made = beside(both(number, ways), own)?;
    let (parts, own) = made;
    let (number, ways) = parts;
    let (how, columns) = ways;
    put_step(alloc, own, how, sources)?;
    let scan = scan(number, columns)?;
    Ok(scan)
}
