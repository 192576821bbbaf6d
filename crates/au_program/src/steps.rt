//! Each operator of a tree as a step of its plan.
//!
//! Each step gives `NoMemory` also where its operator's call does, since a row cannot have so many columns.
ghost use Rattle.std.specs.Prelude.{◌≡◌, ◌+◌, ◌*◌, IfOk, length, map};
ghost use Rattle.au_expr.specs.Terms.{term};
ghost use Rattle.au_plain.specs.Plans.{Scan, plan_tree};
ghost use Rattle.au_rwcore.specs.Gives.{Multiplies, Projects, Selects, Unites};
ghost use Rattle.au_combine.specs.Gives.{Combines};
ghost use Rattle.au_rwdiff.specs.Gives.{Subtracts};
ghost use Rattle.au_rwgroup.specs.Gives.{Distincts, Groups, Totals};
ghost use Rattle.au_rwpoints.specs.Gives.{DistinctByPoints, GroupsByPoints};

use au_algebra::Agg;
use au_combine::combine;
use au_expr::Expr;
use au_plain::{Layout, Plan};
use au_rwcore::{product, project, select, union};
use au_rwdiff::difference;
use au_rwexpr::width_of;
use au_rwgroup::{Folding, distinct, group, total};
use au_rwpoints::{distinct as distinct_by_points, group as group_by_points};
use au_value::NoMemory;
use std::alloc::Global;

/// A plan over encoded tables, with the layout of its rows.
#[derive(Drop)]
pub(crate) struct Planned {
    pub(crate) plan: Plan,
    pub(crate) layout: Layout,
}

/// The encoded rows of a table, each of so many columns.
pub(crate) fn scan(table: usize, columns: usize) -> Result<Planned, NoMemory>
    ensures columns { IfOk result (λ p. p.layout.columns ≡ columns) }
    ensures plan { IfOk result (λ p. plan_tree p.plan ≡ Scan table (3 * columns + 3)) }
{
    let layout = Layout { columns };
    Ok(Planned {
        plan: Plan::Scan(table, width_of(&layout)?),
        layout,
    })
}

/// The rows for which a condition is possible.
pub(crate) fn select_of(alloc: Global, condition: &Expr, of: Planned) -> Result<Planned, NoMemory>
    ensures columns { IfOk result (λ p. p.layout.columns ≡ of.layout.columns) }
    ensures plan { IfOk result (λ p. Selects of.layout.columns (term condition.now) (plan_tree of.plan) (plan_tree p.plan)) }
{
    Ok(Planned {
        plan: select(alloc, of.plan, condition, &of.layout)?,
        layout: of.layout,
    })
}

/// The ranges of some items on each row.
pub(crate) fn project_of(alloc: Global, items: &[Expr], of: Planned) -> Result<Planned, NoMemory>
    ensures columns { IfOk result (λ p. p.layout.columns ≡ length items.now) }
    ensures plan { IfOk result (λ p. Projects of.layout.columns (map term items.now) (plan_tree of.plan) (plan_tree p.plan)) }
{
    Ok(Planned {
        plan: project(alloc, of.plan, items, &of.layout)?,
        layout: Layout {
            columns: items.len(),
        },
    })
}

/// Each pair of rows.
pub(crate) fn product_of(alloc: Global, left: Planned, right: Planned) -> Result<Planned, NoMemory>
    ensures columns { IfOk result (λ p. p.layout.columns ≡ left.layout.columns + right.layout.columns) }
    ensures plan { IfOk result (λ p. Multiplies left.layout.columns right.layout.columns (plan_tree left.plan) (plan_tree right.plan) (plan_tree p.plan)) }
{
    let plan = product(alloc, left.plan, right.plan, &left.layout, &right.layout)?;
    let columns = left.layout.columns + right.layout.columns;
    Ok(Planned {
        plan,
        layout: Layout { columns },
    })
}

/// The rows of both.
pub(crate) fn union_of(alloc: Global, left: Planned, right: Planned) -> Result<Planned, NoMemory>
    ensures columns { IfOk result (λ p. p.layout.columns ≡ left.layout.columns) }
    ensures plan { IfOk result (λ p. Unites (plan_tree left.plan) (plan_tree right.plan) (plan_tree p.plan)) }
{
    Ok(Planned {
        plan: union(alloc, left.plan, right.plan)?,
        layout: left.layout,
    })
}

/// One row for the rows of one list of guesses.
pub(crate) fn combined_of(alloc: Global, of: Planned) -> Result<Planned, NoMemory>
    ensures columns { IfOk result (λ p. p.layout.columns ≡ of.layout.columns) }
    ensures plan { IfOk result (λ p. Combines of.layout.columns (plan_tree of.plan) (plan_tree p.plan)) }
{
    Ok(Planned {
        plan: combine(alloc, of.plan, &of.layout)?,
        layout: of.layout,
    })
}

/// The left rows, which are combined, each less the right rows.
pub(crate) fn difference_of(
    alloc: Global,
    left: Planned,
    right: Planned,
) -> Result<Planned, NoMemory>
    ensures columns { IfOk result (λ p. p.layout.columns ≡ left.layout.columns) }
    ensures plan { IfOk result (λ p. Subtracts left.layout.columns (plan_tree left.plan) (plan_tree right.plan) (plan_tree p.plan)) }
{
    Ok(Planned {
        plan: difference(alloc, left.plan, right.plan, &left.layout)?,
        layout: left.layout,
    })
}

/// Each row once.
pub(crate) fn distinct_of(alloc: Global, of: Planned) -> Result<Planned, NoMemory>
    ensures columns { IfOk result (λ p. p.layout.columns ≡ of.layout.columns) }
    ensures plan { IfOk result (λ p. Distincts of.layout.columns (plan_tree of.plan) (plan_tree p.plan)) }
{
    Ok(Planned {
        plan: distinct(alloc, of.plan, &of.layout)?,
        layout: of.layout,
    })
}

/// A row for each list of guesses of so many leading columns, with aggregates. How the rows are folded is a question of
/// time alone.
pub(crate) fn group_of(
    alloc: Global,
    keys: usize,
    aggs: &[Agg],
    how: Folding,
    of: Planned,
) -> Result<Planned, NoMemory>
    ensures columns { IfOk result (λ p. p.layout.columns ≡ keys + length aggs.now) }
    ensures plan { IfOk result (λ p. Groups of.layout.columns keys aggs.now (plan_tree of.plan) (plan_tree p.plan)) }
{
    let plan = group(alloc, of.plan, keys, aggs, how, &of.layout)?;
    let columns = keys + aggs.len();
    Ok(Planned {
        plan,
        layout: Layout { columns },
    })
}

/// The same by points. The plan holds its input four times.
pub(crate) fn group_by_points_of(
    alloc: Global,
    keys: usize,
    aggs: &[Agg],
    how: Folding,
    of: Planned,
) -> Result<Planned, NoMemory>
    ensures columns { IfOk result (λ p. p.layout.columns ≡ keys + length aggs.now) }
    ensures plan { IfOk result (λ p. GroupsByPoints of.layout.columns keys aggs.now (plan_tree of.plan) (plan_tree p.plan)) }
{
    let plan = group_by_points(alloc, of.plan, keys, aggs, how, &of.layout)?;
    let columns = keys + aggs.len();
    Ok(Planned {
        plan,
        layout: Layout { columns },
    })
}

/// Each row once, by points. The plan holds its input twice.
pub(crate) fn distinct_by_points_of(alloc: Global, of: Planned) -> Result<Planned, NoMemory>
    ensures columns { IfOk result (λ p. p.layout.columns ≡ of.layout.columns) }
    ensures plan { IfOk result (λ p. DistinctByPoints of.layout.columns (plan_tree of.plan) (plan_tree p.plan)) }
{
    Ok(Planned {
        plan: distinct_by_points(alloc, of.plan, &of.layout)?,
        layout: of.layout,
    })
}

/// One row, of sums over all rows.
pub(crate) fn total_of(alloc: Global, aggs: &[Agg], of: Planned) -> Result<Planned, NoMemory>
    ensures columns { IfOk result (λ p. p.layout.columns ≡ length aggs.now) }
    ensures plan { IfOk result (λ p. Totals of.layout.columns aggs.now (plan_tree of.plan) (plan_tree p.plan)) }
{
    Ok(Planned {
        plan: total(alloc, of.plan, aggs, &of.layout)?,
        layout: Layout {
            columns: aggs.len(),
        },
    })
}
