//! Each operator of a tree as a step of its plan over rows with counts.
//!
//! Each step gives `NoMemory` also where its operator's call does, since a row cannot have so many columns.
ghost use Rattle.std.specs.Prelude.{◌≡◌, ◌+◌, IfOk, length, map};
ghost use Rattle.au_expr.specs.Terms.{term};
ghost use Rattle.au_plain.specs.Plans.{plan_tree};
ghost use Rattle.au_rwcounted.specs.Gives.{Distincts, Groups, Multiplies, Projects, Scans, Selects, Subtracts, Totals, Unites};

use au_algebra::Agg;
use au_expr::Expr;
use au_plain::Plan;
use au_rwcounted::{
    CountedLayout, difference_counted, distinct_counted, group_counted, product_counted,
    project_counted, scan_counted, select_counted, total_counted, union_counted,
};
use au_value::NoMemory;
use std::alloc::Global;

/// A plan over rows with counts, and how many values each of its rows has before them.
#[derive(Drop)]
pub struct Counted {
    pub plan: Plan,
    pub columns: usize,
}

/// The rows of a table, each of so many values and so many counts.
pub(crate) fn scan_of(table: usize, columns: usize, counts: usize) -> Result<Counted, NoMemory>
    ensures columns { IfOk result (λ p. p.columns ≡ columns) }
    ensures plan { IfOk result (λ p. Scans counts columns table (plan_tree p.plan)) }
{
    let layout = CountedLayout { columns, counts };
    let plan = scan_counted(table, &layout)?;
    Ok(Counted { plan, columns })
}

/// The rows for which a condition holds.
pub(crate) fn select_of(
    alloc: Global,
    condition: &Expr,
    of: Counted,
    counts: usize,
) -> Result<Counted, NoMemory>
    ensures columns { IfOk result (λ p. p.columns ≡ of.columns) }
    ensures plan { IfOk result (λ p. Selects counts of.columns (term condition.now) (plan_tree of.plan) (plan_tree p.plan)) }
{
    let columns = of.columns;
    let layout = CountedLayout { columns, counts };
    let plan = select_counted(alloc, of.plan, condition, &layout)?;
    Ok(Counted { plan, columns })
}

/// The values of some items on each row.
pub(crate) fn project_of(
    alloc: Global,
    items: &[Expr],
    of: Counted,
    counts: usize,
) -> Result<Counted, NoMemory>
    ensures columns { IfOk result (λ p. p.columns ≡ length items.now) }
    ensures plan { IfOk result (λ p. Projects counts of.columns (map term items.now) (plan_tree of.plan) (plan_tree p.plan)) }
{
    let layout = CountedLayout {
        columns: of.columns,
        counts,
    };
    let plan = project_counted(alloc, of.plan, items, &layout)?;
    Ok(Counted {
        plan,
        columns: items.len(),
    })
}

/// Each pair of rows.
pub(crate) fn product_of(
    alloc: Global,
    left: Counted,
    right: Counted,
    counts: usize,
) -> Result<Counted, NoMemory>
    ensures columns { IfOk result (λ p. p.columns ≡ left.columns + right.columns) }
    ensures plan { IfOk result (λ p. Multiplies counts left.columns right.columns (plan_tree left.plan) (plan_tree right.plan) (plan_tree p.plan)) }
{
    let Some(columns) = left.columns.checked_add(right.columns) else {
        return Err(NoMemory);
    };
    let layout = CountedLayout {
        columns: left.columns,
        counts,
    };
    let plan = product_counted(alloc, left.plan, right.plan, &layout, right.columns)?;
    Ok(Counted { plan, columns })
}

/// The rows of both, with so many counts.
pub(crate) fn union_of(
    alloc: Global,
    left: Counted,
    right: Counted,
    counts: usize,
) -> Result<Counted, NoMemory>
    ensures columns { IfOk result (λ p. p.columns ≡ left.columns) }
    ensures plan { IfOk result (λ p. Unites counts (plan_tree left.plan) (plan_tree right.plan) (plan_tree p.plan)) }
{
    // The contract alone speaks of the number of counts.
    let _ = counts;
    let columns = left.columns;
    let plan = union_counted(alloc, left.plan, right.plan)?;
    Ok(Counted { plan, columns })
}

/// The rows of which there are more on the left, with the number of their copies.
pub(crate) fn difference_of(
    alloc: Global,
    left: Counted,
    right: Counted,
) -> Result<Counted, NoMemory>
    ensures columns { IfOk result (λ p. p.columns ≡ left.columns) }
    ensures plan { IfOk result (λ p. Subtracts left.columns (plan_tree left.plan) (plan_tree right.plan) (plan_tree p.plan)) }
{
    let columns = left.columns;
    let plan = difference_counted(alloc, left.plan, right.plan, columns)?;
    Ok(Counted { plan, columns })
}

/// Each row that has a copy, once.
pub(crate) fn distinct_of(alloc: Global, of: Counted) -> Result<Counted, NoMemory>
    ensures columns { IfOk result (λ p. p.columns ≡ of.columns) }
    ensures plan { IfOk result (λ p. Distincts of.columns (plan_tree of.plan) (plan_tree p.plan)) }
{
    let columns = of.columns;
    let plan = distinct_counted(alloc, of.plan, columns)?;
    Ok(Counted { plan, columns })
}

/// A row for each list of so many leading values, with aggregates over the copies.
pub(crate) fn group_of(
    alloc: Global,
    keys: usize,
    aggs: &[Agg],
    of: Counted,
) -> Result<Counted, NoMemory>
    ensures columns { IfOk result (λ p. p.columns ≡ keys + length aggs.now) }
    ensures plan { IfOk result (λ p. Groups of.columns keys aggs.now (plan_tree of.plan) (plan_tree p.plan)) }
{
    let Some(columns) = keys.checked_add(aggs.len()) else {
        return Err(NoMemory);
    };
    let plan = group_counted(alloc, of.plan, keys, aggs, of.columns)?;
    Ok(Counted { plan, columns })
}

/// One row, of sums over all copies.
pub(crate) fn total_of(alloc: Global, aggs: &[Agg], of: Counted) -> Result<Counted, NoMemory>
    ensures columns { IfOk result (λ p. p.columns ≡ length aggs.now) }
    ensures plan { IfOk result (λ p. Totals of.columns aggs.now (plan_tree of.plan) (plan_tree p.plan)) }
{
    let plan = total_counted(alloc, of.plan, aggs, of.columns)?;
    Ok(Counted {
        plan,
        columns: aggs.len(),
    })
}
