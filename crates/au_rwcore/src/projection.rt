//! Project as a plan.
ghost use Rattle.std.specs.Prelude.{◌≡◌, ◌≤◌, ◌+◌, ◌*◌, ◌++◌, IfOk, OnOk, length, map};
ghost use Rattle.au_expr.specs.Terms.{term};
ghost use Rattle.au_plain.specs.PTerms.{pterm};
ghost use Rattle.au_plain.specs.Plans.{plan_tree};
ghost use Rattle.au_plain.specs.PlanNumbers.{scans};
ghost use Rattle.au_rwexpr.specs.Cells.{three_places};
ghost use Rattle.au_rwexpr.specs.Flatten.{flatten_items, item_places};
ghost use Rattle.au_rwcore.specs.Adds.{AddsByProject};
ghost use Rattle.au_rwcore.specs.Core.{project_plan as projected};
ghost use Rattle.au_rwcore.specs.Gives.{Projects};

use au_expr::Expr;
use au_plain::{Layout, PExpr, Plan, extend_all, keep};
use au_rwexpr::{RangeColumns, push_columns, push_three, width_of};
use au_value::{NoMemory, beside};
use std::alloc::Global;

/// The ranges of the items on each row of a plan, in their order, with the row's triple.
///
/// The layout is that of the plan's rows. Those of the result have a column for each item. `NoMemory` comes also where
/// a row cannot have so many columns.
#[tactic(auto, using(crate::proofs::Laws::project_scans))]
pub fn project(alloc: Global, of: Plan, items: &[Expr], layout: &Layout) -> Result<Plan, NoMemory>
    ensures plan { IfOk result (λ p. plan_tree p ≡ projected layout.now.columns (map term items.now) (plan_tree of)) }
    ensures gives { IfOk result (λ p. Projects layout.now.columns (map term items.now) (plan_tree of) (plan_tree p)) }
    ensures adds { IfOk result (λ p. AddsByProject layout.now.columns (map term items.now) (plan_tree of) (plan_tree p)) }
    ensures scans { IfOk result (λ p. scans (plan_tree p) ≤ scans (plan_tree of)) }
{
    let plan = project_plan(alloc, of, items, layout)?;
    Ok(plan)
}

fn project_plan(alloc: Global, of: Plan, items: &[Expr], layout: &Layout) -> Result<Plan, NoMemory>
    ensures { IfOk result (λ p. plan_tree p ≡ projected layout.now.columns (map term items.now) (plan_tree of)) }
{
    let ((columns, places), of) = beside(item_steps(alloc, items, layout), of)?;
    let (wide, places) = beside(extend_all(alloc, columns, of), places)?;
    keep(alloc, places, wide)
}

// The columns of the items, and the places of their own three and of the triple.
fn item_steps(
    alloc: Global,
    items: &[Expr],
    layout: &Layout,
) -> Result<(Vec<PExpr>, Vec<usize>), NoMemory>
    ensures columns { IfOk result (λ r. map pterm r.0.items ≡ flatten_items (3 * layout.now.columns + 3) (map term items.now)) }
    ensures places { IfOk result (λ r. r.1.items ≡ item_places (3 * layout.now.columns + 3) (map term items.now) ++ three_places (3 * layout.now.columns)) }
{
    let width = width_of(layout)?;
    let triple = RangeColumns::at(width - 3)?;
    let mut columns = Vec::new(alloc);
    let mut places = Vec::new(alloc);
    push_items(alloc, items, width, &mut columns, &mut places)?;
    push_three(&mut places, triple)?;
    Ok((columns, places))
}

// Adds the columns of each item to those of a row of so many, and the places of its own three.
fn push_items(
    alloc: Global,
    items: &[Expr],
    width: usize,
    columns: &mut Vec<PExpr>,
    places: &mut Vec<usize>,
) -> Result<(), NoMemory>
    ensures columns { OnOk result (map pterm columns.new.items ≡ map pterm columns.old.items ++ flatten_items (width + length columns.old.items) (map term items.now)) }
    ensures places { OnOk result (places.new.items ≡ places.old.items ++ item_places (width + length columns.old.items) (map term items.now)) }
{
    for item in items {
        let own = push_columns(alloc, item, width, columns)?;
        push_three(places, own)?;
    }
    Ok(())
}
