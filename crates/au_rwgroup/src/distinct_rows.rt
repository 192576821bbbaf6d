//! Distinct as a plan.
ghost use Rattle.std.specs.Prelude.{◌≡◌, ◌≤◌, IfOk};
ghost use Rattle.au_plain.specs.Plans.{plan_tree};
ghost use Rattle.au_plain.specs.PlanNumbers.{scans};
ghost use Rattle.au_rwgroup.specs.Adds.{AddsByDistinct};
ghost use Rattle.au_rwgroup.specs.Gives.{Distincts};
ghost use Rattle.au_rwgroup.specs.Groups.{distinct_plan as one_of_each};

use crate::guessed_keys::first_grouping;
use au_plain::{Layout, Plan};
use au_value::NoMemory;
use std::alloc::Global;

/// One row for each list of guesses of a plan's rows, with the hulls of their ranges.
///
/// The layout is that of the plan's rows, and of the result's. `NoMemory` comes also where a row cannot have so many
/// columns.
#[tactic(auto, using(crate::proofs::Laws::distinct_scans))]
pub fn distinct(alloc: Global, of: Plan, layout: &Layout) -> Result<Plan, NoMemory>
    ensures gives { IfOk result (λ p. Distincts layout.now.columns (plan_tree of) (plan_tree p)) }
    ensures adds { IfOk result (λ p. AddsByDistinct layout.now.columns (plan_tree of) (plan_tree p)) }
    ensures scans { IfOk result (λ p. scans (plan_tree p) ≤ scans (plan_tree of)) }
{
    let plan = distinct_plan(alloc, of, layout)?;
    Ok(plan)
}

fn distinct_plan(alloc: Global, of: Plan, layout: &Layout) -> Result<Plan, NoMemory>
    ensures { IfOk result (λ p. plan_tree p ≡ one_of_each layout.now.columns (plan_tree of)) }
{
    let none = Vec::new(alloc);
    first_grouping(alloc, of, layout.columns, layout.columns, none)
}
