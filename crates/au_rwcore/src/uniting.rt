//! Union as a plan.
ghost use Rattle.std.specs.Prelude.{◌≡◌, ◌≤◌, ◌+◌, IfOk};
ghost use Rattle.au_plain.specs.Plans.{plan_tree};
ghost use Rattle.au_plain.specs.PlanNumbers.{scans};
ghost use Rattle.au_rwcore.specs.Adds.{AddsByUnion};
ghost use Rattle.au_rwcore.specs.Core.{union_plan};
ghost use Rattle.au_rwcore.specs.Gives.{Unites};

use au_plain::{Plan, union as both};
use au_value::NoMemory;
use std::alloc::Global;

/// The rows of the left plan, then those of the right, whose columns have the same kinds.
#[tactic(auto, using(crate::proofs::Laws::union_scans))]
pub fn union(alloc: Global, left: Plan, right: Plan) -> Result<Plan, NoMemory>
    ensures plan { IfOk result (λ p. plan_tree p ≡ union_plan (plan_tree left) (plan_tree right)) }
    ensures gives { IfOk result (λ p. Unites (plan_tree left) (plan_tree right) (plan_tree p)) }
    ensures adds { IfOk result (λ p. AddsByUnion (plan_tree left) (plan_tree right) (plan_tree p)) }
    ensures scans { IfOk result (λ p. scans (plan_tree p) ≤ scans (plan_tree left) + scans (plan_tree right)) }
{
    let plan = both(alloc, left, right)?;
    Ok(plan)
}
