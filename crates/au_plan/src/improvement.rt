//! A plan made ready to run.
ghost use Rattle.std.specs.Prelude.{IfOk};
ghost use Rattle.au_plain.specs.Plans.{plan_tree};
ghost use Rattle.au_plan.specs.Implements.{Implements};
ghost use Rattle.au_physical.specs.Physicals.{physical_tree};

use crate::choice::choose;
use au_passes::{prune, push};
use au_physical::Physical;
use au_plain::Plan;
use au_value::NoMemory;
use std::alloc::Global;

/// A physical plan that stands for a plan: over all tables for which the plan is typed, whose numbers lie in -2^127 to
/// 2^127-1, it is typed with the same kinds, gives the plan's rows up to order, and leaves this range only where the
/// plan does.
///
/// Conjuncts without arithmetic are tested as far towards the tables as they come, and columns that nobody reads are left
/// out. Joins keep their order. One becomes a Hash where a conjunct of its condition equates a left and a right column, else
/// an Overlap where two conjuncts say that a left and a right range overlap, else a Nested.
pub fn improve(alloc: Global, plan: Plan) -> Result<Physical, NoMemory>
    ensures { IfOk result (λ p. Implements (plan_tree plan) (physical_tree p)) }
{
    let pushed = push(alloc, plan)?;
    let pruned = prune(alloc, pushed)?;
    choose(alloc, pruned)
}
