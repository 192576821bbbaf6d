//! Combine as a plan.
ghost use Rattle.std.specs.Prelude.{◌≡◌, ◌≤◌, ◌+◌, ◌*◌, ◌∷◌, [], IfOk};
ghost use Rattle.au_plain.specs.declared.plan.PAgg.TheVariants.{Sum};
ghost use Rattle.au_plain.specs.Plans.{plan_tree};
ghost use Rattle.au_plain.specs.PlanNumbers.{scans};
ghost use Rattle.au_combine.specs.Adds.{AddsByCombine};
ghost use Rattle.au_combine.specs.Boxes.{combine_plan as combined};
ghost use Rattle.au_combine.specs.Gives.{Combines};

use crate::groups::boxes;
use au_plain::{Layout, PAgg, Plan};
use au_rwexpr::RangeColumns;
use au_value::{NoMemory, beside};
use std::alloc::Global;

/// One row for all rows of a plan with the same guesses: the hulls of their ranges, and the sum of their triples.
///
/// The layout is that of the plan's rows, and of the result's. The rows stand in the order in which their guesses are
/// first seen. `NoMemory` comes also where a row cannot have so many columns.
#[tactic(auto, using(crate::proofs::Laws::combine_scans))]
pub fn combine(alloc: Global, of: Plan, layout: &Layout) -> Result<Plan, NoMemory>
    ensures plan { IfOk result (λ p. plan_tree p ≡ combined layout.now.columns (plan_tree of)) }
    ensures gives { IfOk result (λ p. Combines layout.now.columns (plan_tree of) (plan_tree p)) }
    ensures adds { IfOk result (λ p. AddsByCombine layout.now.columns (plan_tree of) (plan_tree p)) }
    ensures scans { IfOk result (λ p. scans (plan_tree p) ≤ scans (plan_tree of)) }
{
    let plan = combine_plan(alloc, of, layout)?;
    Ok(plan)
}

fn combine_plan(alloc: Global, of: Plan, layout: &Layout) -> Result<Plan, NoMemory>
    ensures { IfOk result (λ p. plan_tree p ≡ combined layout.now.columns (plan_tree of)) }
{
    let (sums, of) = beside(row_sums(alloc, layout.columns), of)?;
    boxes(alloc, of, layout.columns, sums)
}

// The sums of the triple behind so many ranges.
fn row_sums(alloc: Global, columns: usize) -> Result<Vec<PAgg>, NoMemory>
    ensures { IfOk result (λ v. v.items ≡ Sum (3 * columns) ∷ Sum (3 * columns + 1) ∷ Sum (3 * columns + 2) ∷ []) }
{
    triple_sums(alloc, RangeColumns::of(columns)?)
}

/// The sums of three columns, as of the parts of a triple.
pub fn triple_sums(alloc: Global, triple: RangeColumns) -> Result<Vec<PAgg>, NoMemory>
    ensures { IfOk result (λ v. v.items ≡ Sum triple.first ∷ Sum (triple.first + 1) ∷ Sum (triple.first + 2) ∷ []) }
{
    let mut sums = Vec::new(alloc);
    sums.push(PAgg::Sum(triple.first))?;
    sums.push(PAgg::Sum(triple.first + 1))?;
    sums.push(PAgg::Sum(triple.first + 2))?;
    Ok(sums)
}
