//! The steps of a plan: operators that work row by row.
ghost use Rattle.std.specs.Prelude.{◌≡◌, ◌≤◌, ◌∷◌, [], IfOk, true};
ghost use Rattle.au_value.specs.declared.value.Value.TheVariants.{Flag};
ghost use Rattle.au_plain.specs.PTerms.{pterm};
ghost use Rattle.au_plain.specs.PTerms as term;
ghost use Rattle.au_physical.specs.Physicals.{physical_tree};
ghost use Rattle.au_physical.specs.Physicals as physical;
ghost use Rattle.au_columns.specs.Chains.{WorkedAll, below as below_of};
ghost use Rattle.au_vector.specs.PlanSteps.{bottom as bottom_of, condition, plan_size, steps_of};
ghost use Rattle.au_vector.specs.Streams.{steps_in};

use au_columns::{Batch, below, filtered, operators_of, worked};
use au_expr::EvalFault;
use au_physical::Physical;
use au_plain::PExpr;
use au_value::{NoMemory, Value};
use std::alloc::Global;

/// The operators of a plan that work row by row, and the condition of the join below them, where there is one. Contracts see
/// them as operators, the topmost first, by `steps_in`.
#[derive(Drop)]
pub(crate) struct Steps<'a> {
    operators: Vec<&'a Physical>,
    bottom: &'a Physical,
}

impl<'a> Steps<'a> {
    /// The steps of a plan.
    pub(crate) fn of(alloc: Global, plan: &'a Physical) -> Result<Steps<'a>, NoMemory>
        ensures { IfOk result (λ s. steps_in s ≡ steps_of (physical_tree plan.now)) }
    {
        let operators = operators_of(alloc, plan)?;
        let bottom = bottom(plan);
        Ok(Steps { operators, bottom })
    }

    /// The rows that the steps leave of some rows.
    ///
    /// `Overflow` comes only where one of their numbers leaves 128 bits.
    pub(crate) fn work(&self, alloc: Global, rows: Batch) -> Result<Batch, EvalFault>
        ensures { WorkedAll (steps_in self.now) rows result }
    {
        match tested(alloc, self.bottom, rows) {
            Ok(rows) => worked(alloc, &self.operators, rows),
            Err(fault) => Err(fault),
        }
    }

    /// Whether columns are kept alone, which are shared.
    pub(crate) fn only_keep(&self) -> bool {
        for operator in &self.operators {
            if !is_keep(operator) {
                return false;
            }
        }
        true
    }
}

// Whether the topmost operator keeps columns.
fn is_keep(plan: &Physical) -> bool {
    matches!(plan, Physical::Keep(_, _))
}

/// The plan below all operators that work row by row.
pub(crate) fn bottom(plan: &Physical) -> &Physical
    ensures bottom { physical_tree result.now ≡ bottom_of (physical_tree plan.now) }
    ensures lowest { below_of (physical_tree result.now) ≡ [] }
    ensures smaller { plan_size (physical_tree result.now) ≤ plan_size (physical_tree plan.now) }
{
    let mut rest = plan;
    while let Some(next) = below(rest) {
        rest = next;
    }
    rest
}

// The pairs of a join for which its condition is true.
fn tested(alloc: Global, join: &Physical, rows: Batch) -> Result<Batch, EvalFault>
    ensures { WorkedAll (condition (physical_tree join.now)) rows result }
{
    match join {
        Physical::Nested(tree, _, _) => passed(alloc, tree, rows),
        Physical::Hash(_, tree, _, _) => passed(alloc, tree, rows),
        Physical::Overlap(_, tree, _, _) => passed(alloc, tree, rows),
        _ => Ok(rows),
    }
}

// The rows for which a condition is true. All stay where it is the literal TRUE.
fn passed(alloc: Global, tree: &PExpr, rows: Batch) -> Result<Batch, EvalFault>
    ensures { WorkedAll (physical.Filter (pterm tree.now) (physical.Scan 0 0) ∷ []) rows result }
{
    if is_true(tree) {
        Ok(rows)
    } else {
        filtered(alloc, tree, &rows)
    }
}

// Whether an expression is the literal TRUE.
fn is_true(tree: &PExpr) -> bool
    ensures { result ≡ true → pterm tree.now ≡ term.Literal (Flag true) }
{
    match tree {
        PExpr::Literal(Value::Flag(flag)) => *flag,
        _ => false,
    }
}
