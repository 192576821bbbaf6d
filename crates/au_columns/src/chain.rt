//! Chains of operators that work row by row.
ghost use Rattle.std.specs.Prelude.{◌≡◌, ◌∷◌, [], IfOk, MatchOption, MatchResult, OnOk, flat_map, filter, map, true};
ghost use Rattle.au_expr.specs.declared.fault.EvalFault.TheVariants as fault;
ghost use Rattle.au_expr.specs.Figures.{fit};
ghost use Rattle.au_plain.specs.PTerms.{pterm};
ghost use Rattle.au_plain.specs.PTerms as term;
ghost use Rattle.au_physical.specs.Chains.{is_chain};
ghost use Rattle.au_physical.specs.Physicals.{physical_tree};
ghost use Rattle.au_codes.specs.CellMeaning.{cells_extended, cells_pass};
ghost use Rattle.au_codes.specs.CellNumbers.{cell_numbers};
ghost use Rattle.au_columns.specs.Chains.{Ran, Worked, WorkedAll, below as below_of, downward, lent_trees};
ghost use Rattle.au_columns.specs.Evaluated.{Leaves};

use crate::batch::Batch;
use crate::evaluation::{evaluate, operand};
use crate::operand::column;
use au_expr::EvalFault;
use au_physical::Physical;
use au_plain::PExpr;
use au_value::NoMemory;
use std::alloc::Global;

/// The rows of a chain over a batch in the place of its table, in order. It takes few bytes of the stack, however many
/// operators there are.
///
/// `Overflow` comes only where a number of the plan leaves 128 bits.
pub fn run_chain(alloc: Global, plan: &Physical, batch: Batch) -> Result<Batch, EvalFault>
    requires { is_chain (physical_tree plan.now) ≡ true }
    ensures { Ran (physical_tree plan.now) batch result }
{
    let operators = match operators_of(alloc, plan) {
        Ok(operators) => operators,
        Err(NoMemory) => return Err(EvalFault::NoMemory),
    };
    worked(alloc, &operators, batch)
}

/// The operators of a plan that work row by row, as far down as there are only such, the topmost first, each with what is
/// below it.
pub fn operators_of<'a>(alloc: Global, plan: &'a Physical) -> Result<Vec<&'a Physical>, NoMemory>
    ensures { IfOk result (λ v. lent_trees v.items ≡ downward (physical_tree plan.now)) }
{
    let mut operators = Vec::new(alloc);
    let mut rest = plan;
    while let Some(next) = below(rest) {
        operators.push(rest)?;
        rest = next;
    }
    Ok(operators)
}

/// What is below the topmost operator, where this works row by row.
pub fn below(plan: &Physical) -> Option<&Physical>
    ensures { MatchOption result (below_of (physical_tree plan.now) ≡ []) (λ p. below_of (physical_tree plan.now) ≡ physical_tree p.now ∷ []) }
{
    match plan {
        Physical::Extend(_, of) => Some(of),
        Physical::Keep(_, of) => Some(of),
        Physical::Filter(_, of) => Some(of),
        _ => None,
    }
}

/// The rows that operators, the topmost first, leave of some rows. Each counts without what is below it.
///
/// `Overflow` comes only where one of their numbers leaves 128 bits.
pub fn worked(alloc: Global, operators: &[&Physical], rows: Batch) -> Result<Batch, EvalFault>
    ensures { WorkedAll (lent_trees operators.now) rows result }
{
    let mut made = rows;
    let mut left = operators.len();
    while left > 0 {
        left -= 1;
        made = match work(alloc, operators[left], made) {
            Ok(made) => made,
            Err(fault) => return Err(fault),
        };
    }
    Ok(made)
}

// The rows that the topmost operator of a plan leaves of some rows.
fn work(alloc: Global, operator: &Physical, rows: Batch) -> Result<Batch, EvalFault>
    ensures { Worked (physical_tree operator.now) rows result }
{
    match operator {
        Physical::Extend(tree, _) => extended(alloc, tree, rows),
        Physical::Keep(places, _) => {
            let kept = rows.keep(alloc, places)?;
            Ok(kept)
        }
        Physical::Filter(tree, _) => filtered(alloc, tree, &rows),
        _ => Ok(rows),
    }
}

// The rows with the value of an expression added on the right. A column that is there is shared.
fn extended(alloc: Global, tree: &PExpr, rows: Batch) -> Result<Batch, EvalFault>
    ensures { MatchResult result (λ b. (b ≡ map (cells_extended (pterm tree.now)) rows) × (fit (flat_map (cell_numbers (pterm tree.now)) rows) ≡ true)) (λ f. f ≡ fault.Overflow → Leaves (pterm tree.now) rows) }
{
    match tree {
        PExpr::Column(place) => Ok(shared(alloc, *place, rows)?),
        _ => added(alloc, tree, rows),
    }
}

// The rows with the column of a place once more.
fn shared(alloc: Global, place: usize, rows: Batch) -> Result<Batch, NoMemory>
    ensures { IfOk result (λ b. (b ≡ map (cells_extended (term.Column place)) rows) × (fit (flat_map (cell_numbers (term.Column place)) rows) ≡ true)) }
{
    read(alloc, place, &rows)?;
    let made = rows.with_copy(alloc, place)?;
    Ok(made)
}

// Reads the numbers of a column: what is held fits.
fn read(alloc: Global, place: usize, rows: &Batch) -> Result<(), NoMemory>
    ensures { OnOk result (fit (flat_map (cell_numbers (term.Column place)) rows.now) ≡ true) }
{
    let _column = rows.operand(alloc, place)?;
    Ok(())
}

// The rows with the value of an expression added on the right.
fn added(alloc: Global, tree: &PExpr, rows: Batch) -> Result<Batch, EvalFault>
    ensures { MatchResult result (λ b. (b ≡ map (cells_extended (pterm tree.now)) rows) × (fit (flat_map (cell_numbers (pterm tree.now)) rows) ≡ true)) (λ f. f ≡ fault.Overflow → Leaves (pterm tree.now) rows) }
{
    match evaluate(alloc, &rows, tree) {
        Ok(column) => match rows.with_column(alloc, column) {
            Ok(made) => Ok(made),
            Err(_) => Err(EvalFault::NoMemory),
        },
        Err(fault) => Err(fault),
    }
}

/// The rows for which an expression is true.
///
/// `Overflow` comes only where a number of the expression leaves 128 bits on some row.
pub fn filtered(alloc: Global, tree: &PExpr, rows: &Batch) -> Result<Batch, EvalFault>
    ensures { MatchResult result (λ b. (b ≡ filter (cells_pass (pterm tree.now)) rows.now) × (fit (flat_map (cell_numbers (pterm tree.now)) rows.now) ≡ true)) (λ f. f ≡ fault.Overflow → Leaves (pterm tree.now) rows.now) }
{
    match operand(alloc, rows, tree) {
        Ok(flags) => match rows.filter(alloc, column(&flags)) {
            Ok(made) => Ok(made),
            Err(_) => Err(EvalFault::NoMemory),
        },
        Err(fault) => Err(fault),
    }
}
