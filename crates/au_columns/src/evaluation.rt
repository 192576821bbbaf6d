//! Expressions over a batch.
ghost use Rattle.std.specs.Prelude.{◌≡◌, MatchResult};
ghost use Rattle.au_expr.specs.declared.fault.EvalFault.TheVariants as fault;
ghost use Rattle.au_plain.specs.PTerms.{pterm};
ghost use Rattle.au_columns.specs.Evaluated.{IsEvaluated, Leaves};
ghost use Rattle.au_columns.specs.Operands.{seen};

use crate::batch::Batch;
use crate::column::Column;
use crate::columnwise::by_columns;
use crate::operand::{Operand, owned};
use crate::rowwise::by_rows;
use au_expr::EvalFault;
use au_plain::PExpr;
use std::alloc::Global;

/// The value of an expression on each row of a batch.
///
/// `Overflow` comes only where a number of the expression leaves 128 bits on some row. Of a CASE the branch that is taken
/// counts alone.
pub fn evaluate(alloc: Global, batch: &Batch, tree: &PExpr) -> Result<Column, EvalFault>
    ensures { MatchResult result (λ c. IsEvaluated (pterm tree.now) batch.now c) (λ f. f ≡ fault.Overflow → Leaves (pterm tree.now) batch.now) }
{
    match operand(alloc, batch, tree) {
        Ok(found) => match owned(alloc, found) {
            Ok(column) => Ok(column),
            Err(_) => Err(EvalFault::NoMemory),
        },
        Err(fault) => Err(fault),
    }
}

/// The same, lent where the expression is a column. It is worked by columns, and only where a step leaves 128 bits row by
/// row, which decides.
pub(crate) fn operand<'a>(
    alloc: Global,
    batch: &'a Batch,
    tree: &PExpr,
) -> Result<Operand<'a>, EvalFault>
    ensures { MatchResult result (λ v. IsEvaluated (pterm tree.now) batch.now (seen v)) (λ f. f ≡ fault.Overflow → Leaves (pterm tree.now) batch.now) }
{
    match by_columns(alloc, batch, tree) {
        Ok(found) => Ok(found),
        Err(EvalFault::NoMemory) => Err(EvalFault::NoMemory),
        Err(EvalFault::Overflow) => match by_rows(alloc, batch, tree) {
            Ok(column) => Ok(Operand::Made(column)),
            Err(fault) => Err(fault),
        },
    }
}
