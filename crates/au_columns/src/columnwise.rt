//! Expressions, worked on one column after the other.
//!
//! What is made of parts takes these as they were made, so that the recursion itself holds no column. The trees of the parts,
//! and the batch, are passed for what is said of them.
ghost use Rattle.std.specs.Prelude.{◌≡◌, IfOk, Some, if◌then◌else◌, length, neg_ℤ, not, pos, replicate};
ghost use Rattle.au_plain.specs.PTerms.{nil, pterm};
ghost use Rattle.au_codes.specs.Careful.{careful, careful_extreme, extreme_number, fitting, from_both, from_one};
ghost use Rattle.au_codes.specs.CellMeaning.{cell, truth};
ghost use Rattle.au_codes.specs.Codes.{flag};
ghost use Rattle.au_codes.specs.Gathering.{terms};
ghost use Rattle.au_columns.specs.Evaluated.{Gives};
ghost use Rattle.au_columns.specs.Operands.{seen};
ghost use Rattle.au_columns.specs.Steps.{tested, worked as worked_of};

use crate::batch::Batch;
use crate::column::Column;
use crate::operand::{Operand, column};
use crate::operation::{arithmetic, choose, test};
use crate::rowwise::literal;
use crate::step::{Arithmetic, Test};
use au_expr::EvalFault;
use au_plain::{Comparison2, PExpr};
use au_value::{Extreme, Value, both};
use std::alloc::Global;

/// The value of an expression on each row: both branches of a CASE are worked, and each step in 64 bits where its numbers
/// fit them.
///
/// `Overflow` comes where a step leaves 128 bits on some row, also in a branch that isn't taken there.
#[cycle(columnwise)]
pub(crate) fn by_columns<'a>(
    alloc: Global,
    batch: &'a Batch,
    tree: &PExpr,
) -> Result<Operand<'a>, EvalFault>
    ensures { IfOk result (λ v. Gives (careful (pterm tree.now)) batch.now (seen v)) }
{
    match tree {
        PExpr::Column(place) => {
            let lent = batch.operand(alloc, *place)?;
            Ok(lent)
        }
        PExpr::Literal(value) => constant(alloc, batch, value),
        PExpr::Negate(a) => {
            let x = by_columns(alloc, batch, a);
            negated(alloc, batch, a, x)
        }
        PExpr::Not(a) => {
            let x = by_columns(alloc, batch, a);
            opposite(alloc, batch, a, x)
        }
        PExpr::Add(a, b) => {
            let x = by_columns(alloc, batch, a);
            let y = by_columns(alloc, batch, b);
            worked(alloc, batch, Arithmetic::Add, a, b, x, y)
        }
        PExpr::Subtract(a, b) => {
            let x = by_columns(alloc, batch, a);
            let y = by_columns(alloc, batch, b);
            worked(alloc, batch, Arithmetic::Subtract, a, b, x, y)
        }
        PExpr::Multiply(a, b) => {
            let x = by_columns(alloc, batch, a);
            let y = by_columns(alloc, batch, b);
            worked(alloc, batch, Arithmetic::Multiply, a, b, x, y)
        }
        PExpr::Compare(how, a, b) => {
            let x = by_columns(alloc, batch, a);
            let y = by_columns(alloc, batch, b);
            judged(alloc, batch, Test::Compare(*how), a, b, x, y)
        }
        PExpr::And(a, b) => {
            let x = by_columns(alloc, batch, a);
            let y = by_columns(alloc, batch, b);
            judged(alloc, batch, Test::And, a, b, x, y)
        }
        PExpr::Or(a, b) => {
            let x = by_columns(alloc, batch, a);
            let y = by_columns(alloc, batch, b);
            judged(alloc, batch, Test::Or, a, b, x, y)
        }
        PExpr::Case(c, a, b) => {
            let flags = by_columns(alloc, batch, c);
            let x = by_columns(alloc, batch, a);
            let y = by_columns(alloc, batch, b);
            chosen(alloc, batch, c, a, b, flags, x, y)
        }
        PExpr::Least(es) => {
            let least = extreme(alloc, batch, Extreme::Least, es);
            least
        }
        PExpr::Greatest(es) => {
            let greatest = extreme(alloc, batch, Extreme::Greatest, es);
            greatest
        }
    }
}

// The least or the greatest of the values of some expressions on each row, and 0 of none.
#[cycle(columnwise)]
fn extreme<'a>(
    alloc: Global,
    batch: &'a Batch,
    how: Extreme,
    es: &[PExpr],
) -> Result<Operand<'a>, EvalFault>
    ensures { IfOk result (λ v. Gives (careful_extreme how (terms es.now)) batch.now (seen v)) }
{
    if es.is_empty() {
        return nothing(alloc, batch, how);
    }
    let mut i = es.len() - 1;
    let mut best = by_columns(alloc, batch, &es[i]);
    while i > 0 {
        let (_, rest) = es.split_at(i);
        i -= 1;
        let first = &es[i];
        let next = by_columns(alloc, batch, first);
        best = preferred(alloc, batch, how, first, rest, next, best);
    }
    best
}

// The number that is written out, on each row.
fn constant<'a>(alloc: Global, batch: &Batch, value: &Value) -> Result<Operand<'a>, EvalFault>
    ensures { IfOk result (λ v. Gives (λ row. fitting (cell value.now)) batch.now (seen v)) }
{
    let made = Column::filled(alloc, literal(value), batch.len())?;
    Ok(Operand::Made(made))
}

// The least or the greatest of no numbers, on each row.
fn nothing<'a>(alloc: Global, batch: &Batch, how: Extreme) -> Result<Operand<'a>, EvalFault>
    ensures { IfOk result (λ v. Gives (careful_extreme how nil) batch.now (seen v)) }
{
    let _how = how;
    let made = Column::filled(alloc, 0, batch.len())?;
    Ok(Operand::Made(made))
}

// Arithmetic on the values of two expressions.
fn worked<'a>(
    alloc: Global,
    batch: &Batch,
    how: Arithmetic,
    a: &PExpr,
    b: &PExpr,
    x: Result<Operand<'a>, EvalFault>,
    y: Result<Operand<'a>, EvalFault>,
) -> Result<Operand<'a>, EvalFault>
    requires x { IfOk x (λ v. Gives (careful (pterm a.now)) batch.now (seen v)) }
    requires y { IfOk y (λ v. Gives (careful (pterm b.now)) batch.now (seen v)) }
    ensures { IfOk result (λ v. Gives (λ row. from_both (λ m n. fitting (worked_of how m n)) (careful (pterm a.now) row) (careful (pterm b.now) row)) batch.now (seen v)) }
{
    let (x, y) = both(x, y)?;
    let made = arithmetic(alloc, how, column(&x), column(&y))?;
    made.read();
    Ok(Operand::Made(made))
}

// A test of the values of two expressions.
fn judged<'a>(
    alloc: Global,
    batch: &Batch,
    how: Test,
    a: &PExpr,
    b: &PExpr,
    x: Result<Operand<'a>, EvalFault>,
    y: Result<Operand<'a>, EvalFault>,
) -> Result<Operand<'a>, EvalFault>
    requires x { IfOk x (λ v. Gives (careful (pterm a.now)) batch.now (seen v)) }
    requires y { IfOk y (λ v. Gives (careful (pterm b.now)) batch.now (seen v)) }
    ensures { IfOk result (λ v. Gives (λ row. from_both (λ m n. Some (tested how m n)) (careful (pterm a.now) row) (careful (pterm b.now) row)) batch.now (seen v)) }
{
    let (x, y) = both(x, y)?;
    let made = test(alloc, how, column(&x), column(&y))?;
    Ok(Operand::Made(made))
}

// The lesser, or the greater, of the values of an expression and of the extreme of some more.
fn preferred<'a>(
    alloc: Global,
    batch: &Batch,
    how: Extreme,
    first: &PExpr,
    rest: &[PExpr],
    x: Result<Operand<'a>, EvalFault>,
    y: Result<Operand<'a>, EvalFault>,
) -> Result<Operand<'a>, EvalFault>
    requires x { IfOk x (λ v. Gives (careful (pterm first.now)) batch.now (seen v)) }
    requires y { IfOk y (λ v. Gives (careful_extreme how (terms rest.now)) batch.now (seen v)) }
    ensures { IfOk result (λ v. Gives (λ row. from_both (λ m n. Some (extreme_number how m n)) (careful (pterm first.now) row) (careful_extreme how (terms rest.now) row)) batch.now (seen v)) }
{
    let (x, y) = both(x, y)?;
    let made = arithmetic(alloc, Arithmetic::Extreme(how), column(&x), column(&y))?;
    Ok(Operand::Made(made))
}

// The opposites of the values of an expression.
fn negated<'a>(
    alloc: Global,
    batch: &Batch,
    a: &PExpr,
    x: Result<Operand<'a>, EvalFault>,
) -> Result<Operand<'a>, EvalFault>
    requires { IfOk x (λ v. Gives (careful (pterm a.now)) batch.now (seen v)) }
    ensures { IfOk result (λ v. Gives (λ row. from_one (λ m. fitting (neg_ℤ m)) (careful (pterm a.now) row)) batch.now (seen v)) }
{
    let (zeros, x) = both(zeros_for(alloc, batch), x)?;
    let made = arithmetic(alloc, Arithmetic::Subtract, &zeros, column(&x))?;
    made.read();
    Ok(Operand::Made(made))
}

// The opposites of flags.
fn opposite<'a>(
    alloc: Global,
    batch: &Batch,
    a: &PExpr,
    x: Result<Operand<'a>, EvalFault>,
) -> Result<Operand<'a>, EvalFault>
    requires { IfOk x (λ v. Gives (careful (pterm a.now)) batch.now (seen v)) }
    ensures { IfOk result (λ v. Gives (λ row. from_one (λ m. Some (flag (not (truth m)))) (careful (pterm a.now) row)) batch.now (seen v)) }
{
    let (zeros, x) = both(zeros_for(alloc, batch), x)?;
    let made = test(alloc, Test::Compare(Comparison2::Equal), column(&x), &zeros)?;
    Ok(Operand::Made(made))
}

// A 0 for each row.
fn zeros_for(alloc: Global, batch: &Batch) -> Result<Column, EvalFault>
    ensures { IfOk result (λ c. c ≡ replicate (length batch.now) (pos 0)) }
{
    let zeros = Column::filled(alloc, 0, batch.len())?;
    Ok(zeros)
}

// Of the values of two expressions the first where the condition is true, and else the second.
fn chosen<'a>(
    alloc: Global,
    batch: &Batch,
    c: &PExpr,
    a: &PExpr,
    b: &PExpr,
    flags: Result<Operand<'a>, EvalFault>,
    x: Result<Operand<'a>, EvalFault>,
    y: Result<Operand<'a>, EvalFault>,
) -> Result<Operand<'a>, EvalFault>
    requires flags { IfOk flags (λ v. Gives (careful (pterm c.now)) batch.now (seen v)) }
    requires x { IfOk x (λ v. Gives (careful (pterm a.now)) batch.now (seen v)) }
    requires y { IfOk y (λ v. Gives (careful (pterm b.now)) batch.now (seen v)) }
    ensures { IfOk result (λ v. Gives (λ row. from_one (λ m. if truth m then careful (pterm a.now) row else careful (pterm b.now) row) (careful (pterm c.now) row)) batch.now (seen v)) }
{
    let (flags, (x, y)) = both(flags, both(x, y))?;
    let made = choose(alloc, column(&flags), column(&x), column(&y))?;
    Ok(Operand::Made(made))
}
