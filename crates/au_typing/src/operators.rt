//! What operators, signs and the parts of a CASE make of the expressions and kinds of their operands.
ghost use Rattle.std.specs.Prelude.{◌≡◌, ◌≤◌, Some, IfOk};
ghost use Rattle.au_expr.specs.Terms.{term, Case};
ghost use Rattle.au_parse.specs.Levels.{operator_of};
ghost use Rattle.au_typing.specs.Shapes.{signed_kind, signed_term};
ghost use Rattle.au_typing.specs.Scales.{rescaled, scale};
ghost use Rattle.au_typing.specs.Terms.{scaled_operand, operated, operation as operation_of, operator_kind, when_kind};

use crate::scales::{common_kind, number_if, product_kind, rescaled, sum_kind};
use crate::shape::Sign;
use au_expr::Expr;
use au_parse::Operation;
use au_value::{Kind, NoMemory, beside, both};
use std::alloc::Global;

/// The kind that an operator gives, where its operands fit.
pub(crate) fn operator_kind(operation: Operation, left: Kind, right: Kind) -> Option<Kind>
    ensures { result ≡ operator_kind (operator_of operation) (Some left) (Some right) }
{
    match operation {
        Operation::Add | Operation::Subtract => sum_kind(left, right),
        Operation::Multiply => product_kind(left, right),
        Operation::Compare(_) => {
            if common_kind(left, right).is_some() {
                Some(Kind::Flag)
            } else {
                None
            }
        }
        Operation::And | Operation::Or => {
            if left == Kind::Flag && right == Kind::Flag {
                Some(Kind::Flag)
            } else {
                None
            }
        }
    }
}

// The two sides of an operator made one.
fn joined(alloc: Global, operation: Operation, left: Expr, right: Expr) -> Result<Expr, NoMemory>
    ensures { IfOk result (λ e. term e ≡ operation_of (operator_of operation) (term left) (term right)) }
{
    let (left, right) = both(Box::new(alloc, left), Box::new(alloc, right))?;
    match operation {
        Operation::Add => Ok(Expr::Add(left, right)),
        Operation::Subtract => Ok(Expr::Subtract(left, right)),
        Operation::Multiply => Ok(Expr::Multiply(left, right)),
        Operation::Compare(how) => Ok(Expr::Compare(how, left, right)),
        Operation::And => Ok(Expr::And(left, right)),
        Operation::Or => Ok(Expr::Or(left, right)),
    }
}

// An operand of an operator, brought to the kind of both where the operator wants that.
fn operand(
    alloc: Global,
    operation: Operation,
    own: Kind,
    to: Option<Kind>,
    e: Expr,
) -> Result<Expr, NoMemory>
    requires { scale to ≤ 9 }
    ensures { IfOk result (λ x. term x ≡ scaled_operand (operator_of operation) (Some own) to (term e)) }
{
    match operation {
        Operation::Add | Operation::Subtract | Operation::Compare(_) => {
            rescaled(alloc, own, to, e)
        }
        Operation::Multiply | Operation::And | Operation::Or => Ok(e),
    }
}

/// Two operands of these kinds made one.
pub(crate) fn operated(
    alloc: Global,
    operation: Operation,
    j: Kind,
    k: Kind,
    left: Expr,
    right: Expr,
) -> Result<Expr, NoMemory>
    ensures { IfOk result (λ e. term e ≡ operated (operator_of operation) (Some j) (Some k) (term left) (term right)) }
{
    let to = common_kind(j, k);
    let left = operand(alloc, operation, j, to, left);
    let right = operand(alloc, operation, k, to, right);
    let (left, right) = both(left, right)?;
    joined(alloc, operation, left, right)
}

/// The kind that a sign or a NOT gives, where its operand fits.
pub(crate) fn signed_kind(sign: Sign, kind: Kind) -> Option<Kind>
    ensures { result ≡ signed_kind sign (Some kind) }
{
    match (sign, kind) {
        (Sign::Minus, _) => number_if(kind),
        (Sign::Not, Kind::Flag) => Some(Kind::Flag),
        _ => None,
    }
}

/// An operand under a sign or NOT.
pub(crate) fn signed(alloc: Global, sign: Sign, inner: Expr) -> Result<Expr, NoMemory>
    ensures { IfOk result (λ e. term e ≡ signed_term sign (term inner)) }
{
    let inner = Box::new(alloc, inner)?;
    match sign {
        Sign::Minus => Ok(Expr::Negate(inner)),
        Sign::Not => Ok(Expr::Not(inner)),
    }
}

/// The kind of a WHEN part, where its condition is a flag and its branches can be brought to one kind.
pub(crate) fn when_kind(condition: Kind, value: Kind, rest: Kind) -> Option<Kind>
    ensures { result ≡ when_kind (Some condition) (Some value) (Some rest) }
{
    if condition == Kind::Flag {
        common_kind(value, rest)
    } else {
        None
    }
}

// A WHEN part before the others.
fn chosen(alloc: Global, condition: Expr, value: Expr, rest: Expr) -> Result<Expr, NoMemory>
    ensures { IfOk result (λ e. term e ≡ Case (term condition) (term value) (term rest)) }
{
    let branches = both(Box::new(alloc, value), Box::new(alloc, rest));
    let (condition, (value, rest)) = both(Box::new(alloc, condition), branches)?;
    Ok(Expr::Case(condition, value, rest))
}

/// A WHEN part before the others, where its value is brought from its own kind to another.
pub(crate) fn brought(
    alloc: Global,
    own: Kind,
    to: Option<Kind>,
    condition: Expr,
    value: Expr,
    rest: Expr,
) -> Result<Expr, NoMemory>
    requires { scale to ≤ 9 }
    ensures { IfOk result (λ e. term e ≡ Case (term condition) (rescaled (Some own) to (term value)) (term rest)) }
{
    let others = (condition, rest);
    let (value, (condition, rest)) = beside(rescaled(alloc, own, to, value), others)?;
    chosen(alloc, condition, value, rest)
}
