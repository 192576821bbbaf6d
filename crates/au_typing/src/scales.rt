//! Numbers of different scales, and what brings two to one.
ghost use Rattle.std.specs.Prelude.{◌≡◌, ◌≤◌, ◌^◌, Some, IfOk, pos};
ghost use Rattle.au_expr.specs.Terms.{term};
ghost use Rattle.au_typing.specs.Scales.{common, number_if, number_kind, product_kind, rescaled, scale, scale_of, sum_kind};

use au_expr::Expr;
use au_value::{Kind, NoMemory, Value};
use std::alloc::Global;

// How many digits stand behind the point of the numbers of a number kind.
fn scale_of(kind: Kind) -> Option<u32>
    ensures { result ≡ scale_of (Some kind) }
{
    match kind {
        Kind::Int => Some(0),
        Kind::Dec(digits) => Some(digits),
        Kind::Text | Kind::Flag => None,
    }
}

// The kind of the numbers with so many digits behind the point: none has more than 9.
fn number_kind(digits: u32) -> Option<Kind>
    ensures { result ≡ number_kind digits }
{
    if digits == 0 {
        Some(Kind::Int)
    } else if digits < 10 {
        Some(Kind::Dec(digits))
    } else {
        None
    }
}

/// The kind of the sum and of the difference of two numbers.
pub(crate) fn sum_kind(left: Kind, right: Kind) -> Option<Kind>
    ensures { result ≡ sum_kind (Some left) (Some right) }
{
    match (scale_of(left), scale_of(right)) {
        (Some(a), Some(b)) => number_kind(a.max(b)),
        _ => None,
    }
}

/// The kind of the product of two numbers.
pub(crate) fn product_kind(left: Kind, right: Kind) -> Option<Kind>
    ensures { result ≡ product_kind (Some left) (Some right) }
{
    match (scale_of(left), scale_of(right)) {
        (Some(a), Some(b)) if a < 10 && b < 10 => number_kind(a + b),
        _ => None,
    }
}

/// The kind, where it is one of numbers.
pub(crate) fn number_if(kind: Kind) -> Option<Kind>
    ensures { result ≡ number_if (Some kind) }
{
    match kind {
        Kind::Int | Kind::Dec(_) => Some(kind),
        Kind::Text | Kind::Flag => None,
    }
}

/// The kind that two kinds are brought to.
pub(crate) fn common_kind(left: Kind, right: Kind) -> Option<Kind>
    ensures kind { result ≡ common (Some left) (Some right) }
    ensures few { scale result ≤ 9 }
{
    match (scale_of(left), scale_of(right)) {
        (Some(_), Some(_)) => sum_kind(left, right),
        (None, None) if left == right => Some(left),
        _ => None,
    }
}

/// The scale of a number kind, and 0 of what is none.
pub(crate) fn scale(kind: Option<Kind>) -> u32
    ensures { result ≡ scale kind }
{
    match kind {
        Some(Kind::Dec(digits)) => digits,
        _ => 0,
    }
}

fn power_of_ten(digits: u32) -> i128
    requires { digits ≤ 9 }
    ensures { result ≡ pos (10 ^ digits) }
{
    i128::from(10u64.pow(digits))
}

/// An expression of one kind, brought to another.
pub(crate) fn rescaled(
    alloc: Global,
    own: Kind,
    to: Option<Kind>,
    e: Expr,
) -> Result<Expr, NoMemory>
    requires { scale to ≤ 9 }
    ensures { IfOk result (λ x. term x ≡ rescaled (Some own) to (term e)) }
{
    let digits = scale(to).saturating_sub(scale(Some(own)));
    if digits == 0 {
        return Ok(e);
    }
    let number = Expr::Literal(Value::Int(power_of_ten(digits)));
    let e = Box::new(alloc, e)?;
    let number = Box::new(alloc, number)?;
    Ok(Expr::Multiply(e, number))
}
