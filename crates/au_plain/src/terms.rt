//! Plain terms, made one at a time.
ghost use Rattle.std.specs.Prelude.{◌≡◌, IfOk, ◌∷◌, []};
ghost use Rattle.au_plain.specs.PTerms.{pterm};
ghost use Rattle.au_plain.specs.PTerms as term;
ghost use Rattle.au_plain.specs.PTerms.{greatest_of_two as greatest, least_of_two as least};

use crate::expr::{Comparison2, PExpr};
use au_value::{NoMemory, beside, both};
use std::alloc::Global;

/// `a + b`
pub fn add(alloc: Global, a: PExpr, b: PExpr) -> Result<PExpr, NoMemory>
    ensures { IfOk result (λ e. pterm e ≡ term.Add (pterm a) (pterm b)) }
{
    let (left, right) = both(Box::new(alloc, a), Box::new(alloc, b))?;
    Ok(PExpr::Add(left, right))
}

/// `a - b`
pub fn subtract(alloc: Global, a: PExpr, b: PExpr) -> Result<PExpr, NoMemory>
    ensures { IfOk result (λ e. pterm e ≡ term.Subtract (pterm a) (pterm b)) }
{
    let (left, right) = both(Box::new(alloc, a), Box::new(alloc, b))?;
    Ok(PExpr::Subtract(left, right))
}

/// `a * b`
pub fn multiply(alloc: Global, a: PExpr, b: PExpr) -> Result<PExpr, NoMemory>
    ensures { IfOk result (λ e. pterm e ≡ term.Multiply (pterm a) (pterm b)) }
{
    let (left, right) = both(Box::new(alloc, a), Box::new(alloc, b))?;
    Ok(PExpr::Multiply(left, right))
}

/// `-a`
pub fn negate(alloc: Global, a: PExpr) -> Result<PExpr, NoMemory>
    ensures { IfOk result (λ e. pterm e ≡ term.Negate (pterm a)) }
{
    Ok(PExpr::Negate(Box::new(alloc, a)?))
}

/// A test of two values of one kind.
pub fn compare(alloc: Global, how: Comparison2, a: PExpr, b: PExpr) -> Result<PExpr, NoMemory>
    ensures { IfOk result (λ e. pterm e ≡ term.Compare how (pterm a) (pterm b)) }
{
    let (left, right) = both(Box::new(alloc, a), Box::new(alloc, b))?;
    Ok(PExpr::Compare(how, left, right))
}

/// `a AND b`
pub fn and(alloc: Global, a: PExpr, b: PExpr) -> Result<PExpr, NoMemory>
    ensures { IfOk result (λ e. pterm e ≡ term.And (pterm a) (pterm b)) }
{
    let (left, right) = both(Box::new(alloc, a), Box::new(alloc, b))?;
    Ok(PExpr::And(left, right))
}

/// `a OR b`
pub fn or(alloc: Global, a: PExpr, b: PExpr) -> Result<PExpr, NoMemory>
    ensures { IfOk result (λ e. pterm e ≡ term.Or (pterm a) (pterm b)) }
{
    let (left, right) = both(Box::new(alloc, a), Box::new(alloc, b))?;
    Ok(PExpr::Or(left, right))
}

/// `NOT a`
pub fn not(alloc: Global, a: PExpr) -> Result<PExpr, NoMemory>
    ensures { IfOk result (λ e. pterm e ≡ term.Not (pterm a)) }
{
    Ok(PExpr::Not(Box::new(alloc, a)?))
}

/// `a` where the condition holds, else `b`.
pub fn case(alloc: Global, condition: PExpr, a: PExpr, b: PExpr) -> Result<PExpr, NoMemory>
    ensures { IfOk result (λ e. pterm e ≡ term.Case (pterm condition) (pterm a) (pterm b)) }
{
    let branches = both(Box::new(alloc, a), Box::new(alloc, b));
    let (test, (left, right)) = both(Box::new(alloc, condition), branches)?;
    Ok(PExpr::Case(test, left, right))
}

/// The lesser of two values of one kind.
pub fn least_of_two(alloc: Global, a: PExpr, b: PExpr) -> Result<PExpr, NoMemory>
    ensures { IfOk result (λ e. pterm e ≡ least (pterm a) (pterm b)) }
{
    Ok(PExpr::Least(pair(alloc, a, b)?))
}

/// The greater of two values of one kind.
pub fn greatest_of_two(alloc: Global, a: PExpr, b: PExpr) -> Result<PExpr, NoMemory>
    ensures { IfOk result (λ e. pterm e ≡ greatest (pterm a) (pterm b)) }
{
    Ok(PExpr::Greatest(pair(alloc, a, b)?))
}

fn pair(alloc: Global, a: PExpr, b: PExpr) -> Result<Vec<PExpr>, NoMemory>
    ensures { IfOk result (λ terms. terms.items ≡ a ∷ b ∷ []) }
{
    let held = (a, b);
    let (mut terms, (a, b)) = beside(Vec::with_capacity(alloc, 2), held)?;
    let (_, b) = beside(terms.push(a), b)?;
    terms.push(b)?;
    Ok(terms)
}
