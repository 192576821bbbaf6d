//! Arithmetic on the numbers of ranges: each is refused exactly where one of its numbers leaves 128 bits.
ghost use Rattle.std.specs.Prelude.{◌≡◌, ◌++◌, MatchResult};
ghost use Rattle.au_value.specs.Ranges.{IsRange, IsRangeOf};
ghost use Rattle.au_value.specs.declared.kinds.Kind.{Kind};
ghost use Rattle.au_expr.specs.Ends.{int_range, all_three, extremes as extremes_of, between as between_of};
ghost use Rattle.au_expr.specs.Figures.{Fit};
ghost use Rattle.au_expr.specs.Numbers.{components, end_products};
ghost use Rattle.au_expr.specs.OnRanges as on_ranges;

use crate::number::{difference, greater, lesser, negation, number, product, sum};
use au_value::{Overflow, Range, Value};

/// The three numbers of a range.
#[derive(Clone, Copy)]
pub(crate) struct Ends {
    lo: i128,
    sg: i128,
    hi: i128,
}

/// The numbers of a range of numbers.
pub(crate) fn numbers(a: &Range) -> Ends
    requires { IsRangeOf Kind.Int a.now }
    ensures { int_range result ≡ a.now }
{
    Ends {
        lo: number(a.lo()),
        sg: number(a.sg()),
        hi: number(a.hi()),
    }
}

/// The range of three numbers.
pub(crate) fn whole(ends: Ends) -> Range
    requires { IsRange (int_range ends) }
    ensures { result ≡ int_range ends }
{
    Range::of(
        Value::Int(ends.lo),
        Value::Int(ends.sg),
        Value::Int(ends.hi),
    )
}

// The three, where each is there.
fn gathered(
    lo: Result<i128, Overflow>,
    sg: Result<i128, Overflow>,
    hi: Result<i128, Overflow>,
) -> Result<Ends, Overflow>
    ensures { result ≡ all_three lo sg hi }
{
    Ok(Ends {
        lo: lo?,
        sg: sg?,
        hi: hi?,
    })
}

pub(crate) fn sums(a: Ends, b: Ends) -> Result<Ends, Overflow>
    ensures { let r = on_ranges.add (int_range a) (int_range b) in MatchResult result (λ e. Fit (components r) × (int_range e ≡ r)) (λ _. ¬ (Fit (components r))) }
{
    gathered(sum(a.lo, b.lo), sum(a.sg, b.sg), sum(a.hi, b.hi))
}

pub(crate) fn differences(a: Ends, b: Ends) -> Result<Ends, Overflow>
    ensures { let r = on_ranges.subtract (int_range a) (int_range b) in MatchResult result (λ e. Fit (components r) × (int_range e ≡ r)) (λ _. ¬ (Fit (components r))) }
{
    gathered(
        difference(a.lo, b.hi),
        difference(a.sg, b.sg),
        difference(a.hi, b.lo),
    )
}

pub(crate) fn negations(a: Ends) -> Result<Ends, Overflow>
    ensures { let r = on_ranges.negate (int_range a) in MatchResult result (λ e. Fit (components r) × (int_range e ≡ r)) (λ _. ¬ (Fit (components r))) }
{
    gathered(negation(a.hi), negation(a.sg), negation(a.lo))
}

pub(crate) fn products(a: Ends, b: Ends) -> Result<Ends, Overflow>
    ensures { let r = on_ranges.multiply (int_range a) (int_range b) in let numbers = end_products (int_range a) (int_range b) ++ components r in MatchResult result (λ e. Fit numbers × (int_range e ≡ r)) (λ _. ¬ (Fit numbers)) }
{
    extremes(
        product(a.lo, b.lo),
        product(a.lo, b.hi),
        product(a.hi, b.lo),
        product(a.hi, b.hi),
        product(a.sg, b.sg),
    )
}

// The least and the greatest of the four, with the guess, where each is there.
fn extremes(
    p: Result<i128, Overflow>,
    q: Result<i128, Overflow>,
    r: Result<i128, Overflow>,
    s: Result<i128, Overflow>,
    guess: Result<i128, Overflow>,
) -> Result<Ends, Overflow>
    ensures { result ≡ extremes_of p q r s guess }
{
    let p = p?;
    let q = q?;
    let r = r?;
    let s = s?;
    Ok(between(p, q, r, s, guess?))
}

// The least and the greatest of the four, with the guess.
fn between(p: i128, q: i128, r: i128, s: i128, guess: i128) -> Ends
    ensures { result ≡ between_of p q r s guess }
{
    Ends {
        lo: lesser(lesser(p, q), lesser(r, s)),
        sg: guess,
        hi: greater(greater(p, q), greater(r, s)),
    }
}
