//! The truths of conditions over ranges.
ghost use Rattle.std.specs.Prelude.{◌≡◌, not};
ghost use Rattle.au_value.specs.Order.{kind_of};
ghost use Rattle.au_value.specs.Ranges.{IsRangeOf};
ghost use Rattle.au_value.specs.declared.kinds.Kind.{Kind};
ghost use Rattle.au_expr.specs.OnRanges.{compare as compare_of};
ghost use Rattle.au_value.specs.declared.comparison.Comparison.TheVariants as how;
ghost use Rattle.au_expr.specs.Truths.{IsThreeWay, three_way as three_way_of, range_of_truth};

use crate::number::flag;
use au_value::{Comparison, Range, Value, order};

/// Whether a condition over ranges holds certainly, in the guess, and possibly. Valid where
/// `least <= guess <= most`, with false below true.
#[derive(Clone, Copy, Debug, PartialEq, Eq)]
pub struct ThreeWay {
    pub least: bool,
    pub guess: bool,
    pub most: bool,
}

/// The truth of a range of flags.
pub(crate) fn three_way(a: &Range) -> ThreeWay
    requires { IsRangeOf Kind.Flag a.now }
    ensures value { result ≡ three_way_of a.now }
    ensures valid { IsThreeWay result }
{
    ThreeWay {
        least: flag(a.lo()),
        guess: flag(a.sg()),
        most: flag(a.hi()),
    }
}

/// The range of flags of a valid truth.
pub(crate) fn flags(truth: ThreeWay) -> Range
    requires { IsThreeWay truth }
    ensures { result ≡ range_of_truth truth }
{
    Range::of(
        Value::Flag(truth.least),
        Value::Flag(truth.guess),
        Value::Flag(truth.most),
    )
}

/// Whether the comparison holds certainly, of the guesses, and possibly.
pub(crate) fn compared(how: Comparison, a: &Range, b: &Range) -> ThreeWay
    requires { kind_of a.now.sg ≡ kind_of b.now.sg }
    ensures { range_of_truth result ≡ compare_of how a.now b.now }
{
    match how {
        Comparison::Equal => equal(a, b),
        Comparison::Differs => opposite(equal(a, b)),
        Comparison::Less => below(a, b),
        Comparison::AtMost => at_most(a, b),
        Comparison::Greater => below(b, a),
        Comparison::AtLeast => at_most(b, a),
    }
}

fn opposite(truth: ThreeWay) -> ThreeWay
    ensures least { result.least ≡ not truth.most }
    ensures guess { result.guess ≡ not truth.guess }
    ensures most { result.most ≡ not truth.least }
{
    ThreeWay {
        least: !truth.most,
        guess: !truth.guess,
        most: !truth.least,
    }
}

fn equal(a: &Range, b: &Range) -> ThreeWay
    requires { kind_of a.now.sg ≡ kind_of b.now.sg }
    ensures { range_of_truth result ≡ compare_of how.Equal a.now b.now }
{
    ThreeWay {
        least: a.is_certain() && b.is_certain() && order(a.lo(), b.lo()).is_eq(),
        guess: order(a.sg(), b.sg()).is_eq(),
        most: a.overlaps(b),
    }
}

fn below(a: &Range, b: &Range) -> ThreeWay
    requires { kind_of a.now.sg ≡ kind_of b.now.sg }
    ensures { range_of_truth result ≡ compare_of how.Less a.now b.now }
{
    ThreeWay {
        least: order(a.hi(), b.lo()).is_lt(),
        guess: order(a.sg(), b.sg()).is_lt(),
        most: order(a.lo(), b.hi()).is_lt(),
    }
}

fn at_most(a: &Range, b: &Range) -> ThreeWay
    requires { kind_of a.now.sg ≡ kind_of b.now.sg }
    ensures { range_of_truth result ≡ compare_of how.AtMost a.now b.now }
{
    ThreeWay {
        least: order(a.hi(), b.lo()).is_le(),
        guess: order(a.sg(), b.sg()).is_le(),
        most: order(a.lo(), b.hi()).is_le(),
    }
}
