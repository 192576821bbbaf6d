//! Ranges as cells.
ghost use Rattle.std.specs.Prelude.{◌≡◌, IfOk, OkIff};
ghost use Rattle.au_value.specs.Order.{kind_of};
ghost use Rattle.au_value.specs.Ranges.{IsRangeOf};
ghost use Rattle.au_value.specs.declared.kinds.Kind.{Kind};
ghost use Rattle.au_expr.specs.Figures.{Fit};
ghost use Rattle.au_expr.specs.Holding.{RangeIs};
ghost use Rattle.au_expr.specs.Numbers.{of_ranges, components};
ghost use Rattle.au_expr.specs.OnRanges.{on_ranges, chosen_between};
ghost use Rattle.au_expr.specs.Truths.{IsThreeWay, three_way as three_way_of};

use crate::domain::Domain;
use crate::ends::{differences, negations, numbers, products, sums, whole};
use crate::number::read;
use crate::truth::{ThreeWay, compared, flags, three_way};
use au_value::{Comparison, NoMemory, Overflow, Range, Value, copy};

/// The meaning over ranges: a cell is a range, which holds the value that the operator has on any values that
/// its operands hold, and a truth says whether a condition holds certainly, in the guess, and possibly.
pub struct RangeDomain;

impl Domain for RangeDomain {
    type Cell = Range;

    type Truth = ThreeWay;

    ghost operators = { on_ranges };

    ghost is_kind = { IsRangeOf };

    ghost figures = { of_ranges };

    ghost stands_for = { RangeIs };

    ghost truth_of = { three_way_of };

    ghost is_valid = { IsThreeWay };

    fn literal(value: &Value) -> Result<Range, NoMemory> {
        read(value);
        Range::certain(value)
    }

    fn copy(a: &Range) -> Result<Range, NoMemory> {
        copy_range(a)
    }

    fn add(a: &Range, b: &Range) -> Result<Range, Overflow> {
        read_range(a);
        read_range(b);
        let x = numbers(a);
        let y = numbers(b);
        let e = sums(x, y)?;
        Ok(whole(e))
    }

    fn subtract(a: &Range, b: &Range) -> Result<Range, Overflow> {
        read_range(a);
        read_range(b);
        let x = numbers(a);
        let y = numbers(b);
        let e = differences(x, y)?;
        Ok(whole(e))
    }

    fn multiply(a: &Range, b: &Range) -> Result<Range, Overflow> {
        read_range(a);
        read_range(b);
        let x = numbers(a);
        let y = numbers(b);
        let e = products(x, y)?;
        Ok(whole(e))
    }

    fn negate(a: &Range) -> Result<Range, Overflow> {
        read_range(a);
        let x = numbers(a);
        let e = negations(x)?;
        Ok(whole(e))
    }

    fn compare(how: Comparison, a: &Range, b: &Range) -> Range {
        read_range(a);
        read_range(b);
        flags(compared(how, a, b))
    }

    fn and(a: &Range, b: &Range) -> Range {
        read_range(a);
        read_range(b);
        let x = three_way(a);
        let y = three_way(b);
        flags(ThreeWay {
            least: x.least & y.least,
            guess: x.guess & y.guess,
            most: x.most & y.most,
        })
    }

    fn or(a: &Range, b: &Range) -> Range {
        read_range(a);
        read_range(b);
        let x = three_way(a);
        let y = three_way(b);
        flags(ThreeWay {
            least: x.least | y.least,
            guess: x.guess | y.guess,
            most: x.most | y.most,
        })
    }

    fn not(a: &Range) -> Range {
        read_range(a);
        let x = three_way(a);
        flags(ThreeWay {
            least: !x.most,
            guess: !x.guess,
            most: !x.least,
        })
    }

    fn choose(condition: &Range, then: &Range, otherwise: &Range) -> Result<Range, NoMemory> {
        read_range(condition);
        read_range(then);
        read_range(otherwise);
        let c = three_way(condition);
        if c.least {
            copy_range(then)
        } else if !c.most {
            copy_range(otherwise)
        } else {
            hull_of(c.guess, then, otherwise)
        }
    }

    fn truth(a: &Range) -> ThreeWay {
        three_way(a)
    }
}

// Reads the numbers of a range: numbers that are held in memory fit.
fn read_range(a: &Range)
    ensures { Fit (components a.now) }
{
    read(a.lo());
    read(a.sg());
    read(a.hi());
}

fn copy_range(a: &Range) -> Result<Range, NoMemory>
    ensures value { IfOk result (λ r. r ≡ a.now) }
    ensures fits { Fit (components a.now) }
{
    read_range(a);
    Ok(Range::of(copy(a.lo())?, copy(a.sg())?, copy(a.hi())?))
}

// The hull of both, with the guess of the branch that the condition guesses.
fn hull_of(first: bool, then: &Range, otherwise: &Range) -> Result<Range, NoMemory>
    requires { kind_of then.now.sg ≡ kind_of otherwise.now.sg }
    ensures { IfOk result (λ r. r ≡ chosen_between first then.now otherwise.now) }
{
    if first {
        then.hull(otherwise)
    } else {
        otherwise.hull(then)
    }
}
