//! The hull of two ranges, and what it holds.
ghost use Rattle.std.specs.Prelude.{◌≡◌, IfOk};
ghost use Rattle.au_value.specs.Order.{kind_of};
ghost use Rattle.au_value.specs.declared.kinds.Kind.{Kind};

use crate::cases::{Call, judge, push_value};
use au_value::{Range, Value, read_numeral};
use std::alloc::{AllocError, Global};
use std::test::Fail;

// A number of a text.
fn number(text: &str) -> Result<Value, Fail>
    ensures { IfOk result (λ v. kind_of v ≡ Kind.Int) }
{
    let number = read_numeral(text.as_bytes()).ok_or("a number")?;
    Ok(Value::Int(number))
}

// The lower end, the guess and the upper end.
fn ends_text(alloc: Global, range: &Range) -> Result<String, AllocError> {
    let mut text = String::new(alloc);
    push_value(alloc, &mut text, range.lo())?;
    text.push_str("/")?;
    push_value(alloc, &mut text, range.sg())?;
    text.push_str("/")?;
    push_value(alloc, &mut text, range.hi())?;
    Ok(text)
}

// The hull of two numbers: whether it holds a third, whether it overlaps the second, and whether it is certain; and
// whether the two overlap.
struct Hull;

impl Call for Hull {
    fn outcome(alloc: Global, given: &str) -> Result<String, Fail> {
        let (ends, third) = given.rsplit_once(' ').ok_or("a third number")?;
        let (first, second) = ends.split_once(' ').ok_or("two numbers")?;
        let third = number(third)?;
        let first = Range::certain(&number(first)?)?;
        let second = Range::certain(&number(second)?)?;
        let both = first.hull(&second)?;
        let answers = [
            both.holds(&third),
            both.overlaps(&second),
            both.is_certain(),
            first.overlaps(&second),
        ];
        let hull = ends_text(alloc, &both)?;
        Ok(format!(in alloc; "{} {answers:?}", hull.as_str())?)
    }
}

const HULLS: &str = "10 12 11 -> 10/10/12 [true, true, false, false]
10 12 13 -> 10/10/12 [false, true, false, false]
12 10 9 -> 10/12/12 [false, true, false, false]
5 5 5 -> 5/5/5 [true, true, true, true]";

#[test]
fn hulls_of_numbers(rt: HostRuntime) -> Result<(), Fail> {
    judge::<Hull>(&rt, rt.alloc(), HULLS)
}
