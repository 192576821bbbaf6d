//! Sums, products, orders and differences of annotations, each through the bound of its trait.
use crate::cases::{Call, judge};
use crate::relations::number;
use au_annot::{Annot, Count, Monus, Pair, Triple};
use au_value::Overflow;
use std::alloc::{AllocError, Global};
use std::process::Abort;
use std::test::Fail;
use std::thread::Threads;

// An annotation that is written as its counts, between `/`.
trait Written: Annot {
    fn read(rt: &impl Abort, text: &str) -> Option<Self>;

    fn text(self, alloc: Global) -> Result<String, AllocError>;
}

fn count(rt: &impl Abort, text: &str) -> Option<Count> {
    Count::of(number(rt, text).unsigned_abs())
}

impl Written for Count {
    fn read(rt: &impl Abort, text: &str) -> Option<Count> {
        count(rt, text)
    }

    fn text(self, alloc: Global) -> Result<String, AllocError> {
        let n = self.get();
        format!(in alloc; "{n}")
    }
}

impl Written for Triple {
    fn read(rt: &impl Abort, text: &str) -> Option<Triple> {
        let (least, rest) = text.split_once('/')?;
        let (guess, most) = rest.split_once('/')?;
        Triple::of(count(rt, least)?, count(rt, guess)?, count(rt, most)?)
    }

    fn text(self, alloc: Global) -> Result<String, AllocError> {
        let counts = (self.least().get(), self.guess().get(), self.most().get());
        format!(in alloc; "{counts:?}")
    }
}

impl Written for Pair {
    fn read(rt: &impl Abort, text: &str) -> Option<Pair> {
        let (certain, guess) = text.split_once('/')?;
        Pair::of(count(rt, certain)?, count(rt, guess)?)
    }

    fn text(self, alloc: Global) -> Result<String, AllocError> {
        let counts = (self.certain().get(), self.guess().get());
        format!(in alloc; "{counts:?}")
    }
}

// The sum of several.
fn sum<A: Written>(rt: &impl Abort, text: &str) -> Result<A, Overflow> {
    let mut total = A::zero();
    for item in text.split(" + ") {
        total = total.plus(A::read(rt, item).unwrap_or(A::one()))?;
    }
    Ok(total)
}

// The product of two, the first of which may be a sum.
fn product<A: Written>(rt: &impl Abort, text: &str) -> Result<A, Overflow> {
    match text.split_once(" * ") {
        Some((first, second)) => sum::<A>(rt, first)?.times(sum::<A>(rt, second)?),
        None => sum::<A>(rt, text),
    }
}

// Whether the first is at most the second.
fn at_most<A: Written>(rt: &impl Abort, text: &str) -> Option<bool> {
    let (first, second) = text.split_once(" <= ")?;
    let first = A::read(rt, first).expect(rt, "a first one");
    let second = A::read(rt, second).expect(rt, "a second one");
    Some(first.at_most(second))
}

// A product or a sum, or whether one is at most another; `none` where what is written is no annotation.
fn calculated<A: Written>(rt: &impl Abort, alloc: Global, text: &str) -> Result<String, Fail> {
    if let Some(answer) = at_most::<A>(rt, text) {
        return Ok(format!(in alloc; "{answer}")?);
    }
    if !text.contains(' ') && A::read(rt, text).is_none() {
        return Ok(String::from_str(alloc, "none")?);
    }
    match product::<A>(rt, text) {
        Ok(found) => Ok(found.text(alloc)?),
        Err(Overflow) => Ok(String::from_str(alloc, "Overflow")?),
    }
}

struct Counts;

impl Call for Counts {
    fn outcome(
        rt: &(impl Abort + Threads + Sync),
        alloc: Global,
        given: &str,
    ) -> Result<String, Fail> {
        calculated::<Count>(rt, alloc, given)
    }
}

struct Triples;

impl Call for Triples {
    fn outcome(
        rt: &(impl Abort + Threads + Sync),
        alloc: Global,
        given: &str,
    ) -> Result<String, Fail> {
        calculated::<Triple>(rt, alloc, given)
    }
}

struct Pairs;

impl Call for Pairs {
    fn outcome(
        rt: &(impl Abort + Threads + Sync),
        alloc: Global,
        given: &str,
    ) -> Result<String, Fail> {
        calculated::<Pair>(rt, alloc, given)
    }
}

fn less<A: Monus>(first: A, second: A) -> A {
    first.monus(second)
}

const COUNTS: &str =
    "170141183460469231731687303715884105727 -> 170141183460469231731687303715884105727
-170141183460469231731687303715884105728 -> none
2 + 3 + 1 -> 6
170141183460469231731687303715884105727 + 0 -> 170141183460469231731687303715884105727
170141183460469231731687303715884105727 + 1 -> Overflow
2 * 3 -> 6
170141183460469231731687303715884105727 * 1 -> 170141183460469231731687303715884105727
170141183460469231731687303715884105727 * 2 -> Overflow
18446744073709551616 * 18446744073709551616 -> Overflow
2 <= 3 -> true
3 <= 2 -> false";

const TRIPLES: &str = "0/0/0 -> (0, 0, 0)
0/1/2 -> (0, 1, 2)
2/2/2 -> (2, 2, 2)
2/1/2 -> none
0/2/1 -> none
3/2/1 -> none
0/1/2 + 1/3/5 + 1/1/1 -> (2, 5, 8)
0/0/170141183460469231731687303715884105727 + 1/1/1 -> Overflow
0/1/2 * 1/3/5 -> (0, 3, 10)
0/1/2 * 0/0/0 -> (0, 0, 0)
0/0/170141183460469231731687303715884105727 * 0/1/2 -> Overflow
0/1/2 <= 1/3/5 -> true
0/1/2 <= 0/1/2 -> true
1/1/2 <= 0/1/2 -> false
0/2/2 <= 0/1/2 -> false
0/1/3 <= 0/1/2 -> false";

const PAIRS: &str = "0/0 -> (0, 0)
0/1 -> (0, 1)
2/2 -> (2, 2)
2/1 -> none
0/2 + 1/3 + 1/1 -> (2, 6)
0/170141183460469231731687303715884105727 + 1/1 -> Overflow
0/2 * 1/3 -> (0, 6)
0/170141183460469231731687303715884105727 * 0/2 -> Overflow
0/1 <= 1/3 -> true
0/1 <= 0/1 -> true
1/1 <= 0/1 -> false
0/2 <= 0/1 -> false";

#[test]
fn sums_and_products_of_counts(rt: HostRuntime) -> Result<(), Fail> {
    judge::<Counts>(&rt, rt.alloc(), COUNTS)
}

#[test]
fn sums_and_products_of_triples(rt: HostRuntime) -> Result<(), Fail> {
    judge::<Triples>(&rt, rt.alloc(), TRIPLES)
}

#[test]
fn sums_and_products_of_pairs(rt: HostRuntime) -> Result<(), Fail> {
    judge::<Pairs>(&rt, rt.alloc(), PAIRS)
}

#[test]
fn counts_less_counts(rt: HostRuntime) {
    let two = Count::of(2).expect(&rt, "a count");
    assert_eq!(rt; less(two, Count::one()).get(), 1, "2 - 1");
    assert_eq!(rt; less(Count::one(), two).get(), 0, "1 - 2");
}
