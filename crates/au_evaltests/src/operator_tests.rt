//! Operators over relations of numbers.
ghost use Rattle.std.specs.Prelude.{replicate};
ghost use Rattle.au_value.specs.declared.kinds.Kind.{Kind};
ghost use Rattle.au_algebra.specs.Laws.{IsRelation};

use crate::cases::{Call, judge};
use crate::relations::relation;
use crate::row_texts::outcome_text;
use au_algebra::{Agg, Rel};
use au_annot::Triple;
use au_expr::EvalFault;
use au_kfull::{combine, difference, distinct, group, total};
use au_value::Range;
use std::alloc::Global;
use std::process::Abort;
use std::test::Fail;
use std::thread::Threads;

struct Combined;

impl Call for Combined {
    fn outcome(
        rt: &(impl Abort + Threads + Sync),
        alloc: Global,
        given: &str,
    ) -> Result<String, Fail> {
        let rel = relation(rt, alloc, 1, given)?;
        outcome_text(alloc, &combine(alloc, &rel))
    }
}

struct Once;

impl Call for Once {
    fn outcome(
        rt: &(impl Abort + Threads + Sync),
        alloc: Global,
        given: &str,
    ) -> Result<String, Fail> {
        let rel = relation(rt, alloc, 1, given)?;
        outcome_text(alloc, &distinct(alloc, &rel))
    }
}

struct Rest;

impl Call for Rest {
    fn outcome(
        rt: &(impl Abort + Threads + Sync),
        alloc: Global,
        given: &str,
    ) -> Result<String, Fail> {
        let (left, right) = given.split_once('|').ok_or("two relations")?;
        let left = relation(rt, alloc, 1, left)?;
        let right = relation(rt, alloc, 1, right)?;
        outcome_text(alloc, &difference(alloc, &left, &right))
    }
}

// For each key the sum, the least and the greatest of the numbers.
fn grouped(alloc: Global, of: &Rel<Range, Triple>) -> Result<Rel<Range, Triple>, EvalFault>
    requires { IsRelation (replicate 2 Kind.Int) of.now }
{
    group(alloc, 1, &[Agg::Sum(1), Agg::Min(1), Agg::Max(1)], of)
}

// For each key the least of the numbers.
fn least_by_key(alloc: Global, of: &Rel<Range, Triple>) -> Result<Rel<Range, Triple>, EvalFault>
    requires { IsRelation (replicate 2 Kind.Int) of.now }
{
    group(alloc, 1, &[Agg::Min(1)], of)
}

// The sum of the numbers.
fn summed(alloc: Global, of: &Rel<Range, Triple>) -> Result<Rel<Range, Triple>, EvalFault>
    requires { IsRelation (replicate 1 Kind.Int) of.now }
{
    total(alloc, &[Agg::Sum(0)], of)
}

struct Groups;

impl Call for Groups {
    fn outcome(
        rt: &(impl Abort + Threads + Sync),
        alloc: Global,
        given: &str,
    ) -> Result<String, Fail> {
        let rel = relation(rt, alloc, 2, given)?;
        outcome_text(alloc, &grouped(alloc, &rel))
    }
}

struct Leasts;

impl Call for Leasts {
    fn outcome(
        rt: &(impl Abort + Threads + Sync),
        alloc: Global,
        given: &str,
    ) -> Result<String, Fail> {
        let rel = relation(rt, alloc, 2, given)?;
        outcome_text(alloc, &least_by_key(alloc, &rel))
    }
}

struct Total;

impl Call for Total {
    fn outcome(
        rt: &(impl Abort + Threads + Sync),
        alloc: Global,
        given: &str,
    ) -> Result<String, Fail> {
        let rel = relation(rt, alloc, 1, given)?;
        outcome_text(alloc, &summed(alloc, &rel))
    }
}

const COMBINED: &str = " -> 
1/2/3 1/1/2; 4 1/1/1; 2/2/9 0/1/1 -> 1/2/9 1/2/3; 4 1/1/1; 
1 0/0/170141183460469231731687303715884105727; 1 0/0/1 -> Overflow";

// Unsure rows and sure ones, and the copies of an unsure row beside one of a sure one.
const ONCE: &str = " -> 
1/2/3 1/1/2; 4 1/1/3; 2/2/5 0/1/1; 4 0/0/2 -> 1/2/5 0/1/3; 4 1/1/1; 
4/4/6 0/0/2; 4 1/2/5 -> 4/4/6 1/1/3; 
1/2/2 1/1/1; 1 1/1/1; 2 0/1/1 -> 1/2/2 0/1/2; 1 1/1/1; ";

// Rows that overlap, that are equal, and others; no row on one side; and equal rows.
const REST: &str =
    "1/2/3 1/2/5; 5 2/3/4; 9 1/1/1 | 2 0/1/1; 3/4/6 0/0/2; 5 1/1/1 -> 1/2/3 0/1/5; 5 0/2/3; 9 1/1/1; 
4 1/1/2; 1 1/1/1 | 4 2/2/2 -> 1 1/1/1; 
1/2/3 1/1/1; 2/2/4 0/1/1 |  -> 1/2/4 1/2/2; 
 | 4 2/2/2 -> 
1/2/2 1/1/1; 1 1/1/1; 2 0/1/1 | 1 1/1/1 -> 1/2/2 0/2/2; 
2 1/1/1; 2 1/1/1 | 2 1/1/1 -> 2 1/1/1; 
2 1/1/1 | 2 1/1/1; 2 1/1/1 -> ";

// Groups with certain keys; boxes that overlap, so that rows may belong to two groups; and a key that is not guessed,
// whose guesses are lower ends.
const GROUPS: &str = " -> 
1 2/3/5 1/1/1; 2 -5/-4/-2 1/1/3; 1 4 0/1/2 -> 1 2/7/13 2/3/5 2/4/5 1/1/1; 2 -15/-4/-2 -5/-4/-2 -5/-4/-2 1/1/1; 
1 -3/-2/4 1/1/2; 1/2/3 5/6/7 0/1/1 -> 1 -6/-2/15 -3/-2/4 -3/-2/7 1/1/1; 1/2/3 -6/6/15 -3/6/7 -3/6/7 0/1/1; 
4 1/2/3 0/0/1 -> 4 0/0/3 1/1/3 1/1/3 0/0/1; 
1/2/2 10/10/12 1/1/1; 1 5 1/1/1; 2 7 0/1/1 -> 1/2/2 0/17/24 5/7/12 5/10/12 0/1/2; 1 5/5/17 5 5/5/12 1/1/1; ";

const LEASTS: &str =
    "1 1/1/170141183460469231731687303715884105727 1/1/1; 1 1 1/1/1 -> 1 1 1/1/1; ";

const TOTAL: &str = " -> 0 1/1/1; 
-3/-1/2 0/1/2; 4/5/6 1/1/3; -5/-4/-2 1/1/2 -> -12/0/20 1/1/1; 
10/10/12 1/1/1; 5 1/1/1; 7 0/1/1 -> 15/22/24 1/1/1; 
1/1/170141183460469231731687303715884105727 1/1/1; 1 1/1/1 -> Overflow";

#[test]
fn rows_combined(rt: HostRuntime) -> Result<(), Fail> {
    judge::<Combined>(&rt, rt.alloc(), COMBINED)
}

#[test]
fn rows_once(rt: HostRuntime) -> Result<(), Fail> {
    judge::<Once>(&rt, rt.alloc(), ONCE)
}

#[test]
fn rows_less_rows(rt: HostRuntime) -> Result<(), Fail> {
    judge::<Rest>(&rt, rt.alloc(), REST)
}

#[test]
fn rows_of_groups(rt: HostRuntime) -> Result<(), Fail> {
    judge::<Groups>(&rt, rt.alloc(), GROUPS)
}

#[test]
fn least_values_have_no_overflow(rt: HostRuntime) -> Result<(), Fail> {
    judge::<Leasts>(&rt, rt.alloc(), LEASTS)
}

#[test]
fn sums_of_all_rows(rt: HostRuntime) -> Result<(), Fail> {
    judge::<Total>(&rt, rt.alloc(), TOTAL)
}
