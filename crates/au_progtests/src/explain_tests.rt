//! Runs that print the program of a query.
use crate::runs::{answer_of, judge};
use std::test::Fail;

const EXPLAINED: &str =
    "explain|SELECT city FROM orders|orders=orders.csv -> 0 Done answer~  t0 = orders (c3, c4, c5, c9, c10, c11)~  keep c6, c7, c8, c3, c4, c5~  extend c8 = c2~  extend c7 = c1~  extend c6 = c0~  scan t0~! 
explain|SELECT n + 1 FROM most|most=most.csv -> 0 Done answer~  t0 = most~  keep c12, c13, c14, c3, c4, c5~  extend c14 = (c8 + c11)~  extend c13 = (c7 + c10)~  extend c12 = (c6 + c9)~  extend c11 = 1~  extend c10 = 1~  extend c9 = 1~  extend c8 = c2~  extend c7 = c1~  extend c6 = c0~  scan t0~! 
explain|SELECT z FROM orders|orders=orders.csv -> 1 Query(UnknownColumn(7)) ! audb: query: unknown column at byte 7~
explain|SELECT * FROM orders|orders=no.csv -> 9 NoFile(0) ! audb: file 0 is not there~
explain|--combine|SELECT * FROM t|t=orders.csv -> 2 Usage(Words) ! audb: usage: audb answer SQL NAME=PATH..~";

// A grouping of a join.
const GROUPED: &str =
    "explain|SELECT r.fee, MAX(o.id) AS m FROM orders o, rates r WHERE o.city = r.city GROUP BY r.fee|orders=orders.csv|rates=rates.csv";

// How its steps begin and end.
const STEPS: [&str; 4] = [
    "0 Done step 1~  t0 = orders (c0, c1, c2, c3, c4, c5, c9, c10, c11)~  t1 = rates~  keep c9, ",
    "~    scan t1~step 2~  t0 = step 1~  where keys repeat:~    keep c0, ",
    "~      scan t0~  where they differ:~    keep c0, ",
    "~      scan t0~answer~  t0 = step 2~  keep c9, ",
];

// A join of ranges, and one of which all pairs are formed.
const BY_RANGES: &str =
    "explain|SELECT DISTINCT r.fee FROM orders o, rates r WHERE o.city = r.city|orders=orders.csv|rates=rates.csv";

const BY_PAIRS: &str =
    "explain|SELECT a.city FROM rates a, rates b WHERE a.fee = b.fee OR a.fee < 4|rates=rates.csv";

#[test]
fn programs_of_queries(rt: HostRuntime) -> Result<(), Fail> {
    judge(&rt, rt.alloc(), EXPLAINED)
}

#[test]
fn the_steps_of_a_grouping(rt: HostRuntime) -> Result<(), Fail> {
    let text = answer_of(&rt, rt.alloc(), GROUPED)?;
    for part in STEPS {
        assert!(rt; text.as_str().contains(part), "{part}");
    }
    Ok(())
}

#[test]
fn how_the_pairs_of_a_join_are_found(rt: HostRuntime) -> Result<(), Fail> {
    let ranges = answer_of(&rt, rt.alloc(), BY_RANGES)?;
    let found = ranges
        .as_str()
        .contains("~  join on x.c0..x.c2 overlapping y.c0..y.c2~    ");
    assert!(rt; found, "{ranges}");
    let pairs = answer_of(&rt, rt.alloc(), BY_PAIRS)?;
    let formed = "~  join all pairs where (((x.c3 <= y.c2) AND (y.c0 <= x.c5)) OR (x.c3 < 4))~    ";
    assert!(rt; pairs.as_str().contains(formed), "{pairs}");
    Ok(())
}
