//! Physical plans that several workers share: the rows are those of one worker.
ghost use Rattle.std.specs.Prelude.{◌≡◌, ◌≤◌, ◌∷◌, [], map};
ghost use Rattle.std.specs.List.{AllZip};
ghost use Rattle.au_plain.specs.PlanKinds.{HaveKinds};
ghost use Rattle.au_plain.specs.Plans.{plan_tree};
ghost use Rattle.au_exec.specs.HeldRows.{rows_of};
ghost use Rattle.au_evaltests.specs.Typed.{IsTypedPlan, test_table_kinds};

use crate::gates::{Counts, HoldFirst, Meeting};
use crate::physical_tests::JOINS;
use crate::plan_tests::{OPERATORS, plain_text, tables, typed_plan};
use au_exec::Run;
use au_expr::EvalFault;
use au_par::{Gate, NoGate};
use au_plain::{PRow, Plan};
use au_plan::improve;
use std::alloc::Global;
use std::process::Abort;
use std::sync::atomic::Ordering::SeqCst;
use std::test::Fail;
use std::thread::Threads;

// The rows of a plan, by so many workers.
fn rows_by<R: Threads + Sync, G: Gate + Sync>(
    rt: &R,
    alloc: Global,
    plan: Plan,
    tables: Vec<Vec<PRow>>,
    workers: usize,
    gate: G,
) -> Result<Vec<PRow>, EvalFault>
    requires tables { AllZip HaveKinds (test_table_kinds ∷ []) (map rows_of tables.items) }
    requires plan { IsTypedPlan (plan_tree plan) }
    requires workers { (1 ≤ workers) × (workers ≤ 64) }
{
    let physical = improve(alloc, plan)?;
    let run = Run::start(alloc, physical, tables, workers, gate)?;
    run.all(rt)
}

// The same by their text, for a plan and a table with ` | ` between.
fn text_by<R: Abort + Threads + Sync, G: Gate + Sync>(
    rt: &R,
    alloc: Global,
    given: &str,
    workers: usize,
    gate: G,
) -> Result<String, Fail>
    requires { (1 ≤ workers) × (workers ≤ 64) }
{
    let (text, table) = given.split_once(" | ").ok_or("a table")?;
    let tables = tables(rt, alloc, table)?;
    let plan = typed_plan(alloc, text)?;
    Ok(plain_text(alloc, &rows_by(rt, alloc, plan, tables, workers, gate))?)
}

// Whether each number of workers gives for each line `PLAN | TABLE -> ROWS` these rows.
fn judge_workers<R: Abort + Threads + Sync>(
    rt: &R,
    alloc: Global,
    cases: &str,
) -> Result<(), Fail> {
    for line in cases.lines() {
        let (given, wanted) = line.split_once(" -> ").expect(rt, "an arrow");
        for workers in [1, 2, 3, 64] {
            let found = text_by(rt, alloc, given, workers, NoGate)?;
            assert_eq!(rt; found.as_str(), wanted, "{workers} workers: {given}");
        }
    }
    Ok(())
}

// The numbers 0 to 9 by whether they are even, joined with a row of each kind by equality and by ranges; and rows of a
// table, with a column added, tested and reordered.
const GROUPS: &str =
    "SELECT c1 AS c0, SUM(c0) AS c1 FROM (SELECT x.c0 AS c0, x.c1 AS c1, x.c2 AS c2, y.c0 AS c3, y.c1 AS c4, y.c2 AS c5 FROM (SELECT c0, c1, c2 FROM t0) x, (SELECT c0, c1, c2 FROM t0) y WHERE (x.c0 = y.c0)) x GROUP BY c1 | 0 even true; 1 odd true; 2 even true; 3 odd true; 4 even true; 5 odd true; 6 even true; 7 odd true; 8 even true; 9 odd true -> even 20 ; odd 25 ; 
SELECT c1 AS c0, MIN(c3) AS c1, MAX(c3) AS c2 FROM (SELECT x.c0 AS c0, x.c1 AS c1, x.c2 AS c2, y.c0 AS c3, y.c1 AS c4, y.c2 AS c5 FROM (SELECT c0, c1, c2 FROM t0) x, (SELECT c0, c1, c2 FROM t0) y WHERE ((x.c0 <= y.c0) AND (y.c0 <= x.c0))) x GROUP BY c1 | 3 odd true; 2 even true; 9 odd true; 4 even true -> odd 3 9 ; even 2 4 ; 
SELECT c1 AS c0, SUM(c6) AS c1 FROM (SELECT x.*, (c0 + c3) AS c6 FROM (SELECT x.c0 AS c0, x.c1 AS c1, x.c2 AS c2, y.c0 AS c3, y.c1 AS c4, y.c2 AS c5 FROM (SELECT c0, c1, c2 FROM t0) x, (SELECT c0, c1, c2 FROM t0) y WHERE (x.c0 = y.c0)) x) x GROUP BY c1 | 1 a true; 2 b true; 3 a true -> a 8 ; b 4 ; 
SELECT c1 AS c0, SUM(c0) AS c1 FROM (SELECT x.c0 AS c0, x.c1 AS c1, x.c2 AS c2, y.c0 AS c3, y.c1 AS c4, y.c2 AS c5 FROM (SELECT c0, c1, c2 FROM t0) x, (SELECT c0, c1, c2 FROM t0) y WHERE (x.c0 = y.c0)) x GROUP BY c1 | 85070591730234615865843651857942052864 a true; -85070591730234615865843651857942052864 a true -> Overflow
SELECT c1 AS c0, SUM(c3) AS c1 FROM (SELECT x.*, (c0 + c0) AS c3 FROM (SELECT * FROM (SELECT c0, c1, c2 FROM t0) x WHERE c2) x) x GROUP BY c1 | 1 a true; 2 b true; 9 a false; 3 a true -> a 8 ; b 4 ; 
SELECT c1 AS c0, SUM(c3) AS c1 FROM (SELECT x.*, (c0 + c0) AS c3 FROM (SELECT c0, c1, c2 FROM t0) x) x GROUP BY c1 | 1 a true; 170141183460469231731687303715884105727 b true -> Overflow
SELECT c1 AS c0, SUM(c2) AS c1 FROM (SELECT c1 AS c0, c2 AS c1, c0 AS c2 FROM (SELECT c0, c1, c2 FROM t0) x) x GROUP BY c1 | 1 a true; 2 b false; 3 a true -> true 4 ; false 2 ; 
SELECT c1 AS c0, SUM(c0) AS c1 FROM (SELECT x.c0 AS c0, x.c1 AS c1, x.c2 AS c2, y.c0 AS c3, y.c1 AS c4, y.c2 AS c5 FROM (SELECT c0, c1, c2 FROM t0) x, (SELECT c0, c1, c2 FROM t0) y WHERE (x.c0 = y.c0)) x GROUP BY c1 |  -> ";

#[test]
fn joins_by_workers(rt: HostRuntime) -> Result<(), Fail> {
    judge_workers(&rt, rt.alloc(), JOINS)
}

#[test]
fn operators_by_workers(rt: HostRuntime) -> Result<(), Fail> {
    judge_workers(&rt, rt.alloc(), OPERATORS)
}

#[test]
fn groups_by_workers(rt: HostRuntime) -> Result<(), Fail> {
    judge_workers(&rt, rt.alloc(), GROUPS)
}

// Three numbers, each joined with all by equal flags and by ranges of flags, by whether these are even.
const PARTNERS: &str =
    "SELECT c4 AS c0, SUM(c3) AS c1, MIN(c0) AS c2, MAX(c3) AS c3 FROM (SELECT x.c0 AS c0, x.c1 AS c1, x.c2 AS c2, y.c0 AS c3, y.c1 AS c4, y.c2 AS c5 FROM (SELECT * FROM (SELECT c0, c1, c2 FROM t0) x WHERE (c0 < 3)) x, (SELECT c0, c1, c2 FROM t0) y WHERE (x.c2 = y.c2)) x GROUP BY c4
SELECT c4 AS c0, SUM(c3) AS c1, MIN(c0) AS c2, MAX(c3) AS c3 FROM (SELECT x.c0 AS c0, x.c1 AS c1, x.c2 AS c2, y.c0 AS c3, y.c1 AS c4, y.c2 AS c5 FROM (SELECT * FROM (SELECT c0, c1, c2 FROM t0) x WHERE (c0 < 3)) x, (SELECT c0, c1, c2 FROM t0) y WHERE ((x.c2 <= y.c2) AND (y.c2 <= x.c2))) x GROUP BY c4";

// The numbers below a thousand, each with whether it is even, behind a plan.
fn with_thousand(alloc: Global, plan: &str) -> Result<String, Fail> {
    let mut text = String::from_str(alloc, plan)?;
    text.push_str(" | ")?;
    let count: u32 = 1000;
    for number in 0..count {
        let parity = if number % 2 == 0 { "even" } else { "odd" };
        text.push_str(format!(in alloc; "{number} {parity} true; ")?.as_str())?;
    }
    Ok(text)
}

#[test]
fn partners_by_workers(rt: HostRuntime) -> Result<(), Fail> {
    for plan in PARTNERS.lines() {
        let given = with_thousand(rt.alloc(), plan)?;
        for workers in [1, 2, 3, 64] {
            let found = text_by(&rt, rt.alloc(), given.as_str(), workers, NoGate)?;
            assert_eq!(rt;
                found.as_str(),
                "even 748500 0 998 ; odd 750000 0 999 ; ",
                "{workers} workers: {plan}"
            );
        }
    }
    Ok(())
}

const JOINED: &str =
    "SELECT x.c0 AS c0, x.c1 AS c1, x.c2 AS c2, y.c0 AS c3, y.c1 AS c4, y.c2 AS c5 FROM (SELECT c0, c1, c2 FROM t0) x, (SELECT c0, c1, c2 FROM t0) y WHERE (x.c0 = y.c0) | 1 a true; 2 b true";

#[test]
fn run_pieces_meet(rt: HostRuntime) -> Result<(), Fail> {
    let counts = Counts::new();
    let gate = Meeting { counts: &counts };
    let found = text_by(&rt, rt.alloc(), JOINED, 2, gate)?;
    assert_eq!(rt; found.as_str(), "1 a true 1 a true ; 2 b true 2 b true ; ");
    assert_eq!(rt;
        counts.met.load(SeqCst),
        2,
        "two pieces are worked at the same time"
    );
    Ok(())
}

const GROUPED: &str =
    "SELECT c1 AS c0, SUM(c0) AS c1 FROM (SELECT x.c0 AS c0, x.c1 AS c1, x.c2 AS c2, y.c0 AS c3, y.c1 AS c4, y.c2 AS c5 FROM (SELECT c0, c1, c2 FROM t0) x, (SELECT c0, c1, c2 FROM t0) y WHERE (x.c0 = y.c0)) x GROUP BY c1 | 1 a true; 2 b true; 3 a true; 4 b true";

#[test]
fn held_piece_of_a_grouping(rt: HostRuntime) -> Result<(), Fail> {
    let counts = Counts::new();
    let gate = HoldFirst {
        counts: &counts,
        pieces: 4,
    };
    let found = text_by(&rt, rt.alloc(), GROUPED, 2, gate)?;
    assert_eq!(rt; found.as_str(), "a 4 ; b 6 ; ");
    assert_eq!(rt;
        counts.met.load(SeqCst),
        1,
        "three pieces are drawn while the first is held"
    );
    Ok(())
}
