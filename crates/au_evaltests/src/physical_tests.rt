//! Physical plans: which are chosen, and how they run over a table of a number, a text and a flag.
ghost use Rattle.std.specs.Prelude.{◌≡◌, ◌∷◌, [], IfOk, map};
ghost use Rattle.std.specs.List.{AllZip};
ghost use Rattle.au_plain.specs.PlanKinds.{HaveKinds};
ghost use Rattle.au_plain.specs.Plans.{plan_tree};
ghost use Rattle.au_exec.specs.HeldRows.{rows_of};
ghost use Rattle.au_evaltests.specs.Typed.{IsTypedPlan, test_table_kinds};

use crate::cases::{Call, given_and_wanted, judge};
use crate::plan_tests::{OPERATORS, TERMS, plain_text, tables, typed_plan};
use crate::relations::number;
use au_exec::{Batch, Run};
use au_expr::EvalFault;
use au_par::NoGate;
use au_plain::{PRow, Plan};
use au_plan::{Physical, improve, narrow_scans};
use au_sqltext::read_plan;
use au_value::NoMemory;
use std::alloc::{AllocError, Global};
use std::process::Abort;
use std::test::Fail;
use std::thread::Threads;

// An operator, without its inputs.
fn operator(alloc: Global, physical: &Physical) -> Result<String, AllocError> {
    match physical {
        Physical::Scan(table, _) => format!(in alloc; "t{table}"),
        Physical::Rows(_, _) => String::from_str(alloc, "rows"),
        Physical::Extend(_, _) => String::from_str(alloc, "extend"),
        Physical::Keep(places, _) => format!(in alloc; "keep {places:?}"),
        Physical::Filter(_, _) => String::from_str(alloc, "filter"),
        Physical::Nested(_, _, _) => String::from_str(alloc, "nested"),
        Physical::Hash(places, _, _, _) => format!(in alloc; "hash {places:?}"),
        Physical::Overlap(at, _, _, _) => format!(in alloc; "overlap {at:?}"),
        Physical::Union(_, _) => String::from_str(alloc, "union"),
        Physical::Group(keys, aggs, _) => format!(in alloc; "group {keys:?} {aggs:?}"),
    }
}

// Puts an operator with its inputs in brackets behind a text.
fn push_operators(alloc: Global, text: &mut String, physical: &Physical) -> Result<(), AllocError> {
    text.push_str(operator(alloc, physical)?.as_str())?;
    match physical {
        Physical::Scan(_, _) | Physical::Rows(_, _) => Ok(()),
        Physical::Extend(_, of)
        | Physical::Keep(_, of)
        | Physical::Filter(_, of)
        | Physical::Group(_, _, of) => {
            text.push_str("(")?;
            push_operators(alloc, text, of)?;
            text.push_str(")")
        }
        Physical::Nested(_, left, right)
        | Physical::Hash(_, _, left, right)
        | Physical::Overlap(_, _, left, right)
        | Physical::Union(left, right) => {
            text.push_str("(")?;
            push_operators(alloc, text, left)?;
            text.push_str(", ")?;
            push_operators(alloc, text, right)?;
            text.push_str(")")
        }
    }
}

struct Chosen;

impl Call for Chosen {
    fn outcome(
        _rt: &(impl Abort + Threads + Sync),
        alloc: Global,
        given: &str,
    ) -> Result<String, Fail> {
        let chosen = improve(alloc, read_plan(alloc, given)?)?;
        let mut text = String::new(alloc);
        push_operators(alloc, &mut text, &chosen)?;
        Ok(text)
    }
}

// The places that are kept of table 0, and the plan that scans it so.
struct Narrowed;

impl Call for Narrowed {
    fn outcome(
        _rt: &(impl Abort + Threads + Sync),
        alloc: Global,
        given: &str,
    ) -> Result<String, Fail> {
        let mut plan = improve(alloc, read_plan(alloc, given)?)?;
        let places = narrow_scans(alloc, &mut plan, 0)?;
        let mut text = format!(in alloc; "{places:?} ")?;
        push_operators(alloc, &mut text, &plan)?;
        Ok(text)
    }
}

// A run of the physical plan that stands for a plan.
fn run_of(alloc: Global, plan: Plan, tables: Vec<Vec<PRow>>) -> Result<Run<NoGate>, EvalFault>
    requires tables { AllZip HaveKinds (test_table_kinds ∷ []) (map rows_of tables.items) }
    requires plan { IsTypedPlan (plan_tree plan) }
{
    let physical = improve(alloc, plan)?;
    let run = Run::start(alloc, physical, tables, 1, NoGate)?;
    Ok(run)
}

fn all_rows(
    rt: &(impl Threads + Sync),
    alloc: Global,
    plan: Plan,
    tables: Vec<Vec<PRow>>,
) -> Result<Vec<PRow>, EvalFault>
    requires tables { AllZip HaveKinds (test_table_kinds ∷ []) (map rows_of tables.items) }
    requires plan { IsTypedPlan (plan_tree plan) }
{
    let run = run_of(alloc, plan, tables)?;
    run.all(rt)
}

fn push_rows(rows: &mut Vec<PRow>, batch: Vec<PRow>) -> Result<(), NoMemory> {
    for row in batch {
        rows.push(row)?;
    }
    Ok(())
}

// All rows of a run, batch by batch.
fn in_batches(
    rt: &(impl Threads + Sync),
    alloc: Global,
    run: &mut Run<NoGate>,
) -> Result<Vec<PRow>, EvalFault> {
    let mut rows = Vec::new(alloc);
    for _ in 0..u64::MAX {
        match run.next_batch(rt)? {
            Some(batch) => push_rows(&mut rows, batch)?,
            None => return Ok(rows),
        }
    }
    Ok(rows)
}

fn batched_rows(
    rt: &(impl Threads + Sync),
    alloc: Global,
    plan: Plan,
    tables: Vec<Vec<PRow>>,
) -> Result<Vec<PRow>, EvalFault>
    requires tables { AllZip HaveKinds (test_table_kinds ∷ []) (map rows_of tables.items) }
    requires plan { IsTypedPlan (plan_tree plan) }
{
    let mut run = run_of(alloc, plan, tables)?;
    in_batches(rt, alloc, &mut run)
}

// The rows of a plan over a table, by their texts.
fn all_text(
    rt: &(impl Abort + Threads + Sync),
    alloc: Global,
    text: &str,
    table: &str,
) -> Result<String, Fail> {
    let tables = tables(rt, alloc, table)?;
    let plan = typed_plan(alloc, text)?;
    Ok(plain_text(alloc, &all_rows(rt, alloc, plan, tables))?)
}

// The same, batch by batch.
fn batched_text(
    rt: &(impl Abort + Threads + Sync),
    alloc: Global,
    text: &str,
    table: &str,
) -> Result<String, Fail> {
    let tables = tables(rt, alloc, table)?;
    let plan = typed_plan(alloc, text)?;
    Ok(plain_text(alloc, &batched_rows(rt, alloc, plan, tables))?)
}

// The rows of a plan over a table.
fn ran(rt: &(impl Abort + Threads + Sync), alloc: Global, given: &str) -> Result<String, Fail> {
    let (text, table) = given.split_once(" | ").ok_or("a table")?;
    all_text(rt, alloc, text, table)
}

// Whether a plan gives for each line what is wanted.
fn judge_rows(rt: &(impl Abort + Threads + Sync), alloc: Global, cases: &str) -> Result<(), Fail> {
    for line in cases.lines() {
        let (given, wanted) = given_and_wanted(rt, line);
        let found = ran(rt, alloc, given)?;
        assert_eq!(rt; found.as_str(), wanted, "{given}");
    }
    Ok(())
}

// The same, batch by batch.
fn ran_in_batches(
    rt: &(impl Abort + Threads + Sync),
    alloc: Global,
    given: &str,
) -> Result<String, Fail> {
    let (text, table) = given.split_once(" | ").ok_or("a table")?;
    batched_text(rt, alloc, text, table)
}

// Whether a plan gives, batch by batch, for each line what is wanted.
fn judge_batches(
    rt: &(impl Abort + Threads + Sync),
    alloc: Global,
    cases: &str,
) -> Result<(), Fail> {
    for line in cases.lines() {
        let (given, wanted) = given_and_wanted(rt, line);
        let found = ran_in_batches(rt, alloc, given)?;
        assert_eq!(rt; found.as_str(), wanted, "{given}");
    }
    Ok(())
}

const CHOSEN: &str =
    "SELECT x.c0 AS c0, x.c1 AS c1, x.c2 AS c2, x.c3 AS c3, x.c4 AS c4, x.c5 AS c5, \
     y.c0 AS c6, y.c1 AS c7, y.c2 AS c8, y.c3 AS c9, y.c4 AS c10, y.c5 AS c11 \
     FROM (SELECT c0, c1, c2, c3, c4, c5 FROM t0) x, (SELECT c0, c1, c2, c3, c4, c5 FROM t1) y \
     WHERE ((((TRUE AND (x.c3 <= y.c2)) AND (x.c0 <= y.c2)) AND (y.c0 <= x.c2)) AND (y.c3 <= x.c5)) \
     -> overlap Bounds { left_lo: 0, left_hi: 2, right_lo: 0, right_hi: 2 }(t0, t1)
SELECT x.c0 AS c0, x.c1 AS c1, x.c2 AS c2, x.c3 AS c3, x.c4 AS c4, x.c5 AS c5, y.c0 AS c6, y.c1 AS c7, y.c2 AS c8, y.c3 AS c9, y.c4 AS c10, y.c5 AS c11 FROM (SELECT c0, c1, c2, c3, c4, c5 FROM t0) x, (SELECT c0, c1, c2, c3, c4, c5 FROM t1) y WHERE (((((TRUE AND (x.c0 <= y.c2)) AND (y.c0 <= x.c2)) AND (y.c3 = x.c3)) AND (x.c0 = x.c3)) AND (x.c1 = y.c1)) -> hash [(3, 3), (1, 1)](filter(t0), t1)
SELECT x.c0 AS c0, x.c1 AS c1, x.c2 AS c2, x.c3 AS c3, x.c4 AS c4, x.c5 AS c5, y.c0 AS c6, y.c1 AS c7, y.c2 AS c8, y.c3 AS c9, y.c4 AS c10, y.c5 AS c11 FROM (SELECT c0, c1, c2, c3, c4, c5 FROM t0) x, (SELECT c0, c1, c2, c3, c4, c5 FROM t1) y WHERE ((TRUE AND (x.c0 <= y.c2)) AND (y.c0 < x.c2)) -> nested(t0, t1)
SELECT c0 AS c0 FROM (SELECT c0 AS c0, c2 AS c1 FROM (SELECT x.*, (c0 + 1) AS c2 FROM (SELECT c0, c1 FROM t0) x) x) x -> keep [0](t0)
SELECT c2 AS c0 FROM (SELECT x.*, (c0 + 1) AS c2 FROM (SELECT c0, c1 FROM t0) x) x -> keep [1](extend(keep [0](t0)))
SELECT * FROM (SELECT x.c0 AS c0, x.c1 AS c1, x.c2 AS c2, x.c3 AS c3, x.c4 AS c4, x.c5 AS c5, y.c0 AS c6, y.c1 AS c7, y.c2 AS c8, y.c3 AS c9, y.c4 AS c10, y.c5 AS c11 FROM (SELECT c0, c1, c2, c3, c4, c5 FROM t0) x, (SELECT c0, c1, c2, c3, c4, c5 FROM t1) y WHERE (TRUE AND (x.c0 <= y.c2))) x WHERE (c7 < c8) -> nested(t0, filter(t1))
(SELECT * FROM (SELECT c0, c1 FROM t0) x WHERE (c0 < c1)) UNION ALL (SELECT c0, c1 FROM t0) -> union(filter(t0), t0)
SELECT c0 AS c0, SUM(c1) AS c1 FROM (SELECT c0, c1 FROM t0) x GROUP BY c0 -> group [0] [Sum(1)](t0)
SELECT * FROM (VALUES (5, TRUE), (-3, FALSE)) x(c0, c1) -> rows";

// All Scans of table 0 stand below a Keep of the same places, or else they stay.
const NARROWED: &str =
    "SELECT c2 AS c0, c0 AS c1 FROM (SELECT c0, c1, c2 FROM t0) x -> Some([0, 2]) keep [1, 0](t0)
SELECT c0, c1, c2 FROM t0 -> None t0
SELECT c2 AS c0 FROM (SELECT c0, c1, c2 FROM t1) x -> None keep [2](t1)
(SELECT c1 AS c0 FROM (SELECT c0, c1 FROM t0) x) UNION ALL (SELECT c1 AS c0 FROM (SELECT c0, c1 FROM t0) x) -> Some([1]) union(t0, t0)
(SELECT c0 AS c0 FROM (SELECT c0, c1 FROM t0) x) UNION ALL (SELECT c1 AS c0 FROM (SELECT c0, c1 FROM t0) x) -> None union(keep [0](t0), keep [1](t0))
(SELECT c0 AS c0 FROM (SELECT c0 FROM t1) x) UNION ALL (SELECT c1 AS c0 FROM (SELECT c0, c1 FROM t0) x) -> Some([1]) union(t1, t0)
(SELECT c1 AS c0 FROM (SELECT c0, c1 FROM t0) x) UNION ALL (SELECT c0 FROM t0) -> None union(keep [1](t0), t0)";

// Joins by equal columns, with what is left of the condition; by ranges that overlap; and of each pair.
pub(crate) const JOINS: &str =
    "SELECT x.c0 AS c0, x.c1 AS c1, x.c2 AS c2, y.c0 AS c3, y.c1 AS c4, y.c2 AS c5 FROM (SELECT c0, c1, c2 FROM t0) x, (SELECT c0, c1, c2 FROM t0) y WHERE (x.c0 = y.c0) |  -> 
SELECT x.c0 AS c0, x.c1 AS c1, x.c2 AS c2, y.c0 AS c3, y.c1 AS c4, y.c2 AS c5 FROM (SELECT c0, c1, c2 FROM t0) x, (SELECT c0, c1, c2 FROM t0) y WHERE (x.c0 = y.c0) | 1 c true; 2 x true; 1 a true -> 1 c true 1 c true ; 1 c true 1 a true ; 2 x true 2 x true ; 1 a true 1 c true ; 1 a true 1 a true ; 
SELECT x.c0 AS c0, x.c1 AS c1, x.c2 AS c2, y.c0 AS c3, y.c1 AS c4, y.c2 AS c5 FROM (SELECT c0, c1, c2 FROM t0) x, (SELECT * FROM (SELECT c0, c1, c2 FROM t0) x WHERE c2) y WHERE (x.c0 = y.c0) | 3 a false; 1 b true; 3 c false -> 1 b true 1 b true ; 
SELECT x.c0 AS c0, x.c1 AS c1, x.c2 AS c2, y.c0 AS c3, y.c1 AS c4, y.c2 AS c5 FROM (SELECT c0, c1, c2 FROM t0) x, (SELECT * FROM (SELECT c0, c1, c2 FROM t0) x WHERE c2) y WHERE (x.c0 = y.c0) | 3 a false; 1 b false -> 
SELECT x.c0 AS c0, x.c1 AS c1, x.c2 AS c2, y.c0 AS c3, y.c1 AS c4, y.c2 AS c5 FROM (SELECT * FROM (SELECT c0, c1, c2 FROM t0) x WHERE c2) x, (SELECT c0, c1, c2 FROM t0) y WHERE (x.c0 = y.c0) | 3 a false; 1 b false -> 
SELECT x.c0 AS c0, x.c1 AS c1, x.c2 AS c2, y.c0 AS c3, y.c1 AS c4, y.c2 AS c5 FROM (SELECT * FROM (SELECT c0, c1, c2 FROM t0) x WHERE (NOT c2)) x, (SELECT * FROM (SELECT c0, c1, c2 FROM t0) x WHERE c2) y WHERE (x.c0 = y.c0) | 1 a true; 1 a true; 1 b false -> 1 b false 1 a true ; 1 b false 1 a true ; 
SELECT x.c0 AS c0, x.c1 AS c1, x.c2 AS c2, y.c0 AS c3, y.c1 AS c4, y.c2 AS c5 FROM (SELECT c0, c1, c2 FROM t0) x, (SELECT c0, c1, c2 FROM t0) y WHERE ((x.c0 = y.c0) AND (x.c2 = y.c2)) | 1 a true; 1 b false; 2 c true -> 1 a true 1 a true ; 1 b false 1 b false ; 2 c true 2 c true ; 
SELECT x.c0 AS c0, x.c1 AS c1, x.c2 AS c2, y.c0 AS c3, y.c1 AS c4, y.c2 AS c5, y.c3 AS c6 FROM (SELECT c0, c1, c2 FROM t0) x, (SELECT x.*, c0 AS c3 FROM (SELECT c0, c1, c2 FROM t0) x) y WHERE ((x.c0 = y.c0) AND (x.c0 = y.c3)) | 1 a true; 2 b true -> 1 a true 1 a true 1 ; 2 b true 2 b true 2 ; 
SELECT x.c0 AS c0, x.c1 AS c1, x.c2 AS c2, y.c0 AS c3, y.c1 AS c4, y.c2 AS c5 FROM (SELECT c0, c1, c2 FROM t0) x, (SELECT c0, c1, c2 FROM t0) y WHERE (x.c1 = y.c1) | 1 ab true; 2 a true; 3 A true; 4 ab false -> 1 ab true 1 ab true ; 1 ab true 4 ab false ; 2 a true 2 a true ; 3 A true 3 A true ; 4 ab false 1 ab true ; 4 ab false 4 ab false ; 
SELECT x.c0 AS c0, x.c1 AS c1, x.c2 AS c2, y.c0 AS c3, y.c1 AS c4, y.c2 AS c5 FROM (SELECT c0, c1, c2 FROM t0) x, (SELECT c0, c1, c2 FROM t0) y WHERE (x.c2 = y.c2) | 1 a true; 2 b false -> 1 a true 1 a true ; 2 b false 2 b false ; 
SELECT x.c0 AS c0, x.c1 AS c1, x.c2 AS c2, y.c0 AS c3, y.c1 AS c4, y.c2 AS c5 \
     FROM (SELECT c0, c1, c2 FROM t0) x, (SELECT c0, c1, c2 FROM t0) y WHERE (x.c0 = y.c0) \
     | -170141183460469231731687303715884105728 a true; 170141183460469231731687303715884105727 a true \
     -> -170141183460469231731687303715884105728 a true -170141183460469231731687303715884105728 a true ; 170141183460469231731687303715884105727 a true 170141183460469231731687303715884105727 a true ; 
SELECT x.c0 AS c0, x.c1 AS c1, x.c2 AS c2, y.c0 AS c3, y.c1 AS c4, y.c2 AS c5 FROM (SELECT c0, c1, c2 FROM t0) x, (SELECT c0, c1, c2 FROM t0) y WHERE ((x.c0 = y.c0) AND (x.c1 < y.c1)) | 1 a true; 1 b true; 2 c true -> 1 a true 1 b true ; 
SELECT x.c0 AS c0, x.c1 AS c1, x.c2 AS c2, y.c0 AS c3, y.c1 AS c4, y.c2 AS c5 FROM (SELECT c0, c1, c2 FROM t0) x, (SELECT c0, c1, c2 FROM t0) y WHERE ((x.c0 = y.c0) AND FALSE) | 1 a true -> 
SELECT x.c0 AS c0, x.c1 AS c1, x.c2 AS c2, y.c0 AS c3, y.c1 AS c4, y.c2 AS c5 FROM (SELECT c0, c1, c2 FROM t0) x, (SELECT c0, c1, c2 FROM t0) y WHERE ((x.c0 = y.c0) AND (0 < (x.c0 + 1))) | 170141183460469231731687303715884105727 a true -> Overflow
SELECT x.c0 AS c0, x.c1 AS c1, x.c2 AS c2, y.c0 AS c3, y.c1 AS c4, y.c2 AS c5 FROM (SELECT c0, c1, c2 FROM t0) x, (SELECT * FROM (SELECT c0, c1, c2 FROM t0) x WHERE c2) y WHERE ((x.c0 = y.c0) AND (0 < (x.c0 + 1))) | 170141183460469231731687303715884105727 a false; 2 b true -> 2 b true 2 b true ; 
SELECT x.c0 AS c0, x.c1 AS c1, x.c2 AS c2, x.c3 AS c3, y.c0 AS c4, y.c1 AS c5, y.c2 AS c6, y.c3 AS c7 \
     FROM (SELECT x.*, (c0 + 2) AS c3 FROM (SELECT c0, c1, c2 FROM t0) x) x, (SELECT x.*, (c0 + 2) AS c3 FROM (SELECT c0, c1, c2 FROM t0) x) y \
     WHERE ((x.c0 <= y.c3) AND (y.c0 <= x.c3)) | 1 a true; 3 b true; 6 c true \
     -> 1 a true 3 1 a true 3 ; 1 a true 3 3 b true 5 ; 3 b true 5 1 a true 3 ; 3 b true 5 3 b true 5 ; 6 c true 8 6 c true 8 ; 
SELECT x.c0 AS c0, x.c1 AS c1, x.c2 AS c2, x.c3 AS c3, y.c0 AS c4, y.c1 AS c5, y.c2 AS c6, y.c3 AS c7 FROM (SELECT x.*, (c0 + 2) AS c3 FROM (SELECT c0, c1, c2 FROM t0) x) x, (SELECT x.*, (c0 + 2) AS c3 FROM (SELECT c0, c1, c2 FROM t0) x) y WHERE ((x.c0 <= y.c3) AND (y.c0 <= x.c3)) |  -> 
SELECT x.c0 AS c0, x.c1 AS c1, x.c2 AS c2, x.c3 AS c3, y.c0 AS c4, y.c1 AS c5, y.c2 AS c6, y.c3 AS c7 FROM (SELECT x.*, (c0 + 2) AS c3 FROM (SELECT c0, c1, c2 FROM t0) x) x, (SELECT x.*, (c0 + 2) AS c3 FROM (SELECT c0, c1, c2 FROM t0) x) y WHERE (((x.c0 <= y.c3) AND (y.c0 <= x.c3)) AND (x.c1 < y.c1)) | 1 a true; 3 b true; 6 c true -> 1 a true 3 3 b true 5 ; 
SELECT x.c0 AS c0, x.c1 AS c1, x.c2 AS c2, y.c0 AS c3, y.c1 AS c4, y.c2 AS c5 FROM (SELECT c0, c1, c2 FROM t0) x, (SELECT c0, c1, c2 FROM t0) y WHERE FALSE | 1 a true -> 
SELECT x.c0 AS c0, x.c1 AS c1, x.c2 AS c2, y.c0 AS c3, y.c1 AS c4, y.c2 AS c5 FROM (SELECT c0, c1, c2 FROM t0) x, (SELECT c0, c1, c2 FROM t0) y WHERE TRUE | 1 a true; 2 b true -> 1 a true 1 a true ; 1 a true 2 b true ; 2 b true 1 a true ; 2 b true 2 b true ; ";

fn push_size(sizes: &mut Vec<usize>, batch: &Batch) -> Result<(), NoMemory> {
    Ok(sizes.push(batch.len())?)
}

// How many rows each batch of a run has.
fn sizes(
    rt: &(impl Threads + Sync),
    alloc: Global,
    run: &mut Run<NoGate>,
) -> Result<Vec<usize>, EvalFault> {
    let mut sizes = Vec::new(alloc);
    for _ in 0..u64::MAX {
        match run.next_batch(rt)? {
            Some(batch) => push_size(&mut sizes, &batch)?,
            None => return Ok(sizes),
        }
    }
    Ok(sizes)
}

fn batch_sizes(
    rt: &(impl Threads + Sync),
    alloc: Global,
    plan: Plan,
    tables: Vec<Vec<PRow>>,
) -> Result<Vec<usize>, EvalFault>
    requires tables { AllZip HaveKinds (test_table_kinds ∷ []) (map rows_of tables.items) }
    requires plan { IsTypedPlan (plan_tree plan) }
{
    let mut run = run_of(alloc, plan, tables)?;
    sizes(rt, alloc, &mut run)
}

// So many rows, with the numbers from 0 on.
fn many_rows(alloc: Global, count: i128) -> Result<String, AllocError> {
    let mut text = String::new(alloc);
    for number in 0..count {
        text.push_str(format!(in alloc; "{number} a true;")?.as_str())?;
    }
    Ok(text)
}

// The sizes of a plan's batches over a table.
fn sizes_text(
    rt: &(impl Abort + Threads + Sync),
    alloc: Global,
    text: &str,
    table: &str,
) -> Result<String, Fail> {
    let tables = tables(rt, alloc, table)?;
    let plan = typed_plan(alloc, text)?;
    let sizes = batch_sizes(rt, alloc, plan, tables);
    Ok(format!(in alloc; "{sizes:?}")?)
}

// The sizes of batches over a table of so many rows, and whether the batches are all rows.
fn counted(rt: &(impl Abort + Threads + Sync), alloc: Global, given: &str) -> Result<String, Fail> {
    let (text, count) = given.split_once(" | ").ok_or("a count")?;
    let table = many_rows(alloc, number(rt, count))?;
    let sizes = sizes_text(rt, alloc, text, &table)?;
    let in_batches = batched_text(rt, alloc, text, &table)?;
    let same = in_batches == all_text(rt, alloc, text, &table)?;
    Ok(format!(in alloc; "{sizes} {same}")?)
}

// Whether the batches of a plan have for each line what is wanted.
fn judge_sizes(rt: &(impl Abort + Threads + Sync), alloc: Global, cases: &str) -> Result<(), Fail> {
    for line in cases.lines() {
        let (given, wanted) = given_and_wanted(rt, line);
        let found = counted(rt, alloc, given)?;
        assert_eq!(rt; found.as_str(), wanted, "{given}");
    }
    Ok(())
}

// How many rows each batch has, over tables of so many rows: 256, and the last one what is left.
const SIZES: &str = "SELECT c0, c1, c2 FROM t0 | 0 -> Ok([]) true
SELECT c0, c1, c2 FROM t0 | 1 -> Ok([1]) true
SELECT c0, c1, c2 FROM t0 | 256 -> Ok([256]) true
SELECT c0, c1, c2 FROM t0 | 257 -> Ok([256, 1]) true
SELECT c0, c1, c2 FROM t0 | 600 -> Ok([256, 256, 88]) true
SELECT * FROM (SELECT c0, c1, c2 FROM t0) x WHERE (c0 < 258) | 600 -> Ok([256, 2]) true
SELECT * FROM (SELECT c0, c1, c2 FROM t0) x WHERE (400 <= c0) | 600 -> Ok([200]) true
(SELECT c0, c1, c2 FROM t0) UNION ALL (SELECT c0, c1, c2 FROM t0) | 200 -> Ok([256, 144]) true
SELECT c1 AS c0, SUM(c0) AS c1 FROM (SELECT c0, c1, c2 FROM t0) x GROUP BY c1 | 300 -> Ok([1]) true
SELECT c0 AS c0, SUM(c0) AS c1 FROM (SELECT c0, c1, c2 FROM t0) x GROUP BY c0 | 300 -> Ok([256, 44]) true
SELECT x.c0 AS c0, x.c1 AS c1, x.c2 AS c2, y.c0 AS c3, y.c1 AS c4, y.c2 AS c5 FROM (SELECT c0, c1, c2 FROM t0) x, (SELECT c0, c1, c2 FROM t0) y WHERE (x.c0 = y.c0) | 300 -> Ok([256, 44]) true
SELECT x.c0 AS c0, x.c1 AS c1, x.c2 AS c2, y.c0 AS c3, y.c1 AS c4, y.c2 AS c5 FROM (SELECT c0, c1, c2 FROM t0) x, (SELECT c0, c1, c2 FROM t0) y WHERE (x.c0 < y.c0) | 24 -> Ok([256, 20]) true
SELECT x.c0 AS c0, x.c1 AS c1, x.c2 AS c2, y.c0 AS c3, y.c1 AS c4, y.c2 AS c5 FROM (SELECT c0, c1, c2 FROM t0) x, (SELECT c0, c1, c2 FROM t0) y WHERE (x.c1 = y.c1) | 17 -> Ok([256, 33]) true";

#[test]
fn chosen_operators(rt: HostRuntime) -> Result<(), Fail> {
    judge::<Chosen>(&rt, rt.alloc(), CHOSEN)
}

#[test]
fn scans_of_kept_columns(rt: HostRuntime) -> Result<(), Fail> {
    judge::<Narrowed>(&rt, rt.alloc(), NARROWED)
}

#[test]
fn rows_of_operators(rt: HostRuntime) -> Result<(), Fail> {
    judge_rows(&rt, rt.alloc(), OPERATORS)
}

#[test]
fn values_of_terms(rt: HostRuntime) -> Result<(), Fail> {
    judge_rows(&rt, rt.alloc(), TERMS)
}

#[test]
fn rows_of_joins(rt: HostRuntime) -> Result<(), Fail> {
    judge_rows(&rt, rt.alloc(), JOINS)
}

#[test]
fn rows_by_batches(rt: HostRuntime) -> Result<(), Fail> {
    judge_batches(&rt, rt.alloc(), JOINS)
}

#[test]
fn sizes_of_batches(rt: HostRuntime) -> Result<(), Fail> {
    judge_sizes(&rt, rt.alloc(), SIZES)
}
