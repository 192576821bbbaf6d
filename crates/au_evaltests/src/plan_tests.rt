//! Plans, read from their texts and written again, and tables of a number, a text and a flag to run them over.
ghost use Rattle.std.specs.Prelude.{◌≡◌, ◌∷◌, [], IfOk, map};
ghost use Rattle.std.specs.List.{AllZip};
ghost use Rattle.au_value.specs.Order.{kind_of};
ghost use Rattle.au_plain.specs.PlanKinds.{HaveKinds};
ghost use Rattle.au_plain.specs.Plans.{plan_tree};
ghost use Rattle.au_exec.specs.HeldRows.{rows_of};
ghost use Rattle.au_evaltests.specs.Typed.{IsTypedPlan, test_table_kinds};

use crate::cases::{Call, judge};
use crate::relations::number;
use crate::row_texts::push_values;
use au_expr::EvalFault;
use au_plain::{PRow, Plan};
use au_sqltext::{PlanFault, check_plan, read_plan, write_plan};
use au_value::{Kind, NoMemory, Value, Word};
use std::alloc::{AllocError, Global};
use std::process::Abort;
use std::test::Fail;
use std::thread::Threads;

// The row of a text such as `7 north true`.
fn row(rt: &impl Abort, alloc: Global, text: &str) -> Result<PRow, NoMemory>
    ensures { IfOk result (λ r. map kind_of r.items ≡ test_table_kinds) }
{
    let (first, rest) = text.split_once(' ').expect(rt, "a number");
    let (second, third) = rest.split_once(' ').expect(rt, "a text");
    let word = String::from_str(alloc, second)?;
    let mut row = Vec::new(alloc);
    row.push(Value::Int(number(rt, first)))?;
    row.push(Value::Text(Word::new(word)))?;
    row.push(Value::Flag(third == "true"))?;
    Ok(row)
}

fn rows(rt: &impl Abort, alloc: Global, text: &str) -> Result<Vec<PRow>, NoMemory>
    ensures { IfOk result (λ v. HaveKinds test_table_kinds (rows_of v)) }
{
    let mut rows = Vec::new(alloc);
    for part in text.split(';') {
        let part = part.trim();
        if !part.is_empty() {
            rows.push(row(rt, alloc, part)?)?;
        }
    }
    Ok(rows)
}

/// The one table of a text.
pub(crate) fn tables(rt: &impl Abort, alloc: Global, text: &str) -> Result<Vec<Vec<PRow>>, NoMemory>
    ensures { IfOk result (λ v. AllZip HaveKinds (test_table_kinds ∷ []) (map rows_of v.items)) }
{
    let mut tables = Vec::new(alloc);
    tables.push(rows(rt, alloc, text)?)?;
    Ok(tables)
}

// The kinds of the table.
fn kinds(alloc: Global) -> Result<Vec<Kind>, NoMemory>
    ensures { IfOk result (λ v. v.items ≡ test_table_kinds) }
{
    let mut kinds = Vec::new(alloc);
    kinds.push(Kind::Int)?;
    kinds.push(Kind::Text)?;
    kinds.push(Kind::Flag)?;
    Ok(kinds)
}

// Whether a plan is typed over the table.
fn checked(alloc: Global, plan: &Plan) -> Result<(), PlanFault>
    ensures { IfOk result (λ _. IsTypedPlan (plan_tree plan.now)) }
{
    let kinds = kinds(alloc)?;
    match check_plan(alloc, plan, &[kinds]) {
        Ok(_) => Ok(()),
        Err(fault) => Err(fault),
    }
}

/// The plan of a text, if it is typed over the table.
pub(crate) fn typed_plan(alloc: Global, text: &str) -> Result<Plan, PlanFault>
    ensures { IfOk result (λ p. IsTypedPlan (plan_tree p)) }
{
    let plan = read_plan(alloc, text)?;
    checked(alloc, &plan)?;
    Ok(plan)
}

/// The rows, each with `;` behind it, or the fault.
pub(crate) fn plain_text(
    alloc: Global,
    rows: &Result<Vec<PRow>, EvalFault>,
) -> Result<String, AllocError> {
    let mut text = String::new(alloc);
    match rows {
        Ok(rows) => {
            for row in rows {
                push_values(alloc, &mut text, row.as_slice())?;
                text.push_str("; ")?;
            }
        }
        Err(fault) => text.push_str(format!(in alloc; "{fault:?}")?.as_str())?,
    }
    Ok(text)
}

// The text of the plan that is read of a text.
struct Written;

impl Call for Written {
    fn outcome(
        _rt: &(impl Abort + Threads + Sync),
        alloc: Global,
        given: &str,
    ) -> Result<String, Fail> {
        match typed_plan(alloc, given) {
            Ok(plan) => Ok(String::from_str(alloc, write_plan(alloc, &plan)?.as_str())?),
            Err(fault) => Ok(format!(in alloc; "{fault:?}")?),
        }
    }
}

/// Each operator of a plan.
pub(crate) const OPERATORS: &str =
    "SELECT c0, c1, c2 FROM t0 | 7 north true; -2 south false -> 7 north true ; -2 south false ; 
SELECT c0, c1, c2 FROM t0 |  -> 
SELECT * FROM (VALUES (5, TRUE), (-3, FALSE)) x(c0, c1) | 7 north true -> 5 true ; -3 false ; 
SELECT x.*, (c0 + 1) AS c3 FROM (SELECT c0, c1, c2 FROM t0) x | 7 north true; -2 south false -> 7 north true 8 ; -2 south false -1 ; 
SELECT x.*, (c0 + 1) AS c3 FROM (SELECT c0, c1, c2 FROM t0) x | 170141183460469231731687303715884105726 up true -> 170141183460469231731687303715884105726 up true 170141183460469231731687303715884105727 ; 
SELECT x.*, (c0 + 1) AS c3 FROM (SELECT c0, c1, c2 FROM t0) x | 7 north true; 170141183460469231731687303715884105727 up true -> Overflow
SELECT c2 AS c0, c0 AS c1, c0 AS c2 FROM (SELECT c0, c1, c2 FROM t0) x | 7 north true; -2 south false -> true 7 7 ; false -2 -2 ; 
SELECT * FROM (SELECT c0, c1, c2 FROM t0) x WHERE c2 | 7 north true; -2 south false; 3 east true -> 7 north true ; 3 east true ; 
SELECT * FROM (SELECT c0, c1, c2 FROM t0) x WHERE c2 | -2 south false -> 
SELECT x.c0 AS c0, x.c1 AS c1, x.c2 AS c2, y.c0 AS c3, y.c1 AS c4, y.c2 AS c5 FROM (SELECT c0, c1, c2 FROM t0) x, (SELECT c0, c1, c2 FROM t0) y WHERE (x.c0 < y.c0) | 1 a true; 3 b false; 2 c true -> 1 a true 3 b false ; 1 a true 2 c true ; 2 c true 3 b false ; 
SELECT x.c0 AS c0, x.c1 AS c1, x.c2 AS c2, y.c0 AS c3, y.c1 AS c4, y.c2 AS c5 FROM (SELECT c0, c1, c2 FROM t0) x, (SELECT c0, c1, c2 FROM t0) y WHERE (x.c0 < y.c0) | 1 a true -> 
(SELECT * FROM (SELECT c0, c1, c2 FROM t0) x WHERE c2) UNION ALL (SELECT c0, c1, c2 FROM t0) | 7 north true; -2 south false -> 7 north true ; 7 north true ; -2 south false ; 
SELECT c1 AS c0, SUM(c0) AS c1, MIN(c0) AS c2, MAX(c0) AS c3 FROM (SELECT c0, c1, c2 FROM t0) x GROUP BY c1 | 5 b true; 2 a false; -9 b true; 4 a true -> b -4 -9 5 ; a 6 2 4 ; 
SELECT c1 AS c0, SUM(c0) AS c1, MIN(c0) AS c2, MAX(c0) AS c3 FROM (SELECT c0, c1, c2 FROM t0) x GROUP BY c1 | 170141183460469231731687303715884105727 b true; 1 a true -> b 170141183460469231731687303715884105727 170141183460469231731687303715884105727 170141183460469231731687303715884105727 ; a 1 1 1 ; 
SELECT c1 AS c0, SUM(c0) AS c1, MIN(c0) AS c2, MAX(c0) AS c3 FROM (SELECT c0, c1, c2 FROM t0) x GROUP BY c1 | 170141183460469231731687303715884105727 b true; 1 b true -> Overflow
SELECT c1 AS c0, SUM(c0) AS c1, MIN(c0) AS c2, MAX(c0) AS c3 FROM (SELECT c0, c1, c2 FROM t0) x GROUP BY c1 | 170141183460469231731687303715884105727 b true; -1 b true -> Overflow
SELECT c1 AS c0, SUM(c0) AS c1, MIN(c0) AS c2, MAX(c0) AS c3 FROM (SELECT c0, c1, c2 FROM t0) x GROUP BY c1 |  -> 
SELECT MIN(c1) AS c0, MAX(c1) AS c1, MIN(c2) AS c2, MAX(c2) AS c3 FROM (SELECT c0, c1, c2 FROM t0) x HAVING COUNT(*) > 0 | 5 north true; 2 East false; 1 east true -> East north false true ; 
SELECT SUM(c0) AS c0 FROM (SELECT c0, c1, c2 FROM t0) x HAVING COUNT(*) > 0 |  -> 
SELECT c2 AS c0, c0 AS c1 FROM (SELECT c0, c1, c2 FROM t0) x GROUP BY c2, c0 | 5 b true; 5 a true; 5 a false; 4 a true -> true 5 ; false 5 ; true 4 ; ";

/// Each term, behind the columns of the table.
pub(crate) const TERMS: &str =
    "SELECT x.*, (c0 + 3) AS c3 FROM (SELECT c0, c1, c2 FROM t0) x | 7 a true; -4 a true -> 7 a true 10 ; -4 a true -1 ; 
SELECT x.*, (c0 + 3) AS c3 FROM (SELECT c0, c1, c2 FROM t0) x | 170141183460469231731687303715884105725 a true -> Overflow
SELECT x.*, (c0 - 3) AS c3 FROM (SELECT c0, c1, c2 FROM t0) x | 7 a true; -4 a true -> 7 a true 4 ; -4 a true -7 ; 
SELECT x.*, (c0 - 3) AS c3 FROM (SELECT c0, c1, c2 FROM t0) x | -170141183460469231731687303715884105726 a true -> Overflow
SELECT x.*, (c0 * 3) AS c3 FROM (SELECT c0, c1, c2 FROM t0) x | 7 a true; -4 a true -> 7 a true 21 ; -4 a true -12 ; 
SELECT x.*, (c0 * 3) AS c3 FROM (SELECT c0, c1, c2 FROM t0) x | 56713727820156410577229101238628035243 a true -> Overflow
SELECT x.*, (- c0) AS c3 FROM (SELECT c0, c1, c2 FROM t0) x | 7 a true; -4 a true -> 7 a true -7 ; -4 a true 4 ; 
SELECT x.*, (- c0) AS c3 FROM (SELECT c0, c1, c2 FROM t0) x | -170141183460469231731687303715884105728 a true -> Overflow
SELECT x.*, LEAST(c0, 3) AS c3 FROM (SELECT c0, c1, c2 FROM t0) x | 7 a true; -4 a true -> 7 a true 3 ; -4 a true -4 ; 
SELECT x.*, GREATEST(c0, 3) AS c3 FROM (SELECT c0, c1, c2 FROM t0) x | 7 a true; -4 a true -> 7 a true 7 ; -4 a true 3 ; 
SELECT x.*, (CASE WHEN c2 THEN c0 ELSE 3 END) AS c3 FROM (SELECT c0, c1, c2 FROM t0) x | 7 a true; 7 a false -> 7 a true 7 ; 7 a false 3 ; 
SELECT x.*, (c0 = 3) AS c3 FROM (SELECT c0, c1, c2 FROM t0) x | 2 a true; 3 a true; 4 a true -> 2 a true false ; 3 a true true ; 4 a true false ; 
SELECT x.*, (c0 < 3) AS c3 FROM (SELECT c0, c1, c2 FROM t0) x | 2 a true; 3 a true; 4 a true -> 2 a true true ; 3 a true false ; 4 a true false ; 
SELECT x.*, (c0 <= 3) AS c3 FROM (SELECT c0, c1, c2 FROM t0) x | 2 a true; 3 a true; 4 a true -> 2 a true true ; 3 a true true ; 4 a true false ; 
SELECT x.*, (c2 AND (c0 < 3)) AS c3 FROM (SELECT c0, c1, c2 FROM t0) x | 2 a true; 2 a false; 3 a true; 3 a false -> 2 a true true ; 2 a false false ; 3 a true false ; 3 a false false ; 
SELECT x.*, (c2 OR (c0 < 3)) AS c3 FROM (SELECT c0, c1, c2 FROM t0) x | 2 a true; 2 a false; 3 a true; 3 a false -> 2 a true true ; 2 a false true ; 3 a true true ; 3 a false false ; 
SELECT x.*, (NOT c2) AS c3 FROM (SELECT c0, c1, c2 FROM t0) x | 2 a true; 2 a false -> 2 a true false ; 2 a false true ; ";

const WRITTEN: &str = "SELECT c0, c1, c2 FROM t0 -> SELECT c0, c1, c2 FROM t0
SELECT * FROM (VALUES (5, TRUE), (-3, FALSE)) x(c0, c1) -> SELECT * FROM (VALUES (5, TRUE), (-3, FALSE)) x(c0, c1)
SELECT x.*, (c0 + 1) AS c3 FROM (SELECT c0, c1, c2 FROM t0) x -> SELECT x.*, (c0 + 1) AS c3 FROM (SELECT c0, c1, c2 FROM t0) x
SELECT c1 AS c0, SUM(c0) AS c1, MIN(c0) AS c2, MAX(c0) AS c3 FROM (SELECT c0, c1, c2 FROM t0) x GROUP BY c1 -> SELECT c1 AS c0, SUM(c0) AS c1, MIN(c0) AS c2, MAX(c0) AS c3 FROM (SELECT c0, c1, c2 FROM t0) x GROUP BY c1
SELECT x.c0 AS c0, x.c1 AS c1, x.c2 AS c2, y.c0 AS c3, y.c1 AS c4, y.c2 AS c5 FROM (SELECT c0, c1, c2 FROM t0) x, (SELECT c0, c1, c2 FROM t0) y WHERE (x.c0 < y.c0) -> SELECT x.c0 AS c0, x.c1 AS c1, x.c2 AS c2, y.c0 AS c3, y.c1 AS c4, y.c2 AS c5 FROM (SELECT c0, c1, c2 FROM t0) x, (SELECT c0, c1, c2 FROM t0) y WHERE (x.c0 < y.c0)
(SELECT c0, c1, c2 FROM t0) UNION ALL (SELECT c0, c1, c2 FROM t0) -> (SELECT c0, c1, c2 FROM t0) UNION ALL (SELECT c0, c1, c2 FROM t0)
SELECT c0 FROM t0 -> Untyped
SELECT * FROM (SELECT c0, c1, c2 FROM t0) x WHERE c0 -> Untyped
SELECT c0,c1, c2 FROM t0 -> Text
 -> Text";

#[test]
fn texts_of_plans(rt: HostRuntime) -> Result<(), Fail> {
    judge::<Written>(&rt, rt.alloc(), WRITTEN)
}
