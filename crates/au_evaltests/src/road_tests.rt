//! Queries over the guess world by the plan, and by the guesses of the bounded answer.
ghost use Rattle.std.specs.Prelude.{◌≡◌, IfOk, length};
ghost use Rattle.std.specs.List.{AllByRecursion};
ghost use Rattle.au_parse.specs.Views.{statement_tree};
ghost use Rattle.au_parse.specs.Whole.{WholeQuery};

use crate::query_tables::tables_of;
use crate::query_tests::{in_guess_world, lines_of};
use au_algebra::Rel;
use au_annot::{Annot, Count, Triple};
use au_blocks::Table;
use au_engine::{answer_directly, read_query};
use au_parse::Statement;
use au_print::{Answer, guess_text};
use au_value::{NoMemory, Range, Value, Word, copy};
use std::alloc::Global;
use std::process::Abort;
use std::test::Fail;
use std::thread::Threads;

fn guesses_in(alloc: Global, cells: &[Range]) -> Result<Vec<Value>, NoMemory> {
    let mut guesses = Vec::with_capacity(alloc, cells.len())?;
    for cell in cells {
        guesses.push(copy(cell.sg())?)?;
    }
    Ok(guesses)
}

// The guesses of rows of so many columns, each with its guessed number of copies.
fn guesses_of(
    rt: &impl Abort,
    alloc: Global,
    rows: &Rel<Range, Triple>,
    columns: usize,
) -> Result<Rel<Value, Count>, NoMemory>
    ensures { IfOk result (λ g. AllByRecursion (λ r. length r.cells ≡ columns) g) }
{
    let mut guesses = Rel {
        rows: Vec::with_capacity(alloc, rows.rows().len())?,
    };
    for (cells, triple) in rows.rows() {
        let values = guesses_in(alloc, cells.as_slice())?;
        assert!(rt; values.len() == columns);
        guesses.push(values, triple.guess())?;
    }
    Ok(guesses)
}

// The text of the guesses of a bounded answer.
fn guesses_text(rt: &impl Abort, alloc: Global, answer: &Answer) -> Result<String, Fail> {
    let columns = answer.names.len();
    assert!(rt; answer.kinds.len() == columns);
    let guesses = guesses_of(rt, alloc, &answer.rows, columns)?;
    lines_of(
        alloc,
        &guess_text(
            alloc,
            answer.names.as_slice(),
            answer.kinds.as_slice(),
            &guesses,
        ),
    )
}

// Both texts of the answer of a query over the guess world. The bounded answer may overflow where that doesn't.
fn judge_roads(
    rt: &(impl Abort + Threads + Sync),
    alloc: Global,
    query: &str,
    statement: &Statement,
    tables: &[(Word, Table)],
) -> Result<(), Fail>
    requires { WholeQuery (statement_tree statement.now) }
{
    let planned = in_guess_world(rt, alloc, statement, tables)?;
    if let Ok(answer) = answer_directly(alloc, statement, tables, false) {
        let direct = guesses_text(rt, alloc, &answer)?;
        assert_eq!(rt; planned.as_str(), direct.as_str(), "{query}");
    }
    Ok(())
}

fn judge_query(
    rt: &(impl Abort + Threads + Sync),
    alloc: Global,
    query: &str,
    tables: &[(Word, Table)],
) -> Result<(), Fail> {
    let statement = read_query(alloc, query).ok().ok_or("a query")?;
    judge_roads(rt, alloc, query, &statement, tables)
}

// Tables whose guess worlds have equal rows, numbers of either sign, and blocks that are absent by the guess.
const TABLES: &str =
    "t(x,y): 0/1/2,3; 1,3; 1,-2/0/4 ?; 2,5 ??; 0,0 | u(x,y): 1,3 ?; 1/1/3,2/3/3; 0,0; -1,1";

// Queries over the tables, and over queries in the places of `@` and `#`, of two columns of numbers each.
const FIRST: [&str; 2] = ["SELECT x, y FROM t", "SELECT x, y FROM u"];

const ONE: [&str; 6] = [
    "SELECT x * 2 AS x, CASE WHEN y > 2 THEN -y ELSE x END AS y FROM (@) a WHERE NOT x = 2",
    "SELECT DISTINCT x, y FROM (@) a",
    "SELECT x, SUM(y) AS y FROM (@) a GROUP BY x",
    "SELECT y AS x, MAX(x) AS y FROM (@) a GROUP BY y HAVING COUNT(*) < 3",
    "SELECT MIN(x) AS x, COUNT(*) AS y FROM (@) a GROUP BY x, y",
    "SELECT SUM(x) AS x, COUNT(*) AS y FROM (@) a WHERE y < 1",
];

const TWO: [&str; 6] = [
    "@ UNION ALL #",
    "@ UNION #",
    "@ EXCEPT ALL #",
    "@ EXCEPT #",
    "SELECT a.x, b.y FROM (@) a, (#) b WHERE a.x = b.x",
    "SELECT b.y AS x, a.y FROM (@) a, (#) b WHERE a.y < b.y",
];

// The first queries, and each with one more around it.
fn with_one(alloc: Global) -> Result<Vec<String>, Fail> {
    let mut queries = Vec::new(alloc);
    for first in FIRST.iter() {
        queries.push(String::from_str(alloc, first)?)?;
        for one in ONE.iter() {
            queries.push(one.replace(alloc, '@', first)?)?;
        }
    }
    Ok(queries)
}

#[test]
fn guesses_by_both_roads(rt: HostRuntime) -> Result<(), Fail> {
    let alloc = rt.alloc();
    let tables = tables_of(alloc, TABLES)?;
    let parts = with_one(alloc)?;
    for left in parts.iter() {
        judge_query(&rt, alloc, left.as_str(), tables.as_slice())?;
        for right in parts.iter() {
            for two in TWO.iter() {
                let front = two.replace(alloc, '@', left.as_str())?;
                let query = front.replace(alloc, '#', right.as_str())?;
                judge_query(&rt, alloc, query.as_str(), tables.as_slice())?;
            }
        }
    }
    Ok(())
}

#[test]
fn guesses_of_one_query_over_each(rt: HostRuntime) -> Result<(), Fail> {
    let alloc = rt.alloc();
    let tables = tables_of(alloc, TABLES)?;
    let parts = with_one(alloc)?;
    for part in parts.iter() {
        for one in ONE.iter() {
            let query = one.replace(alloc, '@', part.as_str())?;
            judge_query(&rt, alloc, query.as_str(), tables.as_slice())?;
        }
    }
    Ok(())
}
