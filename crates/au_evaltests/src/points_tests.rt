//! Queries whose groups and distinct rows are formed by points, also where their products are compressed.
ghost use Rattle.au_program.specs.Rules.{IsCompression};
ghost use Rattle.au_parse.specs.Views.{statement_tree};
ghost use Rattle.au_parse.specs.Whole.{WholeQuery};

use crate::cases::given_and_wanted;
use crate::query_tables::tables_of;
use crate::row_texts::relation_text;
use au_blocks::Table;
use au_engine::{Options, answer, read_query};
use au_par::NoGate;
use au_parse::Statement;
use au_value::Word;
use std::alloc::{AllocError, Global};
use std::process::Abort;
use std::test::Fail;
use std::thread::Threads;

// The answer by points, with products that are compressed to so many rows, or not.
fn points_text(
    rt: &(impl Threads + Sync),
    alloc: Global,
    statement: &Statement,
    tables: &[(Word, Table)],
    compress: Option<u32>,
) -> Result<String, AllocError>
    requires whole { WholeQuery (statement_tree statement.now) }
    requires compression { IsCompression compress }
{
    let options = Options {
        combine: false,
        workers: 2,
        compress,
        points: true,
    };
    match answer(rt, alloc, statement, tables, options, NoGate) {
        Ok(answer) => relation_text(alloc, &answer.rows),
        Err(fault) => format!(in alloc; "{fault:?}"),
    }
}

// The answer of a query over tables.
fn points_answer(
    rt: &(impl Abort + Threads + Sync),
    alloc: Global,
    given: &str,
    compress: Option<u32>,
) -> Result<String, Fail>
    requires { IsCompression compress }
{
    let (query, tables) = given.split_once(" | ").ok_or("tables")?;
    let tables = tables_of(alloc, tables)?;
    match read_query(alloc, query) {
        Ok(statement) => Ok(points_text(rt, alloc, &statement, tables.as_slice(), compress)?),
        Err(fault) => Ok(format!(in alloc; "{fault:?}")?),
    }
}

// Whether the answer is for each line what is wanted.
fn judge_answers(
    rt: &(impl Abort + Threads + Sync),
    alloc: Global,
    cases: &str,
    compress: Option<u32>,
) -> Result<(), Fail>
    requires { IsCompression compress }
{
    for line in cases.lines() {
        let (given, wanted) = given_and_wanted(rt, line);
        let found = points_answer(rt, alloc, given, compress)?;
        assert_eq!(rt; found.as_str(), wanted, "{given}");
    }
    Ok(())
}

const GROUPS: &str =
    "SELECT city, SUM(amount) AS s FROM orders GROUP BY city | orders(id,city,amount): 1,Bergen/Oslo/Oslo,10/10/12; 2,Bergen,5; 3,Oslo,7 ? -> Bergen 5/5/17 1/1/1; Bergen/Oslo/Oslo 0/0/12 0/0/1; Oslo 0/17/19 0/1/1; 
SELECT city, COUNT(*) AS n FROM customers GROUP BY city | customers(id,city): 1,Moss/Oslo/Oslo; 2,Bergen; 3,Oslo; 7,Bergen ??; 8,Moss -> Bergen 1/1/2 1/1/1; Moss 1/1/2 1/1/1; Moss/Oslo/Oslo 0/0/1 0/0/1; Oslo 1/2/2 1/1/1; 
SELECT city, MIN(amount) AS a, MAX(amount) AS b FROM orders GROUP BY city | orders(id,city,amount): 1,Bergen/Oslo/Oslo,10/10/12; 2,Bergen,5; 3,Oslo,7 ? -> Bergen 5 5/5/12 1/1/1; Oslo 7/7/12 7/10/12 0/1/1; Bergen/Oslo/Oslo 10/10/12 10/10/12 0/0/1; 
SELECT COUNT(*) AS n FROM (SELECT city FROM customers GROUP BY city) c | customers(id,city): 1,Moss/Oslo/Oslo; 2,Bergen -> 1/2/3 1/1/1; 
SELECT k, SUM(x) AS s FROM t GROUP BY k | t(k,x): 1,170141183460469231731687303715884105727; 1,1 -> Overflow";

const DISTINCT: &str =
    "SELECT DISTINCT id, city FROM movers | movers(id,city): 1,Moss/Oslo/Oslo; 9,Bergen/Bergen/Moss -> 1 Moss/Oslo/Oslo 0/0/1; 1 Oslo 0/1/1; 9 Bergen 0/1/1; 9 Bergen/Bergen/Moss 0/0/1; 
SELECT COUNT(*) AS n FROM (SELECT DISTINCT id, city FROM movers) m | movers(id,city): 1,Moss/Oslo/Oslo; 9,Bergen/Bergen/Moss -> 0/2/4 1/1/1; 
SELECT DISTINCT x FROM t | t(x): 5; 5 ?; 6 ?? -> 5 1/1/1; 6 0/0/1; 
SELECT DISTINCT x FROM t EXCEPT SELECT x FROM t WHERE x > 5 | t(x): 5; 6/6/7 -> 5 1/1/1; 6/6/7 0/0/2; ";

// With at most one row of what is possible of each side.
const COMPRESSED: &str =
    "SELECT city, SUM(amount) AS s FROM orders GROUP BY city | orders(id,city,amount): 1,Bergen/Oslo/Oslo,10/10/12; 2,Bergen,5; 3,Oslo,7 ? -> Bergen 5/5/17 1/1/1; Bergen/Oslo/Oslo 0/0/12 0/0/1; Oslo 0/17/19 0/1/1; 
SELECT DISTINCT a.x FROM t a, t b | t(x): 5; 6 ? -> 5 1/1/1; 5/5/6 0/0/4; 6 0/1/1; ";

#[test]
fn groups_by_points(rt: HostRuntime) -> Result<(), Fail> {
    judge_answers(&rt, rt.alloc(), GROUPS, None)
}

#[test]
fn distinct_rows_by_points(rt: HostRuntime) -> Result<(), Fail> {
    judge_answers(&rt, rt.alloc(), DISTINCT, None)
}

#[test]
fn compressed_products_by_points(rt: HostRuntime) -> Result<(), Fail> {
    judge_answers(&rt, rt.alloc(), COMPRESSED, Some(1))
}
