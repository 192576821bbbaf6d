//! Relations split into their guesses and a few wide rows, and queries whose products are compressed.
ghost use Rattle.std.specs.Prelude.{◌≤◌, replicate};
ghost use Rattle.au_value.specs.declared.kinds.Kind.{Kind};
ghost use Rattle.au_algebra.specs.Laws.{IsRelation};
ghost use Rattle.au_parse.specs.Views.{statement_tree};
ghost use Rattle.au_parse.specs.Whole.{WholeQuery};

use crate::cases::{Call, given_and_wanted, judge};
use crate::query_tables::tables_of;
use crate::relations::relation;
use crate::row_texts::{outcome_text, relation_text};
use au_algebra::Rel;
use au_annot::Triple;
use au_blocks::Table;
use au_compress::{compressed, guess_part};
use au_engine::{Options, answer, read_query};
use au_expr::EvalFault;
use au_par::NoGate;
use au_parse::Statement;
use au_translate::bounded;
use au_value::{Range, Word};
use std::alloc::{AllocError, Global};
use std::process::Abort;
use std::test::Fail;
use std::thread::Threads;

// What is possible of a relation of one column, in at most so many rows.
fn in_so_many(
    alloc: Global,
    of: &Rel<Range, Triple>,
    n: u32,
) -> Result<Rel<Range, Triple>, EvalFault>
    requires size { (1 ≤ n) × (n ≤ 1000) }
    requires relation { IsRelation (replicate 1 Kind.Int) of.now }
{
    compressed(alloc, of, n)
}

// The guesses of a relation, and what is possible in at most two rows.
struct Parts;

impl Call for Parts {
    fn outcome(
        rt: &(impl Abort + Threads + Sync),
        alloc: Global,
        given: &str,
    ) -> Result<String, Fail> {
        let rel = relation(rt, alloc, 1, given)?;
        let guesses = relation_text(alloc, &guess_part(alloc, &rel)?)?;
        let wide = outcome_text(alloc, &in_so_many(alloc, &rel, 2))?;
        Ok(format!(in alloc; "{}| {}", guesses.as_str(), wide.as_str())?)
    }
}

// What is possible of a relation in one row.
struct InOne;

impl Call for InOne {
    fn outcome(
        rt: &(impl Abort + Threads + Sync),
        alloc: Global,
        given: &str,
    ) -> Result<String, Fail> {
        let rel = relation(rt, alloc, 1, given)?;
        outcome_text(alloc, &in_so_many(alloc, &rel, 1))
    }
}

// The guesses of the rows of a table.
struct Guesses;

impl Call for Guesses {
    fn outcome(
        _rt: &(impl Abort + Threads + Sync),
        alloc: Global,
        given: &str,
    ) -> Result<String, Fail> {
        let mut text = String::new(alloc);
        for table in &tables_of(alloc, given)? {
            let guesses = guess_part(alloc, &bounded(alloc, &table.1)?)?;
            text.push_str(relation_text(alloc, &guesses)?.as_str())?;
        }
        Ok(text)
    }
}

// The answer whose products have at most one row of what is possible of each side.
fn compressed_text(
    rt: &(impl Threads + Sync),
    alloc: Global,
    statement: &Statement,
    tables: &[(Word, Table)],
) -> Result<String, AllocError>
    requires { WholeQuery (statement_tree statement.now) }
{
    let options = Options {
        combine: false,
        workers: 2,
        compress: Some(1),
        points: false,
    };
    match answer(rt, alloc, statement, tables, options, NoGate) {
        Ok(answer) => relation_text(alloc, &answer.rows),
        Err(fault) => format!(in alloc; "{fault:?}"),
    }
}

// The compressed answer of a query over tables.
fn compressed_answer(
    rt: &(impl Abort + Threads + Sync),
    alloc: Global,
    given: &str,
) -> Result<String, Fail> {
    let (query, tables) = given.split_once(" | ").ok_or("tables")?;
    let tables = tables_of(alloc, tables)?;
    match read_query(alloc, query) {
        Ok(statement) => Ok(compressed_text(rt, alloc, &statement, tables.as_slice())?),
        Err(fault) => Ok(format!(in alloc; "{fault:?}")?),
    }
}

// Whether the compressed answer is for each line what is wanted.
fn judge_answers(
    rt: &(impl Abort + Threads + Sync),
    alloc: Global,
    cases: &str,
) -> Result<(), Fail> {
    for line in cases.lines() {
        let (given, wanted) = given_and_wanted(rt, line);
        let found = compressed_answer(rt, alloc, given)?;
        assert_eq!(rt; found.as_str(), wanted, "{given}");
    }
    Ok(())
}

// The guesses, and what is possible, with 2^126 and 2^127 - 1 copies.
const PARTS: &str = " -> | 
1/2/9 1/1/2; 3 1/1/1; 4 0/0/1 -> 2 0/1/1; 3 1/1/1; | 1/2/9 0/0/3; 4 0/0/1; 
4 0/0/1; 3 0/1/1; 4 0/0/2 -> 3 0/1/1; | 3 0/0/1; 4 0/0/3; 
1 0/0/85070591730234615865843651857942052864; 1 0/0/85070591730234615865843651857942052864 -> | Overflow
1 0/0/85070591730234615865843651857942052864; 2 0/0/85070591730234615865843651857942052864 -> | 1 0/0/85070591730234615865843651857942052864; 2 0/0/85070591730234615865843651857942052864; 
1 0/0/85070591730234615865843651857942052864; 2 0/0/85070591730234615865843651857942052864; 3 0/0/1 -> | Overflow
1 0/0/170141183460469231731687303715884105727; 2/3/4 0/1/1 -> 3 0/1/1; | 1 0/0/170141183460469231731687303715884105727; 2/3/4 0/0/1; ";

// In one row, also where its copies are 2^127.
const IN_ONE: &str = "1/2/9 1/1/2; 3 1/1/1; 4 0/0/1 -> 1/2/9 0/0/4; 
1 0/0/85070591730234615865843651857942052864; 2 0/0/85070591730234615865843651857942052864 -> Overflow";

// A row is certain to be there with its guesses where it is certain in all columns.
const GUESSED: &str =
    "orders(id,city,amount): 1,Bergen/Oslo/Oslo,10/10/12; 2,Bergen,5; 3,Oslo,7 ? -> 1 Oslo 10 0/1/1; 2 Bergen 5 1/1/1; 3 Oslo 7 0/1/1; ";

const COMPRESSED: &str =
    "SELECT o.id, r.fee FROM orders o, rates AS r WHERE o.city = r.city | orders(id,city,amount): 1,Bergen/Oslo/Oslo,10/10/12; 2,Bergen,5; 3,Oslo,7 ? | rates(city,fee): Oslo,3; Bergen,4 -> 1 3 0/1/1; 1/1/3 3/4/4 0/0/6; 2 4 1/1/1; 3 3 0/1/1; 
SELECT city, SUM(amount) AS s FROM orders GROUP BY city | orders(id,city,amount): 1,Bergen/Oslo/Oslo,10/10/12; 2,Bergen,5; 3,Oslo,7 ? -> Bergen 5/5/17 1/1/1; Bergen/Oslo/Oslo 0/17/24 0/1/2; 
SELECT a.x FROM t a, t b | t(x): 5; 5 ? -> 5 1/4/8; 
SELECT a.x FROM t a, (SELECT * FROM t WHERE x > 9) b | t(x): 5; 5 ? -> 
SELECT DISTINCT a.x FROM t a, t b EXCEPT SELECT a.x FROM t a, t b WHERE a.x < b.x | t(x): 5; 6 ? -> 5/5/6 0/0/5; 6 0/1/1; 
SELECT a.x FROM t a, u b WHERE a.x + 1 > 0 | t(x): 170141183460469231731687303715884105727 | u(y): 1 -> Overflow";

#[test]
fn parts_of_relations(rt: HostRuntime) -> Result<(), Fail> {
    judge::<Parts>(&rt, rt.alloc(), PARTS)
}

#[test]
fn possible_rows_in_one(rt: HostRuntime) -> Result<(), Fail> {
    judge::<InOne>(&rt, rt.alloc(), IN_ONE)
}

#[test]
fn guess_parts_of_tables(rt: HostRuntime) -> Result<(), Fail> {
    judge::<Guesses>(&rt, rt.alloc(), GUESSED)
}

#[test]
fn compressed_answers_of_queries(rt: HostRuntime) -> Result<(), Fail> {
    judge_answers(&rt, rt.alloc(), COMPRESSED)
}
