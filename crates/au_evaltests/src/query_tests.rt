//! Queries over tables, by plans and by the definitions, and over their guess worlds.
ghost use Rattle.au_parse.specs.Views.{statement_tree};
ghost use Rattle.au_parse.specs.Whole.{WholeQuery};

use crate::cases::given_and_wanted;
use crate::query_tables::tables_of;
use crate::row_texts::relation_text;
use au_blocks::Table;
use au_engine::{EngineFault, Options, answer, answer_directly, guess_answer, read_query};
use au_expr::EvalFault;
use au_par::NoGate;
use au_parse::Statement;
use au_print::{Answer, guess_text};
use au_value::Word;
use std::alloc::{AllocError, Global};
use std::process::Abort;
use std::test::Fail;
use std::thread::Threads;

fn answer_text(alloc: Global, answer: &Result<Answer, EngineFault>) -> Result<String, AllocError> {
    match answer {
        Ok(answer) => relation_text(alloc, &answer.rows),
        Err(fault) => format!(in alloc; "{fault:?}"),
    }
}

// What both roads answer, or their answers where they differ.
fn by_both_roads(
    rt: &(impl Threads + Sync),
    alloc: Global,
    statement: &Statement,
    tables: &[(Word, Table)],
) -> Result<String, AllocError>
    requires { WholeQuery (statement_tree statement.now) }
{
    let options = Options {
        combine: false,
        workers: 2,
        compress: None,
        points: false,
    };
    let planned = answer_text(
        alloc,
        &answer(rt, alloc, statement, tables, options, NoGate),
    )?;
    let direct = answer_text(alloc, &answer_directly(alloc, statement, tables, false))?;
    if planned == direct {
        return Ok(planned);
    }
    format!(in alloc; "{} and directly {}", planned.as_str(), direct.as_str())
}

// The answer of a query over tables by both roads.
fn answered(
    rt: &(impl Abort + Threads + Sync),
    alloc: Global,
    given: &str,
) -> Result<String, Fail> {
    let (query, tables) = given.split_once(" | ").ok_or("tables")?;
    let tables = tables_of(alloc, tables)?;
    match read_query(alloc, query) {
        Ok(statement) => Ok(by_both_roads(rt, alloc, &statement, tables.as_slice())?),
        Err(fault) => Ok(format!(in alloc; "{fault:?}")?),
    }
}

// Whether both roads give for each line what is wanted.
fn judge_answers(
    rt: &(impl Abort + Threads + Sync),
    alloc: Global,
    cases: &str,
) -> Result<(), Fail> {
    for line in cases.lines() {
        let (given, wanted) = given_and_wanted(rt, line);
        let found = answered(rt, alloc, given)?;
        assert_eq!(rt; found.as_str(), wanted, "{given}");
    }
    Ok(())
}

/// The lines of a text, or the fault.
pub(crate) fn lines_of(alloc: Global, text: &Result<Vec<u8>, EvalFault>) -> Result<String, Fail> {
    match text {
        Ok(bytes) => Ok(str::from_utf8(bytes.as_slice())?.replace(alloc, '\n', ";")?),
        Err(fault) => Ok(format!(in alloc; "{fault:?}")?),
    }
}

/// The text of the answer over the guess world, with `;` for each LF.
pub(crate) fn in_guess_world(
    rt: &(impl Threads + Sync),
    alloc: Global,
    statement: &Statement,
    tables: &[(Word, Table)],
) -> Result<String, Fail>
    requires { WholeQuery (statement_tree statement.now) }
{
    match guess_answer(rt, alloc, statement, tables, NoGate) {
        Ok(answer) => lines_of(
            alloc,
            &guess_text(
                alloc,
                answer.names.as_slice(),
                answer.kinds.as_slice(),
                &answer.rows,
            ),
        ),
        Err(fault) => Ok(format!(in alloc; "{fault:?}")?),
    }
}

// The answer of a query over the guess world of tables.
fn guessed(rt: &(impl Abort + Threads + Sync), alloc: Global, given: &str) -> Result<String, Fail> {
    let (query, tables) = given.split_once(" | ").ok_or("tables")?;
    let tables = tables_of(alloc, tables)?;
    match read_query(alloc, query) {
        Ok(statement) => in_guess_world(rt, alloc, &statement, tables.as_slice()),
        Err(fault) => Ok(format!(in alloc; "{fault:?}")?),
    }
}

// Whether the answer over the guess world is for each line what is wanted.
fn judge_guesses(
    rt: &(impl Abort + Threads + Sync),
    alloc: Global,
    cases: &str,
) -> Result<(), Fail> {
    for line in cases.lines() {
        let (given, wanted) = given_and_wanted(rt, line);
        let found = guessed(rt, alloc, given)?;
        assert_eq!(rt; found.as_str(), wanted, "{given}");
    }
    Ok(())
}

// The six comparisons of two ranges, of each kind.
const COMPARISONS: &str =
    "SELECT x = y, x <> y, x < y, x <= y, x > y, x >= y FROM t | t(x:int,y:int): 0/0/0,1/1/1 -> false true true true false false 1/1/1; 
SELECT x = y, x <> y, x < y, x <= y, x > y, x >= y FROM t | t(x:int,y:int): 1/1/1,1/1/1 -> true false false true false true 1/1/1; 
SELECT x = y, x <> y, x < y, x <= y, x > y, x >= y FROM t | t(x:int,y:int): 0/0/1,1/1/1 -> false/false/true false/true/true false/true/true true false false/false/true 1/1/1; 
SELECT x = y, x <> y, x < y, x <= y, x > y, x >= y FROM t | t(x:int,y:int): 0/1/1,0/0/1 -> false/false/true false/true/true false/false/true false/false/true false/true/true false/true/true 1/1/1; 
SELECT x = y, x <> y, x < y, x <= y, x > y, x >= y FROM t | t(x:int,y:int): 0/1/1,0/1/1 -> false/true/true false/false/true false/false/true false/true/true false/false/true false/true/true 1/1/1; 
SELECT x = y, x <> y, x < y, x <= y, x > y, x >= y FROM t | t(x:text,y:text): Bergen/Bergen/Bergen,Oslo/Oslo/Oslo -> false true true true false false 1/1/1; 
SELECT x = y, x <> y, x < y, x <= y, x > y, x >= y FROM t | t(x:text,y:text): Oslo/Oslo/Oslo,Oslo/Oslo/Oslo -> true false false true false true 1/1/1; 
SELECT x = y, x <> y, x < y, x <= y, x > y, x >= y FROM t | t(x:text,y:text): Bergen/Bergen/Oslo,Oslo/Oslo/Oslo -> false/false/true false/true/true false/true/true true false false/false/true 1/1/1; 
SELECT x = y, x <> y, x < y, x <= y, x > y, x >= y FROM t | t(x:text,y:text): Bergen/Oslo/Oslo,Bergen/Bergen/Oslo -> false/false/true false/true/true false/false/true false/false/true false/true/true false/true/true 1/1/1; 
SELECT x = y, x <> y, x < y, x <= y, x > y, x >= y FROM t | t(x:text,y:text): Bergen/Oslo/Oslo,Bergen/Oslo/Oslo -> false/true/true false/false/true false/false/true false/true/true false/false/true false/true/true 1/1/1; 
SELECT x = y, x <> y, x < y, x <= y, x > y, x >= y FROM t | t(x:flag,y:flag): false/false/false,true/true/true -> false true true true false false 1/1/1; 
SELECT x = y, x <> y, x < y, x <= y, x > y, x >= y FROM t | t(x:flag,y:flag): true/true/true,true/true/true -> true false false true false true 1/1/1; 
SELECT x = y, x <> y, x < y, x <= y, x > y, x >= y FROM t | t(x:flag,y:flag): false/false/true,true/true/true -> false/false/true false/true/true false/true/true true false false/false/true 1/1/1; 
SELECT x = y, x <> y, x < y, x <= y, x > y, x >= y FROM t | t(x:flag,y:flag): false/true/true,false/false/true -> false/false/true false/true/true false/false/true false/false/true false/true/true false/true/true 1/1/1; 
SELECT x = y, x <> y, x < y, x <= y, x > y, x >= y FROM t | t(x:flag,y:flag): false/true/true,false/true/true -> false/true/true false/false/true false/false/true false/true/true false/false/true false/true/true 1/1/1; 
SELECT x = y FROM t | t(x,y): 0/2/4,6/7/9 -> false 1/1/1; 
SELECT x = y FROM t | t(x,y): 0/2/4,4/5/9 -> false/false/true 1/1/1; 
SELECT x < y FROM t | t(x,y): 0/5/9,2/3/4 -> false/false/true 1/1/1; 
SELECT x < y FROM t | t(x,y): 0/2/4,4/5/9 -> false/true/true 1/1/1; 
SELECT x <= y FROM t | t(x,y): 0/2/4,4/5/9 -> true 1/1/1; 
SELECT x > y FROM t | t(x,y): 0/2/4,4/4/9 -> false 1/1/1; 
SELECT x >= y FROM t | t(x,y): 0/2/4,4/4/9 -> false/false/true 1/1/1; ";

// Sums, products and chosen values of ranges.
const ARITHMETIC: &str = "SELECT x * y FROM t | t(x,y): -2/-2/3,-2/-2/3 -> -6/4/9 1/1/1; 
SELECT x * y FROM t | t(x,y): 2/3/4,5/6/7 -> 10/18/28 1/1/1; 
SELECT x * y FROM t | t(x,y): -4/-3/-2,5/6/7 -> -28/-18/-10 1/1/1; 
SELECT x * y FROM t | t(x,y): -4/-3/-2,-7/-6/-5 -> 10/18/28 1/1/1; 
SELECT x * y FROM t | t(x,y): -1/0/2,-3/1/5 -> -6/0/10 1/1/1; 
SELECT x * y FROM t | t(x,y): 0/0/0,-170141183460469231731687303715884105728/0/170141183460469231731687303715884105727 -> 0 1/1/1; 
SELECT x * y FROM t | t(x,y): 1/1/1,-170141183460469231731687303715884105728/0/170141183460469231731687303715884105727 -> -170141183460469231731687303715884105728/0/170141183460469231731687303715884105727 1/1/1; 
SELECT x * y FROM t | t(x,y): -1/-1/-1,-170141183460469231731687303715884105728/0/170141183460469231731687303715884105727 -> Overflow
SELECT x * y FROM t | t(x,y): 0/1/2,0/0/170141183460469231731687303715884105727 -> Overflow
SELECT x * y FROM t | t(x,y): 0/0/2,-170141183460469231731687303715884105728/0/0 -> Overflow
SELECT x + y FROM t | t(x,y): 1/2/3,10/20/30 -> 11/22/33 1/1/1; 
SELECT x - y FROM t | t(x,y): 1/2/3,10/20/30 -> -29/-18/-7 1/1/1; 
SELECT x + y FROM t | t(x,y): 0/0/170141183460469231731687303715884105727,0/0/1 -> Overflow
SELECT x - y FROM t | t(x,y): 0/0/170141183460469231731687303715884105727,0/0/1 -> -1/0/170141183460469231731687303715884105727 1/1/1; 
SELECT x + y FROM t | t(x,y): -170141183460469231731687303715884105728/0/0,0/0/1 -> -170141183460469231731687303715884105728/0/1 1/1/1; 
SELECT x - y FROM t | t(x,y): -170141183460469231731687303715884105728/0/0,0/0/1 -> Overflow
SELECT x + y FROM t | t(x,y): -170141183460469231731687303715884105728/0/0,0/0/0 -> -170141183460469231731687303715884105728/0/0 1/1/1; 
SELECT x - y FROM t | t(x,y): -170141183460469231731687303715884105728/0/0,0/0/0 -> -170141183460469231731687303715884105728/0/0 1/1/1; 
SELECT -x FROM t | t(x): -170141183460469231731687303715884105728/0/1 -> Overflow
SELECT -x FROM t | t(x): -1/0/170141183460469231731687303715884105727 -> -170141183460469231731687303715884105727/0/1 1/1/1; 
SELECT x * x FROM t | t(x): -2/-2/3 -> -6/4/9 1/1/1; 
SELECT CASE WHEN city = 'Oslo' THEN n ELSE 0 END FROM t | t(city,n): Bergen/Oslo/Oslo,10/10/12 -> 0/10/12 1/1/1; 
SELECT CASE WHEN city = 'Oslo' THEN n ELSE 0 END FROM t | t(city,n): Bergen,5 -> 0 1/1/1; 
SELECT CASE WHEN city = 'Oslo' THEN n ELSE 0 END FROM t | t(city,n): Oslo,7 -> 7 1/1/1; 
SELECT CASE WHEN city = 'Oslo' THEN n ELSE 0 END FROM t | t(city,n): Bergen/Bergen/Oslo,7/8/9 -> 0/0/9 1/1/1; 
SELECT CASE WHEN x < 5 THEN x ELSE 0 END + 1 FROM t | t(x): 1/2/9; 7/8/9; 3/4/4 -> 1 1/1/1; 1/3/10 1/1/1; 4/5/5 1/1/1; 
SELECT (x - 2) * -x FROM t | t(x): 1/2/9 -> -63/0/9 1/1/1; 
SELECT NOT x = 3 AND (x <> 2 OR x >= 4) FROM t | t(x): 1/2/9; 3 -> false 1/1/1; false/false/true 1/1/1; 
SELECT x <= 2 AND x > 5 FROM t | t(x): 1/2/9; 6/7/8 -> false 1/1/1; false/false/true 1/1/1; ";

// Each operator over the orders, one of which may be missing, and the rates.
const QUERIES: &str =
    "SELECT id, CASE WHEN amount > 6 THEN amount ELSE -amount END AS a FROM orders WHERE city <> 'Bergen' OR id = 2 | orders(id,city,amount): 1,Bergen/Oslo/Oslo,10/10/12; 2,Bergen,5; 3,Oslo,7 ? | rates(city,fee): Oslo,3; Bergen,4 -> 1 10/10/12 0/1/1; 2 -5 1/1/1; 3 7 0/1/1; 
SELECT o.id, r.fee FROM orders o, rates AS r WHERE o.city = r.city | orders(id,city,amount): 1,Bergen/Oslo/Oslo,10/10/12; 2,Bergen,5; 3,Oslo,7 ? | rates(city,fee): Oslo,3; Bergen,4 -> 1 3 0/1/1; 1 4 0/0/1; 2 4 1/1/1; 3 3 0/1/1; 
SELECT o.id, r.fee FROM orders o, rates AS r WHERE o.city = r.city AND o.amount > r.fee * 2 | orders(id,city,amount): 1,Bergen/Oslo/Oslo,10/10/12; 2,Bergen,5; 3,Oslo,7 ? | rates(city,fee): Oslo,3; Bergen,4 -> 1 3 0/1/1; 1 4 0/0/1; 3 3 0/1/1; 
SELECT city, amount FROM orders UNION ALL SELECT city, fee FROM rates | orders(id,city,amount): 1,Bergen/Oslo/Oslo,10/10/12; 2,Bergen,5; 3,Oslo,7 ? | rates(city,fee): Oslo,3; Bergen,4 -> Bergen 4 1/1/1; Bergen 5 1/1/1; Oslo 3 1/1/1; Oslo 7 0/1/1; Bergen/Oslo/Oslo 10/10/12 1/1/1; 
SELECT o.city, r.fee FROM orders o, (SELECT * FROM rates WHERE fee > 99) r | orders(id,city,amount): 1,Bergen/Oslo/Oslo,10/10/12; 2,Bergen,5; 3,Oslo,7 ? | rates(city,fee): Oslo,3; Bergen,4 -> 
SELECT p.id, q.amount FROM (SELECT id, amount + 1 AS more FROM orders) p, orders q WHERE p.more <= q.amount | orders(id,city,amount): 1,Bergen/Oslo/Oslo,10/10/12; 2,Bergen,5; 3,Oslo,7 ? | rates(city,fee): Oslo,3; Bergen,4 -> 1 10/10/12 0/0/1; 2 7 0/1/1; 2 10/10/12 1/1/1; 3 10/10/12 0/1/1; 
SELECT city, amount FROM orders EXCEPT ALL SELECT city, fee + 6 FROM rates | orders(id,city,amount): 1,Bergen/Oslo/Oslo,10/10/12; 2,Bergen,5; 3,Oslo,7 ? | rates(city,fee): Oslo,3; Bergen,4 -> Bergen 5 1/1/1; Oslo 7 0/1/1; Bergen/Oslo/Oslo 10/10/12 0/1/1; 
SELECT city FROM orders EXCEPT SELECT city FROM rates WHERE fee = 3 | orders(id,city,amount): 1,Bergen/Oslo/Oslo,10/10/12; 2,Bergen,5; 3,Oslo,7 ? | rates(city,fee): Oslo,3; Bergen,4 -> Bergen 1/1/1; Bergen/Oslo/Oslo 0/0/2; 
SELECT city FROM orders UNION SELECT city FROM rates | orders(id,city,amount): 1,Bergen/Oslo/Oslo,10/10/12; 2,Bergen,5; 3,Oslo,7 ? | rates(city,fee): Oslo,3; Bergen,4 -> Bergen 1/1/1; Bergen/Oslo/Oslo 1/1/2; 
SELECT DISTINCT city FROM orders | orders(id,city,amount): 1,Bergen/Oslo/Oslo,10/10/12; 2,Bergen,5; 3,Oslo,7 ? | rates(city,fee): Oslo,3; Bergen,4 -> Bergen 1/1/1; Bergen/Oslo/Oslo 0/1/2; 
SELECT SUM(amount) AS s, COUNT(*) AS n FROM orders | orders(id,city,amount): 1,Bergen/Oslo/Oslo,10/10/12; 2,Bergen,5; 3,Oslo,7 ? | rates(city,fee): Oslo,3; Bergen,4 -> 15/22/24 2/3/3 1/1/1; 
SELECT SUM(fee) AS s FROM rates WHERE fee > 99 | orders(id,city,amount): 1,Bergen/Oslo/Oslo,10/10/12; 2,Bergen,5; 3,Oslo,7 ? | rates(city,fee): Oslo,3; Bergen,4 -> 0 1/1/1; 
SELECT 1 AS one FROM orders | orders(id,city,amount): 1,Bergen/Oslo/Oslo,10/10/12; 2,Bergen,5; 3,Oslo,7 ? | rates(city,fee): Oslo,3; Bergen,4 -> 1 2/3/3; 
SELECT 1 AS one FROM orders HAVING TRUE | orders(id,city,amount): 1,Bergen/Oslo/Oslo,10/10/12; 2,Bergen,5; 3,Oslo,7 ? | rates(city,fee): Oslo,3; Bergen,4 -> 1 1/1/1; 
SELECT COUNT(*) AS n FROM (SELECT DISTINCT city FROM orders) t | orders(id,city,amount): 1,Bergen/Oslo/Oslo,10/10/12; 2,Bergen,5; 3,Oslo,7 ? | rates(city,fee): Oslo,3; Bergen,4 -> 1/2/3 1/1/1; 
SELECT city, SUM(amount) AS s, MIN(amount) AS low, MAX(id) AS top, COUNT(*) AS n FROM orders GROUP BY city | orders(id,city,amount): 1,Bergen/Oslo/Oslo,10/10/12; 2,Bergen,5; 3,Oslo,7 ? | rates(city,fee): Oslo,3; Bergen,4 -> Bergen 5/5/17 5 2 1/1/2 1/1/1; Bergen/Oslo/Oslo 0/17/24 5/7/12 1/3/3 0/2/3 0/1/2; 
SELECT city FROM orders GROUP BY city HAVING COUNT(*) >= 2 | orders(id,city,amount): 1,Bergen/Oslo/Oslo,10/10/12; 2,Bergen,5; 3,Oslo,7 ? | rates(city,fee): Oslo,3; Bergen,4 -> Bergen 0/0/1; Bergen/Oslo/Oslo 0/1/2; 
SELECT r.fee, t.s FROM (SELECT city, SUM(amount) AS s FROM orders GROUP BY city) t, rates r WHERE t.city = r.city | orders(id,city,amount): 1,Bergen/Oslo/Oslo,10/10/12; 2,Bergen,5; 3,Oslo,7 ? | rates(city,fee): Oslo,3; Bergen,4 -> 3 0/17/24 0/1/2; 4 5/5/17 1/1/1; 4 0/17/24 0/0/2; 
SELECT z FROM orders | orders(id,city,amount): 1,Bergen/Oslo/Oslo,10/10/12; 2,Bergen,5; 3,Oslo,7 ? | rates(city,fee): Oslo,3; Bergen,4 -> Query(UnknownColumn(7))
SELECT 'a | orders(id,city,amount): 1,Bergen/Oslo/Oslo,10/10/12; 2,Bergen,5; 3,Oslo,7 ? | rates(city,fee): Oslo,3; Bergen,4 -> Query(OpenText(7))
SELECT id FROM | orders(id,city,amount): 1,Bergen/Oslo/Oslo,10/10/12; 2,Bergen,5; 3,Oslo,7 ? | rates(city,fee): Oslo,3; Bergen,4 -> Query(Syntax(14))
SELECT 1 FROM a,b,c,d,e,f,g,h,i | orders(id,city,amount): 1,Bergen/Oslo/Oslo,10/10/12; 2,Bergen,5; 3,Oslo,7 ? | rates(city,fee): Oslo,3; Bergen,4 -> Limit(FromItems(30))
SELECT a.x FROM t a, t b | t(x): 5; 5 ? -> 5 1/4/4; 
SELECT SUM(x) FROM t | t(x): 1/1/170141183460469231731687303715884105727; 1 -> Overflow";

// The same over the guess world, each row with its count.
const GUESSES: &str =
    "SELECT city, SUM(amount) AS s FROM orders GROUP BY city | orders(id,city,amount): 1,Bergen/Oslo/Oslo,10/10/12; 2,Bergen,5; 3,Oslo,7 ? | rates(city,fee): Oslo,3; Bergen,4 -> row,city,s;1,Bergen,5;1,Oslo,17;
SELECT o.id, r.fee FROM orders o, rates AS r WHERE o.city = r.city | orders(id,city,amount): 1,Bergen/Oslo/Oslo,10/10/12; 2,Bergen,5; 3,Oslo,7 ? | rates(city,fee): Oslo,3; Bergen,4 -> row,id,fee;1,1,3;1,2,4;1,3,3;
SELECT city FROM orders EXCEPT ALL SELECT city FROM rates | orders(id,city,amount): 1,Bergen/Oslo/Oslo,10/10/12; 2,Bergen,5; 3,Oslo,7 ? | rates(city,fee): Oslo,3; Bergen,4 -> row,city;1,Oslo;
SELECT DISTINCT city FROM orders EXCEPT SELECT city FROM rates WHERE fee = 3 | orders(id,city,amount): 1,Bergen/Oslo/Oslo,10/10/12; 2,Bergen,5; 3,Oslo,7 ? | rates(city,fee): Oslo,3; Bergen,4 -> row,city;1,Bergen;
SELECT SUM(amount), COUNT(*) FROM orders WHERE id > 5 | orders(id,city,amount): 1,Bergen/Oslo/Oslo,10/10/12; 2,Bergen,5; 3,Oslo,7 ? | rates(city,fee): Oslo,3; Bergen,4 -> row,col1,col2;1,0,0;
SELECT z FROM orders | orders(id,city,amount): 1,Bergen/Oslo/Oslo,10/10/12; 2,Bergen,5; 3,Oslo,7 ? | rates(city,fee): Oslo,3; Bergen,4 -> Query(UnknownColumn(7))
SELECT a.x FROM t a, t b WHERE a.x < 9 | t(x): 5; 5 ?; 6 ?? -> row,x;4,5;
SELECT SUM(x) FROM t | t(x): 1/1/170141183460469231731687303715884105727; 1 -> row,col1;1,2;
SELECT CASE WHEN x > 0 THEN 1 ELSE x + 1 END FROM t | t(x): 170141183460469231731687303715884105727 -> row,col1;1,1;
SELECT x + 1 FROM t | t(x): 170141183460469231731687303715884105727 -> Overflow";

#[test]
fn comparisons_of_ranges(rt: HostRuntime) -> Result<(), Fail> {
    judge_answers(&rt, rt.alloc(), COMPARISONS)
}

#[test]
fn arithmetic_of_ranges(rt: HostRuntime) -> Result<(), Fail> {
    judge_answers(&rt, rt.alloc(), ARITHMETIC)
}

#[test]
fn answers_of_queries(rt: HostRuntime) -> Result<(), Fail> {
    judge_answers(&rt, rt.alloc(), QUERIES)
}

#[test]
fn guesses_of_queries(rt: HostRuntime) -> Result<(), Fail> {
    judge_guesses(&rt, rt.alloc(), GUESSES)
}
