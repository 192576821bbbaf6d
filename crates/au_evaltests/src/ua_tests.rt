//! Places at which queries are not positive, and tables, answers and texts with pairs.
ghost use Rattle.std.specs.Prelude.{◌≡◌, IfOk, None, [], ◌∷◌, length};
ghost use Rattle.std.specs.List.{AllByRecursion};
ghost use Rattle.au_annot.specs.Pairs.{IsPair};
ghost use Rattle.au_value.specs.declared.kinds.Kind.{Kind};
ghost use Rattle.au_expr.specs.Ordinary.{IsKind};
ghost use Rattle.au_algebra.specs.Trees.{tree, Table as TheTable, Union as TheUnion};
ghost use Rattle.au_keval.specs.Reading.{IsRelationOver};
ghost use Rattle.au_parse.specs.Views.{statement_tree};
ghost use Rattle.au_parse.specs.Whole.{WholeQuery};
ghost use Rattle.au_ua.specs.NotPositive.{not_positive as not_positive_of};

use crate::cases::{Call, given_and_wanted, judge};
use crate::query_tables::tables_of;
use crate::query_tests::lines_of;
use crate::relations::number;
use au_algebra::{Query, Rel};
use au_annot::{Count, Pair};
use au_blocks::Table;
use au_engine::{read_query, ua_answer};
use au_expr::EvalFault;
use au_par::NoGate;
use au_parse::Statement;
use au_ua::{not_positive, ua, ua_table, ua_text};
use au_value::{Kind, NoMemory, Value, Word};
use std::alloc::Global;
use std::process::Abort;
use std::test::Fail;
use std::thread::Threads;

struct Place;

impl Call for Place {
    fn outcome(
        _rt: &(impl Abort + Threads + Sync),
        alloc: Global,
        given: &str,
    ) -> Result<String, Fail> {
        let place = read_query(alloc, given).map(|statement| not_positive(&statement));
        Ok(format!(in alloc; "{place:?}")?)
    }
}

// The pairs of a table's rows.
struct Pairs;

impl Call for Pairs {
    fn outcome(
        _rt: &(impl Abort + Threads + Sync),
        alloc: Global,
        given: &str,
    ) -> Result<String, Fail> {
        let mut text = String::new(alloc);
        for table in &tables_of(alloc, given)? {
            for row in ua_table(alloc, &table.1)?.rows() {
                let pair = (row.1.certain().get(), row.1.guess().get());
                text.push_str(format!(in alloc; "{pair:?};")?.as_str())?;
            }
        }
        Ok(text)
    }
}

fn pair(rt: &impl Abort, certain: u128, guess: u128) -> Pair
    ensures { IsPair result }
{
    let certain = Count::of(certain).expect(rt, "a count");
    let guess = Count::of(guess).expect(rt, "a count");
    let pair = Pair::of(certain, guess).expect(rt, "a pair in order");
    let _valid = pair.guess();
    pair
}

// A row of each number, with a pair of 1 and 2.
fn numbers(rt: &impl Abort, alloc: Global, text: &str) -> Result<Rel<Value, Pair>, NoMemory>
    ensures relation { IfOk result (λ rel. IsRelationOver IsKind IsPair (Kind.Int ∷ []) rel) }
    ensures widths { IfOk result (λ rel. AllByRecursion (λ r. length r.cells ≡ 1) rel) }
{
    let mut rel = Rel::new(alloc);
    for word in text.split(' ') {
        let mut cells = Vec::new(alloc);
        cells.push(Value::Int(number(rt, word)))?;
        rel.push(cells, pair(rt, 1, 2))?;
    }
    Ok(rel)
}

fn table(alloc: Global) -> Result<Box<Query>, NoMemory>
    ensures { IfOk result (λ b. tree b.value ≡ TheTable 0) }
{
    Ok(Box::new(alloc, Query::Table(0))?)
}

fn self_union(alloc: Global) -> Result<Query, NoMemory>
    ensures { IfOk result (λ q. tree q ≡ TheUnion (TheTable 0) (TheTable 0)) }
{
    Ok(Query::Union(table(alloc)?, table(alloc)?))
}

// The table twice.
fn twice(alloc: Global, table: Rel<Value, Pair>) -> Result<Rel<Value, Pair>, EvalFault>
    requires { IsRelationOver IsKind IsPair (Kind.Int ∷ []) table }
{
    let query = self_union(alloc)?;
    ua(alloc, &query, &[table])
}

// How many rows the table twice has, and its own text.
struct Doubled;

impl Call for Doubled {
    fn outcome(
        rt: &(impl Abort + Threads + Sync),
        alloc: Global,
        given: &str,
    ) -> Result<String, Fail> {
        let both = twice(alloc, numbers(rt, alloc, given)?)?.rows().len();
        let text = text_of(alloc, &numbers(rt, alloc, given)?)?;
        Ok(format!(in alloc; "{both} {}", text.as_str())?)
    }
}

fn names(alloc: Global) -> Result<Vec<Word>, NoMemory>
    ensures { IfOk result (λ v. length v.items ≡ 1) }
{
    let mut names = Vec::new(alloc);
    names.push(Word::new(String::from_str(alloc, "n")?))?;
    Ok(names)
}

// The text of a table, with `;` for each LF.
fn text_of(alloc: Global, rel: &Rel<Value, Pair>) -> Result<String, Fail>
    requires { AllByRecursion (λ r. length r.cells ≡ 1) rel.now }
{
    let names = names(alloc)?;
    let text = ua_text(alloc, names.as_slice(), &[Kind::Int], rel)?;
    let lines = str::from_utf8(text.as_slice())?;
    Ok(lines.replace(alloc, '\n', ";")?)
}

// The text of the answer with pairs, with `;` for each LF.
fn with_pairs(
    rt: &(impl Threads + Sync),
    alloc: Global,
    statement: &Statement,
    tables: &[(Word, Table)],
) -> Result<String, Fail>
    requires whole { WholeQuery (statement_tree statement.now) }
    requires positive { not_positive_of (statement_tree statement.now) ≡ None }
{
    match ua_answer(rt, alloc, statement, tables, NoGate) {
        Ok(answer) => lines_of(
            alloc,
            &ua_text(
                alloc,
                answer.names.as_slice(),
                answer.kinds.as_slice(),
                &answer.rows,
            ),
        ),
        Err(fault) => Ok(format!(in alloc; "{fault:?}")?),
    }
}

// The answer with pairs of a query over tables.
fn answered(
    rt: &(impl Abort + Threads + Sync),
    alloc: Global,
    given: &str,
) -> Result<String, Fail> {
    let (query, tables) = given.split_once(" | ").ok_or("tables")?;
    let tables = tables_of(alloc, tables)?;
    match read_query(alloc, query) {
        Ok(statement) => match not_positive(&statement) {
            None => with_pairs(rt, alloc, &statement, tables.as_slice()),
            Some(place) => Ok(format!(in alloc; "not positive at {place}")?),
        },
        Err(fault) => Ok(format!(in alloc; "{fault:?}")?),
    }
}

// Whether the answer with pairs is for each line what is wanted.
fn judge_answers(
    rt: &(impl Abort + Threads + Sync),
    alloc: Global,
    cases: &str,
) -> Result<(), Fail> {
    for line in cases.lines() {
        let (given, wanted) = given_and_wanted(rt, line);
        let found = answered(rt, alloc, given)?;
        assert_eq!(rt; found.as_str(), wanted, "{given}");
    }
    Ok(())
}

const PLACES: &str = "SELECT city FROM orders -> Ok(None)
SELECT DISTINCT city FROM orders -> Ok(Some(0))
SELECT city FROM orders UNION SELECT city FROM rates -> Ok(Some(24))
SELECT city FROM orders UNION ALL SELECT city FROM rates -> Ok(None)
SELECT city FROM orders EXCEPT ALL SELECT city FROM rates -> Ok(Some(24))
SELECT n FROM (SELECT COUNT(*) AS n FROM orders) u -> Ok(Some(15))
SELECT CASE WHEN TRUE THEN SUM(id) ELSE 0 END AS s FROM orders -> Ok(Some(0))
SELECT id FROM orders HAVING TRUE -> Ok(Some(0))
SELECT city FROM orders GROUP BY city -> Ok(Some(0))
SELECT id FROM orders WHERE SUM(id) = 1 -> Ok(Some(0))";

// A block is certain where its alternatives are equal and it can't be missing; one that is not guessed has no row.
const PAIRS: &str =
    "t(id,city): 1,Bergen/Oslo/Oslo; 2,Bergen; 3,Oslo ?; 4,Moss ?? -> (0, 1);(1, 1);(0, 1);";

const DOUBLED: &str = "7 5 7 -> 6 certain,row,n;1,2,5;2,4,7;";

// Counts are multiplied in pairs and added in a union, and a row of which no copy is guessed is not there.
const ANSWERS: &str =
    "SELECT city FROM t | t(id,city): 1,Bergen/Oslo/Oslo; 2,Bergen; 3,Oslo ?; 4,Moss ?? -> certain,row,city;1,1,Bergen;0,2,Oslo;
SELECT a.id FROM t a, t b WHERE a.city = b.city | t(id,city): 1,Bergen/Oslo/Oslo; 2,Bergen; 3,Oslo ?; 4,Moss ?? -> certain,row,id;0,2,1;1,1,2;0,2,3;
SELECT id FROM t WHERE id > 1 UNION ALL SELECT id FROM t | t(id:int,city): 1,Bergen/Oslo/Oslo; 2,Bergen; 3,Oslo ?; 4,Moss ?? -> certain,row,id;0,1,1;2,2,2;0,2,3;
SELECT city, id * 2 AS d FROM t WHERE id > 9 | t(id:int,city): 1,Bergen -> certain,row,city,d;
SELECT DISTINCT city FROM t | t(id,city): 1,Bergen -> not positive at 0";

#[test]
fn places_that_are_not_positive(rt: HostRuntime) -> Result<(), Fail> {
    judge::<Place>(&rt, rt.alloc(), PLACES)
}

#[test]
fn pairs_of_blocks(rt: HostRuntime) -> Result<(), Fail> {
    judge::<Pairs>(&rt, rt.alloc(), PAIRS)
}

#[test]
fn answers_with_pairs(rt: HostRuntime) -> Result<(), Fail> {
    judge_answers(&rt, rt.alloc(), ANSWERS)
}

#[test]
fn a_table_twice(rt: HostRuntime) -> Result<(), Fail> {
    judge::<Doubled>(&rt, rt.alloc(), DOUBLED)
}
