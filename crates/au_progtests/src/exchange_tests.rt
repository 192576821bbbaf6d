//! Runs that encode tables, rewrite queries, and run plans from files.
use crate::answer_tests::ANSWERS;
use crate::runs::{answer_of, judge, turned};
use std::alloc::Global;
use std::process::Abort;
use std::test::Fail;
use std::thread::Threads;

const ENCODED: &str =
    "encode|t=orders.csv -> 0 Done c0:int,c1:int,c2:int,c3:text,c4:text,c5:text,c6:int,c7:int,c8:int,c9:int,c10:int,c11:int~1,1,1,Bergen,Oslo,Oslo,10,10,12,1,1,1~2,2,2,Bergen,Bergen,Bergen,5,5,5,1,1,1~3,3,3,Oslo,Oslo,Oslo,7,7,7,0,1,1~! 
encode|t=none.csv -> 0 Done c0:int,c1:int,c2:int,c3:text,c4:text,c5:text,c6:int,c7:int,c8:int,c9:int,c10:int,c11:int~! 
encode|t=times.csv -> 0 Done c0:int,c1:int,c2:int,c3:int,c4:int,c5:int,c6:int,c7:int,c8:int~1,1,1,8,10,20,1,3,5~2,2,2,-3,-1,4,0,1,1~! 
encode|t=price.csv -> 0 Done c0:text,c1:text,c2:text,c3:int,c4:int,c5:int,c6:int,c7:int,c8:int,c9:int,c10:int,c11:int~tea,tea,tea,250,250,275,2,3,3,1,1,1~! 
encode|t=wide.csv -> 8 Limit(EncodeColumns(21)) ! audb: limit: 21 columns to encode~
encode|t=no.csv -> 9 NoFile(0) ! audb: file 0 is not there~
encode|t=short.csv -> 3 Table(0, WrongWidth(1)) ! audb: file 0: wrong number of fields in record 1~
encode|t=larger.csv -> 8 Limit(FileSize(0)) ! audb: limit: size of file 0~
encode|t=orders.csv|u=orders.csv -> 2 Usage(Words) ! audb: usage: audb answer SQL NAME=PATH..~
encode|t -> 2 Usage(BadTable(0)) ! audb: usage: table word 0 is not NAME=PATH~";

const REWRITTEN: &str =
    "rewrite|SELECT * FROM orders WHERE|orders=orders.csv -> 1 Query(Syntax(26)) ! audb: query: syntax error at byte 26~
rewrite|SELECT z FROM orders|orders=orders.csv -> 1 Query(UnknownColumn(7)) ! audb: query: unknown column at byte 7~
rewrite|SELECT * FROM orders|orders=no.csv -> 9 NoFile(0) ! audb: file 0 is not there~
rewrite|SELECT 'a|a=a|b=b|c=c|d=d|e=e|f=f|g=g|h=h|i=i -> 8 Limit(Files(9)) ! audb: limit: 9 table words~
rewrite|SELECT * FROM t|t=wide.csv|u=no.csv -> 9 NoFile(1) ! audb: file 1 is not there~
rewrite|--combine|SELECT * FROM t|t=orders.csv -> 2 Usage(Words) ! audb: usage: audb answer SQL NAME=PATH..~";

const PLANS: &str = "plain|filter.sql|t=pairs.csv -> 0 Done c0:int,c1:int~4,2~! 
plain|filter.sql|t=triples.csv -> 11 Plan(Untyped) ! audb: plan: tables and kinds do not fit~
plain|small.sql|t=pairs.csv -> 11 Plan(Text) ! audb: plan: not the text of a plan~
plain|open.sql|t=pairs.csv -> 11 Plan(Text) ! audb: plan: not the text of a plan~
plain|two.sql|t=most.csv -> 11 Plan(Text) ! audb: plan: not the text of a plan~
plain|empty.csv|t=pairs.csv -> 11 Plan(Text) ! audb: plan: not the text of a plan~
plain|deep.sql|t=pairs.csv -> 11 Plan(Deep) ! audb: plan: too deep~
plain|wordy.sql|t=most.csv -> 11 Plan(Untyped) ! audb: plan: tables and kinds do not fit~
plain|second.sql|t=pairs.csv -> 11 Plan(Untyped) ! audb: plan: tables and kinds do not fit~
plain|second.sql|t=pairs.csv|u=pairs.csv -> 0 Done c0:int,c1:int~4,2~4,2~5,0~5,0~! 
plain|kept.sql|t=orders.csv -> 0 Done c0:int,c1:text~5,Bergen~7,Oslo~10,Oslo~! 
plain|scan.sql|t=hush.csv -> 0 Done c0:int~! 
plain|scan.sql|t=crowd.csv -> 8 Limit(PlainRows(1)) ! audb: limit: rows of file 1~
plain|filter.sql|t=pairs.csv|u=crowd.csv -> 8 Limit(PlainRows(2)) ! audb: limit: rows of file 2~
plain|next.sql|t=most.csv -> 4 Overflow ! audb: a number leaves 128 bits~
plain|no.sql|t=no.csv -> 9 NoFile(0) ! audb: file 0 is not there~
plain|small.sql|t=no.csv -> 11 Plan(Text) ! audb: plan: not the text of a plan~
plain|scan.sql|t=no.csv -> 9 NoFile(1) ! audb: file 1 is not there~
plain|wordy.sql|t=most.csv|u=short.csv -> 3 Table(2, WrongWidth(1)) ! audb: file 2: wrong number of fields in record 1~
plain|larger.csv|t=no.csv -> 8 Limit(FileSize(0)) ! audb: limit: size of file 0~
plain|no.sql|a=a|b=b|c=c|d=d|e=e|f=f|g=g|h=h|i=i -> 8 Limit(Files(9)) ! audb: limit: 9 table words~";

const SUMS: &str = "SELECT city, SUM(amount) AS s FROM orders GROUP BY city";

// What the three commands in turn print for this query over the orders.
const SUMMED: &str =
    "0 Done c0:text,c1:text,c2:text,c3:int,c4:int,c5:int,c6:int,c7:int,c8:int~Bergen,Bergen,Bergen,5,5,17,1,1,1~Bergen,Oslo,Oslo,0,17,24,0,1,2~! ";

const MATCHED: &str = "SELECT o.id, r.fee FROM orders o, rates AS r WHERE o.city = r.city";

const MATCHES: &str =
    "0 Done c0:int,c1:int,c2:int,c3:int,c4:int,c5:int,c6:int,c7:int,c8:int~1,1,1,3,3,3,0,1,1~1,1,1,4,4,4,0,0,1~2,2,2,4,4,4,1,1,1~3,3,3,3,3,3,0,1,1~! ";

#[test]
fn encoded_tables(rt: HostRuntime) -> Result<(), Fail> {
    judge(&rt, rt.alloc(), ENCODED)
}

#[test]
fn refused_rewritings(rt: HostRuntime) -> Result<(), Fail> {
    judge(&rt, rt.alloc(), REWRITTEN)
}

// What stands in the text of a plan that has no column, or of literal rows that are none: no SQL.
const NO_SQL: [&str; 3] = ["SELECT  FROM", "(VALUES )", "x()"];

// Queries over tables, besides those that are answered.
const FURTHER: [&str; 3] = [
    "SELECT SUM(x) FROM t|t=sums.csv",
    "SELECT a.grp, MAX(a.id) AS m FROM t a, t b WHERE a.amount = b.amount AND a.grp = 'g0' AND b.grp = 'g1' GROUP BY a.grp|t=made.csv",
    "SELECT grp, COUNT(*) AS n, SUM(amount) AS total FROM t GROUP BY grp|t=made.csv",
];

// The text that a query over tables is rewritten to is SQL.
fn judge_text<R: Abort + Threads + Sync>(rt: &R, alloc: Global, asked: &str) -> Result<(), Fail> {
    let line = format!(in alloc; "rewrite|{asked}")?;
    let text = answer_of(rt, alloc, line.as_str())?;
    assert!(rt; text.as_str().starts_with("0 Done "), "{asked}");
    for part in NO_SQL {
        assert!(rt; !text.as_str().contains(part), "{part} of {asked}");
    }
    Ok(())
}

#[test]
fn rewritten_plans_are_sql(rt: HostRuntime) -> Result<(), Fail> {
    for case in ANSWERS.lines() {
        let (given, _) = case.split_once(" -> ").ok_or("an arrow")?;
        let (_, asked) = given.split_once("|").ok_or("a command")?;
        judge_text(&rt, rt.alloc(), asked)?;
    }
    for asked in FURTHER {
        judge_text(&rt, rt.alloc(), asked)?;
    }
    Ok(())
}

#[test]
fn plans_from_files(rt: HostRuntime) -> Result<(), Fail> {
    judge(&rt, rt.alloc(), PLANS)
}

#[test]
fn the_three_commands_in_turn(rt: HostRuntime) -> Result<(), Fail> {
    let alloc = rt.alloc();
    let sums = turned(&rt, alloc, SUMS, "orders.csv")?;
    assert_eq!(rt; sums.as_str(), SUMMED);
    let matches = turned(&rt, alloc, MATCHED, "orders.csv|rates.csv")?;
    assert_eq!(rt; matches.as_str(), MATCHES);
    Ok(())
}
