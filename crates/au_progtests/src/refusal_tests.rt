//! Runs that end without an answer, each with one line.
use crate::runs::{judge, judge_put, judge_read};
use au_cli::{Outcome, fault_line};
use std::test::Fail;

// Words and queries that are refused.
const DEFECTS: &str =
    "answer|SELECT sum(x) FROM t WHERE y + 1 > 0, u|t=no.csv -> 1 Query(Syntax(36)) ! audb: query: syntax error at byte 36~
answer|SELECT z FROM orders|orders=orders.csv -> 1 Query(UnknownColumn(7)) ! audb: query: unknown column at byte 7~
answer|SELECT MIN(amount) FROM orders|orders=orders.csv -> 1 Query(MinMaxNeedsGroup(7)) ! audb: query: MIN and MAX need GROUP BY at byte 7~
answer|SELECT COUNT(*) FROM orders o, rates r|orders=orders.csv|rates=rates.csv -> 1 Query(CountOverJoin(7)) ! audb: query: count over a join at byte 7~
answer|SELECT COUNT(*) FROM (SELECT o.id FROM orders o, rates r) u|orders=orders.csv|rates=rates.csv -> 1 Query(CountOverJoin(7)) ! audb: query: count over a join at byte 7~
guess|SELECT id FROM orders WHERE city > 1|orders=orders.csv -> 1 Query(KindMismatch(33)) ! audb: query: kinds do not fit at byte 33~
answer|SELECT id ? 1 FROM orders|t=no.csv -> 1 Query(BadChar(10)) ! audb: query: unexpected character at byte 10~
answer|SELECT 'a|t=no.csv -> 1 Query(OpenText(7)) ! audb: query: quote without an end at byte 7~
answer|SELECT t.* FROM orders|orders=orders.csv|rates=rates.csv -> 1 Query(UnknownTable(7)) ! audb: query: unknown table at byte 7~
answer|SELECT city FROM orders, rates|orders=orders.csv|rates=rates.csv -> 1 Query(Ambiguous(7)) ! audb: query: ambiguous column at byte 7~
answer|SELECT 1 FROM orders a, rates A|orders=orders.csv|rates=rates.csv -> 1 Query(SameAlias(24)) ! audb: query: repeated table name at byte 24~
answer|SELECT id, COUNT(*) FROM orders|orders=orders.csv|rates=rates.csv -> 1 Query(NotGrouped(7)) ! audb: query: column is not grouped at byte 7~
answer|SELECT 1 FROM orders WHERE SUM(id) = 1|orders=orders.csv|rates=rates.csv -> 1 Query(MisplacedAggregate(27)) ! audb: query: misplaced aggregate at byte 27~
answer|SELECT 1a|orders=orders.csv|rates=rates.csv -> 1 Query(BadNumber(7)) ! audb: query: bad number at byte 7~
answer|SELECT id FROM orders EXCEPT SELECT * FROM rates|orders=orders.csv|rates=rates.csv -> 1 Query(WidthMismatch(22)) ! audb: query: different numbers of columns at byte 22~
answer|SELECT * FROM t|t -> 2 Usage(BadTable(0)) ! audb: usage: table word 0 is not NAME=PATH~
answer|SELECT * FROM t|t=orders.csv|T=rates.csv -> 2 Usage(SameTable(0, 1)) ! audb: usage: table words 0 and 1 have one name~
answer|--workers=65|SELECT * FROM t|t=orders.csv -> 2 Usage(Words) ! audb: usage: audb answer SQL NAME=PATH..~
answer|SELECT 'a|a=a|b=b|c=c|d=d|e=e|f=f|g=g|h=h|i=i -> 8 Limit(Files(9)) ! audb: limit: 9 table words~
direct|SELECT 1 FROM a,b,c,d,e,f,g,h,i|t=no.csv -> 8 Limit(FromItems(30)) ! audb: limit: FROM items at byte 30~
answer|SELECT (((((((((((((((((((((((((((((((((1))))))))))))))))))))))))))))))))) FROM orders|orders=orders.csv -> 8 Limit(Depth(39)) ! audb: limit: nesting at byte 39~";

// Files that are refused, and numbers that leave 128 bits.
const FILES: &str =
    "answer|SELECT n FROM t|t=past.csv -> 3 Table(0, BadField(1, 0)) ! audb: file 0: bad field in record 1, column 0~
answer|SELECT * FROM t|t=copies.csv -> 3 Table(0, BadTimes(1)) ! audb: file 0: bad number of copies in record 1~
answer|SELECT x FROM t|t=guesses.csv -> 3 Table(0, TwoGuesses(0)) ! audb: file 0: two guesses in block 0~
answer|SELECT x FROM t|t=alt.csv -> 3 Table(0, NoGuess(0)) ! audb: file 0: no guess in block 0~
answer|SELECT x FROM t|t=only.csv -> 3 Table(0, OnlyAbsent(0)) ! audb: file 0: no alternative in block 0~
answer|SELECT x FROM t|t=twice.csv -> 3 Table(0, TwoAbsent(0)) ! audb: file 0: two absent records in block 0~
answer|SELECT x FROM t|t=valued.csv -> 3 Table(0, AbsentWithValues(1)) ! audb: file 0: values in absent record 1~
answer|SELECT x FROM t|t=role.csv -> 3 Table(0, BadRole(1)) ! audb: file 0: bad role in record 1~
answer|SELECT * FROM t|t=short.csv -> 3 Table(0, WrongWidth(1)) ! audb: file 0: wrong number of fields in record 1~
answer|SELECT * FROM t|t=empty.csv -> 3 Table(0, NoHeader) ! audb: file 0: no header~
answer|SELECT * FROM t|t=same.csv -> 3 Table(0, SameName(0, 2)) ! audb: file 0: columns 0 and 2 have one name~
answer|SELECT * FROM t|t=kind.csv -> 3 Table(0, UnknownKind(0)) ! audb: file 0: unknown kind of column 0~
answer|SELECT * FROM t|t=large.csv -> 3 Table(0, BadColumnName(0)) ! audb: file 0: bad name of column 0~
answer|SELECT * FROM t|t=larger.csv -> 8 Limit(FileSize(0)) ! audb: limit: size of file 0~
answer|SELECT 1 FROM t|t=full.csv|u=full.csv|v=byte.csv -> 8 Limit(AllFiles(2)) ! audb: limit: size of all files at file 2~
answer|SELECT * FROM orders|orders=orders.csv|t=no.csv -> 9 NoFile(1) ! audb: file 1 is not there~
answer|--workers=2|SELECT * FROM orders|orders=orders.csv|t=no.csv -> 9 NoFile(1) ! audb: file 1 is not there~
answer|--workers=2|SELECT 1 FROM t|t=short.csv|u=no.csv -> 3 Table(0, WrongWidth(1)) ! audb: file 0: wrong number of fields in record 1~
answer|--workers=2|SELECT 1 FROM t|t=short.csv|u=larger.csv -> 3 Table(0, WrongWidth(1)) ! audb: file 0: wrong number of fields in record 1~
answer|--workers=2|SELECT 1 FROM t|t=short.csv|u=empty.csv -> 3 Table(0, WrongWidth(1)) ! audb: file 0: wrong number of fields in record 1~
answer|--workers=2|SELECT 1 FROM t|t=orders.csv|u=empty.csv -> 3 Table(1, NoHeader) ! audb: file 1: no header~
answer|--workers=2|SELECT 1 FROM t|t=no.csv|u=empty.csv -> 9 NoFile(0) ! audb: file 0 is not there~
answer|--workers=2|SELECT 1 FROM t|t=orders.csv|u=larger.csv -> 8 Limit(FileSize(1)) ! audb: limit: size of file 1~
answer|SELECT SUM(x) FROM t|t=sums.csv -> 4 Overflow ! audb: a number leaves 128 bits~
answer|SELECT n + 1 FROM t|t=most.csv -> 4 Overflow ! audb: a number leaves 128 bits~
guess|SELECT n + 1 FROM t|t=most.csv -> 4 Overflow ! audb: a number leaves 128 bits~
direct|SELECT k FROM (SELECT n AS k, n + 1 AS z FROM t) u|t=most.csv -> 4 Overflow ! audb: a number leaves 128 bits~";

const UNREAD: &str =
    "answer|SELECT * FROM orders|orders=orders.csv -> 5 ReadFault(0) ! audb: file 0 cannot be read~";

const SECOND_UNREAD: &str =
    "answer|SELECT * FROM orders|orders=orders.csv|r=rates.csv -> 5 ReadFault(1) ! audb: file 1 cannot be read~";

// The files are parsed by two workers, and the first of them is no table.
const FIRST_REFUSED: &str =
    "answer|--workers=2|SELECT 1 FROM t|t=short.csv|r=rates.csv -> 3 Table(0, WrongWidth(1)) ! audb: file 0: wrong number of fields in record 1~";

const NOT_PUT: &str =
    "answer|SELECT * FROM orders|orders=orders.csv -> 6 WriteFault row_l! audb: the answer cannot be written~";

#[test]
fn refusals_of_words_and_queries(rt: HostRuntime) -> Result<(), Fail> {
    judge(&rt, rt.alloc(), DEFECTS)
}

#[test]
fn refusals_of_files(rt: HostRuntime) -> Result<(), Fail> {
    judge(&rt, rt.alloc(), FILES)
}

#[test]
fn failing_reads_and_puts(rt: HostRuntime) -> Result<(), Fail> {
    judge_read(&rt, rt.alloc(), 2, UNREAD)?;
    judge_read(&rt, rt.alloc(), 3, SECOND_UNREAD)?;
    judge_read(&rt, rt.alloc(), 3, FIRST_REFUSED)?;
    judge_put(&rt, rt.alloc(), 5, NOT_PUT)
}

#[test]
fn want_of_memory_has_a_line(rt: HostRuntime) -> Result<(), Fail> {
    assert_eq!(rt; Outcome::NoMemory.code(), 7);
    let line = fault_line(rt.alloc(), &Outcome::NoMemory)?;
    assert_eq!(rt; line.as_slice(), b"audb: out of memory\n".as_slice());
    Ok(())
}
