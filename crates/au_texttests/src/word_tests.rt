//! Words of a command line, and what they ask for.
use crate::cases::{Call, judge};
use au_value::Word;
use au_words::CommandLine;
use std::alloc::{AllocError, Global};
use std::test::Fail;

// The words of a line, each ended by `|`.
fn words_of(alloc: Global, line: &str) -> Result<Vec<Word>, AllocError> {
    let mut words = Vec::new(alloc);
    for word in line.split('|') {
        words.push(Word::new(String::from_str(alloc, word)?))?;
    }
    words.pop();
    Ok(words)
}

struct Words;

impl Call for Words {
    fn outcome(alloc: Global, given: &str) -> Result<String, Fail> {
        let words = words_of(alloc, given)?;
        let line = CommandLine::of(alloc, words.as_slice())?;
        let asked = line.read(alloc);
        Ok(format!(in alloc; "{asked:?}")?)
    }
}

// No words, an empty one, commands that are none, words that are wanting, options that are none or of another command,
// and numbers that are none or past their ranges.
const NO_FORM: &str = " -> Err(Usage(Words))
| -> Err(Usage(Words))
ask|SELECT * FROM t|t=a.csv| -> Err(Usage(Words))
help| -> Err(Usage(Words))
--help| -> Err(Usage(Words))
answer| -> Err(Usage(Words))
answer|SELECT * FROM t| -> Err(Usage(Words))
answer|SELECT * FROM t|--table| -> Err(Usage(Words))
answer|--workers=65|SELECT * FROM t|t=a.csv| -> Err(Usage(Words))
answer|--combine=10|SELECT * FROM t|t=a.csv| -> Err(Usage(Words))
answer|--table=1|SELECT * FROM t|t=a.csv| -> Err(Usage(Words))
answer|--tab|SELECT * FROM t|t=a.csv| -> Err(Usage(Words))
answer|--table|SELECT * FROM t|--table|t=a.csv| -> Err(Usage(Words))
answer|--combine|--combine|SELECT * FROM t|t=a.csv| -> Err(Usage(Words))
answer|--points|SELECT * FROM t|--points|t=a.csv| -> Err(Usage(Words))
answer|--points=1|SELECT * FROM t|t=a.csv| -> Err(Usage(Words))
answer|--point|SELECT * FROM t|t=a.csv| -> Err(Usage(Words))
answer|--points|SELECT * FROM t| -> Err(Usage(Words))
answer|--|SELECT * FROM t|t=a.csv| -> Err(Usage(Words))
answer|--help|SELECT * FROM t|t=a.csv| -> Err(Usage(Words))
answer|-h|SELECT * FROM t|t=a.csv| -> Err(Usage(Words))
answer|SELECT * FROM t|-t=a.csv| -> Err(Usage(Words))
answer|-SELECT * FROM t|t=a.csv| -> Err(Usage(Words))
answer|SELECT * FROM t|t=a.csv|-| -> Err(Usage(Words))
guess|--table|SELECT * FROM t|t=a.csv| -> Err(Usage(Words))
guess|SELECT * FROM t| -> Err(Usage(Words))
demo| -> Err(Usage(Words))
demo|1| -> Err(Usage(Words))
demo|1|2|3| -> Err(Usage(Words))
demo|01|1| -> Err(Usage(Words))
demo|1|01| -> Err(Usage(Words))
demo|00|1| -> Err(Usage(Words))
demo|1|0| -> Err(Usage(Words))
demo|1|100001| -> Err(Usage(Words))
demo|4294967296|1| -> Err(Usage(Words))
demo|+1|1| -> Err(Usage(Words))
demo|-1|1| -> Err(Usage(Words))
demo||1| -> Err(Usage(Words))
demo|1|--table| -> Err(Usage(Words))
demo|--workers=0|1|1| -> Err(Usage(Words))
demo|--workers=02|1|1| -> Err(Usage(Words))
demo|--workers|2|1|1| -> Err(Usage(Words))
demo|--compress=2|1|1| -> Err(Usage(Words))
answer|--workers=1|--workers=2|Q|t=a.csv| -> Err(Usage(Words))
answer|--workers=|Q|t=a.csv| -> Err(Usage(Words))
answer|--compress=0|Q|t=a.csv| -> Err(Usage(Words))
answer|--compress=1001|Q|t=a.csv| -> Err(Usage(Words))
direct|--workers=2|Q|t=a.csv| -> Err(Usage(Words))
direct|--points|Q|t=a.csv| -> Err(Usage(Words))
guess|--points|Q|t=a.csv| -> Err(Usage(Words))
ua|--combine|Q|t=a.csv| -> Err(Usage(Words))
ua|--points|Q|t=a.csv| -> Err(Usage(Words))
demo|--points|1|1| -> Err(Usage(Words))
encode| -> Err(Usage(Words))
encode|t=a.csv|u=b.csv| -> Err(Usage(Words))
encode|--table|t=a.csv| -> Err(Usage(Words))
encode|--points|t=a.csv| -> Err(Usage(Words))
rewrite|Q| -> Err(Usage(Words))
rewrite|--combine|Q|t=a.csv| -> Err(Usage(Words))
rewrite|--points|Q|t=a.csv| -> Err(Usage(Words))
explain|Q| -> Err(Usage(Words))
explain|--combine|Q|t=a.csv| -> Err(Usage(Words))
explain|--workers=2|Q|t=a.csv| -> Err(Usage(Words))
plain|p.sql| -> Err(Usage(Words))
plain|--workers=2|p.sql|t=a.csv| -> Err(Usage(Words))
plain|--points|p.sql|t=a.csv| -> Err(Usage(Words))
rewrites|Q|t=a.csv| -> Err(Usage(Words))";

const TABLE_WORDS: &str = "answer|SELECT * FROM t|t| -> Err(Usage(BadTable(0)))
answer|SELECT * FROM t|=a.csv| -> Err(Usage(BadTable(0)))
guess|SELECT * FROM t|t=| -> Err(Usage(BadTable(0)))
direct|SELECT * FROM t|t=a.csv|u|v| -> Err(Usage(BadTable(1)))
answer|SELECT * FROM t|t=a.csv|T=b.csv| -> Err(Usage(SameTable(0, 1)))
answer|SELECT * FROM t|t=a|T=b|u| -> Err(Usage(BadTable(2)))
answer|SELECT * FROM t|a=1|b=2|B=3|A=4| -> Err(Usage(SameTable(1, 2)))
answer|SELECT * FROM t|a=1|b=2|A=3|a=4| -> Err(Usage(SameTable(0, 2)))
answer|answer|a=b=c|--table|B=|=| -> Err(Usage(BadTable(1)))
encode|t| -> Err(Usage(BadTable(0)))
encode|t=| -> Err(Usage(BadTable(0)))
rewrite|Q|t=a.csv|u| -> Err(Usage(BadTable(1)))
explain|Q|t=a.csv|T=b.csv| -> Err(Usage(SameTable(0, 1)))
plain|p=1|=a.csv| -> Err(Usage(BadTable(0)))
plain|p.sql|t=a.csv|T=b.csv| -> Err(Usage(SameTable(0, 1)))";

// Options stand anywhere, a table word is cut at its first equal sign, and a command's name may be a query.
const ASKED: &str =
    r#"answer|Q|t=a.csv| -> Ok(Query(Request { command: Answer, form: Csv, combine: false, points: false, workers: 1, compress: None, query: "Q", tables: [TableWord { name: "t", path: "a.csv" }] }))
answer|--table|Q|t=a.csv| -> Ok(Query(Request { command: Answer, form: Table, combine: false, points: false, workers: 1, compress: None, query: "Q", tables: [TableWord { name: "t", path: "a.csv" }] }))
answer|Q|--combine|t=a.csv| -> Ok(Query(Request { command: Answer, form: Csv, combine: true, points: false, workers: 1, compress: None, query: "Q", tables: [TableWord { name: "t", path: "a.csv" }] }))
answer|Q|t=a.csv|--points| -> Ok(Query(Request { command: Answer, form: Csv, combine: false, points: true, workers: 1, compress: None, query: "Q", tables: [TableWord { name: "t", path: "a.csv" }] }))
answer|--points|--combine|Q|--table|t=a.csv|--compress=2|--workers=3| -> Ok(Query(Request { command: Answer, form: Table, combine: true, points: true, workers: 3, compress: Some(2), query: "Q", tables: [TableWord { name: "t", path: "a.csv" }] }))
direct|Q|t=a.csv|--table| -> Ok(Query(Request { command: Direct, form: Table, combine: false, points: false, workers: 1, compress: None, query: "Q", tables: [TableWord { name: "t", path: "a.csv" }] }))
direct|--combine|Q|t=a.csv|--table| -> Ok(Query(Request { command: Direct, form: Table, combine: true, points: false, workers: 1, compress: None, query: "Q", tables: [TableWord { name: "t", path: "a.csv" }] }))
guess|Q|t=a.csv| -> Ok(Query(Request { command: Guess, form: Csv, combine: false, points: false, workers: 1, compress: None, query: "Q", tables: [TableWord { name: "t", path: "a.csv" }] }))
answer|demo|a=b=c|--table|B=-| -> Ok(Query(Request { command: Answer, form: Table, combine: false, points: false, workers: 1, compress: None, query: "demo", tables: [TableWord { name: "a", path: "b=c" }, TableWord { name: "B", path: "-" }] }))
demo|0|1| -> Ok(Demo { start: 0, blocks: 1, workers: 1 })
demo|1|3| -> Ok(Demo { start: 1, blocks: 3, workers: 1 })
answer|--workers=64|Q|t=a.csv|--compress=1000| -> Ok(Query(Request { command: Answer, form: Csv, combine: false, points: false, workers: 64, compress: Some(1000), query: "Q", tables: [TableWord { name: "t", path: "a.csv" }] }))
demo|4294967295|100000| -> Ok(Demo { start: 4294967295, blocks: 100000, workers: 1 })
demo|1|3|--workers=7| -> Ok(Demo { start: 1, blocks: 3, workers: 7 })
rewrite|Q|t=a.csv| -> Ok(Query(Request { command: Rewrite, form: Csv, combine: false, points: false, workers: 1, compress: None, query: "Q", tables: [TableWord { name: "t", path: "a.csv" }] }))
explain|Q|t=a.csv| -> Ok(Query(Request { command: Explain, form: Csv, combine: false, points: false, workers: 1, compress: None, query: "Q", tables: [TableWord { name: "t", path: "a.csv" }] }))
encode|t=a.csv| -> Ok(Encode(TableWord { name: "t", path: "a.csv" }))
plain|p=1|t=a.csv|U=b| -> Ok(Plain { plan: "p=1", tables: [TableWord { name: "t", path: "a.csv" }, TableWord { name: "U", path: "b" }] })"#;

#[test]
fn words_of_no_form(rt: HostRuntime) -> Result<(), Fail> {
    judge::<Words>(&rt, rt.alloc(), NO_FORM)
}

#[test]
fn defects_of_table_words(rt: HostRuntime) -> Result<(), Fail> {
    judge::<Words>(&rt, rt.alloc(), TABLE_WORDS)
}

#[test]
fn what_words_ask_for(rt: HostRuntime) -> Result<(), Fail> {
    judge::<Words>(&rt, rt.alloc(), ASKED)
}
