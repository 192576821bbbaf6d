//! Runs over a shelf and over sinks that fail, at each call and behind each byte.
use crate::runs::{cut_run, judge_put, judge_read};
use std::alloc::Global;
use std::process::Abort;
use std::test::Fail;
use std::thread::Threads;

const RUN: &str = "answer|SELECT * FROM orders|orders=orders.csv";

// What the run puts where nothing fails, and the line for a put that failed.
const TEXT: &str =
    "row_lo,row,row_hi,id_lo,id,id_hi,city_lo,city,city_hi,amount_lo,amount,amount_hi~1,1,1,1,1,1,Bergen,Oslo,Oslo,10,10,12~1,1,1,2,2,2,Bergen,Bergen,Bergen,5,5,5~0,1,1,3,3,3,Oslo,Oslo,Oslo,7,7,7~";

const NOT_PUT: &str = "audb: the answer cannot be written~";

// The calls on the shelf are a start and two reads for each file, of which the second finds its end.
const UNREAD: &str =
    "answer|SELECT * FROM orders|orders=orders.csv -> 5 ReadFault(0) ! audb: file 0 cannot be read~";

const SECOND_UNREAD: &str =
    "answer|SELECT * FROM orders|orders=orders.csv|r=rates.csv -> 5 ReadFault(1) ! audb: file 1 cannot be read~";

// Refusals, and how each is told where its line can't be put whole.
const UNTOLD: &str = "answer|SELECT 'a|t=no.csv -> 1 Query(OpenText(7)) ! 
answer|SELECT * FROM t|t -> 2 Usage(BadTable(0)) ! 
answer|SELECT * FROM t|t=short.csv -> 3 Table(0, WrongWidth(1)) ! 
answer|SELECT SUM(x) FROM t|t=sums.csv -> 4 Overflow ! 
answer|SELECT 1 FROM a,b,c,d,e,f,g,h,i|t=no.csv -> 8 Limit(FromItems(30)) ! 
answer|SELECT * FROM t|t=no.csv -> 9 NoFile(0) ! ";

// The first bytes of a text.
fn front<'a>(text: &'a str, taken: usize) -> Result<&'a str, Fail> {
    let bytes = text.as_bytes();
    Ok(str::from_utf8(bytes.get(..taken).unwrap_or(bytes))?)
}

// A run whose puts take so many bytes of the answer and of the line, and fail.
fn judge_cut<R: Abort + Threads + Sync>(
    rt: &R,
    alloc: Global,
    taken: usize,
    taken_of_line: usize,
) -> Result<(), Fail> {
    let put = front(TEXT, taken)?;
    let told = front(NOT_PUT, taken_of_line)?;
    let wanted = format!(in alloc; "6 WriteFault {put}! {told}")?;
    let found = cut_run(rt, alloc, RUN, taken, taken_of_line)?;
    assert_eq!(rt;
        found.as_str(),
        wanted.as_str(),
        "{taken} and {taken_of_line} bytes are put"
    );
    Ok(())
}

#[test]
fn each_call_of_the_shelf_fails(rt: HostRuntime) -> Result<(), Fail> {
    for call in 0..3 {
        judge_read(&rt, rt.alloc(), call, UNREAD)?;
    }
    for call in 3..6 {
        judge_read(&rt, rt.alloc(), call, SECOND_UNREAD)?;
    }
    let alloc = rt.alloc();
    let done = format!(in alloc; "{RUN} -> 0 Done {TEXT}! ")?;
    judge_read(&rt, rt.alloc(), 3, done.as_str())
}

#[test]
fn each_put_of_the_answer_fails(rt: HostRuntime) -> Result<(), Fail> {
    let alloc = rt.alloc();
    for taken in 0..TEXT.len() + 1 {
        let put = front(TEXT, taken)?;
        let case = format!(in alloc; "{RUN} -> 6 WriteFault {put}! {NOT_PUT}")?;
        judge_put(&rt, alloc, taken, case.as_str())?;
        judge_cut(&rt, alloc, taken, taken % 40)?;
    }
    Ok(())
}

#[test]
fn each_put_of_a_line_fails(rt: HostRuntime) -> Result<(), Fail> {
    let alloc = rt.alloc();
    for case in UNTOLD.lines() {
        let (line, wanted) = case.split_once(" -> ").expect(&rt, "an arrow");
        let found = cut_run(&rt, alloc, line, 0, 0)?;
        assert_eq!(rt; found.as_str(), wanted, "{line}");
    }
    Ok(())
}
