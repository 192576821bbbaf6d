//! Normal forms, sums of triples, and encoded rows.
ghost use Rattle.std.specs.Prelude.{replicate};
ghost use Rattle.au_value.specs.declared.kinds.Kind.{Kind};
ghost use Rattle.au_algebra.specs.Laws.{IsRelation};

use crate::cases::{Call, judge};
use crate::relations::relation;
use crate::row_texts::{outcome_text, push_values, relation_text};
use au_algebra::{Rel, normal};
use au_annot::Triple;
use au_encode::{decode, decode_rows, encode};
use au_plain::PRow;
use au_print::demo_text;
use au_value::{NoMemory, Range};
use std::alloc::{AllocError, Global};
use std::process::Abort;
use std::test::Fail;
use std::thread::Threads;

struct Normal;

impl Call for Normal {
    fn outcome(
        rt: &(impl Abort + Threads + Sync),
        alloc: Global,
        given: &str,
    ) -> Result<String, Fail> {
        let rel = relation(rt, alloc, 1, given)?;
        outcome_text(alloc, &normal(alloc, rel))
    }
}

// The four lines of a demonstration.
struct Lines;

impl Call for Lines {
    fn outcome(
        rt: &(impl Abort + Threads + Sync),
        alloc: Global,
        given: &str,
    ) -> Result<String, Fail> {
        let rel = relation(rt, alloc, 1, given)?;
        match demo_text(alloc, &rel) {
            Ok(lines) => {
                let text = str::from_utf8(lines.as_slice())?;
                Ok(text.replace(alloc, '\n', ";")?)
            }
            Err(fault) => Ok(format!(in alloc; "{fault:?}")?),
        }
    }
}

fn rows_text(alloc: Global, rows: &[PRow]) -> Result<String, AllocError> {
    let mut text = String::new(alloc);
    for row in rows {
        push_values(alloc, &mut text, row.as_slice())?;
        text.push_str("; ")?;
    }
    Ok(text)
}

// A relation of two columns, encoded and decoded.
fn again(alloc: Global, of: &Rel<Range, Triple>) -> Result<Rel<Range, Triple>, NoMemory>
    requires { IsRelation (replicate 2 Kind.Int) of.now }
{
    let rows = encode(alloc, of)?;
    decode(alloc, rows, 2)
}

// The same by several threads, which copy the values.
fn again_by_threads<R: Threads + Sync>(
    rt: &R,
    alloc: Global,
    of: &Rel<Range, Triple>,
) -> Result<Rel<Range, Triple>, NoMemory>
    requires { IsRelation (replicate 2 Kind.Int) of.now }
{
    let rows = encode(alloc, of)?;
    decode_rows(rt, alloc, rows.as_slice(), 2)
}

struct Encoded;

impl Call for Encoded {
    fn outcome(
        rt: &(impl Abort + Threads + Sync),
        alloc: Global,
        given: &str,
    ) -> Result<String, Fail> {
        let rel = relation(rt, alloc, 2, given)?;
        let rows = rows_text(alloc, encode(alloc, &rel)?.as_slice())?;
        let back = relation_text(alloc, &again(alloc, &rel)?)?;
        Ok(format!(in alloc; "{}| {}", rows.as_str(), back.as_str())?)
    }
}

// Equal rows are one, and rows stand by guesses, then lower ends, then upper ends.
const NORMAL: &str = " -> 
1/2/2 1/1/1; 1 1/1/1; 2 0/1/1; 2 1/1/1; 1 1/1/1 -> 1 2/2/2; 1/2/2 1/1/1; 2 1/2/2; 
1/5/9 0/0/1; 2/4/9 0/1/1; 1/5/7 1/1/1 -> 2/4/9 0/1/1; 1/5/7 1/1/1; 1/5/9 0/0/1; 
1 0/0/170141183460469231731687303715884105727; 1 0/0/1 -> Overflow
1 0/0/170141183460469231731687303715884105726; 1 0/0/1 -> 1 0/0/170141183460469231731687303715884105727; 
1 0/0/170141183460469231731687303715884105727; 1/1/2 0/0/1 -> 1 0/0/170141183460469231731687303715884105727; 1/1/2 0/0/1; ";

// Few rows are held as they came, and equal ones of many rows are one.
const LINES: &str = " -> rows 0;least 0;guess 0;most 0;
1 0/1/2; 2 1/1/1 -> rows 2;least 1;guess 2;most 3;
1 0/0/170141183460469231731687303715884105727; 2 0/0/1 -> Overflow";

const ENCODED: &str = " -> | 
1/2/9 3 0/1/2; -4 5 1/1/1 -> 1 2 9 3 3 3 0 1 2 ; -4 -4 -4 5 5 5 1 1 1 ; | 1/2/9 3 0/1/2; -4 5 1/1/1; ";

#[test]
fn normal_forms(rt: HostRuntime) -> Result<(), Fail> {
    judge::<Normal>(&rt, rt.alloc(), NORMAL)
}

#[test]
fn lines_of_demonstrations(rt: HostRuntime) -> Result<(), Fail> {
    judge::<Lines>(&rt, rt.alloc(), LINES)
}

#[test]
fn encoded_rows(rt: HostRuntime) -> Result<(), Fail> {
    judge::<Encoded>(&rt, rt.alloc(), ENCODED)
}

// Rows enough for several threads stand in their order, and so do few and none.
#[test]
fn rows_decoded_by_threads(rt: HostRuntime) -> Result<(), Fail> {
    let alloc = rt.alloc();
    for count in [0, 1, 2_000] {
        let given = "1/2/9 3 0/1/2; -4 5 1/1/1; ".repeat(alloc, count)?;
        let rel = relation(&rt, alloc, 2, given.as_str())?;
        let back = again_by_threads(&rt, alloc, &rel)?;
        assert_eq!(rt;
            relation_text(alloc, &back)?.as_str(),
            given.as_str(),
            "{count} times two rows"
        );
    }
    Ok(())
}
