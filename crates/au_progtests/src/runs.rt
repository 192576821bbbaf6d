//! Whole runs, over files and sinks in memory.
use crate::files::shelf_for;
use au_cli::{Outcome, run};
use au_io::{MemShelf, MemSink};
use au_par::{Gate, NoGate};
use au_value::Word;
use std::alloc::{AllocError, Global};
use std::process::Abort;
use std::test::Fail;
use std::thread::Threads;

// The words of a line.
fn words_of(alloc: Global, line: &str) -> Result<Vec<Word>, AllocError> {
    let mut words = Vec::new(alloc);
    for word in line.split('|') {
        words.push(Word::new(word.replace(alloc, '~', "\n")?))?;
    }
    Ok(words)
}

// The status, the outcome, and what was put.
fn ending(alloc: Global, outcome: Outcome, out: &MemSink, err: &MemSink) -> Result<String, Fail> {
    let code = outcome.code();
    let put = str::from_utf8(out.bytes())?;
    let line = str::from_utf8(err.bytes())?;
    let text = format!(in alloc; "{code} {outcome:?} {put}! {line}")?;
    Ok(text.replace(alloc, '\n', "~")?)
}

// A run over a shelf, whose puts on `out` and `err` fail as listed.
fn ran<R: Threads + Sync>(
    rt: &R,
    alloc: Global,
    line: &str,
    mut shelf: MemShelf,
    failing: Vec<(u64, usize)>,
    failing_lines: Vec<(u64, usize)>,
) -> Result<String, Fail> {
    let words = words_of(alloc, line)?;
    let mut out = MemSink::new(alloc, failing);
    let mut err = MemSink::new(alloc, failing_lines);
    let outcome = run(
        rt,
        alloc,
        words.as_slice(),
        &mut shelf,
        &mut out,
        &mut err,
        NoGate,
    );
    ending(alloc, outcome, &out, &err)
}

/// Whether each run ends and puts as its line says.
pub(crate) fn judge<R: Abort + Threads + Sync>(
    rt: &R,
    alloc: Global,
    cases: &str,
) -> Result<(), Fail> {
    for case in cases.lines() {
        let (line, wanted) = case.split_once(" -> ").expect(rt, "an arrow");
        let shelf = shelf_for(alloc, line, Vec::new(alloc))?;
        let found = ran(rt, alloc, line, shelf, Vec::new(alloc), Vec::new(alloc))?;
        assert_eq!(rt; found.as_str(), wanted, "{line}");
    }
    Ok(())
}

/// Whether a run ends and puts as its line says, where the call of this number on the shelf fails.
pub(crate) fn judge_read<R: Abort + Threads + Sync>(
    rt: &R,
    alloc: Global,
    call: u64,
    case: &str,
) -> Result<(), Fail> {
    let (line, wanted) = case.split_once(" -> ").expect(rt, "an arrow");
    let mut failing = Vec::new(alloc);
    failing.push(call)?;
    let shelf = shelf_for(alloc, line, failing)?;
    let found = ran(rt, alloc, line, shelf, Vec::new(alloc), Vec::new(alloc))?;
    assert_eq!(rt; found.as_str(), wanted, "call {call} fails");
    Ok(())
}

/// Whether a run ends and puts as its line says, where its first put takes so many bytes and fails.
pub(crate) fn judge_put<R: Abort + Threads + Sync>(
    rt: &R,
    alloc: Global,
    taken: usize,
    case: &str,
) -> Result<(), Fail> {
    let (line, wanted) = case.split_once(" -> ").expect(rt, "an arrow");
    let mut failing = Vec::new(alloc);
    failing.push((0, taken))?;
    let shelf = shelf_for(alloc, line, Vec::new(alloc))?;
    let found = ran(rt, alloc, line, shelf, failing, Vec::new(alloc))?;
    assert_eq!(rt; found.as_str(), wanted, "{taken} bytes are put");
    Ok(())
}

/// How a run ends and what it puts, where its first puts on `out` and on `err` take so many bytes and fail.
pub(crate) fn cut_run<R: Threads + Sync>(
    rt: &R,
    alloc: Global,
    line: &str,
    taken: usize,
    taken_of_line: usize,
) -> Result<String, Fail> {
    let shelf = shelf_for(alloc, line, Vec::new(alloc))?;
    let mut failing = Vec::new(alloc);
    failing.push((0, taken))?;
    let mut failing_lines = Vec::new(alloc);
    failing_lines.push((0, taken_of_line))?;
    ran(rt, alloc, line, shelf, failing, failing_lines)
}

/// How a run ends and what it puts, whose pieces of work are told to a gate.
pub(crate) fn watched<R: Threads + Sync, G: Gate + Sync>(
    rt: &R,
    alloc: Global,
    line: &str,
    gate: G,
) -> Result<String, Fail> {
    let mut shelf = shelf_for(alloc, line, Vec::new(alloc))?;
    let words = words_of(alloc, line)?;
    let mut out = MemSink::new(alloc, Vec::new(alloc));
    let mut err = MemSink::new(alloc, Vec::new(alloc));
    let words = words.as_slice();
    let outcome = run(rt, alloc, words, &mut shelf, &mut out, &mut err, gate);
    ending(alloc, outcome, &out, &err)
}

/// How a run ends and what it puts.
pub(crate) fn answer_of<R: Threads + Sync>(
    rt: &R,
    alloc: Global,
    line: &str,
) -> Result<String, Fail> {
    watched(rt, alloc, line, NoGate)
}

// What a run puts on `out`, as bytes.
fn put_by<R: Threads + Sync>(
    rt: &R,
    alloc: Global,
    line: &str,
    mut shelf: MemShelf,
) -> Result<Vec<u8>, Fail> {
    let words = words_of(alloc, line)?;
    let mut out = MemSink::new(alloc, Vec::new(alloc));
    let mut err = MemSink::new(alloc, Vec::new(alloc));
    let words = words.as_slice();
    let _ = run(rt, alloc, words, &mut shelf, &mut out, &mut err, NoGate);
    Ok(out.bytes().to_vec(alloc)?)
}

// The words of tables that stand under their files' names without the ending, apart by `|`.
fn table_words(alloc: Global, names: &str) -> Result<String, Fail> {
    let mut words = String::new(alloc);
    for file in names.split('|') {
        let name = file.strip_suffix(".csv").unwrap_or(file);
        words.push_str(format!(in alloc; "|{name}={file}")?.as_str())?;
    }
    Ok(words)
}

/// How the plan of a query over tables ends that is run over these tables encoded, and what it puts. The tables' files
/// stand apart by `|`.
pub(crate) fn turned<R: Threads + Sync>(
    rt: &R,
    alloc: Global,
    query: &str,
    names: &str,
) -> Result<String, Fail> {
    let tables = table_words(alloc, names)?;
    let mut files = Vec::new(alloc);
    for file in names.split('|') {
        let line = format!(in alloc; "encode|t={file}")?;
        let shelf = shelf_for(alloc, line.as_str(), Vec::new(alloc))?;
        let encoded = put_by(rt, alloc, line.as_str(), shelf)?;
        files.push((Word::new(String::from_str(alloc, file)?), encoded))?;
    }
    let line = format!(in alloc; "rewrite|{query}{tables}")?;
    let shelf = shelf_for(alloc, line.as_str(), Vec::new(alloc))?;
    let plan = put_by(rt, alloc, line.as_str(), shelf)?;
    files.push((Word::new(String::from_str(alloc, "plan.sql")?), plan))?;
    let shelf = MemShelf::new(alloc, files, Vec::new(alloc));
    let line = format!(in alloc; "plain|plan.sql{tables}")?;
    ran(
        rt,
        alloc,
        line.as_str(),
        shelf,
        Vec::new(alloc),
        Vec::new(alloc),
    )
}
