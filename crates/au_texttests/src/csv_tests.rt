//! Texts and their records.
use crate::cases::{Call, file_bytes, judge};
use au_csv::{CsvFault, Rec, RecordReader, Records, records};
use std::alloc::{AllocError, Global};
use std::process::Abort;
use std::test::Fail;

// A bar, and the fields in brackets.
fn push_record(text: &mut String, record: &Rec<'_>) -> Result<(), AllocError> {
    text.push_str("|")?;
    for place in 0..record.len() {
        text.push_str("[")?;
        text.push_str(record.get(place).unwrap_or("none"))?;
        text.push_str("]")?;
    }
    Ok(())
}

fn records_text(alloc: Global, records: &Records) -> Result<String, AllocError> {
    let Ok(rows) = records.rows(alloc) else {
        return Err(AllocError);
    };
    let mut text = String::new(alloc);
    for record in &rows {
        push_record(&mut text, record)?;
    }
    Ok(text)
}

fn outcome_text(alloc: Global, outcome: &Result<Records, CsvFault>) -> Result<String, AllocError> {
    match outcome {
        Ok(records) => records_text(alloc, records),
        Err(fault) => format!(in alloc; "{fault:?}"),
    }
}

struct RecordsOf;

impl Call for RecordsOf {
    fn outcome(alloc: Global, given: &str) -> Result<String, Fail> {
        let bytes = file_bytes(alloc, given)?;
        Ok(outcome_text(alloc, &records(alloc, bytes.as_slice()))?)
    }
}

const RECORDS: &str = " -> 
a,b~1,2~ -> |[a][b]|[1][2]
a,b^~1,2 -> |[a][b]|[1][2]
~^~a~~ -> |[a]
\u{FEFF}a~ -> |[a]
\u{FEFF}\u{FEFF}a~ -> |[\u{FEFF}a]
a,b~1~1,2,3~ -> |[a][b]|[1]|[1][2][3]
\"a,b\",\"c~d\",\"e\"\"f\"~ -> |[a,b][c~d][e\"f]
 a , b ~ -> |[ a ][ b ]
a,~,~ -> |[a][]|[][]
a~1,#~#~ -> NotText(1)
a,# -> NotText(0)";

#[test]
fn records_of_texts(rt: HostRuntime) -> Result<(), Fail> {
    judge::<RecordsOf>(&rt, rt.alloc(), RECORDS)
}

// The records that a reader gives one after the other, of which it keeps the last alone.
fn read_text(alloc: Global, bytes: &[u8]) -> Result<String, AllocError> {
    let mut reader = RecordReader::new(alloc, bytes);
    let mut text = String::new(alloc);
    let turns = bytes.len() as u128 + 2;
    for _ in 0..turns {
        match reader.read() {
            Ok(true) => push_record(&mut text, &reader.record())?,
            Ok(false) => return Ok(text),
            Err(fault) => return format!(in alloc; "{fault:?}"),
        }
    }
    String::from_str(alloc, "no end")
}

struct RecordsInTurn;

impl Call for RecordsInTurn {
    fn outcome(alloc: Global, given: &str) -> Result<String, Fail> {
        let bytes = file_bytes(alloc, given)?;
        Ok(read_text(alloc, bytes.as_slice())?)
    }
}

#[test]
fn records_in_turn(rt: HostRuntime) -> Result<(), Fail> {
    judge::<RecordsInTurn>(&rt, rt.alloc(), RECORDS)
}

// Whether the records of a long text are the same at once and in turn, and end so.
fn judge_long(rt: &impl Abort, alloc: Global, given: &str, end: &str) -> Result<(), Fail> {
    let bytes = file_bytes(alloc, given)?;
    let kept = outcome_text(alloc, &records(alloc, bytes.as_slice()))?;
    let in_turn = read_text(alloc, bytes.as_slice())?;
    assert!(rt; kept.as_str() == in_turn.as_str(), "{given}");
    assert!(rt; kept.ends_with(end), "{given}");
    Ok(())
}

const LONG: &str = "«150000 1,b~»x,y~ -> |[1][b]|[x][y]
«70000 1,b~»\"x,y\"~ -> |[1][b]|[x,y]
«70000 1,b~»1,#~ -> NotText(70000)
\u{FEFF}«60000 1,b~~»x -> |[1][b]|[x]
«50000 \u{FEFF}1~»x -> |[\u{FEFF}1]|[x]
«70000 1,b^»x -> |[1][b]|[x]
«60000 1,b^~»x,^~ -> |[1][b]|[x][]";

#[test]
fn records_of_long_texts(rt: HostRuntime) -> Result<(), Fail> {
    for line in LONG.lines() {
        let (given, end) = line.split_once(" -> ").expect(&rt, "an arrow");
        judge_long(&rt, rt.alloc(), given, end)?;
    }
    Ok(())
}
