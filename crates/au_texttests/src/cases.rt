//! Cases as lines of a text.
use au_value::{Value, Word, read_numeral};
use std::alloc::{AllocError, Global};
use std::process::Abort;
use std::test::Fail;

/// A call, with its result as a text.
pub(crate) trait Call {
    fn outcome(alloc: Global, given: &str) -> Result<String, Fail>;
}

/// Whether the call gives for each line `GIVEN -> WANTED` what is wanted, where `~` is an LF of the result, and `«33 (»` is so
/// often the piece.
pub(crate) fn judge<C: Call>(rt: &impl Abort, alloc: Global, cases: &str) -> Result<(), Fail> {
    for line in cases.lines() {
        let (given, wanted) = line.split_once(" -> ").expect(rt, "an arrow");
        let outcome = C::outcome(alloc, given)?;
        let found = outcome.replace(alloc, '\n', "~")?;
        let wanted = unfolded(alloc, wanted)?;
        assert_eq!(rt; found.as_str(), wanted.as_str(), "{given}");
    }
    Ok(())
}

// The text that `33 (` stands for.
fn repeated(alloc: Global, text: &str) -> Result<String, Fail> {
    let (count, piece) = text.split_once(' ').ok_or("a count")?;
    let count = count.parse::<usize>().ok().ok_or("a number")?;
    Ok(piece.repeat(alloc, count)?)
}

/// A text in which `«33 (»` is so often the piece.
pub(crate) fn unfolded(alloc: Global, text: &str) -> Result<String, Fail> {
    let mut whole = String::new(alloc);
    for part in text.split('«') {
        let rest = match part.split_once('»') {
            Some((inner, rest)) => {
                whole.push_str(repeated(alloc, inner)?.as_str())?;
                rest
            }
            None => part,
        };
        whole.push_str(rest)?;
    }
    Ok(whole)
}

/// The bytes of a text, with `~` for LF, `^` for CR, and `#` for a byte that begins no character.
pub(crate) fn file_bytes(alloc: Global, text: &str) -> Result<Vec<u8>, Fail> {
    let whole = unfolded(alloc, text)?;
    let mut bytes = Vec::new(alloc);
    for byte in whole.bytes() {
        bytes.push(match byte {
            b'~' => b'\n',
            b'^' => b'\r',
            b'#' => 0xFF,
            _ => byte,
        })?;
    }
    Ok(bytes)
}

/// The value of a text: a number, a flag, or else the text.
pub(crate) fn value(alloc: Global, text: &str) -> Result<Value, AllocError> {
    match (read_numeral(text.as_bytes()), text) {
        (Some(n), _) => Ok(Value::Int(n)),
        (None, "true") => Ok(Value::Flag(true)),
        (None, "false") => Ok(Value::Flag(false)),
        (None, _) => Ok(Value::Text(Word::new(String::from_str(alloc, text)?))),
    }
}

/// Puts the text of a value behind a text.
pub(crate) fn push_value(
    alloc: Global,
    text: &mut String,
    value: &Value,
) -> Result<(), AllocError> {
    match value {
        Value::Int(n) => text.push_str(format!(in alloc; "{n}")?.as_str()),
        Value::Text(word) => text.push_str(word.as_str()),
        Value::Flag(flag) => text.push_str(if *flag { "true" } else { "false" }),
    }
}
