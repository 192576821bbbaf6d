//! The texts of rows.
use au_algebra::Rel;
use au_annot::Triple;
use au_expr::EvalFault;
use au_value::{Range, Value};
use std::alloc::{AllocError, Global};
use std::test::Fail;

/// Puts the text of a value behind a text.
pub(crate) fn push_value(
    alloc: Global,
    text: &mut String,
    value: &Value,
) -> Result<(), AllocError> {
    match value {
        Value::Int(n) => text.push_str(format!(in alloc; "{n}")?.as_str()),
        Value::Text(word) => text.push_str(word.as_str()),
        Value::Flag(flag) => text.push_str(if *flag { "true" } else { "false" }),
    }
}

/// Puts the texts of values behind a text, each with a space behind it.
pub(crate) fn push_values(
    alloc: Global,
    text: &mut String,
    values: &[Value],
) -> Result<(), AllocError> {
    for value in values {
        push_value(alloc, text, value)?;
        text.push_str(" ")?;
    }
    Ok(())
}

fn push_range(alloc: Global, text: &mut String, range: &Range) -> Result<(), AllocError> {
    if !range.is_certain() {
        push_value(alloc, text, range.lo())?;
        text.push_str("/")?;
        push_value(alloc, text, range.sg())?;
        text.push_str("/")?;
    }
    push_value(alloc, text, range.hi())?;
    text.push_str(" ")
}

fn push_ranges(alloc: Global, text: &mut String, ranges: &[Range]) -> Result<(), AllocError> {
    for range in ranges {
        push_range(alloc, text, range)?;
    }
    Ok(())
}

fn triple_text(alloc: Global, triple: Triple) -> Result<String, AllocError> {
    let least = triple.least().get();
    let guess = triple.guess().get();
    let most = triple.most().get();
    format!(in alloc; "{least}/{guess}/{most}; ")
}

/// The rows of a relation, each with `;` behind it.
pub(crate) fn relation_text(alloc: Global, rel: &Rel<Range, Triple>) -> Result<String, AllocError> {
    let mut text = String::new(alloc);
    for (cells, triple) in rel.rows() {
        push_ranges(alloc, &mut text, cells.as_slice())?;
        text.push_str(triple_text(alloc, *triple)?.as_str())?;
    }
    Ok(text)
}

/// The rows, or the fault.
pub(crate) fn outcome_text(
    alloc: Global,
    rows: &Result<Rel<Range, Triple>, EvalFault>,
) -> Result<String, Fail> {
    match rows {
        Ok(rel) => Ok(relation_text(alloc, rel)?),
        Err(fault) => Ok(format!(in alloc; "{fault:?}")?),
    }
}
