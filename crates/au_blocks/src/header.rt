//! The header of a table file.
ghost use Rattle.std.specs.Prelude.{◌≡◌, option_map, IfOk};
ghost use Rattle.au_blocks.specs.Headers.{cells_of, column_name as column_name_of, column_names as column_names_of, cut as cut_of, is_unknown as is_unknown_of, kind_named as kind_named_of, scale_named as scale_named_of, written_kind as written_kind_of, written_kinds as written_kinds_of, written_name as written_name_of};

use crate::format::Format;
use au_value::{Kind, NoMemory, Word};
use std::alloc::Global;

// The fields of a record that are columns' names or cells.
pub(crate) fn cells(format: Format, fields: &[Word]) -> &[Word]
    ensures { result.now ≡ cells_of format fields.now }
{
    let lead = format.lead().min(fields.len());
    &fields[lead..]
}

// What stands before and behind the last colon of a field.
fn cut(field: &str) -> Option<(&str, &str)>
    ensures { option_map (λ p. (p.0.now, p.1.now)) result ≡ cut_of field.now }
{
    field.rsplit_once(':')
}

// The kind that a word names.
fn kind_named(word: &str) -> Option<Kind>
    ensures { result ≡ kind_named_of word.now }
{
    if word == "int" {
        Some(Kind::Int)
    } else if word == "text" {
        Some(Kind::Text)
    } else if word == "flag" {
        Some(Kind::Flag)
    } else {
        match scale_named(word) {
            Some(scale) => Some(Kind::Dec(scale)),
            None => None,
        }
    }
}

// The scale of the fixed-point kind that a word names.
fn scale_named(word: &str) -> Option<u32>
    ensures { result ≡ scale_named_of word.now }
{
    if word == "dec1" {
        Some(1)
    } else if word == "dec2" {
        Some(2)
    } else if word == "dec3" {
        Some(3)
    } else if word == "dec4" {
        Some(4)
    } else if word == "dec5" {
        Some(5)
    } else if word == "dec6" {
        Some(6)
    } else if word == "dec7" {
        Some(7)
    } else if word == "dec8" {
        Some(8)
    } else if word == "dec9" {
        Some(9)
    } else {
        None
    }
}

// The kind that is written in a header field.
pub(crate) fn written_kind(field: &str) -> Option<Kind>
    ensures { result ≡ written_kind_of field.now }
{
    let (_, word) = cut(field)?;
    kind_named(word)
}

// The name that is written in a header field.
pub(crate) fn written_name(format: Format, field: &str) -> &str
    ensures { result.now ≡ written_name_of format field.now }
{
    match cut(field) {
        Some((name, word)) => {
            if format.has_blocks() || kind_named(word).is_some() {
                name
            } else {
                field
            }
        }
        None => field,
    }
}

// Whether a colon stands in the field of a block table, and no kind behind the last one.
pub(crate) fn is_unknown(format: Format, field: &str) -> bool
    ensures { result ≡ is_unknown_of format field.now }
{
    format.has_blocks() && cut(field).is_some() && written_kind(field).is_none()
}

// The name of the column at a place, counted from 0.
fn column_name(alloc: Global, format: Format, place: usize, field: &str) -> Result<Word, NoMemory>
    ensures { IfOk result (λ name. name ≡ column_name_of format (place, field.now)) }
{
    let name = written_name(format, field);
    if !name.is_empty() {
        return Word::of(alloc, name);
    }
    let number = place as u128 + 1;
    Ok(Word::new(format!(in alloc; "col{number}")?))
}

// The names of the columns of these header fields.
pub(crate) fn column_names(
    alloc: Global,
    format: Format,
    fields: &[Word],
) -> Result<Vec<Word>, NoMemory>
    ensures { IfOk result (λ names. names.items ≡ column_names_of format fields.now) }
{
    let mut names = Vec::new(alloc);
    for (place, field) in fields.iter().enumerate() {
        names.push(column_name(alloc, format, place, field.as_str())?)?;
    }
    Ok(names)
}

// The kinds that are written in these header fields.
pub(crate) fn written_kinds(alloc: Global, fields: &[Word]) -> Result<Vec<Option<Kind>>, NoMemory>
    ensures { IfOk result (λ kinds. kinds.items ≡ written_kinds_of fields.now) }
{
    let kinds = fields.iter().map(|field| written_kind(field.as_str()));
    Ok(kinds.collect(alloc)?)
}
