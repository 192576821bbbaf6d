//! The kinds of columns, as they are written or by the fields below.
ghost use Rattle.std.specs.Prelude.{◌≡◌, ◌∷◌, [], ◌&&◌, is_none, map, unwrap_or, zip, IfOk};
ghost use Rattle.std.specs.List.{list_any};
ghost use Rattle.au_blocks.specs.Entries.{entries_of};
ghost use Rattle.au_blocks.specs.Inferring.{holds_numeral as holds_numeral_of, inferred, is_alternative as is_alternative_of, inferred_kinds};
ghost use Rattle.au_blocks.specs.Marks.{marks as marks_of};

use crate::fields::cell_text;
use crate::format::Format;
use crate::row_faults::role;
use crate::spellings::is_numeral;
use au_csv::Rec;
use au_value::{Kind, NoMemory};
use std::alloc::Global;

// The kinds of columns with these written kinds, over the records below the header. Each record is read once.
pub(crate) fn kinds(
    alloc: Global,
    format: Format,
    written: &[Option<Kind>],
    rows: &[Rec<'_>],
) -> Result<Vec<Kind>, NoMemory>
    ensures { IfOk result (λ kinds. kinds.items ≡ inferred_kinds (entries_of format rows.now) written.now) }
{
    let unwritten = unwritten_columns(alloc, written, any_alternative(format, rows))?;
    let numerals = numerals(format, rows, unwritten);
    column_kinds(alloc, written, numerals)
}

// Which columns may have numerals alone: where there is an alternative, those without a written kind.
pub(crate) fn unwritten_columns(
    alloc: Global,
    written: &[Option<Kind>],
    any: bool,
) -> Result<Vec<bool>, NoMemory>
    ensures { IfOk result (λ marks. marks.items ≡ map (λ w. is_none w && any) written.now) }
{
    let marks = written.iter().map(|kind| kind.is_none() && any);
    Ok(marks.collect(alloc)?)
}

// Of the marked columns those in which each alternative has a numeral.
fn numerals(format: Format, rows: &[Rec<'_>], marks: Vec<bool>) -> Vec<bool>
    ensures { result.items ≡ marks_of format rows.now 0 marks.items }
{
    let mut marks = marks;
    for record in rows {
        narrow(format, record, &mut marks);
    }
    marks
}

// The same of one record.
pub(crate) fn narrow(format: Format, record: &Rec<'_>, marks: &mut [bool])
    ensures { marks.new ≡ marks_of format («record».now ∷ []) 0 marks.old }
{
    for place in 0..marks.len() {
        let stays = marks[place] && holds_numeral(format, place, record);
        marks[place] = stays;
    }
}

// The kinds of columns with these written kinds, of which these have numerals alone.
pub(crate) fn column_kinds(
    alloc: Global,
    written: &[Option<Kind>],
    numerals: Vec<bool>,
) -> Result<Vec<Kind>, NoMemory>
    ensures { IfOk result (λ kinds. kinds.items ≡ map (λ c. unwrap_or c.0 (inferred c.1)) (zip written.now numerals.items)) }
{
    let kinds = written
        .iter()
        .zip(numerals)
        .map(|(kind, numerals)| column_kind(*kind, numerals));
    Ok(kinds.collect(alloc)?)
}

// The kind of a column: the written one, or else whole numbers where its fields are numerals, and texts elsewhere.
fn column_kind(written: Option<Kind>, numerals: bool) -> Kind
    ensures { result ≡ unwrap_or written (inferred numerals) }
{
    match written {
        Some(kind) => kind,
        None => inferred_kind(numerals),
    }
}

fn inferred_kind(numerals: bool) -> Kind
    ensures { result ≡ inferred numerals }
{
    if numerals { Kind::Int } else { Kind::Text }
}

fn any_alternative(format: Format, rows: &[Rec<'_>]) -> bool
    ensures { result ≡ list_any (is_alternative_of format) rows.now }
{
    rows.iter().any(|record| is_alternative(format, record))
}

// Whether a record is an alternative.
pub(crate) fn is_alternative(format: Format, record: &Rec<'_>) -> bool
    ensures { result ≡ is_alternative_of format «record».now }
{
    match role(format, record) {
        Some(role) => !role.is_absent(),
        None => false,
    }
}

// Whether a record is no alternative, or has a numeral at this place.
fn holds_numeral(format: Format, place: usize, record: &Rec<'_>) -> bool
    ensures { result ≡ holds_numeral_of format place «record».now }
{
    if !is_alternative(format, record) {
        return true;
    }
    is_numeral(cell_text(format, record, place))
}
