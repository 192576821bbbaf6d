//! The cells of a column, read from the records that are alternatives.
ghost use Rattle.std.specs.Prelude.{◌≡◌, Some, map, true, unwrap_or, IfOk, IfSome};
ghost use Rattle.au_blocks.specs.Columns.{column_cells, column_texts};
ghost use Rattle.au_blocks.specs.Read.{cell as cell_of};
ghost use Rattle.au_blocks.specs.Spellings.{flag_written as flag_written_of, is_number_kind, number_written as number_written_of};
ghost use Rattle.au_value.specs.declared.value.Value.TheVariants as value;
ghost use Rattle.au_value.specs.Ranges.{certain};

use crate::cell::Cell;
use crate::cells::Cells;
use crate::fields::cell_text;
use crate::format::Format;
use crate::spellings::{flag_written, number_written, short_number};
use crate::values::cell;
use au_csv::Rec;
use au_value::{Kind, NoMemory, Word};
use std::alloc::Global;

// The cells of the column at a place, which has this kind.
pub(crate) fn filled(
    alloc: Global,
    format: Format,
    kind: Kind,
    place: usize,
    records: &[&Rec<'_>],
) -> Result<Cells, NoMemory>
    ensures { IfOk result (λ c. c ≡ column_cells format kind place records.now) }
{
    match kind {
        Kind::Text => Ok(Cells::texts(texts(alloc, format, place, records)?)),
        Kind::Flag => flag_cells(alloc, format, place, records),
        Kind::Int | Kind::Dec(_) => number_cells(alloc, format, kind, place, records),
    }
}

// Those of a column of flags.
fn flag_cells(
    alloc: Global,
    format: Format,
    place: usize,
    records: &[&Rec<'_>],
) -> Result<Cells, NoMemory>
    ensures { IfOk result (λ c. c ≡ column_cells format Kind.Flag place records.now) }
{
    match flags(alloc, format, place, records)? {
        Some(flags) => Ok(Cells::flags(flags)),
        None => Ok(Cells::mixed(mixed(alloc, format, Kind::Flag, place, records)?)),
    }
}

// Those of a column of numbers: in 64 bits where all fit, else in 128, and else, where one is no number, as they come.
fn number_cells(
    alloc: Global,
    format: Format,
    kind: Kind,
    place: usize,
    records: &[&Rec<'_>],
) -> Result<Cells, NoMemory>
    requires { is_number_kind kind ≡ true }
    ensures { IfOk result (λ c. c ≡ column_cells format kind place records.now) }
{
    if let Some(numbers) = narrow(alloc, format, kind, place, records)? {
        return Ok(Cells::narrow(numbers));
    }
    match wide(alloc, format, kind, place, records)? {
        Some(numbers) => Ok(Cells::wide(numbers)),
        None => Ok(Cells::mixed(mixed(alloc, format, kind, place, records)?)),
    }
}

// The texts of a column.
fn texts(
    alloc: Global,
    format: Format,
    place: usize,
    records: &[&Rec<'_>],
) -> Result<Vec<Word>, NoMemory>
    ensures { IfOk result (λ v. v.items ≡ column_texts format place records.now) }
{
    let mut texts = Vec::with_capacity(alloc, records.len())?;
    for record in records {
        texts.push(Word::of(alloc, cell_text(format, record, place))?)?;
    }
    Ok(texts)
}

// The flags of a column, if each of its texts is one.
fn flags(
    alloc: Global,
    format: Format,
    place: usize,
    records: &[&Rec<'_>],
) -> Result<Option<Vec<bool>>, NoMemory>
    ensures { IfOk result (λ found. IfSome found (λ v. map (λ b. certain (value.Flag b)) v.items ≡ column_cells format Kind.Flag place records.now)) }
{
    let mut flags = Vec::with_capacity(alloc, records.len())?;
    for record in records {
        let Some(flag) = flag_written(cell_text(format, record, place)) else {
            return Ok(None);
        };
        flags.push(flag)?;
    }
    Ok(Some(flags))
}

// The numbers of a column, if each of its texts is one of 64 bits.
fn narrow(
    alloc: Global,
    format: Format,
    kind: Kind,
    place: usize,
    records: &[&Rec<'_>],
) -> Result<Option<Vec<i64>>, NoMemory>
    requires { is_number_kind kind ≡ true }
    ensures { IfOk result (λ found. IfSome found (λ v. map (λ n. certain (value.Int n)) v.items ≡ column_cells format kind place records.now)) }
{
    let mut numbers = Vec::with_capacity(alloc, records.len())?;
    for record in records {
        let Some(number) = narrow_number(kind, cell_text(format, record, place)) else {
            return Ok(None);
        };
        numbers.push(number)?;
    }
    Ok(Some(numbers))
}

// The number that a text writes, if it is one of 64 bits.
pub(crate) fn narrow_number(kind: Kind, text: &str) -> Option<i64>
    ensures { IfSome result (λ n. number_written_of kind text.now ≡ Some n) }
{
    if let Kind::Int = kind {
        if let Some(number) = short_number(text) {
            return Some(number);
        }
    }
    let number = number_written(kind, text)?;
    match i64::try_from(number) {
        Ok(number) => Some(number),
        Err(_) => None,
    }
}

// The numbers of a column, if each of its texts is one.
fn wide(
    alloc: Global,
    format: Format,
    kind: Kind,
    place: usize,
    records: &[&Rec<'_>],
) -> Result<Option<Vec<i128>>, NoMemory>
    requires { is_number_kind kind ≡ true }
    ensures { IfOk result (λ found. IfSome found (λ v. map (λ n. certain (value.Int n)) v.items ≡ column_cells format kind place records.now)) }
{
    let mut numbers = Vec::with_capacity(alloc, records.len())?;
    for record in records {
        let Some(number) = number_written(kind, cell_text(format, record, place)) else {
            return Ok(None);
        };
        numbers.push(number)?;
    }
    Ok(Some(numbers))
}

// The cells of a column, whatever its texts are.
fn mixed(
    alloc: Global,
    format: Format,
    kind: Kind,
    place: usize,
    records: &[&Rec<'_>],
) -> Result<Vec<Cell>, NoMemory>
    ensures { IfOk result (λ v. v.items ≡ column_cells format kind place records.now) }
{
    let mut cells = Vec::with_capacity(alloc, records.len())?;
    for record in records {
        cells.push(cell(alloc, kind, cell_text(format, record, place))?)?;
    }
    Ok(cells)
}
