//! The block table of a file's bytes, read in one pass.
ghost use Rattle.std.specs.Prelude.{◌≡◌, [], ◌∷◌, ◌||◌, Ok, None, false, is_some, nat_lt, IfOk, IfSome};
ghost use Rattle.std.specs.List.{list_all};
ghost use Rattle.au_blocks.specs.Defects.{header_defects};
ghost use Rattle.au_blocks.specs.Headers.{cells_of, column_names, format_of, has_copies, written_kinds};
ghost use Rattle.au_blocks.specs.Intakes.{ReadsAll, TakesAll};
ghost use Rattle.au_blocks.specs.Read.{first, table_of};
ghost use Rattle.au_csv.specs.Reader.{HasRead};

use crate::alternatives::Alternatives;
use crate::extent::Extent;
use crate::faults::TableFault;
use crate::format::Format;
use crate::header::cells;
use crate::inference::supposed_kinds;
use crate::intake::Intake;
use crate::schema::{columns, heading};
use crate::table::Table;
use au_csv::{CsvFault, RecordReader};
use au_value::{Kind, NoMemory, Word};
use std::alloc::Global;

// How many bytes are counted at once.
const AT_ONCE: usize = 192;

/// The block table of the bytes of a table file, where it can be read in one pass: each record is put into columns as it
/// comes, and none is kept.
///
/// A column without a written kind is supposed to be one of texts where an alternative among the first hundred records has no
/// numeral, and else one of whole numbers.
///
/// There is none where the bytes have a defect, which another pass names, nor where there are numbers of copies, numbers
/// beyond 64 bits, or blocks whose records stand apart. Nor is there one where the first text that is no numeral comes later in
/// a column without a written kind, or where no alternative tells its kind.
pub(crate) fn table_in_one_pass(alloc: Global, bytes: &[u8]) -> Result<Option<Table>, NoMemory>
    ensures { IfOk result (λ found. IfSome found (λ t. table_of bytes.now ≡ Ok t)) }
{
    let mut reader = RecordReader::new(alloc, bytes);
    let Some(header) = header_in(alloc, bytes, &mut reader)? else {
        return Ok(None);
    };
    table_below(alloc, bytes, &mut reader, header.as_slice())
}

// The first record.
fn header_in(
    alloc: Global,
    bytes: &[u8],
    reader: &mut RecordReader<'_>,
) -> Result<Option<Vec<Word>>, NoMemory>
    requires { HasRead bytes.now [] reader.old }
    ensures { IfOk result (λ found. IfSome found (λ header. HasRead bytes.now (header.items ∷ []) reader.new)) }
{
    match reader.read() {
        Ok(true) => Ok(Some(reader.record().words(alloc)?)),
        Ok(false) | Err(CsvFault::NotText(_)) => Ok(None),
        Err(CsvFault::NoMemory) => Err(NoMemory),
    }
}

// The table of this header and the records that are left.
fn table_below(
    alloc: Global,
    bytes: &[u8],
    reader: &mut RecordReader<'_>,
    header: &[Word],
) -> Result<Option<Table>, NoMemory>
    requires { HasRead bytes.now (header.now ∷ []) reader.old }
    ensures { IfOk result (λ found. IfSome found (λ t. table_of bytes.now ≡ Ok t)) }
{
    let format = Format::of(header);
    if format.has_copies() {
        return Ok(None);
    }
    match heading(alloc, format, cells(format, header)) {
        Ok((names, written)) => table_named(
            alloc,
            bytes,
            reader,
            header,
            names,
            written.as_slice(),
        ),
        Err(TableFault::NoMemory) => Err(NoMemory),
        Err(_) => Ok(None),
    }
}

// The same, of columns with these names and written kinds.
fn table_named(
    alloc: Global,
    bytes: &[u8],
    reader: &mut RecordReader<'_>,
    header: &[Word],
    names: Vec<Word>,
    written: &[Option<Kind>],
) -> Result<Option<Table>, NoMemory>
    requires read { HasRead bytes.now (header.now ∷ []) reader.old }
    requires once { has_copies (format_of header.now) ≡ false }
    requires sound { first (header_defects (format_of header.now) (cells_of (format_of header.now) header.now)) ≡ None }
    requires names { names.items ≡ column_names (format_of header.now) (cells_of (format_of header.now) header.now) }
    requires written { written.now ≡ written_kinds (cells_of (format_of header.now) header.now) }
    ensures { IfOk result (λ found. IfSome found (λ t. table_of bytes.now ≡ Ok t)) }
{
    let Some((kinds, alternatives, extents)) = laid_out(alloc, bytes, reader, header, written)?
    else {
        return Ok(None);
    };
    let columns = columns(alloc, names, kinds)?;
    Ok(Some(Table::of(columns, alternatives, extents)))
}

// The kinds of the columns, the alternatives of the records that are left, and where their blocks lie.
fn laid_out(
    alloc: Global,
    bytes: &[u8],
    reader: &mut RecordReader<'_>,
    header: &[Word],
    written: &[Option<Kind>],
) -> Result<Option<(Vec<Kind>, Alternatives, Vec<Extent>)>, NoMemory>
    requires read { HasRead bytes.now (header.now ∷ []) reader.old }
    requires once { has_copies (format_of header.now) ≡ false }
    requires written { written.now ≡ written_kinds (cells_of (format_of header.now) header.now) }
    ensures { IfOk result (λ found. IfSome found (λ p. ReadsAll bytes.now header.now written.now p.0.items p.1 p.2.items)) }
{
    let kinds = supposed_kinds(alloc, bytes, Format::of(header), written)?;
    let Some(intake) = taken_in(alloc, bytes, reader, header, kinds.as_slice())? else {
        return Ok(None);
    };
    if !are_known(intake.count, written) {
        return Ok(None);
    }
    let Some((alternatives, extents)) = intake.finish(alloc)? else {
        return Ok(None);
    };
    Ok(Some((kinds, alternatives, extents)))
}

// The records that are left, if each can be taken in, below columns of these kinds.
fn taken_in(
    alloc: Global,
    bytes: &[u8],
    reader: &mut RecordReader<'_>,
    header: &[Word],
    kinds: &[Kind],
) -> Result<Option<Intake>, NoMemory>
    requires { HasRead bytes.now (header.now ∷ []) reader.old }
    ensures { IfOk result (λ found. IfSome found (λ intake. TakesAll bytes.now header.now kinds.now intake)) }
{
    let room = room_for(bytes, header.len());
    let mut intake = Intake::new(alloc, Format::of(header), header.len(), kinds, room)?;
    // There is at most one record more than there are bytes, and then the end.
    let turns = bytes.len() as u128 + 2;
    for _ in 0..turns {
        match reader.read() {
            Ok(true) => {
                if !intake.take(alloc, &reader.record())? {
                    return Ok(None);
                }
            }
            Ok(false) => return Ok(Some(intake)),
            Err(CsvFault::NotText(_)) => return Ok(None),
            Err(CsvFault::NoMemory) => return Err(NoMemory),
        }
    }
    unreachable!()
}

// Whether columns with these written kinds have the kinds that are supposed, where there are so many alternatives. Without
// one a column has no numeral, so that it isn't one of numbers where its kind isn't written.
fn are_known(count: usize, written: &[Option<Kind>]) -> bool
    ensures { result ≡ (nat_lt 0 count || list_all is_some written.now) }
{
    count > 0 || all_written(written)
}

// Whether each column has a written kind.
fn all_written(written: &[Option<Kind>]) -> bool
    ensures { result ≡ list_all is_some written.now }
{
    written.iter().all(|kind| kind.is_some())
}

// For how many records of this width there should be room at once. A field has two bytes at least, mostly, so that the
// room stays in proportion to the text.
fn room_for(bytes: &[u8], width: usize) -> usize {
    let least = width.saturating_mul(2).max(2);
    lines(bytes).min(bytes.len() / least).saturating_add(1)
}

// How many line feeds there are.
fn lines(bytes: &[u8]) -> usize {
    let mut count = 0usize;
    for few in bytes.chunks(AT_ONCE) {
        count = count.wrapping_add(few_lines(few) as usize);
    }
    count
}

// The same of at most 255 bytes: a counter of one byte is quick, since the machine adds sixteen of them at once.
fn few_lines(bytes: &[u8]) -> u8 {
    let mut count = 0u8;
    for byte in bytes {
        if *byte == b'\n' {
            count = count.wrapping_add(1);
        }
    }
    count
}
