//! What makes a record no row of a block table.
ghost use Rattle.std.specs.Prelude.{◌≡◌, Some, drop, is_some, length, nat_lt};
ghost use Rattle.std.specs.List.{list_any};
ghost use Rattle.au_blocks.specs.Defects.{alternative_defects, bad_fields, is_field as is_field_of, record_defects, role_defects, rows_defects};
ghost use Rattle.au_blocks.specs.Entries.{copies_in, role_of, written_copies};
ghost use Rattle.au_blocks.specs.Headers.{cells_of};
ghost use Rattle.au_blocks.specs.Spellings.{value_written};
ghost use Rattle.au_blocks.specs.Read.{first};

use crate::faults::TableFault;
use crate::fields::{cell_count, cell_text, field};
use crate::format::Format;
use crate::role::Role;
use crate::spellings::{flag_written, number_written, range_written, times_written};
use crate::times::Times;
use au_csv::Rec;
use au_value::Kind;

// The first defect of the records below a header of this width, whose columns have these written kinds.
pub(crate) fn row_fault(
    format: Format,
    width: usize,
    written: &[Option<Kind>],
    rows: &[Rec<'_>],
) -> Option<TableFault>
    ensures { result ≡ first (rows_defects format width written.now rows.now) }
{
    for place in 0..rows.len() {
        if let Some(fault) = record_fault(format, width, written, place + 1, &rows[place]) {
            return Some(fault);
        }
    }
    None
}

// The first defect of the record with this number.
pub(crate) fn record_fault(
    format: Format,
    width: usize,
    written: &[Option<Kind>],
    number: usize,
    record: &Rec<'_>,
) -> Option<TableFault>
    ensures { result ≡ first (record_defects format width written.now (number, «record».now)) }
{
    if record.len() != width {
        return Some(TableFault::WrongWidth(number));
    }
    match role(format, record) {
        None => Some(TableFault::BadRole(number)),
        Some(role) => role_fault(format, number, written, record, role),
    }
}

// The role of a record: in a plain table each is a marked alternative.
pub(crate) fn role(format: Format, record: &Rec<'_>) -> Option<Role>
    ensures { result ≡ role_of format «record».now }
{
    if !format.has_blocks() {
        return Some(Role::Guess);
    }
    Role::named(field(record, 1))
}

// The first defect of a record with this role.
fn role_fault(
    format: Format,
    number: usize,
    written: &[Option<Kind>],
    record: &Rec<'_>,
    role: Role,
) -> Option<TableFault>
    ensures { result ≡ first (role_defects format number written.now «record».now (Some role)) }
{
    if !role.is_absent() {
        return alternative_fault(format, number, written, record);
    }
    if has_value(record) {
        return Some(TableFault::AbsentWithValues(number));
    }
    None
}

// Whether a field behind the label and the role isn't empty.
pub(crate) fn has_value(record: &Rec<'_>) -> bool
    ensures { result ≡ list_any (λ text. nat_lt 0 (length text)) (drop 2 «record».now) }
{
    for place in 0..cell_count(Format::Blocks, record) {
        if cell_text(Format::Blocks, record, place).len() > 0 {
            return true;
        }
    }
    false
}

// The first defect of an alternative.
fn alternative_fault(
    format: Format,
    number: usize,
    written: &[Option<Kind>],
    record: &Rec<'_>,
) -> Option<TableFault>
    ensures { result ≡ first (alternative_defects format number written.now «record».now) }
{
    if written_times(format, record).is_none() {
        return Some(TableFault::BadTimes(number));
    }
    bad_field(format, number, written, record)
}

// The numbers of copies that a record writes.
fn written_times(format: Format, record: &Rec<'_>) -> Option<Times>
    ensures { result ≡ written_copies format «record».now }
{
    if !format.has_copies() {
        return Some(Times::once());
    }
    times_written(field(record, 2))
}

// The numbers of copies of a record.
pub(crate) fn times_in(format: Format, record: &Rec<'_>) -> Times
    ensures { result ≡ copies_in format «record».now }
{
    match written_times(format, record) {
        Some(times) => times,
        None => Times::once(),
    }
}

// The first cell that is no field of its column.
fn bad_field(
    format: Format,
    number: usize,
    written: &[Option<Kind>],
    record: &Rec<'_>,
) -> Option<TableFault>
    ensures { result ≡ first (bad_fields format number written.now (cells_of format «record».now)) }
{
    for place in 0..written.len().min(cell_count(format, record)) {
        if !is_field(format, written[place], cell_text(format, record, place)) {
            return Some(TableFault::BadField(number, place));
        }
    }
    None
}

// Whether a text is a field of a column of this kind, or of one that isn't written.
fn is_field(format: Format, kind: Option<Kind>, text: &str) -> bool
    ensures { result ≡ is_field_of format kind text.now }
{
    match kind {
        None => true,
        Some(kind) => {
            is_value(kind, text) || format.has_copies() && range_written(kind, text).is_some()
        }
    }
}

// Whether a text is a value of a kind.
fn is_value(kind: Kind, text: &str) -> bool
    ensures { result ≡ is_some (value_written kind text.now) }
{
    match kind {
        Kind::Int | Kind::Dec(_) => number_written(kind, text).is_some(),
        Kind::Flag => flag_written(text).is_some(),
        Kind::Text => true,
    }
}
