//! The columns of a table file.
ghost use Rattle.std.specs.Prelude.{◌≡◌, ◌⊎◌, Some, None, IfErr, IfOk};
ghost use Rattle.au_blocks.specs.Defects.{header_defects, schema_defects};
ghost use Rattle.au_blocks.specs.Entries.{entries_of};
ghost use Rattle.au_blocks.specs.Headers.{column_names as column_names_of, written_kinds as written_kinds_of};
ghost use Rattle.au_blocks.specs.Inferring.{inferred_kinds};
ghost use Rattle.au_blocks.specs.Read.{columns_of, first, header_columns};

use crate::column::Column;
use crate::faults::TableFault;
use crate::format::Format;
use crate::header::{cells, column_names, written_kinds};
use crate::header_faults::header_fault;
use crate::kinds::kinds;
use crate::row_faults::row_fault;
use au_csv::Rec;
use au_value::{Kind, NoMemory, Word};
use std::alloc::Global;

// The columns of a header over the records below it, or the first defect of these but for the blocks.
pub(crate) fn schema(
    alloc: Global,
    header: &[Word],
    rows: &[Rec<'_>],
) -> Result<Vec<Column>, TableFault>
    ensures sound { IfOk result (λ _. first (schema_defects header.now rows.now) ≡ None) }
    ensures columns { IfOk result (λ columns. columns.items ≡ header_columns header.now rows.now) }
    ensures fault { IfErr result (λ e. (e ≡ TableFault.NoMemory) ⊎ (first (schema_defects header.now rows.now) ≡ Some e)) }
{
    let format = Format::of(header);
    let (names, written) = heading(alloc, format, cells(format, header))?;
    if let Some(fault) = row_fault(format, header.len(), written.as_slice(), rows) {
        return Err(fault);
    }
    Ok(typed(alloc, format, names, written.as_slice(), rows)?)
}

// The names and the written kinds of the columns of these header fields, or the first defect of one.
pub(crate) fn heading(
    alloc: Global,
    format: Format,
    fields: &[Word],
) -> Result<(Vec<Word>, Vec<Option<Kind>>), TableFault>
    ensures sound { IfOk result (λ _. first (header_defects format fields.now) ≡ None) }
    ensures names { IfOk result (λ p. p.0.items ≡ column_names_of format fields.now) }
    ensures written { IfOk result (λ p. p.1.items ≡ written_kinds_of fields.now) }
    ensures fault { IfErr result (λ e. (e ≡ TableFault.NoMemory) ⊎ (first (header_defects format fields.now) ≡ Some e)) }
{
    let names = column_names(alloc, format, fields)?;
    if let Some(fault) = header_fault(format, names.as_slice(), fields) {
        return Err(fault);
    }
    let written = written_kinds(alloc, fields)?;
    Ok((names, written))
}

// The columns with these names and written kinds, over the records below the header.
fn typed(
    alloc: Global,
    format: Format,
    names: Vec<Word>,
    written: &[Option<Kind>],
    rows: &[Rec<'_>],
) -> Result<Vec<Column>, NoMemory>
    ensures { IfOk result (λ columns. columns.items ≡ columns_of names.items (inferred_kinds (entries_of format rows.now) written.now)) }
{
    let kinds = kinds(alloc, format, written, rows)?;
    columns(alloc, names, kinds)
}

// The columns with these names and kinds.
pub(crate) fn columns(
    alloc: Global,
    names: Vec<Word>,
    kinds: Vec<Kind>,
) -> Result<Vec<Column>, NoMemory>
    ensures { IfOk result (λ columns. columns.items ≡ columns_of names.items kinds.items) }
{
    let columns = names
        .into_iter()
        .zip(kinds)
        .map(|(name, kind)| Column { name, kind });
    Ok(columns.collect(alloc)?)
}
