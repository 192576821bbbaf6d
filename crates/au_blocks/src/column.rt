//! A column of a table, and copies of columns.
ghost use Rattle.std.specs.Prelude.{◌≡◌, IfOk};

use au_value::{Kind, NoMemory, Word};
use std::alloc::Global;

/// A column's name, and the kind of its values.
#[derive(Drop)]
pub struct Column {
    pub name: Word,
    pub kind: Kind,
}

/// Copies of some columns.
pub fn copy_columns(alloc: Global, columns: &[Column]) -> Result<Vec<Column>, NoMemory>
    ensures { IfOk result (λ v. v.items ≡ columns.now) }
{
    let mut copies = Vec::with_capacity(alloc, columns.len())?;
    for column in columns {
        copies.push(Column {
            name: column.name.copy()?,
            kind: column.kind,
        })?;
    }
    Ok(copies)
}
