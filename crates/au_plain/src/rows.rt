//! Copies of plain rows.
ghost use Rattle.std.specs.Prelude.{◌≡◌, IfOk, map};

use crate::plan::PRow;
use au_value::{NoMemory, copies};
use std::alloc::Global;

/// Copies of some rows.
pub fn copy_rows(alloc: Global, rows: &[PRow]) -> Result<Vec<PRow>, NoMemory>
    ensures { IfOk result (λ v. map (λ row. row.items) v.items ≡ map (λ row. row.items) rows.now) }
{
    let mut copied = Vec::with_capacity(alloc, rows.len())?;
    for row in rows {
        copied.push(copies(alloc, row)?)?;
    }
    Ok(copied)
}
