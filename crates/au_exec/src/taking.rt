//! Rows that are taken one after the other.
ghost use Rattle.std.specs.Prelude.{◌≡◌, IfOk};
ghost use Rattle.std.specs.Vec.Iter.{into_iter_items};
ghost use Rattle.au_exec.specs.Taken.{Taken};

use au_plain::PRow;
use au_value::NoMemory;
use std::alloc::Global;
use std::mem;
use std::vec::IntoIter;

// How many rows are taken at once.
const CHUNK: usize = 256;

/// The next rows, moved, at most 256; nothing where there is none.
pub(crate) fn take_rows(
    alloc: Global,
    rows: &mut IntoIter<PRow>,
) -> Result<Option<Vec<PRow>>, NoMemory>
    ensures { IfOk result (λ chunk. Taken (into_iter_items rows.old) (into_iter_items rows.new) chunk) }
{
    let Some(first) = rows.next() else {
        return Ok(None);
    };
    let mut chunk = Vec::with_capacity(alloc, CHUNK)?;
    chunk.push(first)?;
    for _taken in 1..CHUNK {
        match rows.next() {
            Some(row) => chunk.push(row)?,
            None => break,
        }
    }
    Ok(Some(chunk))
}

/// All rows that are there, moved.
pub(crate) fn drained(alloc: Global, rows: &mut IntoIter<PRow>) -> Result<Vec<PRow>, NoMemory>
    ensures { IfOk result (λ v. v.items ≡ into_iter_items rows.old) }
{
    let mut all = Vec::new(alloc);
    for row in mem::replace(rows, Vec::new(alloc).into_iter()) {
        all.push(row)?;
    }
    Ok(all)
}
