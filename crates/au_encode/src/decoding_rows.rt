//! The relation that plain rows encode, read by several threads.
ghost use Rattle.std.specs.Prelude.{◌≡◌, IfOk, map};
ghost use Rattle.std.specs.List.{AllZip};
ghost use Rattle.au_algebra.specs.Entries.{entry};
ghost use Rattle.au_encode.specs.Encode.{AreEncoded, IsEncoded, decode as decoded, decode_row as decoded_row, encode as encoded};
ghost use Rattle.au_encode.specs.Gathered.{AreDecoded, DecodesTo};

use crate::decoding::decode_row;
use au_algebra::Rel;
use au_annot::Triple;
use au_plain::PRow;
use au_value::{NoMemory, Range, copies};
use rayon::prelude::*;
use std::alloc::Global;
use std::thread::Threads;

/// The relation that the rows encode, each with so many columns, in their order. The values are copied, by as many
/// threads as there are processors where there are rows enough.
pub fn decode_rows<R: Threads + Sync>(
    rt: &R,
    alloc: Global,
    rows: &[PRow],
    columns: usize,
) -> Result<Rel<Range, Triple>, NoMemory>
    requires { AreEncoded columns (map (λ row. row.items) rows.now) }
    ensures rows { IfOk result (λ rel. rel ≡ decoded columns (map (λ row. row.items) rows.now)) }
    ensures back { IfOk result (λ rel. encoded rel ≡ map (λ row. row.items) rows.now) }
{
    let parts = parts(rt, alloc, rows, columns)?;
    gathered(alloc, parts)
}

// What each row encodes.
fn parts<R: Threads + Sync>(
    rt: &R,
    alloc: Global,
    rows: &[PRow],
    columns: usize,
) -> Result<Vec<Result<(Vec<Range>, Triple), NoMemory>>, NoMemory>
    requires { AreEncoded columns (map (λ row. row.items) rows.now) }
    ensures { IfOk result (λ v. AllZip (λ row part. DecodesTo columns row.items part) rows.now v.items) }
{
    let parts = rows
        .par_iter()
        .map(
            |row: &PRow| -> Result<(Vec<Range>, Triple), NoMemory>
                requires { IsEncoded columns row.now.items }
                ensures { DecodesTo columns row.now.items result }
            { copied_row(alloc, row, columns) },
        )
        .collect::<Vec<_>>(rt, alloc)?;
    Ok(parts)
}

// The ranges and the triple that a row encodes, copied.
fn copied_row(alloc: Global, row: &PRow, columns: usize) -> Result<(Vec<Range>, Triple), NoMemory>
    requires { IsEncoded columns row.now.items }
    ensures { DecodesTo columns row.now.items result }
{
    decode_row(alloc, copies(alloc, row)?, columns)
}

// The rows of a relation, where none was refused.
fn gathered(
    alloc: Global,
    parts: Vec<Result<(Vec<Range>, Triple), NoMemory>>,
) -> Result<Rel<Range, Triple>, NoMemory>
    ensures { IfOk result (AreDecoded parts.items) }
{
    let mut rel = Rel {
        rows: Vec::with_capacity(alloc, parts.len())?,
    };
    for part in parts {
        let (cells, triple) = part?;
        rel.push(cells, triple)?;
    }
    Ok(rel)
}
