//! The relation that plain rows encode.
ghost use Rattle.std.specs.Prelude.{◌≡◌, ◌≤◌, ◌+◌, ℕ, IfOk, ◌∷◌, [], List, map, pos};
ghost use Rattle.std.specs.Vec.Iter.{into_iter_items};
ghost use Rattle.au_value.specs.declared.value.Value.{Value};
ghost use Rattle.au_value.specs.Ranges.{range};
ghost use Rattle.au_annot.specs.Triples.{counts};
ghost use Rattle.au_algebra.specs.Entries.{entry};
ghost use Rattle.au_encode.specs.Encode.{AreCounts, AreEncoded, IsEncoded, value_count, decode as decoded, decode_cells, decode_counts, decode_row as decoded_row, encode as encoded};

use au_algebra::Rel;
use au_annot::{Count, Triple};
use au_plain::PRow;
use au_value::{NoMemory, Range, Value};
use std::alloc::Global;
use std::vec::IntoIter;

/// The relation that the rows encode, each with so many columns, in their order. The values are moved.
pub fn decode(
    alloc: Global,
    rows: Vec<PRow>,
    columns: usize,
) -> Result<Rel<Range, Triple>, NoMemory>
    requires { AreEncoded columns (map (λ row. row.items) rows.items) }
    ensures rows { IfOk result (λ rel. rel ≡ decoded columns (map (λ row. row.items) rows.items)) }
    ensures back { IfOk result (λ rel. encoded rel ≡ map (λ row. row.items) rows.items) }
{
    let mut rel = Rel {
        rows: Vec::with_capacity(alloc, rows.len())?,
    };
    for row in rows {
        let (cells, triple) = decode_row(alloc, row, columns)?;
        rel.push(cells, triple)?;
    }
    Ok(rel)
}

/// The ranges and the triple that a row encodes.
pub(crate) fn decode_row(
    alloc: Global,
    row: PRow,
    columns: usize,
) -> Result<(Vec<Range>, Triple), NoMemory>
    requires { IsEncoded columns row.items }
    ensures { IfOk result (λ r. entry r.0.items r.1 ≡ decoded_row columns row.items) }
{
    let mut cells = Vec::with_capacity(alloc, columns)?;
    let mut rest = row.into_iter();
    let mut left = columns;
    while left > 0 {
        left -= 1;
        cells.push(next_range(&mut rest, left))?;
    }
    Ok((cells, next_triple(&mut rest)))
}

// The next range of an encoding, before which there are so many and one more.
fn next_range(rest: &mut IntoIter<Value>, left: usize) -> Range
    requires { IsEncoded (left + 1) (into_iter_items rest.old) }
    ensures range { into_iter_items rest.old ≡ result.lo ∷ result.sg ∷ result.hi ∷ into_iter_items rest.new }
    ensures rest { IsEncoded left (into_iter_items rest.new) }
{
    match (rest.next(), rest.next(), rest.next()) {
        (Some(lo), Some(sg), Some(hi)) => Range::of(lo, sg, hi),
        _ => unreachable!(),
    }
}

// The triple at the end of an encoding.
fn next_triple(rest: &mut IntoIter<Value>) -> Triple
    requires { AreCounts (into_iter_items rest.old) }
    ensures { result ≡ decode_counts (into_iter_items rest.old) }
{
    match (rest.next(), rest.next(), rest.next()) {
        (Some(least), Some(guess), Some(most)) => triple(
            count(&least),
            count(&guess),
            count(&most),
        ),
        _ => unreachable!(),
    }
}

// The triple of three counts in order.
fn triple(least: Count, guess: Count, most: Count) -> Triple
    requires low { least ≤ guess }
    requires high { guess ≤ most }
    ensures { result ≡ counts least guess most }
{
    match Triple::of(least, guess, most) {
        Some(triple) => triple,
        None => unreachable!(),
    }
}

// The count of a number that is not negative.
fn count(value: &Value) -> Count
    requires { (n : ℕ) × (value.now ≡ Value.Int (pos n)) }
    ensures { result ≡ value_count value.now }
{
    match value {
        Value::Int(n) => match Count::of(n.unsigned_abs()) {
            Some(count) => count,
            None => unreachable!(),
        },
        _ => unreachable!(),
    }
}
