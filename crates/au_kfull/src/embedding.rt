//! Rows of values with counts as bounded relations, and back.
ghost use Rattle.std.specs.Prelude.{◌≡◌, ◌++◌, ◌∷◌, [], IfOk, OnOk, map};
ghost use Rattle.au_value.specs.Ranges.{certain, guesses as guesses_of};
ghost use Rattle.au_algebra.specs.Entries.{entry};
ghost use Rattle.au_algebra.specs.Positive.{guessed_rows};
ghost use Rattle.au_kfull.specs.Embedding.{embedded};

use au_algebra::Rel;
use au_annot::{Count, Triple};
use au_keval::operators::Row;
use au_value::{NoMemory, Range, Value, copy};
use std::alloc::Global;

// Each value as a range of its own.
fn ranges(alloc: Global, values: &[Value]) -> Result<Vec<Range>, NoMemory>
    ensures { IfOk result (λ v. v.items ≡ map certain values.now) }
{
    let mut ranges = Vec::with_capacity(alloc, values.len())?;
    for value in values {
        ranges.push(Range::certain(value)?)?;
    }
    Ok(ranges)
}

// Puts the row behind the others, unless there is no copy of it.
fn push_embedded(
    alloc: Global,
    rel: &mut Rel<Range, Triple>,
    values: &[Value],
    count: Count,
) -> Result<(), NoMemory>
    ensures { OnOk result (rel.new ≡ rel.old ++ embedded (entry values.now count ∷ [])) }
{
    if count.get() == 0 {
        return Ok(());
    }
    let Some(triple) = Triple::of(count, count, count) else {
        unreachable!()
    };
    rel.push(ranges(alloc, values)?, triple)
}

/// The rows of a table as a bounded relation.
pub(crate) fn embed(
    alloc: Global,
    rows: &[Row<Value, Count>],
) -> Result<Rel<Range, Triple>, NoMemory>
    ensures { IfOk result (λ rel. rel ≡ embedded (map (λ r. entry r.0.items r.1) rows.now)) }
{
    let mut rel = Rel::new(alloc);
    for row in rows {
        push_embedded(alloc, &mut rel, row.0.as_slice(), row.1)?;
    }
    Ok(rel)
}

/// The tables as bounded relations.
pub(crate) fn embed_all(
    alloc: Global,
    tables: &[Rel<Value, Count>],
) -> Result<Vec<Rel<Range, Triple>>, NoMemory>
    ensures { IfOk result (λ v. v.items ≡ map embedded tables.now) }
{
    let mut all = Vec::with_capacity(alloc, tables.len())?;
    for table in tables {
        all.push(embed(alloc, table.rows())?)?;
    }
    Ok(all)
}

// The guesses of some ranges.
fn values(alloc: Global, ranges: &[Range]) -> Result<Vec<Value>, NoMemory>
    ensures { IfOk result (λ v. v.items ≡ guesses_of ranges.now) }
{
    let mut values = Vec::with_capacity(alloc, ranges.len())?;
    for range in ranges {
        values.push(copy(range.sg())?)?;
    }
    Ok(values)
}

// Puts the guesses of the row behind the others, unless no copy is guessed.
fn push_guesses(
    alloc: Global,
    rel: &mut Rel<Value, Count>,
    ranges: &[Range],
    triple: Triple,
) -> Result<(), NoMemory>
    ensures { OnOk result (rel.new ≡ rel.old ++ guessed_rows (entry ranges.now triple ∷ [])) }
{
    let count = triple.guess();
    if count.get() == 0 {
        return Ok(());
    }
    rel.push(values(alloc, ranges)?, count)
}

/// The guessed rows with their counts, those with none left out.
pub(crate) fn guesses(
    alloc: Global,
    rows: &[Row<Range, Triple>],
) -> Result<Rel<Value, Count>, NoMemory>
    ensures { IfOk result (λ rel. rel ≡ guessed_rows (map (λ r. entry r.0.items r.1) rows.now)) }
{
    let mut rel = Rel::new(alloc);
    for row in rows {
        push_guesses(alloc, &mut rel, row.0.as_slice(), row.1)?;
    }
    Ok(rel)
}
