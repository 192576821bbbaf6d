//! A block table as plain rows with two counts.
ghost use Rattle.std.specs.Prelude.{◌≡◌, ◌++◌, ◌∷◌, [], IfOk, OnOk, map, true};
ghost use Rattle.au_value.specs.Ranges.{guesses as guesses_of};
ghost use Rattle.au_algebra.specs.Entries.{entry};
ghost use Rattle.au_algebra.specs.Lists.{value_at};
ghost use Rattle.au_plain.specs.Meaning.{kept};
ghost use Rattle.au_plain.specs.PlanKinds.{FitRows, row_fits};
ghost use Rattle.au_rwcounted.specs.CountedRows.{count_value as value_of_count, counts_row, counts_rows, two_counts};
ghost use Rattle.au_ua.specs.UaTables.{block_rows, ua_blocks};

use crate::tables::{guesses, marked};
use au_annot::{Annot, Count, Pair};
use au_blocks::{Alternative, Block, Blocks};
use au_plain::PRow;
use au_translate::read_cells;
use au_value::{NoMemory, Value};
use std::alloc::Global;

/// The rows of [`ua_table`](crate::ua_table) of some blocks as plain rows: the values, and behind them how many copies of
/// them are there in every world at least, and how many in the guess world.
pub fn counted_blocks(alloc: Global, blocks: &Blocks<'_>) -> Result<Vec<PRow>, NoMemory>
    ensures rows { IfOk result (λ rows. map (λ row. row.items) rows.items ≡ counts_rows (map two_counts (ua_blocks blocks.now))) }
    ensures fit { OnOk result (FitRows (counts_rows (map two_counts (ua_blocks blocks.now)))) }
{
    let mut rows = Vec::with_capacity(alloc, blocks.len())?;
    for place in 0..blocks.len() {
        push_block(alloc, &mut rows, &blocks.get(place))?;
    }
    Ok(rows)
}

/// Of these rows the values in some places, in this order. The two counts stand behind the values; a place past them has
/// the value 0.
///
/// It copies each value once, and of a column of which no place is kept it reads nothing.
pub fn counted_places(
    alloc: Global,
    blocks: &Blocks<'_>,
    places: &[usize],
) -> Result<Vec<PRow>, NoMemory>
    ensures rows { IfOk result (λ rows. map (λ row. row.items) rows.items ≡ map (kept places.now) (counts_rows (map two_counts (ua_blocks blocks.now)))) }
    ensures fit { OnOk result (FitRows (counts_rows (map two_counts (ua_blocks blocks.now)))) }
{
    let mut rows = Vec::with_capacity(alloc, blocks.len())?;
    for place in 0..blocks.len() {
        push_kept(alloc, &mut rows, &blocks.get(place), places)?;
    }
    Ok(rows)
}

// What is marked of a block behind the others, if it has a copy.
fn push_block(alloc: Global, rows: &mut Vec<PRow>, block: &Block<'_>) -> Result<(), NoMemory>
    ensures rows { OnOk result (map (λ row. row.items) rows.new.items ≡ map (λ row. row.items) rows.old.items ++ counts_rows (map two_counts (block_rows block.now))) }
    ensures fit { OnOk result (FitRows (counts_rows (map two_counts (block_rows block.now)))) }
{
    let Some((alternative, pair)) = marked(block) else {
        return Ok(());
    };
    read_row(&alternative, pair);
    rows.push(whole_row(alloc, &alternative, pair)?)?;
    Ok(())
}

// What is kept of it.
fn push_kept(
    alloc: Global,
    rows: &mut Vec<PRow>,
    block: &Block<'_>,
    places: &[usize],
) -> Result<(), NoMemory>
    ensures rows { OnOk result (map (λ row. row.items) rows.new.items ≡ map (λ row. row.items) rows.old.items ++ map (kept places.now) (counts_rows (map two_counts (block_rows block.now)))) }
    ensures fit { OnOk result (FitRows (counts_rows (map two_counts (block_rows block.now)))) }
{
    let Some((alternative, pair)) = marked(block) else {
        return Ok(());
    };
    read_row(&alternative, pair);
    rows.push(kept_row(alloc, &alternative, pair, places)?)?;
    Ok(())
}

// Nothing but that the numbers of the row of an alternative and a pair lie in the range of 128 bits.
fn read_row(alternative: &Alternative<'_>, pair: Pair)
    ensures { row_fits (counts_row (two_counts (entry (guesses_of alternative.now.cells) pair))) ≡ true }
{
    read_cells(alternative);
    let _certain = pair.certain();
    let _guess = pair.guess();
}

// The guesses of an alternative, and the two counts of a pair.
fn whole_row(alloc: Global, alternative: &Alternative<'_>, pair: Pair) -> Result<PRow, NoMemory>
    ensures { IfOk result (λ row. row.items ≡ counts_row (two_counts (entry (guesses_of alternative.now.cells) pair))) }
{
    let mut row = guesses(alloc, alternative, 2)?;
    row.push(count_value(pair.certain()))?;
    row.push(count_value(pair.guess()))?;
    Ok(row)
}

// The values in these places of that row.
fn kept_row(
    alloc: Global,
    alternative: &Alternative<'_>,
    pair: Pair,
    places: &[usize],
) -> Result<PRow, NoMemory>
    ensures { IfOk result (λ row. row.items ≡ kept places.now (counts_row (two_counts (entry (guesses_of alternative.now.cells) pair)))) }
{
    let mut row = Vec::with_capacity(alloc, places.len())?;
    for place in places {
        row.push(value_in(alternative, pair, *place)?)?;
    }
    Ok(row)
}

// The value in a place of that row.
fn value_in(alternative: &Alternative<'_>, pair: Pair, place: usize) -> Result<Value, NoMemory>
    ensures { IfOk result (λ v. v ≡ value_at (counts_row (two_counts (entry (guesses_of alternative.now.cells) pair))) place) }
{
    let width = alternative.width();
    if place < width {
        return alternative.sg(place).to_value();
    }
    Ok(count_in(pair, place - width))
}

// The certain count or the guess of a pair, and 0 past them.
fn count_in(pair: Pair, number: usize) -> Value
    ensures { result ≡ value_at (map value_of_count (pair.certain ∷ pair.guess ∷ [])) number }
{
    let count = match number {
        0 => pair.certain(),
        1 => pair.guess(),
        _ => Count::zero(),
    };
    count_value(count)
}

// A count as a value.
fn count_value(count: Count) -> Value
    ensures { result ≡ value_of_count count }
{
    Value::Int(count.get() as i128)
}
