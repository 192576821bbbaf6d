//! The plan that finds the rows of blocks in the guess world among their encoded rows, and the places that it reads of these.
ghost use Rattle.std.specs.Prelude.{◌≡◌, ◌+◌, IfOk, length};
ghost use Rattle.std.specs.List.{range_with_len};
ghost use Rattle.au_physical.specs.Physicals as tree;
ghost use Rattle.au_physical.specs.Physicals.{physical_tree};
ghost use Rattle.au_engine.specs.GuessReads.{guess_place as guess_place_of, guess_places as guess_places_of, guess_plan as guess_plan_of, is_guessed};

use au_blocks::Column;
use au_physical::Physical;
use au_plain::{Comparison2, PExpr, compare};
use au_value::{NoMemory, Value, both};
use std::alloc::Global;

/// Where the values in these places of the counted rows of a table of these columns stand in its encoded rows, and behind
/// these places that of the count.
pub(crate) fn guess_places(
    alloc: Global,
    columns: &[Column],
    places: &[usize],
) -> Result<Vec<usize>, NoMemory>
    ensures { IfOk result (λ v. v.items ≡ guess_places_of (length columns.now) places.now) }
{
    let mut read = Vec::with_capacity(alloc, places.len() + 1)?;
    for place in places {
        read.push(guess_place(columns, *place))?;
    }
    read.push(guess_place(columns, columns.len()))?;
    Ok(read)
}

// Where the value in a place of a counted row stands in the encoded row. A counted row has so many values, and the count.
fn guess_place(columns: &[Column], place: usize) -> usize
    ensures { result ≡ guess_place_of (length columns.now) place }
{
    if columns.len() < place {
        3 * columns.len() + 4
    } else {
        3 * place + 1
    }
}

/// All places of the counted rows of a table of these columns.
pub(crate) fn counted_places(alloc: Global, columns: &[Column]) -> Result<Vec<usize>, NoMemory>
    ensures { IfOk result (λ v. v.items ≡ range_with_len 0 (length columns.now + 1)) }
{
    up_to(alloc, columns.len() + 1)
}

/// The plan over rows that have so many values, and a count behind them.
pub(crate) fn guess_plan(alloc: Global, places: &[usize]) -> Result<Physical, NoMemory>
    ensures { IfOk result (λ p. physical_tree p ≡ guess_plan_of (length places.now)) }
{
    let (kept, rows) = both(
        up_to(alloc, places.len()),
        guessed_rows(alloc, places.len(), places.len() + 1),
    )?;
    Ok(Physical::Keep(kept, rows))
}

// The rows of this width whose value behind so many is above 0.
fn guessed_rows(alloc: Global, count: usize, width: usize) -> Result<Box<Physical>, NoMemory>
    ensures { IfOk result (λ p. physical_tree p.value ≡ tree.Filter (is_guessed count) (tree.Scan 0 width)) }
{
    let zero = PExpr::Literal(Value::Int(0));
    let test = compare(alloc, Comparison2::Less, zero, PExpr::Column(count));
    let (test, rows) = both(test, scan(alloc, width))?;
    Ok(Box::new(alloc, Physical::Filter(test, rows))?)
}

// The rows of the first table, of this width.
fn scan(alloc: Global, width: usize) -> Result<Box<Physical>, NoMemory>
    ensures { IfOk result (λ p. physical_tree p.value ≡ tree.Scan 0 width) }
{
    Ok(Box::new(alloc, Physical::Scan(0, width))?)
}

// The numbers below this one.
fn up_to(alloc: Global, n: usize) -> Result<Vec<usize>, NoMemory>
    ensures { IfOk result (λ v. v.items ≡ range_with_len 0 n) }
{
    let mut numbers = Vec::with_capacity(alloc, n)?;
    for i in 0..n {
        numbers.push(i)?;
    }
    Ok(numbers)
}
