//! The places that the plans of rows keep.
ghost use Rattle.std.specs.Prelude.{◌≡◌, ◌+◌, ◌*◌, ◌<◌, ◌^◌, ◌++◌, ◌∷◌, [], IfOk, OnOk};
ghost use Rattle.au_rwexpr.specs.Cells.{cell_places};
ghost use Rattle.au_rwpoints.specs.PointPlan.{point_places as placed};
ghost use Rattle.au_rwpoints.specs.RowPlans.{guess_places};

use au_combine::push_run;
use au_rwexpr::{RangeColumns, behind, push_cells};
use au_value::NoMemory;
use std::alloc::Global;

/// The guesses of so many keys, the two counts behind them, the column behind so many further ones, and these.
///
/// `NoMemory` comes also where a row cannot have so many columns.
pub(crate) fn point_places(
    alloc: Global,
    keys: usize,
    further: usize,
) -> Result<Vec<usize>, NoMemory>
    ensures { IfOk result (λ v. v.items ≡ placed keys further) }
{
    let counts = RangeColumns::of(keys)?;
    let Some(last) = (counts.first + 2).checked_add(further) else {
        return Err(NoMemory);
    };
    let mut places = guesses(alloc, keys)?;
    places.push(counts.first)?;
    places.push(counts.first + 1)?;
    places.push(last)?;
    push_run(&mut places, counts.first + 2, further)?;
    Ok(places)
}

/// The guesses of all columns, and the triple with the column behind the row as its least.
pub(crate) fn guess_row_places(alloc: Global, columns: usize) -> Result<Vec<usize>, NoMemory>
    ensures { IfOk result (λ v. v.items ≡ guess_places 0 columns ++ ((3 * columns + 3) ∷ (3 * columns + 1) ∷ (3 * columns + 2) ∷ [])) }
{
    let triple = RangeColumns::of(columns)?;
    let added = behind(triple)?;
    let mut places = guesses(alloc, columns)?;
    places.push(added.first)?;
    places.push(triple.first + 1)?;
    places.push(triple.first + 2)?;
    Ok(places)
}

/// All columns, and the triple with the column behind the row as its least and guess.
pub(crate) fn possible_places(alloc: Global, columns: usize) -> Result<Vec<usize>, NoMemory>
    ensures { IfOk result (λ v. v.items ≡ cell_places 0 columns ++ ((3 * columns + 3) ∷ (3 * columns + 3) ∷ (3 * columns + 2) ∷ [])) }
{
    let triple = RangeColumns::of(columns)?;
    let added = behind(triple)?;
    let mut places = Vec::new(alloc);
    push_cells(&mut places, 0, columns)?;
    places.push(added.first)?;
    places.push(added.first)?;
    places.push(triple.first + 2)?;
    Ok(places)
}

// The guess of each of so many ranges, three times.
fn guesses(alloc: Global, columns: usize) -> Result<Vec<usize>, NoMemory>
    ensures { IfOk result (λ v. v.items ≡ guess_places 0 columns) }
{
    let _end = RangeColumns::of(columns)?;
    let mut places = Vec::new(alloc);
    push_guesses(&mut places, columns)?;
    Ok(places)
}

fn push_guesses(places: &mut Vec<usize>, columns: usize) -> Result<(), NoMemory>
    requires { 3 * columns < 2 ^ 64 }
    ensures { OnOk result (places.new.items ≡ places.old.items ++ guess_places 0 columns) }
{
    let mut place = 0;
    let mut left = columns;
    while left > 0 {
        push_guess(places, RangeColumns::at(place)?)?;
        place += 3;
        left -= 1;
    }
    Ok(())
}

// The guess of a range, three times.
fn push_guess(places: &mut Vec<usize>, columns: RangeColumns) -> Result<(), NoMemory>
    ensures { OnOk result (places.new.items ≡ places.old.items ++ ((columns.first + 1) ∷ (columns.first + 1) ∷ (columns.first + 1) ∷ [])) }
{
    places.push(columns.first + 1)?;
    places.push(columns.first + 1)?;
    places.push(columns.first + 1)?;
    Ok(())
}
