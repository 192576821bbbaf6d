//! The keys of rows that were seen.
ghost use Rattle.std.specs.Prelude.{◌≡◌, [], IfOk, OnOk, length, map};
ghost use Rattle.std.specs.List.{AllByRecursion, range_with_len};
ghost use Rattle.au_codes.specs.CellMeaning.{cell_in};
ghost use Rattle.au_folds.specs.Keyed.{key_cells, key_places, lists};
ghost use Rattle.au_folds.specs.Places.{places_among, seen_after};
ghost use Rattle.au_folds.specs.Tables.{keys_of};

use crate::held::{KeyLists, held_places, no_lists};
use crate::keyed::single_places;
use au_columns::Batch;
use au_value::NoMemory;
use indexmap::IndexSet;
use std::alloc::Global;

/// The key columns, with the keys in the order in which they are first seen.
#[derive(Drop)]
pub(crate) enum Seen {
    /// Of one column the numbers alone.
    One(usize, IndexSet<i128>),
    Several(Vec<usize>, KeyLists),
}

/// No keys of these columns.
pub(crate) fn nothing_seen(alloc: Global, keys: &[usize]) -> Result<Seen, NoMemory>
    ensures { IfOk result (λ s. (key_places s ≡ keys.now) × (key_cells s ≡ [])) }
{
    if keys.len() == 1 {
        Ok(Seen::One(keys[0], IndexSet::new(alloc)))
    } else {
        Ok(Seen::Several(Vec::from_slice(alloc, keys)?, no_lists(alloc, keys.len())))
    }
}

/// The place of each row's key. New keys go behind the others.
pub(crate) fn row_places(
    alloc: Global,
    seen: &mut Seen,
    rows: &Batch,
) -> Result<Vec<usize>, NoMemory>
    ensures places { IfOk result (λ v. v.items ≡ places_among (key_cells seen.old) (keys_of (key_places seen.old) rows.now)) }
    ensures seen { OnOk result (key_cells seen.new ≡ seen_after (key_cells seen.old) (keys_of (key_places seen.old) rows.now)) }
    ensures keys { OnOk result (key_places seen.new ≡ key_places seen.old) }
{
    match seen {
        Seen::One(place, known) => {
            let keys = rows.numbers(alloc, *place)?;
            let places = single_places(alloc, known, &keys)?;
            Ok(places)
        }
        Seen::Several(places, known) => {
            let columns = key_columns(alloc, places, rows)?;
            let found = held_places(alloc, known, &columns, rows.len())?;
            Ok(found)
        }
    }
}

/// The place of each of some keys. New keys go behind the others.
pub(crate) fn key_set_places(
    alloc: Global,
    seen: &mut Seen,
    keys: &Batch,
) -> Result<Vec<usize>, NoMemory>
    requires { AllByRecursion (λ key. length key ≡ length (key_places seen.old)) keys.now }
    ensures places { IfOk result (λ v. v.items ≡ places_among (key_cells seen.old) keys.now) }
    ensures seen { OnOk result (key_cells seen.new ≡ seen_after (key_cells seen.old) keys.now) }
    ensures keys { OnOk result (key_places seen.new ≡ key_places seen.old) }
{
    match seen {
        Seen::One(_, known) => {
            let numbers = keys.numbers(alloc, 0)?;
            let places = single_places(alloc, known, &numbers)?;
            Ok(places)
        }
        Seen::Several(places, known) => {
            let all = first_places(alloc, places.len())?;
            let columns = key_columns(alloc, &all, keys)?;
            let found = held_places(alloc, known, &columns, keys.len())?;
            Ok(found)
        }
    }
}

// So many places, from the first.
fn first_places(alloc: Global, count: usize) -> Result<Vec<usize>, NoMemory>
    ensures { IfOk result (λ v. v.items ≡ range_with_len 0 count) }
{
    let mut places = vec![in alloc; 0usize; count]?;
    for i in 0..count {
        places[i] = i;
    }
    Ok(places)
}

// The key columns of rows.
fn key_columns(alloc: Global, places: &[usize], rows: &Batch) -> Result<Vec<Vec<i128>>, NoMemory>
    ensures { IfOk result (λ v. lists v.items ≡ map (λ place. map (λ row. cell_in row place) rows.now) places.now) }
{
    let mut columns = Vec::with_capacity(alloc, places.len())?;
    for place in places {
        let numbers = rows.numbers(alloc, *place)?;
        columns.push(numbers)?;
    }
    Ok(columns)
}
