//! Sets of keys, and the places of more keys in them.
ghost use Rattle.std.specs.Prelude.{◌≡◌, ◌∷◌, [], ◌++◌, IfOk, IfSome, IsTrue, OnOk, map, true};
ghost use Rattle.std.specs.List.{list_any};
ghost use Rattle.std.specs.Ordering.{int_eq};
ghost use Rattle.au_codes.specs.CellMeaning.{same_cells};
ghost use Rattle.au_columns.specs.Batches.{row_at, rows_of};
ghost use Rattle.au_columns.specs.Steps.{number_at};
ghost use Rattle.au_folds.specs.Keyed.{lists, singles};
ghost use Rattle.au_folds.specs.Places.{place_of, places_among, seen_after, seen_with};

use au_value::NoMemory;
use indexmap::IndexSet;
use std::alloc::Global;
use std::mem;

/// The places of keys of one number each. New ones go behind the others.
pub(crate) fn single_places(
    alloc: Global,
    known: &mut IndexSet<i128>,
    keys: &[i128],
) -> Result<Vec<usize>, NoMemory>
    ensures places { IfOk result (λ v. v.items ≡ places_among (singles known.old.keys) (singles keys.now)) }
    ensures seen { OnOk result (singles known.new.keys ≡ seen_after (singles known.old.keys) (singles keys.now)) }
{
    let mut places = Vec::with_capacity(alloc, keys.len())?;
    let mut recent = 0;
    for key in keys {
        recent = single_place(known, *key, recent)?;
        places.push(recent)?;
    }
    Ok(places)
}

// The place of a key, which may well be this one.
#[inline(always)]
fn single_place(known: &mut IndexSet<i128>, key: i128, recent: usize) -> Result<usize, NoMemory>
    ensures place { IfOk result (λ place. place ≡ place_of (singles known.old.keys) (key ∷ [])) }
    ensures seen { OnOk result (singles known.new.keys ≡ seen_with (singles known.old.keys) (key ∷ [])) }
{
    if single_stands(known, key, recent) {
        return Ok(recent);
    }
    put_single(known, key)
}

// Whether a key stands at a place.
#[inline(always)]
fn single_stands(known: &IndexSet<i128>, key: i128, place: usize) -> bool
    ensures { IsTrue result → (list_any (same_cells (key ∷ [])) (singles known.now.keys) ≡ true) × (place ≡ place_of (singles known.now.keys) (key ∷ [])) }
{
    let keys = known.as_slice();
    if place < keys.len() {
        are_equal(keys[place], key)
    } else {
        false
    }
}

/// Whether two numbers are equal.
#[inline(always)]
pub(crate) fn are_equal(x: i128, y: i128) -> bool
    ensures { result ≡ int_eq x y }
{
    x == y
}

// Puts a key behind the others, if it is new, and tells its place.
fn put_single(known: &mut IndexSet<i128>, key: i128) -> Result<usize, NoMemory>
    ensures place { IfOk result (λ place. place ≡ place_of (singles known.old.keys) (key ∷ [])) }
    ensures seen { OnOk result (singles known.new.keys ≡ seen_with (singles known.old.keys) (key ∷ [])) }
{
    let (place, _) = known.insert_full(key)?;
    Ok(place)
}

/// The places of keys that stand in columns, of which there are so many. New ones go behind the others.
pub(crate) fn list_places(
    alloc: Global,
    known: &mut IndexSet<Vec<i128>>,
    columns: &[Vec<i128>],
    count: usize,
) -> Result<Vec<usize>, NoMemory>
    ensures places { IfOk result (λ v. v.items ≡ places_among (lists known.old.keys) (rows_of count (lists columns.now))) }
    ensures seen { OnOk result (lists known.new.keys ≡ seen_after (lists known.old.keys) (rows_of count (lists columns.now))) }
{
    let mut places = Vec::with_capacity(alloc, count)?;
    let mut key = Vec::with_capacity(alloc, columns.len())?;
    let mut recent = 0;
    for row in 0..count {
        recent = list_place(alloc, known, columns, row, &mut key, recent)?;
        places.push(recent)?;
    }
    Ok(places)
}

// The place of a row's key, which may well be this one. No key is made where it is.
fn list_place(
    alloc: Global,
    known: &mut IndexSet<Vec<i128>>,
    columns: &[Vec<i128>],
    row: usize,
    key: &mut Vec<i128>,
    recent: usize,
) -> Result<usize, NoMemory>
    ensures place { IfOk result (λ place. place ≡ place_of (lists known.old.keys) (row_at (lists columns.now) row)) }
    ensures seen { OnOk result (lists known.new.keys ≡ seen_with (lists known.old.keys) (row_at (lists columns.now) row)) }
{
    if list_stands(known, columns, row, recent) {
        return Ok(recent);
    }
    key.clear();
    push_row(key, columns, row)?;
    put_list(alloc, known, key)
}

// Whether a row's key stands at a place.
fn list_stands(known: &IndexSet<Vec<i128>>, columns: &[Vec<i128>], row: usize, place: usize) -> bool
    ensures { IsTrue result → (list_any (same_cells (row_at (lists columns.now) row)) (lists known.now.keys) ≡ true) × (place ≡ place_of (lists known.now.keys) (row_at (lists columns.now) row)) }
{
    let keys = known.as_slice();
    if place < keys.len() {
        is_row(&keys[place], columns, row)
    } else {
        false
    }
}

// Whether a key is that of a row.
fn is_row(key: &[i128], columns: &[Vec<i128>], row: usize) -> bool
    ensures { result ≡ same_cells (row_at (lists columns.now) row) key.now }
{
    if columns.len() != key.len() {
        return false;
    }
    for i in 0..columns.len() {
        if number(&columns[i], row) != key[i] {
            return false;
        }
    }
    true
}

// Puts a row's key behind numbers.
fn push_row(key: &mut Vec<i128>, columns: &[Vec<i128>], row: usize) -> Result<(), NoMemory>
    ensures { OnOk result (key.new.items ≡ key.old.items ++ row_at (lists columns.now) row) }
{
    for column in columns {
        key.push(number(column, row))?;
    }
    Ok(())
}

/// The number at a place, and 0 past the last.
#[inline(always)]
pub(crate) fn number(numbers: &[i128], place: usize) -> i128
    ensures { result ≡ number_at numbers.now place }
{
    if place < numbers.len() {
        numbers[place]
    } else {
        0
    }
}

// The place of a key among those that are known, behind the others where it is new.
fn put_list(
    alloc: Global,
    known: &mut IndexSet<Vec<i128>>,
    key: &mut Vec<i128>,
) -> Result<usize, NoMemory>
    ensures place { IfOk result (λ place. place ≡ place_of (lists known.old.keys) key.old.items) }
    ensures seen { OnOk result (lists known.new.keys ≡ seen_with (lists known.old.keys) key.old.items) }
{
    match known_place(known, key) {
        Some(place) => Ok(place),
        None => put_new(known, mem::replace(key, Vec::new(alloc))),
    }
}

// The place of a key that is known.
fn known_place(known: &IndexSet<Vec<i128>>, key: &[i128]) -> Option<usize>
    ensures { IfSome result (λ place. (list_any (same_cells key.now) (lists known.now.keys) ≡ true) × (place ≡ place_of (lists known.now.keys) key.now)) }
{
    match known.get_index_of(key) {
        Some(place) => Some(place),
        None => None,
    }
}

/// Puts a key behind the others, if it is new, and tells its place.
pub(crate) fn put_new(known: &mut IndexSet<Vec<i128>>, key: Vec<i128>) -> Result<usize, NoMemory>
    ensures place { IfOk result (λ place. place ≡ place_of (lists known.old.keys) key.items) }
    ensures seen { OnOk result (lists known.new.keys ≡ seen_with (lists known.old.keys) key.items) }
{
    let (place, _) = known.insert_full(key)?;
    Ok(place)
}
