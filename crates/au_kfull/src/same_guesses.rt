//! Rows found by their guesses, by hashing.
ghost use Rattle.std.specs.Prelude.{◌≡◌, ◌≤◌, [], IfOk, IfSome, OnOk, get_or, is_some, map, vec_len};
ghost use Rattle.std.specs.List.{list_any, position_or_len};
ghost use Rattle.indexmap.specs.IndexSet.{insert_key};
ghost use Rattle.au_value.specs.Ranges.{guesses};
ghost use Rattle.au_algebra.specs.Keys.{groups_by, key_values, with_item_at};
ghost use Rattle.au_algebra.specs.Lists.{same_row};
ghost use Rattle.au_kfull.specs.Keys.{keys_of as the_keys};
ghost use Rattle.au_kfull.specs.SameGuesses.{IsByGuesses, beside, groups_held};

use crate::keys::{Keys, keys_of};
use crate::tuple::{Tuple, all_again};
use au_annot::Triple;
use au_value::{NoMemory, Range, Value, copy};
use indexmap::IndexSet;
use std::alloc::Global;

/// Rows by the guesses of their keys.
#[derive(Drop)]
pub(crate) struct ByGuesses<'a> {
    /// The distinct lists of guesses, in the order in which they are first seen.
    pub(crate) seen: IndexSet<Vec<Value>>,
    /// Beside each of them the rows that have it, in order.
    pub(crate) groups: Vec<Vec<Tuple<'a, Range, Triple>>>,
}

// Copies of the guesses of some ranges.
fn guesses_of(alloc: Global, cells: &[Range]) -> Result<Vec<Value>, NoMemory>
    ensures { IfOk result (λ v. v.items ≡ guesses cells.now) }
{
    let mut values = Vec::with_capacity(alloc, cells.len())?;
    for cell in cells {
        values.push(copy(cell.sg())?)?;
    }
    Ok(values)
}

// The place of a key among those that were seen, behind the others where it is new.
fn place_of(seen: &mut IndexSet<Vec<Value>>, key: Vec<Value>) -> Result<usize, NoMemory>
    ensures keys { OnOk result (key_values seen.new.keys ≡ insert_key same_row (key_values seen.old.keys) key.items) }
    ensures place { IfOk result (λ place. place ≡ position_or_len (same_row key.items) (key_values seen.old.keys)) }
{
    let (place, _) = seen.insert_full(key)?;
    Ok(place)
}

// A row behind those of the group at this place, which is a new one behind the others.
fn put_row<'a>(
    alloc: Global,
    groups: &mut Vec<Vec<Tuple<'a, Range, Triple>>>,
    place: usize,
    row: Tuple<'a, Range, Triple>,
) -> Result<(), NoMemory>
    requires { place ≤ vec_len groups.old }
    ensures { OnOk result (groups_held groups.new.items ≡ with_item_at (groups_held groups.old.items) place row.entry) }
{
    if place == groups.len() {
        let mut group = Vec::new(alloc);
        group.push(row)?;
        groups.push(group)?;
    } else {
        groups[place].push(row)?;
    }
    Ok(())
}

/// The rows by the guesses of their keys.
pub(crate) fn by_guesses<'a>(
    alloc: Global,
    keys: Keys,
    rows: &[Tuple<'a, Range, Triple>],
) -> Result<ByGuesses<'a>, NoMemory>
    ensures { IfOk result (IsByGuesses (λ r. guesses (the_keys keys r.cells)) rows.now) }
{
    let mut seen = IndexSet::new(alloc);
    let mut groups = Vec::new(alloc);
    for row in rows {
        let guess = guesses_of(alloc, keys_of(keys, row.cells()))?;
        let place = place_of(&mut seen, guess)?;
        put_row(alloc, &mut groups, place, row.again())?;
    }
    Ok(ByGuesses { seen, groups })
}

/// The rows of each distinct list of guessed keys, where it is first seen.
pub(crate) fn grouped_by_guesses<'a>(
    alloc: Global,
    keys: Keys,
    rows: &[Tuple<'a, Range, Triple>],
) -> Result<Vec<Vec<Tuple<'a, Range, Triple>>>, NoMemory>
    ensures { IfOk result (λ v. groups_held v.items ≡ groups_by (λ r. guesses (the_keys keys r.cells)) rows.now) }
{
    let found = by_guesses(alloc, keys, rows)?;
    Ok(found.groups)
}

// The place of a key that was seen.
fn known_place(seen: &IndexSet<Vec<Value>>, key: &[Value]) -> Option<usize>
    ensures place { IfSome result (λ place. place ≡ position_or_len (same_row key.now) (key_values seen.now.keys)) }
    ensures found { is_some result ≡ list_any (same_row key.now) (key_values seen.now.keys) }
{
    match seen.get_index_of(key) {
        Some(place) => Some(place),
        None => None,
    }
}

// The rows of the group at a place, and none past the last.
fn group_at<'a>(
    alloc: Global,
    groups: &[Vec<Tuple<'a, Range, Triple>>],
    place: usize,
) -> Result<Vec<Tuple<'a, Range, Triple>>, NoMemory>
    ensures { IfOk result (λ v. v.items ≡ get_or (groups_held groups.now) place []) }
{
    match groups.get(place) {
        Some(group) => all_again(alloc, group),
        None => Ok(Vec::new(alloc)),
    }
}

/// The rows whose keys have the guesses of these ranges.
pub(crate) fn rows_guessing<'a>(
    alloc: Global,
    index: &ByGuesses<'a>,
    cells: &[Range],
) -> Result<Vec<Tuple<'a, Range, Triple>>, NoMemory>
    ensures { IfOk result (λ v. v.items ≡ beside (key_values index.now.seen.keys) (groups_held index.now.groups.items) (guesses cells.now)) }
{
    let key = guesses_of(alloc, cells)?;
    match known_place(&index.seen, &key) {
        Some(place) => group_at(alloc, &index.groups, place),
        None => Ok(Vec::new(alloc)),
    }
}
