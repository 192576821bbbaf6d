//! Keys, each of which has a place.
ghost use Rattle.std.specs.Prelude.{◌≡◌, [], ◌∷◌, ◌<◌, IfOk, length, map};
ghost use Rattle.std.specs.List.{AllByRecursion};
ghost use Rattle.std.specs.Int.{w128};
ghost use Rattle.std.specs.Int.RustNames.{FitsSigned};
ghost use Rattle.au_folds.specs.Keyed.{key_cells, key_lists, lists, singles};
ghost use Rattle.au_folds.specs.Known.{Finds, known_with};
ghost use Rattle.au_folds.specs.Packed.{unpacked};
ghost use Rattle.au_folds.specs.Places.{places_among, seen_after};
ghost use Rattle.au_folds.specs.Tables.{keys_of};

use crate::held::KeyLists;
use crate::packed::{holds_list, list_packed, width};
use crate::seen::{Seen, nothing_seen, row_places};
use au_columns::Batch;
use au_value::NoMemory;
use indexmap::IndexSet;
use std::alloc::Global;
use std::marker::Model;

/// The keys of some rows, each once, in the order in which they are first seen. Contracts see the key columns and the keys.
#[derive(Drop)]
pub struct Keys {
    seen: Seen,
}

impl Model for Keys {
    ghost use Rattle.au_folds.specs.Keyed.{key_cells, key_places};
    ghost use Rattle.au_folds.specs.Known.{Known, known_with};

    ghost Value = { Known };

    ghost view = { λ k. known_with (key_places k.seen) (key_cells k.seen) };
}

impl Keys {
    /// The keys of rows by some columns, and the place of each row's key among them.
    pub fn of(
        alloc: Global,
        columns: &[usize],
        rows: &Batch,
    ) -> Result<(Keys, Vec<usize>), NoMemory>
        ensures { IfOk result (λ k. (k.0 ≡ known_with columns.now (seen_after [] (keys_of columns.now rows.now))) × (k.1.items ≡ places_among [] (keys_of columns.now rows.now))) }
    {
        let mut seen = nothing_seen(alloc, columns)?;
        let places = row_places(alloc, &mut seen, rows)?;
        Ok((Keys { seen }, places))
    }

    /// How many there are.
    pub fn len(&self) -> usize
        ensures { result ≡ length self.now.keys }
    {
        count(&self.seen)
    }

    /// The place of a key that is one of them.
    pub fn place(&self, key: &[i128]) -> Option<usize>
        requires { length key.now ≡ length self.now.columns }
        ensures { Finds self.now.keys key.now result }
    {
        match &self.seen {
            Seen::One(_, known) => single_found(known, key[0]),
            Seen::Several(_, known) => held_found(known, key),
        }
    }
}

// How many keys were seen.
fn count(seen: &Seen) -> usize
    ensures { result ≡ length (key_cells seen.now) }
{
    match seen {
        Seen::One(_, known) => known.len(),
        Seen::Several(_, known) => lists_len(known),
    }
}

// How many keys are held, in either form.
fn lists_len(known: &KeyLists) -> usize
    ensures { result ≡ length (key_lists known.now) }
{
    match known {
        KeyLists::Packed(_, known) => known.len(),
        KeyLists::Free(known) => known.len(),
    }
}

// The place of a key of one number.
fn single_found(known: &IndexSet<i128>, key: i128) -> Option<usize>
    ensures { Finds (singles known.now.keys) (key ∷ []) result }
{
    known.get_index_of(&key)
}

// The place of a key of several numbers, in either form.
fn held_found(known: &KeyLists, key: &[i128]) -> Option<usize>
    ensures { Finds (key_lists known.now) key.now result }
{
    match known {
        KeyLists::Packed(deep, known) => packed_found(known, key, *deep, width(*deep)),
        KeyLists::Free(known) => list_found(known, key),
    }
}

// The place of a key of several numbers among those that are packed. One that doesn't fit is none of them.
fn packed_found(known: &IndexSet<i128>, key: &[i128], deep: usize, width: u32) -> Option<usize>
    requires { width < 127 }
    ensures { Finds (map (unpacked width deep) known.now.keys) key.now result }
{
    let packed = list_packed(key, width);
    if holds_list(packed, key, deep, width) {
        known.get_index_of(&packed)
    } else {
        read_numbers(known.as_slice());
        None
    }
}

// Nothing but that numbers which are held lie in the range of their type. That is known of a number once it is read.
fn read_numbers(numbers: &[i128])
    ensures { AllByRecursion (FitsSigned w128) numbers.now }
{
    for number in numbers {
        read_number(*number);
    }
}

// One number.
#[inline(always)]
fn read_number(number: i128)
    ensures { FitsSigned w128 number }
{
    let _number = number;
}

// The place of a key of several numbers.
fn list_found(known: &IndexSet<Vec<i128>>, key: &[i128]) -> Option<usize>
    ensures { Finds (lists known.now.keys) key.now result }
{
    known.get_index_of(key)
}
