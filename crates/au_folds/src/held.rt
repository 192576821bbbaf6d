//! Keys of several numbers, packed into one number each as long as all fit.
ghost use Rattle.std.specs.Prelude.{◌≡◌, ◌<◌, [], IfOk, OnOk, map};
ghost use Rattle.std.specs.List.{IsDistinct};
ghost use Rattle.std.specs.Ordering.{int_eq};
ghost use Rattle.au_columns.specs.Batches.{rows_of};
ghost use Rattle.au_folds.specs.Keyed.{key_lists, lists};
ghost use Rattle.au_folds.specs.Packed.{unpacked};
ghost use Rattle.au_folds.specs.Places.{places_among, seen_after};

use crate::keyed::{list_places, put_new, single_places};
use crate::packed::{packed_keys, unpacked_list, width};
use au_value::NoMemory;
use indexmap::IndexSet;
use std::alloc::Global;

/// Keys in the order in which they are first seen.
#[derive(Drop)]
pub(crate) enum KeyLists {
    /// One number each, with how many numbers a key has behind its first.
    Packed(usize, IndexSet<i128>),
    /// From the first key on that doesn't fit.
    Free(IndexSet<Vec<i128>>),
}

/// No keys, of so many numbers. More than 12 would have few bits each.
pub(crate) fn no_lists(alloc: Global, count: usize) -> KeyLists
    ensures { key_lists result ≡ [] }
{
    if 2 <= count && count <= 12 {
        KeyLists::Packed(count - 1, IndexSet::new(alloc))
    } else {
        KeyLists::Free(IndexSet::new(alloc))
    }
}

/// The places of keys that stand in columns, of which there are so many. New ones go behind the others.
pub(crate) fn held_places(
    alloc: Global,
    known: &mut KeyLists,
    columns: &[Vec<i128>],
    count: usize,
) -> Result<Vec<usize>, NoMemory>
    ensures places { IfOk result (λ v. v.items ≡ places_among (key_lists known.old) (rows_of count (lists columns.now))) }
    ensures seen { OnOk result (key_lists known.new ≡ seen_after (key_lists known.old) (rows_of count (lists columns.now))) }
{
    match known {
        KeyLists::Packed(deep, packed) => {
            let deep = *deep;
            match packed_keys(alloc, columns, count, deep)? {
                Some(keys) => {
                    let places = single_places(alloc, packed, &keys)?;
                    Ok(places)
                }
                None => {
                    let mut free = free_lists(alloc, packed.as_slice(), deep, width(deep))?;
                    let places = list_places(alloc, &mut free, columns, count)?;
                    *known = KeyLists::Free(free);
                    Ok(places)
                }
            }
        }
        KeyLists::Free(free) => {
            let places = list_places(alloc, free, columns, count)?;
            Ok(places)
        }
    }
}

// Keys that were packed, as lists.
fn free_lists(
    alloc: Global,
    keys: &[i128],
    deep: usize,
    width: u32,
) -> Result<IndexSet<Vec<i128>>, NoMemory>
    requires small { width < 127 }
    requires unique { IsDistinct int_eq keys.now }
    ensures { IfOk result (λ free. lists free.keys ≡ map (unpacked width deep) keys.now) }
{
    let mut free = IndexSet::new(alloc);
    for key in keys {
        let list = unpacked_list(alloc, *key, deep, width)?;
        put_new(&mut free, list)?;
    }
    Ok(free)
}
