//! The order of rows, by their numbers in some places.
ghost use Rattle.std.specs.Prelude.{◌≡◌, [], IfOk, get_or};
ghost use Rattle.std.specs.List.{IsAllAdjacentAnswer};
ghost use Rattle.std.specs.List.Sorted.{IsPermutation, IsSortedBy};
ghost use Rattle.std.specs.Ordering.{is_lt};
ghost use Rattle.au_settled.specs.Places.{cells_order};

use crate::cell::cell;
use au_columns::Batch;
use au_value::NoMemory;
use std::cmp::Ordering;

/// The order of two rows: their first unequal numbers in these places decide.
pub(crate) fn compare(rows: &Batch, keys: &[usize], a: usize, b: usize) -> Ordering
    ensures { result ≡ cells_order keys.now (get_or rows.now a []) (get_or rows.now b []) }
{
    for key in keys {
        let decided = cell(rows, a, *key).cmp(&cell(rows, b, *key));
        if decided.is_ne() {
            return decided;
        }
    }
    Ordering::Equal
}

/// Whether the row of each place stands before that of the next.
pub(crate) fn rise(rows: &Batch, keys: &[usize], places: &[usize]) -> bool
    ensures { IsAllAdjacentAnswer (λ a b t. t ≡ is_lt (cells_order keys.now (get_or rows.now a []) (get_or rows.now b []))) places.now result }
{
    places.is_sorted_by(|a, b| compare(rows, keys, *a, *b).is_lt())
}

/// The places in the order of their rows.
pub(crate) fn sorted(
    rows: &Batch,
    keys: &[usize],
    places: Vec<usize>,
) -> Result<Vec<usize>, NoMemory>
    ensures permutation { IfOk result (λ v. IsPermutation places.items v.items) }
    ensures sorted { IfOk result (λ v. IsSortedBy (λ a b. is_lt (cells_order keys.now (get_or rows.now a []) (get_or rows.now b []))) v.items) }
{
    let mut places = places;
    places.sort_by(|a, b| compare(rows, keys, *a, *b))?;
    Ok(places)
}
