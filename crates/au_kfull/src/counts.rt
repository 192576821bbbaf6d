//! The triple of an output of a group.
ghost use Rattle.std.specs.Prelude.{◌≡◌, ◌&&◌, ◌<◌, ◌^◌, Bool, not, nat_le, IfOk, OkIff, filter, if◌then◌else◌};
ghost use Rattle.std.specs.List.{list_any, list_all};
ghost use Rattle.au_annot.specs.Triples.{IsTriple};
ghost use Rattle.au_value.specs.Ranges.{is_certain, all_certain as all_certain_of};
ghost use Rattle.au_algebra.specs.Bounded.{group_counts, most_of};
ghost use Rattle.au_kfull.specs.Keys.{keys_of as the_keys};
ghost use Rattle.au_kfull.specs.Groups.{unsure};

use crate::keys::{Keys, keys_of};
use crate::tuple::Tuple;
use au_annot::{Annot, Count, Triple};
use au_keval::zero_or_one;
use au_value::{NoMemory, Overflow, Range};
use std::alloc::Global;

/// Whether each range is certain.
pub(crate) fn all_certain(cells: &[Range]) -> bool
    ensures { result ≡ all_certain_of cells.now }
{
    cells.iter().all(|cell| cell.is_certain())
}

/// Whether a row may have a copy in the guess world.
pub(crate) fn is_guessed(row: &Tuple<'_, Range, Triple>) -> bool
    ensures { result ≡ nat_le 1 row.now.annot.guess }
{
    row.annot().guess().get() >= 1
}

/// Whether a row has a copy in the guess world.
pub(crate) fn has_guess(rows: &[Tuple<'_, Range, Triple>]) -> bool
    ensures { result ≡ list_any (λ r. nat_le 1 r.annot.guess) rows.now }
{
    rows.iter().any(|row| is_guessed(row))
}

/// Whether the keys of a row are certain.
pub(crate) fn has_certain_keys(keys: Keys, row: &Tuple<'_, Range, Triple>) -> bool
    ensures { result ≡ all_certain_of (the_keys keys row.now.cells) }
{
    all_certain(keys_of(keys, row.cells()))
}

/// The rows whose keys are not all certain.
pub(crate) fn unsure_rows<'a>(
    alloc: Global,
    keys: Keys,
    rows: &[Tuple<'a, Range, Triple>],
) -> Result<Vec<Tuple<'a, Range, Triple>>, NoMemory>
    ensures { IfOk result (λ v. v.items ≡ unsure keys rows.now) }
{
    let mut found = Vec::new(alloc);
    for row in rows {
        if !has_certain_keys(keys, row) {
            found.push(row.again())?;
        }
    }
    Ok(found)
}

// Whether the keys of a row are certain, and it has a copy in every world.
fn is_sure(keys: Keys, row: &Tuple<'_, Range, Triple>) -> bool
    ensures { result ≡ (all_certain_of (the_keys keys row.now.cells) && nat_le 1 row.now.annot.least) }
{
    has_certain_keys(keys, row) && row.annot().least().get() >= 1
}

// The most copies of a row whose keys are not certain, and 0 of another.
fn uncertain(keys: Keys, row: &Tuple<'_, Range, Triple>) -> Count
    ensures { result ≡ (if not (all_certain_of (the_keys keys row.now.cells)) then row.now.annot.most else 0) }
{
    if has_certain_keys(keys, row) {
        Count::zero()
    } else {
        row.annot().most()
    }
}

// How often the rows whose keys are not certain occur at most.
fn sum_uncertain(keys: Keys, rows: &[Tuple<'_, Range, Triple>]) -> Result<Count, Overflow>
    ensures { let sum = most_of (filter (λ r. not (all_certain_of (the_keys keys r.cells))) rows.now) in OkIff result (sum < 2 ^ 127) sum }
{
    let mut sum = Count::zero();
    for row in rows {
        sum = sum.plus(uncertain(keys, row))?;
    }
    // Read for the proof alone: a count lies in its range.
    let _fits = sum.get();
    Ok(sum)
}

// Whether the keys of some row are certain.
fn has_certain(keys: Keys, rows: &[Tuple<'_, Range, Triple>]) -> bool
    ensures { result ≡ list_any (λ r. all_certain_of (the_keys keys r.cells)) rows.now }
{
    rows.iter().any(|row| has_certain_keys(keys, row))
}

// Whether a row with certain keys has a copy in every world.
fn has_sure(keys: Keys, rows: &[Tuple<'_, Range, Triple>]) -> bool
    ensures { result ≡ list_any (λ r. all_certain_of (the_keys keys r.cells) && nat_le 1 r.annot.least) rows.now }
{
    rows.iter().any(|row| is_sure(keys, row))
}

/// The triple of the output to which some rows belong.
pub(crate) fn counts(keys: Keys, rows: &[Tuple<'_, Range, Triple>]) -> Result<Triple, Overflow>
    requires { IsTriple (group_counts (the_keys keys) rows.now) }
    ensures { let triple = group_counts (the_keys keys) rows.now in OkIff result (triple.most < 2 ^ 127) triple }
{
    let certain = zero_or_one(has_certain(keys, rows));
    let least = zero_or_one(has_sure(keys, rows));
    let guess = zero_or_one(has_guess(rows));
    let most = sum_uncertain(keys, rows)?.plus(certain)?;
    let Some(triple) = Triple::of(least, guess, most) else {
        unreachable!()
    };
    // Read for the proof alone: a count lies in its range.
    let _fits = triple.most();
    Ok(triple)
}
