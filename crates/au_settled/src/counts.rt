//! The counts of rows.
ghost use Rattle.std.specs.Prelude.{◌≡◌, ◌<◌, ◌*◌, ◌+◌, ◌^◌, ℕ, [], get_or, length, nat_abs, pos};
ghost use Rattle.std.specs.List.{AllByRecursion};
ghost use Rattle.au_annot.specs.Triples.{IsTriple, counts};
ghost use Rattle.au_columns.specs.Steps.{AreBelow};
ghost use Rattle.au_settled.specs.Places.{AreCountsAt, counts_at};
ghost use Rattle.au_settled.specs.Settled.{HaveCounts};

use crate::cell::cell;
use au_annot::{Count, Triple};
use au_columns::Batch;

/// A row by its place, with a triple.
pub(crate) type Placed = (usize, Triple);

/// A row with the triple of its counts, which stand behind so many columns.
pub(crate) fn placed(rows: &Batch, columns: usize, place: usize) -> Placed
    requires few { 3 * columns < 2 ^ 63 }
    requires counts { AreCountsAt (3 * columns) (get_or rows.now place []) }
    ensures place { result.0 ≡ place }
    ensures counts { result.1 ≡ counts_at (3 * columns) (get_or rows.now place []) }
    ensures triple { IsTriple result.1 }
    ensures fits { result.1.most < 2 ^ 127 }
{
    let first = 3 * columns;
    let least = count(cell(rows, place, first));
    let guess = count(cell(rows, place, first + 1));
    let most = count(cell(rows, place, first + 2));
    let counts = triple(least, guess, most);
    // Read for the proof alone: a count lies in its range.
    let _fits = counts.most();
    (place, counts)
}

// The triple of three counts in order.
fn triple(least: Count, guess: Count, most: Count) -> Triple
    requires { IsTriple (counts least guess most) }
    ensures { result ≡ counts least guess most }
{
    match Triple::of(least, guess, most) {
        Some(triple) => triple,
        None => unreachable!(),
    }
}

// The count of a number that is not negative.
fn count(number: i128) -> Count
    requires { (n : ℕ) × (number ≡ pos n) }
    ensures { result ≡ nat_abs number }
{
    match Count::of(number.unsigned_abs()) {
        Some(count) => count,
        None => unreachable!(),
    }
}

/// Nothing but that the counts lie in the range. That is known of a count once it is read, so each one is.
pub(crate) fn read(rows: &Batch, columns: usize, places: &[usize])
    requires few { 3 * columns < 2 ^ 63 }
    requires counts { HaveCounts columns rows.now }
    requires below { AreBelow places.now (length rows.now) }
    ensures { AllByRecursion (λ p. IsTriple (counts_at (3 * columns) (get_or rows.now p [])) × (counts_at (3 * columns) (get_or rows.now p [])).most < 2 ^ 127) places.now }
{
    for place in places {
        let _read = placed(rows, columns, *place);
    }
}
