//! The rows of a guess: each row of values once, in order, with the sum of its counts.
ghost use Rattle.std.specs.Prelude.{◌≡◌, ◌+◌, ◌^◌, ◌≤◌, ◌<◌, ◌++◌, ◌∷◌, [], true, false, IfOk, OnOk, IsTrue, map, if◌then◌else◌};
ghost use Rattle.std.specs.List.Sorted.{IsPermutation, IsSortedBy};
ghost use Rattle.std.specs.Ordering.{is_eq, is_lt};
ghost use Rattle.std.specs.Cmp.Lexicographic.{slice_cmp};
ghost use Rattle.au_value.specs.Order.{order};
ghost use Rattle.au_algebra.specs.Counted.{occurring};
ghost use Rattle.au_algebra.specs.Entries.{entry};
ghost use Rattle.au_print.specs.GuessTexts.{counted, guess_rows as guess_rows_of, counts_fit};
ghost use Rattle.au_print.specs.Places.{values_at as values_of, row_at};

use crate::value_order::compare_values;
use au_algebra::Rel;
use au_annot::{Annot, Count};
use au_expr::EvalFault;
use au_value::{NoMemory, Overflow, Value};
use std::alloc::Global;
use std::cmp::Ordering;

/// A row of values by its place among others, with a count.
pub type Placed = (usize, Count);

/// Each row of values that occurs, once and in order, with the sum of its counts. No value is copied.
///
/// `Overflow` comes exactly where such a sum exceeds 2^127-1.
pub fn guess_rows(alloc: Global, rows: &Rel<Value, Count>) -> Result<Vec<Placed>, EvalFault>
    ensures rows { IfOk result (λ v. map (row_at rows.now) v.items ≡ guess_rows_of rows.now) }
    ensures fit { IfOk result (λ v. IsTrue (counts_fit (guess_rows_of rows.now))) }
    ensures overflow { result ≡ Err EvalFault.Overflow → counts_fit (guess_rows_of rows.now) ≡ false }
{
    match sorted(alloc, rows) {
        Ok(places) => merged(alloc, rows, places.as_slice()),
        Err(NoMemory) => Err(EvalFault::NoMemory),
    }
}

/// The values of the row at a place.
pub fn values_at(rows: &Rel<Value, Count>, place: usize) -> &[Value]
    ensures { result.now ≡ values_of rows.now place }
{
    match rows.rows().get(place) {
        Some((values, _)) => values.as_slice(),
        None => &[],
    }
}

// The order of the rows at two places.
fn compare_places(rows: &Rel<Value, Count>, a: usize, b: usize) -> Ordering
    ensures { result ≡ slice_cmp order (values_of rows.now a) (values_of rows.now b) }
{
    compare_values(values_at(rows, a), values_at(rows, b))
}

// The rows that occur.
fn occurring_rows(alloc: Global, rows: &[(Vec<Value>, Count)]) -> Result<Vec<Placed>, NoMemory>
    ensures { IfOk result (λ v. map (row_at (map (λ r. entry r.0.items r.1) rows.now)) v.items ≡ occurring (map (λ r. entry r.0.items r.1) rows.now)) }
{
    let mut found = Vec::new(alloc);
    for (place, row) in rows.iter().enumerate() {
        let count = row.1;
        if count.get() > 0 {
            found.push((place, count))?;
        }
    }
    Ok(found)
}

// The rows that occur, in order.
fn sorted(alloc: Global, rows: &Rel<Value, Count>) -> Result<Vec<Placed>, NoMemory>
    ensures permutation { IfOk result (λ v. IsPermutation (occurring rows.now) (map (row_at rows.now) v.items)) }
    ensures sorted { IfOk result (λ v. IsSortedBy (λ a b. is_lt (slice_cmp order (values_of rows.now a.0) (values_of rows.now b.0))) v.items) }
{
    let mut found = occurring_rows(alloc, rows.rows())?;
    found.sort_by(|a, b| compare_places(rows, a.0, b.0))?;
    Ok(found)
}

// The rows of a guess, of rows in order.
fn merged(
    alloc: Global,
    rows: &Rel<Value, Count>,
    places: &[Placed],
) -> Result<Vec<Placed>, EvalFault>
    requires { IsSortedBy (λ a b. is_lt (slice_cmp order (values_of rows.now a.0) (values_of rows.now b.0))) places.now }
    ensures rows { IfOk result (λ v. map (row_at rows.now) v.items ≡ counted (map (row_at rows.now) places.now)) }
    ensures fit { IfOk result (λ v. IsTrue (counts_fit (counted (map (row_at rows.now) places.now)))) }
    ensures overflow { result ≡ Err EvalFault.Overflow → counts_fit (counted (map (row_at rows.now) places.now)) ≡ false }
{
    let mut done = Vec::new(alloc);
    let Some((first, rest)) = places.split_first() else {
        return Ok(done);
    };
    let mut current = *first;
    // Read for the proof alone: a count lies in its range.
    let _fits = current.1.get();
    for next in rest {
        current = step(rows, &mut done, current, *next)?;
    }
    match done.push(current) {
        Ok(()) => Ok(done),
        Err(_) => Err(EvalFault::NoMemory),
    }
}

// The row that goes on before the next: with the sum of the counts where their values are equal, else the next, behind
// `done` and the row before it.
fn step(
    rows: &Rel<Value, Count>,
    done: &mut Vec<Placed>,
    current: Placed,
    next: Placed,
) -> Result<Placed, EvalFault>
    ensures row { IfOk result (λ r. r ≡ (if is_eq (slice_cmp order (values_of rows.now current.0) (values_of rows.now next.0)) then (current.0, current.1 + next.1) else next)) }
    ensures done { OnOk result (done.new.items ≡ done.old.items ++ (if is_eq (slice_cmp order (values_of rows.now current.0) (values_of rows.now next.0)) then [] else current ∷ [])) }
    ensures fits { IfOk result (λ r. r.1 < 2 ^ 127) }
    ensures overflow { result ≡ Err EvalFault.Overflow → (is_eq (slice_cmp order (values_of rows.now current.0) (values_of rows.now next.0)) ≡ true) × (2 ^ 127 ≤ current.1 + next.1) }
{
    if compare_places(rows, current.0, next.0).is_eq() {
        match current.1.plus(next.1) {
            Ok(both) => {
                // Read for the proof alone: a count lies in its range.
                let _fits = both.get();
                Ok((current.0, both))
            }
            Err(Overflow) => Err(EvalFault::Overflow),
        }
    } else {
        // Read for the proof alone: a count lies in its range.
        let _fits = next.1.get();
        match done.push(current) {
            Ok(()) => Ok(next),
            Err(_) => Err(EvalFault::NoMemory),
        }
    }
}
