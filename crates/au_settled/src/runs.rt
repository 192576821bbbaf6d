//! Rows in order, of which equal ones become one.
ghost use Rattle.std.specs.Prelude.{◌≡◌, ◌+◌, ◌*◌, ◌^◌, ◌≤◌, ◌<◌, ◌++◌, ◌∷◌, [], true, false, IfOk, OnErr, OnOk, IsTrue, get_or, length, map, if◌then◌else◌};
ghost use Rattle.std.specs.List.{AllByRecursion};
ghost use Rattle.std.specs.List.Sorted.{IsSortedBy};
ghost use Rattle.std.specs.Ordering.{is_eq, is_lt};
ghost use Rattle.au_annot.specs.Triples.{IsTriple, plus};
ghost use Rattle.au_algebra.specs.Bounded.{normal};
ghost use Rattle.au_algebra.specs.Fits.{triples_fit};
ghost use Rattle.au_columns.specs.Steps.{AreBelow};
ghost use Rattle.au_settled.specs.Places.{Decides, cells_order, placed_row, row_in};
ghost use Rattle.au_settled.specs.Settled.{HaveCounts};

use crate::counts::{Placed, placed};
use crate::order::compare;
use au_annot::{Annot, Triple};
use au_columns::Batch;
use au_expr::EvalFault;
use au_value::Overflow;
use std::alloc::Global;

/// Rows in order, each once, with the sum of the triples of the rows that are equal to it.
///
/// `Overflow` comes exactly where a component of such a sum passes 2^127-1.
pub(crate) fn merged(
    alloc: Global,
    rows: &Batch,
    columns: usize,
    keys: &[usize],
    places: &[usize],
) -> Result<Vec<Placed>, EvalFault>
    requires few { 3 * columns < 2 ^ 63 }
    requires counts { HaveCounts columns rows.now }
    requires keys { Decides columns rows.now keys.now }
    requires below { AreBelow places.now (length rows.now) }
    requires sorted { IsSortedBy (λ a b. is_lt (cells_order keys.now (get_or rows.now a []) (get_or rows.now b []))) places.now }
    ensures rows { IfOk result (λ v. map (placed_row columns rows.now) v.items ≡ normal (map (row_in columns rows.now) places.now)) }
    ensures below { IfOk result (λ v. AllByRecursion (λ r. r.0 < length rows.now) v.items) }
    ensures fits { IfOk result (λ v. IsTrue (triples_fit (normal (map (row_in columns rows.now) places.now)))) }
    ensures overflow { result ≡ Err EvalFault.Overflow → triples_fit (normal (map (row_in columns rows.now) places.now)) ≡ false }
{
    let mut done = Vec::new(alloc);
    let Some((first, rest)) = places.split_first() else {
        return Ok(done);
    };
    let mut current = placed(rows, columns, *first);
    for place in rest {
        let next = placed(rows, columns, *place);
        current = step(rows, keys, &mut done, current, next)?;
    }
    match done.push(current) {
        Ok(()) => Ok(done),
        Err(_) => Err(EvalFault::NoMemory),
    }
}

// The row that goes on before the next: with the sum of the triples where the two are equal, else the next, behind `done`
// and the row before it.
fn step(
    rows: &Batch,
    keys: &[usize],
    done: &mut Vec<Placed>,
    current: Placed,
    next: Placed,
) -> Result<Placed, EvalFault>
    requires triple { IsTriple next.1 }
    requires fits { next.1.most < 2 ^ 127 }
    ensures row { IfOk result (λ r. r ≡ (if is_eq (cells_order keys.now (get_or rows.now current.0 []) (get_or rows.now next.0 [])) then (current.0, plus current.1 next.1) else next)) }
    ensures done { OnOk result (done.new.items ≡ done.old.items ++ (if is_eq (cells_order keys.now (get_or rows.now current.0 []) (get_or rows.now next.0 [])) then [] else current ∷ [])) }
    ensures triple { IfOk result (λ r. IsTriple r.1) }
    ensures fits { IfOk result (λ r. r.1.most < 2 ^ 127) }
    ensures overflow { result ≡ Err EvalFault.Overflow → (is_eq (cells_order keys.now (get_or rows.now current.0 []) (get_or rows.now next.0 [])) ≡ true) × (2 ^ 127 ≤ current.1.most + next.1.most) }
{
    if compare(rows, keys, current.0, next.0).is_eq() {
        match sum(current.1, next.1) {
            Ok(both) => Ok((current.0, both)),
            Err(Overflow) => Err(EvalFault::Overflow),
        }
    } else {
        match done.push(current) {
            Ok(()) => Ok(next),
            Err(_) => Err(EvalFault::NoMemory),
        }
    }
}

// The sum of two triples. Their order is read, so that it is the greatest counts which pass the range, if any do.
fn sum(a: Triple, b: Triple) -> Result<Triple, Overflow>
    ensures value { IfOk result (λ t. t ≡ plus a b) }
    ensures triple { IfOk result (λ t. IsTriple t) }
    ensures fits { IfOk result (λ t. t.most < 2 ^ 127) }
    ensures overflow { OnErr result (2 ^ 127 ≤ a.most + b.most) }
{
    // Read for the proof alone: a count lies in its range.
    let _first = a.most();
    // Read for the proof alone: a count lies in its range.
    let _second = b.most();
    match a.plus(b) {
        Ok(sum) => {
            // Read for the proof alone: a count lies in its range.
            let _fits = sum.most();
            Ok(sum)
        }
        Err(Overflow) => Err(Overflow),
    }
}
