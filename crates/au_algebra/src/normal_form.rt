//! The normal form of a bounded relation.
ghost use Rattle.std.specs.Prelude.{◌≡◌, ◌+◌, ◌^◌, ◌≤◌, ◌<◌, ◌++◌, ◌∷◌, [], false, true, IfOk, OnOk, OnErr, IsTrue, map, if◌then◌else◌};
ghost use Rattle.std.specs.List.{AllByRecursion};
ghost use Rattle.std.specs.List.Sorted.{IsPermutation, IsSortedBy};
ghost use Rattle.std.specs.Ordering.{is_eq, is_lt};
ghost use Rattle.au_annot.specs.Triples.{IsTriple, plus};
ghost use Rattle.au_algebra.specs.Bounded.{normal as normal_of, ranges_order};
ghost use Rattle.au_algebra.specs.Distribution.{Bounds};
ghost use Rattle.au_algebra.specs.Entries.{entry};
ghost use Rattle.au_algebra.specs.Fits.{triples_fit};
ghost use Rattle.au_algebra.specs.Laws.{Guesses};
ghost use Rattle.au_algebra.specs.Ordinary.{Rows};

use crate::range_order::compare_ranges;
use crate::rel::Rel;
use au_annot::{Annot, Triple};
use au_expr::EvalFault;
use au_value::{NoMemory, Overflow, Range};
use std::alloc::Global;

// A list of ranges with a triple.
type Row = (Vec<Range>, Triple);

/// The normal form: rows that are equal in all their values are one row, with the sum of their triples, and the rows
/// are ordered by their guesses, then by their lower ends, then by their upper ends. It bounds each list that the rows
/// bound, and guesses what they guess. Rows that are their own normal form are handed back where they lie.
///
/// `Overflow` comes exactly where a component of such a sum passes 2^127-1.
pub fn normal(alloc: Global, rel: Rel<Range, Triple>) -> Result<Rel<Range, Triple>, EvalFault>
    ensures form { IfOk result (λ n. n ≡ normal_of rel) }
    ensures bounds { IfOk result (λ n. (w : Rows) → Bounds rel w → Bounds n w) }
    ensures guesses { IfOk result (λ n. (w : Rows) → Guesses rel w → Guesses n w) }
    ensures fits { IfOk result (λ n. IsTrue (triples_fit (normal_of rel))) }
    ensures overflow { result ≡ Err EvalFault.Overflow → triples_fit (normal_of rel) ≡ false }
{
    if rise(&rel.rows) {
        read(&rel.rows);
        return Ok(rel);
    }
    match sorted(rel.rows) {
        Ok(rows) => merged(alloc, rows),
        Err(NoMemory) => Err(EvalFault::NoMemory),
    }
}

// Whether each row stands before the next. Such rows are their own normal form.
fn rise(rows: &[Row]) -> bool
    ensures { result ≡ true → normal_of (map (λ r. entry r.0.items r.1) rows.now) ≡ map (λ r. entry r.0.items r.1) rows.now }
{
    rows.is_sorted_by(|a, b| compare_ranges(&a.0, &b.0).is_lt())
}

// Nothing but that the triples lie in the range. That is known of a triple once it is read, so each one is.
fn read(rows: &[Row])
    ensures { AllByRecursion (λ r. IsTriple r.1 × r.1.most < 2 ^ 127) rows.now }
{
    for row in rows {
        // Read for the proof alone: a count lies in its range.
        let _fits = row.1.most();
    }
}

// The rows in order.
fn sorted(rows: Vec<Row>) -> Result<Vec<Row>, NoMemory>
    ensures permutation { IfOk result (λ v. IsPermutation rows.items v.items) }
    ensures sorted { IfOk result (λ v. IsSortedBy (λ a b. is_lt (ranges_order a.0.items b.0.items)) v.items) }
{
    let mut rows = rows;
    rows.sort_by(|a, b| compare_ranges(&a.0, &b.0))?;
    Ok(rows)
}

// The normal form of sorted rows.
fn merged(alloc: Global, rows: Vec<Row>) -> Result<Rel<Range, Triple>, EvalFault>
    requires { IsSortedBy (λ a b. is_lt (ranges_order a.0.items b.0.items)) rows.items }
    ensures form { IfOk result (λ n. n ≡ normal_of (map (λ r. entry r.0.items r.1) rows.items)) }
    ensures fits { IfOk result (λ n. IsTrue (triples_fit (normal_of (map (λ r. entry r.0.items r.1) rows.items)))) }
    ensures overflow { result ≡ Err EvalFault.Overflow → triples_fit (normal_of (map (λ r. entry r.0.items r.1) rows.items)) ≡ false }
{
    let mut done = Vec::new(alloc);
    let mut rest = rows.into_iter();
    let Some(mut current) = rest.next() else {
        return Ok(Rel { rows: done });
    };
    // Read for the proof alone: a count lies in its range.
    let _fits = current.1.most();
    for row in rest {
        current = step(&mut done, current, row)?;
    }
    match done.push(current) {
        Ok(()) => Ok(Rel { rows: done }),
        Err(_) => Err(EvalFault::NoMemory),
    }
}

// The row that goes on before the next: the sum of the two where their ranges are equal, else the next, behind `done`
// and the row before it.
fn step(done: &mut Vec<Row>, current: Row, row: Row) -> Result<Row, EvalFault>
    ensures row { IfOk result (λ r. entry r.0.items r.1 ≡ (if is_eq (ranges_order current.0.items row.0.items) then entry current.0.items (plus current.1 row.1) else entry row.0.items row.1)) }
    ensures done { OnOk result (done.new.items ≡ done.old.items ++ (if is_eq (ranges_order current.0.items row.0.items) then [] else current ∷ [])) }
    ensures fits { IfOk result (λ r. r.1.most < 2 ^ 127) }
    ensures triple { IfOk result (λ r. IsTriple r.1) }
    ensures overflow { result ≡ Err EvalFault.Overflow → (is_eq (ranges_order current.0.items row.0.items) ≡ true) × (2 ^ 127 ≤ current.1.most + row.1.most) }
{
    if compare_ranges(&current.0, &row.0).is_eq() {
        match sum(current.1, row.1) {
            Ok(both) => Ok((current.0, both)),
            Err(Overflow) => Err(EvalFault::Overflow),
        }
    } else {
        // Read for the proof alone: a count lies in its range.
        let _fits = row.1.most();
        match done.push(current) {
            Ok(()) => Ok(row),
            Err(_) => Err(EvalFault::NoMemory),
        }
    }
}

// The sum of two triples. Their order is read, so that it is the greatest counts which pass the range, if any do.
fn sum(a: Triple, b: Triple) -> Result<Triple, Overflow>
    ensures value { IfOk result (λ t. t ≡ plus a b) }
    ensures triple { IfOk result (λ t. IsTriple t) }
    ensures fits { IfOk result (λ t. t.most < 2 ^ 127) }
    ensures overflow { OnErr result (2 ^ 127 ≤ a.most + b.most) }
{
    // Read for the proof alone: a count lies in its range.
    let _first = a.most();
    // Read for the proof alone: a count lies in its range.
    let _second = b.most();
    match a.plus(b) {
        Ok(sum) => {
            // Read for the proof alone: a count lies in its range.
            let _fits = sum.most();
            Ok(sum)
        }
        Err(Overflow) => Err(Overflow),
    }
}
