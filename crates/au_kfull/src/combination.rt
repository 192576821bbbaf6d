//! Rows with equal guesses in one.
ghost use Rattle.std.specs.Prelude.{◌≡◌, IfErr, IfOk, IsTrue, List, OkIff, OnOk, false, map};
ghost use Rattle.std.specs.List.{AllByRecursion};
ghost use Rattle.au_expr.specs.declared.fault.EvalFault.TheVariants as fault;
ghost use Rattle.au_annot.specs.Triples.{total_counts, in_range};
ghost use Rattle.au_value.specs.declared.kinds.Kind.{Kind};
ghost use Rattle.au_algebra.specs.Bounded.{combine as combine_of, merged as merged_of};
ghost use Rattle.au_algebra.specs.Distribution.{Bounds};
ghost use Rattle.au_algebra.specs.Entries.{entry};
ghost use Rattle.au_algebra.specs.Fits.{triples_fit};
ghost use Rattle.au_algebra.specs.Laws.{Guesses, IsRelation};
ghost use Rattle.au_algebra.specs.Ordinary.{Rows};
ghost use Rattle.au_kfull.specs.Gives.{GivesOrOverflows};
ghost use Rattle.au_kfull.specs.Keys.{HasKinds};

use crate::hull::hull_of;
use crate::keys::Keys;
use crate::same_guesses::grouped_by_guesses;
use crate::tuple::{Tuple, tuples};
use au_algebra::Rel;
use au_annot::{Annot, Triple};
use au_expr::EvalFault;
use au_value::{Overflow, Range};
use std::alloc::Global;

// The sum of the triples of some rows.
fn sum_of(rows: &[Tuple<'_, Range, Triple>]) -> Result<Triple, Overflow>
    ensures { let sum = total_counts (map (λ r. r.annot) rows.now) in OkIff result (IsTrue (in_range sum)) sum }
{
    let mut sum = Triple::zero();
    for row in rows {
        sum = sum.plus(row.annot())?;
    }
    Ok(sum)
}

// Several rows in one.
fn merged(
    alloc: Global,
    rows: &[Tuple<'_, Range, Triple>],
) -> Result<(Vec<Range>, Triple), EvalFault>
    requires { (ks : List Kind) × HasKinds ks rows.now }
    ensures { let row = merged_of rows.now in GivesOrOverflows result (λ r. entry r.0.items r.1 ≡ row) (in_range row.annot) }
{
    let sum = sum_of(rows)?;
    Ok((hull_of(alloc, Keys::All, rows)?, sum))
}

// Each group of rows in one row.
fn all_merged(
    alloc: Global,
    groups: &[Vec<Tuple<'_, Range, Triple>>],
) -> Result<Rel<Range, Triple>, EvalFault>
    requires { (ks : List Kind) × AllByRecursion (λ g. HasKinds ks g.items) groups.now }
    ensures { let rows = map (λ g. merged_of g.items) groups.now in GivesOrOverflows result (λ r. r ≡ rows) (triples_fit rows) }
{
    let mut rel = Rel::new(alloc);
    for group in groups {
        let (cells, triple) = merged(alloc, group)?;
        rel.push(cells, triple)?;
    }
    Ok(rel)
}

/// One row for each distinct list of guesses, where it is first seen: the hulls of the rows with these guesses, and
/// the sum of their triples.
pub(crate) fn combined(
    alloc: Global,
    rows: &[Tuple<'_, Range, Triple>],
) -> Result<Rel<Range, Triple>, EvalFault>
    requires { (ks : List Kind) × HasKinds ks rows.now }
    ensures { GivesOrOverflows result (λ r. r ≡ combine_of rows.now) (triples_fit (combine_of rows.now)) }
{
    let groups = grouped_by_guesses(alloc, Keys::All, rows)?;
    all_merged(alloc, &groups)
}

/// One row for each distinct list of guesses, where it is first seen: the hulls of the rows with these guesses, and
/// the sum of their triples. They bound each list that the relation bounds, and guess what it guesses.
///
/// `Overflow` comes exactly where a sum leaves the range, unless memory is wanting before.
pub fn combine(alloc: Global, rel: &Rel<Range, Triple>) -> Result<Rel<Range, Triple>, EvalFault>
    requires { (ks : List Kind) × IsRelation ks rel.now }
    ensures rows { IfOk result (λ r. r ≡ combine_of rel.now) }
    ensures relation { IfOk result (λ r. (ks : List Kind) → IsRelation ks rel.now → IsRelation ks r) }
    ensures bounds { IfOk result (λ r. (w : Rows) → Bounds rel.now w → Bounds r w) }
    ensures guesses { IfOk result (λ r. (w : Rows) → Guesses rel.now w → Guesses r w) }
    ensures fits { OnOk result (IsTrue (triples_fit (combine_of rel.now))) }
    ensures overflow { IfErr result (λ f. f ≡ fault.Overflow → triples_fit (combine_of rel.now) ≡ false) }
{
    let lent = tuples(alloc, rel.rows())?;
    combined(alloc, &lent)
}
