//! Sums over all rows.
ghost use Rattle.std.specs.Prelude.{◌≡◌, ◌∷◌, [], IfErr, IfOk, IsTrue, OnOk, false, map};
ghost use Rattle.au_annot.specs.Triples.{one};
ghost use Rattle.au_expr.specs.declared.fault.EvalFault.TheVariants as fault;
ghost use Rattle.au_algebra.specs.Bounded.{aggregate, all_rows, total as total_of};
ghost use Rattle.au_algebra.specs.Entries.{entry};
ghost use Rattle.au_kfull.specs.Gives.{GivesOrOverflows};
ghost use Rattle.au_kfull.specs.Outputs.{total_fits};
ghost use Rattle.au_kfull.specs.Typed.{IsSummable};

use crate::grouping::Grouping;
use crate::keys::Keys;
use crate::output::push_aggregates;
use crate::tuple::tuples;
use au_algebra::{Agg, Rel};
use au_annot::{Annot, Triple};
use au_expr::EvalFault;
use au_keval::operators::Row;
use au_value::{NoMemory, Range};
use std::alloc::Global;

// One row of these ranges, with one copy.
fn single(alloc: Global, cells: Vec<Range>) -> Result<Rel<Range, Triple>, NoMemory>
    ensures { IfOk result (λ r. r ≡ entry cells.items one ∷ []) }
{
    let mut rel = Rel::new(alloc);
    rel.push(cells, Triple::one())?;
    Ok(rel)
}

// The ranges of the sums over all rows.
fn sums(alloc: Global, aggs: &[Agg], of: &[Row<Range, Triple>]) -> Result<Vec<Range>, EvalFault>
    requires { IsSummable aggs.now (map (λ r. entry r.0.items r.1) of.now) }
    ensures { let rows = map (λ r. entry r.0.items r.1) of.now in GivesOrOverflows result (λ v. v.items ≡ map (aggregate (all_rows rows)) aggs.now) (total_fits aggs.now rows) }
{
    let belonging = tuples(alloc, of)?;
    let members = tuples(alloc, of)?;
    let all = Grouping {
        keys: Keys::Leading(0),
        is_certain: true,
        is_guessed: true,
        belonging,
        members,
    };
    push_aggregates(alloc, Vec::new(alloc), &all, aggs)
}

/// One row, of sums over all rows.
pub(crate) fn summed(
    alloc: Global,
    aggs: &[Agg],
    of: &[Row<Range, Triple>],
) -> Result<Rel<Range, Triple>, EvalFault>
    requires { IsSummable aggs.now (map (λ r. entry r.0.items r.1) of.now) }
    ensures { let rows = map (λ r. entry r.0.items r.1) of.now in GivesOrOverflows result (λ r. r ≡ total_of aggs.now rows) (total_fits aggs.now rows) }
{
    let cells = sums(alloc, aggs, of)?;
    Ok(single(alloc, cells)?)
}

/// One row, of sums over all rows. A sum over no rows is 0.
///
/// `Overflow` comes exactly where a number leaves the range, unless memory is wanting before.
pub fn total(
    alloc: Global,
    aggs: &[Agg],
    of: &Rel<Range, Triple>,
) -> Result<Rel<Range, Triple>, EvalFault>
    requires { IsSummable aggs.now of.now }
    ensures rows { IfOk result (λ r. r ≡ total_of aggs.now of.now) }
    ensures fits { OnOk result (IsTrue (total_fits aggs.now of.now)) }
    ensures overflow { IfErr result (λ f. f ≡ fault.Overflow → total_fits aggs.now of.now ≡ false) }
{
    summed(alloc, aggs, of.rows())
}
