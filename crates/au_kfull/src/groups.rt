//! Grouping, and distinct rows.
ghost use Rattle.std.specs.Prelude.{◌≡◌, IfErr, IfOk, IsTrue, List, OnOk, [], false, map};
ghost use Rattle.std.specs.List.{AllByRecursion, list_all};
ghost use Rattle.au_value.specs.declared.kinds.Kind.{Kind};
ghost use Rattle.au_expr.specs.declared.fault.EvalFault.TheVariants as fault;
ghost use Rattle.au_algebra.specs.Bounded.{distinct_rows, group as group_of, group_by, present};
ghost use Rattle.au_algebra.specs.Entries.{entry};
ghost use Rattle.au_algebra.specs.Laws.{IsRelation};
ghost use Rattle.au_kfull.specs.Gives.{GivesOrOverflows};
ghost use Rattle.au_kfull.specs.Groups.{unsure as unsure_of};
ghost use Rattle.au_kfull.specs.Keys.{keys_of as the_keys};
ghost use Rattle.au_kfull.specs.Outputs.{IsOutputReady, group_fits, made_fits, made_output};
ghost use Rattle.au_kfull.specs.Typed.{IsGroupable};
ghost use Rattle.au_kfull.specs.declared.keys.Keys.TheVariants as columns;

use crate::counts::unsure_rows;
use crate::keys::Keys;
use crate::output::output;
use crate::same_guesses::grouped_by_guesses;
use crate::tuple::{Tuple, push_present, tuples};
use au_algebra::{Agg, Rel};
use au_annot::Triple;
use au_expr::EvalFault;
use au_keval::operators::Row;
use au_value::Range;
use std::alloc::Global;

// The outputs to which these groups of rows belong.
fn outputs(
    alloc: Global,
    keys: Keys,
    aggs: &[Agg],
    groups: &[Vec<Tuple<'_, Range, Triple>>],
    rows: &[Tuple<'_, Range, Triple>],
    unsure: &[Tuple<'_, Range, Triple>],
) -> Result<Rel<Range, Triple>, EvalFault>
    requires ready { AllByRecursion (λ g. IsOutputReady keys aggs.now rows.now g.items) groups.now }
    requires unsure { unsure.now ≡ unsure_of keys rows.now }
    ensures { GivesOrOverflows result (λ r. r ≡ present (map (λ g. made_output keys aggs.now rows.now g.items) groups.now)) (list_all (λ g. made_fits keys aggs.now rows.now g.items) groups.now) }
{
    let mut rel = Rel::new(alloc);
    for group in groups {
        let (cells, triple) = output(alloc, keys, aggs, group, rows, unsure)?;
        push_present(&mut rel, cells, triple)?;
    }
    Ok(rel)
}

/// One output per distinct list of guessed keys.
pub(crate) fn grouped(
    alloc: Global,
    keys: Keys,
    aggs: &[Agg],
    of: &[Row<Range, Triple>],
) -> Result<Rel<Range, Triple>, EvalFault>
    requires { IsGroupable aggs.now (map (λ r. entry r.0.items r.1) of.now) }
    ensures { let rows = map (λ r. entry r.0.items r.1) of.now in GivesOrOverflows result (λ r. r ≡ group_by (the_keys keys) aggs.now rows) (group_fits keys aggs.now rows) }
{
    let rows = tuples(alloc, of)?;
    let unsure = unsure_rows(alloc, keys, &rows)?;
    let groups = grouped_by_guesses(alloc, keys, &rows)?;
    outputs(alloc, keys, aggs, &groups, &rows, &unsure)
}

/// One row for each distinct list of guesses in so many leading columns: the hulls of the rows' keys, and then the
/// ranges of the aggregates.
///
/// `Overflow` comes exactly where a number leaves the range, unless memory is wanting before.
pub fn group(
    alloc: Global,
    keys: usize,
    aggs: &[Agg],
    of: &Rel<Range, Triple>,
) -> Result<Rel<Range, Triple>, EvalFault>
    requires { IsGroupable aggs.now of.now }
    ensures rows { IfOk result (λ r. r ≡ group_of keys aggs.now of.now) }
    ensures fits { OnOk result (IsTrue (group_fits (columns.Leading keys) aggs.now of.now)) }
    ensures overflow { IfErr result (λ f. f ≡ fault.Overflow → group_fits (columns.Leading keys) aggs.now of.now ≡ false) }
{
    grouped(alloc, Keys::Leading(keys), aggs, of.rows())
}

/// The groups by all columns, with no aggregate.
///
/// `Overflow` comes exactly where a number leaves the range, unless memory is wanting before.
pub fn distinct(alloc: Global, of: &Rel<Range, Triple>) -> Result<Rel<Range, Triple>, EvalFault>
    requires { (ks : List Kind) × IsRelation ks of.now }
    ensures rows { IfOk result (λ r. r ≡ distinct_rows of.now) }
    ensures fits { OnOk result (IsTrue (group_fits columns.All [] of.now)) }
    ensures overflow { IfErr result (λ f. f ≡ fault.Overflow → group_fits columns.All [] of.now ≡ false) }
{
    grouped(alloc, Keys::All, &[], of.rows())
}
