//! An output of a group.
ghost use Rattle.std.specs.Prelude.{◌≡◌, ◌++◌, ◌∷◌, [], OnOk, flat_map, map};
ghost use Rattle.std.specs.List.{AllByRecursion, list_all};
ghost use Rattle.au_value.specs.Numeral.{is_i128};
ghost use Rattle.au_algebra.specs.Bounded.{aggregate as aggregate_of};
ghost use Rattle.au_algebra.specs.Entries.{entry};
ghost use Rattle.au_algebra.specs.Fits.{agg_numbers};
ghost use Rattle.au_kfull.specs.Gives.{GivesOrOverflows};
ghost use Rattle.au_kfull.specs.Groups.{seen, unsure as unsure_of};
ghost use Rattle.au_kfull.specs.Outputs.{CanAggregate, IsOutputReady, made_fits, made_output};

use crate::aggregates::aggregate;
use crate::counts::counts;
use crate::grouping::{Grouping, output_grouping};
use crate::keys::Keys;
use crate::tuple::Tuple;
use au_algebra::Agg;
use au_annot::Triple;
use au_expr::EvalFault;
use au_value::{NoMemory, Range};
use std::alloc::Global;

// Puts a range behind the others.
fn put(cells: &mut Vec<Range>, range: Range) -> Result<(), NoMemory>
    ensures { OnOk result (cells.new.items ≡ cells.old.items ++ range ∷ []) }
{
    cells.push(range)?;
    Ok(())
}

/// Puts the ranges of the aggregates behind the cells.
pub(crate) fn push_aggregates(
    alloc: Global,
    cells: Vec<Range>,
    group: &Grouping<'_>,
    aggs: &[Agg],
) -> Result<Vec<Range>, EvalFault>
    requires { AllByRecursion (CanAggregate (seen group.now)) aggs.now }
    ensures { GivesOrOverflows result (λ v. v.items ≡ cells.items ++ map (aggregate_of (seen group.now)) aggs.now) (list_all is_i128 (flat_map (agg_numbers (seen group.now)) aggs.now)) }
{
    let mut cells = cells;
    for agg in aggs {
        put(&mut cells, aggregate(alloc, group, *agg)?)?;
    }
    Ok(cells)
}

/// The output to which some rows belong.
pub(crate) fn output(
    alloc: Global,
    keys: Keys,
    aggs: &[Agg],
    belonging: &[Tuple<'_, Range, Triple>],
    rows: &[Tuple<'_, Range, Triple>],
    unsure: &[Tuple<'_, Range, Triple>],
) -> Result<(Vec<Range>, Triple), EvalFault>
    requires ready { IsOutputReady keys aggs.now rows.now belonging.now }
    requires unsure { unsure.now ≡ unsure_of keys rows.now }
    ensures { GivesOrOverflows result (λ r. entry r.0.items r.1 ≡ made_output keys aggs.now rows.now belonging.now) (made_fits keys aggs.now rows.now belonging.now) }
{
    let (hull, group) = output_grouping(alloc, keys, belonging, rows, unsure)?;
    let triple = counts(keys, &group.belonging)?;
    match push_aggregates(alloc, hull, &group, aggs) {
        Ok(cells) => Ok((cells, triple)),
        Err(fault) => Err(fault),
    }
}
