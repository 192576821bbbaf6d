//! What a fold offers to the aggregates of a box that its rows may belong to.
ghost use Rattle.std.specs.Prelude.{◌≡◌, ◌+◌, ◌*◌, ◌<◌, ◌^◌, ◌++◌, IfOk, OnOk, length, map};
ghost use Rattle.au_algebra.specs.declared.query.Agg.TheVariants as agg;
ghost use Rattle.au_plain.specs.PTerms.{pterm};
ghost use Rattle.au_rwgroup.specs.GroupPlan as plan;
ghost use Rattle.au_rwgroup.specs.JoinedPlaces.{places_of};

use crate::count_terms::{one, zero};
use crate::guessed_keys::four;
use crate::joined_row::JoinedRow;
use crate::pair_tests::push_tests;
use au_algebra::Agg;
use au_plain::{PExpr, add, case};
use au_value::{NoMemory, both};
use std::alloc::Global;

/// The columns that are added to each pair of a box and a fold: the tests, four for each aggregate, and whether the rows
/// are surely there. What the first grouping kept for the aggregates stands from a place on.
///
/// `NoMemory` comes also where a row cannot have so many columns.
pub(crate) fn all_member_columns(
    alloc: Global,
    joined: JoinedRow,
    kept: usize,
    aggs: &[Agg],
) -> Result<Vec<PExpr>, NoMemory>
    requires kept { kept + 2 * length aggs.now < 2 ^ 64 }
    requires values { joined.fold + 3 * joined.keys + 2 + 5 * length aggs.now < 2 ^ 64 }
    ensures { IfOk result (λ v. map pterm v.items ≡ plan.all_member_columns (places_of joined) kept aggs.now) }
{
    let mut columns = Vec::new(alloc);
    push_tests(alloc, joined, &mut columns)?;
    push_each(alloc, joined, kept, aggs, &mut columns)?;
    Ok(columns)
}

// Adds the columns of each aggregate, and whether the rows are surely there.
fn push_each(
    alloc: Global,
    joined: JoinedRow,
    from: usize,
    aggs: &[Agg],
    columns: &mut Vec<PExpr>,
) -> Result<(), NoMemory>
    requires kept { from + 2 * length aggs.now < 2 ^ 64 }
    requires values { joined.fold + 3 * joined.keys + 2 + 5 * length aggs.now < 2 ^ 64 }
    ensures { OnOk result (map pterm columns.new.items ≡ map pterm columns.old.items ++ plan.each_member_columns (places_of joined) from (joined.fold + 3 * joined.keys + 2) aggs.now) }
{
    let mut kept = from;
    let mut value = joined.values();
    for agg in aggs {
        push_member(alloc, joined, kept, value, *agg, columns)?;
        kept = behind_kept(kept, *agg);
        value += 5;
    }
    columns.push(case(alloc, joined.surely(), one(), zero())?)?;
    Ok(())
}

// The place behind what is kept for an aggregate from a place on.
fn behind_kept(kept: usize, agg: Agg) -> usize
    requires { kept + 2 < 2 ^ 64 }
    ensures { result ≡ plan.behind_kept kept agg }
{
    match agg {
        Agg::Sum(_) => kept,
        Agg::Min(_) | Agg::Max(_) => kept + 2,
    }
}

// Adds the columns of one aggregate.
fn push_member(
    alloc: Global,
    joined: JoinedRow,
    kept: usize,
    value: usize,
    agg: Agg,
    columns: &mut Vec<PExpr>,
) -> Result<(), NoMemory>
    requires kept { kept + 1 < 2 ^ 64 }
    requires value { value + 4 < 2 ^ 64 }
    ensures { OnOk result (map pterm columns.new.items ≡ map pterm columns.old.items ++ plan.member_columns (places_of joined) kept value agg) }
{
    let own = member_columns(alloc, joined, kept, value, agg)?;
    push_own(columns, own)?;
    Ok(())
}

/// Adds columns behind others.
pub(crate) fn push_own(columns: &mut Vec<PExpr>, own: Vec<PExpr>) -> Result<(), NoMemory>
    ensures { OnOk result (columns.new.items ≡ columns.old.items ++ own.items) }
{
    for column in own {
        columns.push(column)?;
    }
    Ok(())
}

fn member_columns(
    alloc: Global,
    joined: JoinedRow,
    kept: usize,
    value: usize,
    agg: Agg,
) -> Result<Vec<PExpr>, NoMemory>
    requires kept { kept + 1 < 2 ^ 64 }
    requires value { value + 4 < 2 ^ 64 }
    ensures { IfOk result (λ v. map pterm v.items ≡ plan.member_columns (places_of joined) kept value agg) }
{
    match agg {
        Agg::Sum(_) => sum_columns(alloc, joined, kept, value),
        Agg::Min(_) | Agg::Max(_) => end_columns(alloc, joined, kept, value),
    }
}

// The least and the greatest that the rows add to a sum, and between them what they add in the guess world.
fn sum_columns(
    alloc: Global,
    joined: JoinedRow,
    kept: usize,
    value: usize,
) -> Result<Vec<PExpr>, NoMemory>
    requires { value + 4 < 2 ^ 64 }
    ensures { IfOk result (λ v. map pterm v.items ≡ plan.member_columns (places_of joined) kept value (agg.Sum 0)) }
{
    let least = with_sure(alloc, joined, value, value + 3);
    let most = with_sure(alloc, joined, value + 2, value + 4);
    let ends = both(least, most);
    let guess = case(alloc, joined.belongs(), PExpr::Column(value + 1), zero());
    let (guess, (least, most)) = both(guess, ends)?;
    four(alloc, least, guess, most, zero())
}

// A sum that counts for all members, with one that counts for certain members alone.
fn with_sure(alloc: Global, joined: JoinedRow, all: usize, sure: usize) -> Result<PExpr, NoMemory>
    ensures { IfOk result (λ e. pterm e ≡ plan.with_sure (places_of joined) all sure) }
{
    let sum = add(alloc, PExpr::Column(all), PExpr::Column(sure))?;
    case(alloc, joined.is_sure(), sum, PExpr::Column(all))
}

// The guess and the inner end, where these count, between the ends of the rows' ranges.
fn end_columns(
    alloc: Global,
    joined: JoinedRow,
    kept: usize,
    value: usize,
) -> Result<Vec<PExpr>, NoMemory>
    requires kept { kept + 1 < 2 ^ 64 }
    requires value { value + 4 < 2 ^ 64 }
    ensures { IfOk result (λ v. map pterm v.items ≡ plan.end_columns (places_of joined) kept value) }
{
    let guess = case(
        alloc,
        joined.guessed(),
        PExpr::Column(value + 1),
        PExpr::Column(kept + 1),
    );
    let inner = case(
        alloc,
        joined.surely(),
        PExpr::Column(value + 2),
        PExpr::Column(kept),
    );
    let (guess, inner) = both(guess, inner)?;
    four(
        alloc,
        PExpr::Column(value),
        guess,
        inner,
        PExpr::Column(value + 3),
    )
}
