//! The ranges of a group's aggregates, from the results over its members.
ghost use Rattle.std.specs.Prelude.{◌≡◌, ◌+◌, ◌*◌, ◌<◌, ◌^◌, ◌++◌, ◌∷◌, [], IfOk, OnOk, length, map};
ghost use Rattle.au_algebra.specs.declared.query.Agg.TheVariants as agg;
ghost use Rattle.au_plain.specs.PTerms.{pterm};
ghost use Rattle.au_plain.specs.PTerms as term;
ghost use Rattle.au_rwexpr.specs.Counts.{positive as is_positive};
ghost use Rattle.au_rwgroup.specs.GroupPlan as plan;

use crate::count_terms::positive;
use au_algebra::Agg;
use au_plain::{PExpr, case};
use au_rwexpr::{RangeColumns, push_cells, push_three};
use au_value::{NoMemory, beside};
use std::alloc::Global;

/// Where a group's row tells that some row is surely there, and how many copies the group has in the guess world.
#[derive(Clone, Copy)]
pub(crate) struct GroupTests {
    pub there: usize,
    pub guess: usize,
}

/// The columns that are added to a row of the second grouping: the range of each aggregate, from four results each, the
/// first of which stands at a place.
pub(crate) fn all_result_columns(
    alloc: Global,
    tests: GroupTests,
    from: usize,
    aggs: &[Agg],
) -> Result<Vec<PExpr>, NoMemory>
    requires { from + 4 * length aggs.now < 2 ^ 64 }
    ensures { IfOk result (λ v. map pterm v.items ≡ plan.all_result_columns (is_positive (term.Column tests.there)) (is_positive (term.Column tests.guess)) from aggs.now) }
{
    let mut columns = Vec::new(alloc);
    let mut place = from;
    for agg in aggs {
        push_result(alloc, tests, place, *agg, &mut columns)?;
        place += 4;
    }
    Ok(columns)
}

// Adds the range of one aggregate.
fn push_result(
    alloc: Global,
    tests: GroupTests,
    place: usize,
    agg: Agg,
    columns: &mut Vec<PExpr>,
) -> Result<(), NoMemory>
    requires { place + 3 < 2 ^ 64 }
    ensures { OnOk result (map pterm columns.new.items ≡ map pterm columns.old.items ++ plan.result_columns (is_positive (term.Column tests.there)) (is_positive (term.Column tests.guess)) place agg) }
{
    match agg {
        Agg::Sum(_) => push_sum(alloc, tests, place, columns),
        Agg::Min(_) => push_min(alloc, tests, place, columns),
        Agg::Max(_) => push_max(alloc, tests, place, columns),
    }
}

fn push_sum(
    alloc: Global,
    tests: GroupTests,
    place: usize,
    columns: &mut Vec<PExpr>,
) -> Result<(), NoMemory>
    requires { place + 3 < 2 ^ 64 }
    ensures { OnOk result (map pterm columns.new.items ≡ map pterm columns.old.items ++ plan.result_columns (is_positive (term.Column tests.there)) (is_positive (term.Column tests.guess)) place (agg.Sum 0)) }
{
    columns.push(PExpr::Column(place))?;
    columns.push(guess_or(alloc, tests, place + 1, PExpr::Column(place))?)?;
    columns.push(PExpr::Column(place + 2))?;
    Ok(())
}

fn push_min(
    alloc: Global,
    tests: GroupTests,
    place: usize,
    columns: &mut Vec<PExpr>,
) -> Result<(), NoMemory>
    requires { place + 3 < 2 ^ 64 }
    ensures { OnOk result (map pterm columns.new.items ≡ map pterm columns.old.items ++ plan.result_columns (is_positive (term.Column tests.there)) (is_positive (term.Column tests.guess)) place (agg.Min 0)) }
{
    columns.push(PExpr::Column(place))?;
    columns.push(guess_or(alloc, tests, place + 1, PExpr::Column(place))?)?;
    columns.push(inner_end(alloc, tests, place)?)?;
    Ok(())
}

fn push_max(
    alloc: Global,
    tests: GroupTests,
    place: usize,
    columns: &mut Vec<PExpr>,
) -> Result<(), NoMemory>
    requires { place + 3 < 2 ^ 64 }
    ensures { OnOk result (map pterm columns.new.items ≡ map pterm columns.old.items ++ plan.result_columns (is_positive (term.Column tests.there)) (is_positive (term.Column tests.guess)) place (agg.Max 0)) }
{
    columns.push(inner_end(alloc, tests, place)?)?;
    let inner = inner_end(alloc, tests, place)?;
    columns.push(guess_or(alloc, tests, place + 1, inner)?)?;
    columns.push(PExpr::Column(place))?;
    Ok(())
}

// The guess where the group is in the guess world, and else the lower end.
fn guess_or(alloc: Global, tests: GroupTests, guess: usize, lower: PExpr) -> Result<PExpr, NoMemory>
    ensures { IfOk result (λ e. pterm e ≡ term.Case (is_positive (term.Column tests.guess)) (term.Column guess) (pterm lower)) }
{
    let (guessed, lower) = beside(positive(alloc, PExpr::Column(tests.guess)), lower)?;
    case(alloc, guessed, PExpr::Column(guess), lower)
}

// The end over the rows that are surely there, and that over all members where none is.
fn inner_end(alloc: Global, tests: GroupTests, place: usize) -> Result<PExpr, NoMemory>
    requires { place + 3 < 2 ^ 64 }
    ensures { IfOk result (λ e. pterm e ≡ term.Case (is_positive (term.Column tests.there)) (term.Column (place + 2)) (term.Column (place + 3))) }
{
    let there = positive(alloc, PExpr::Column(tests.there))?;
    let over_all = PExpr::Column(place + 3);
    case(alloc, there, PExpr::Column(place + 2), over_all)
}

/// The places of the keys, of so many ranges from a place on, and of the group's triple.
pub(crate) fn result_places(
    alloc: Global,
    triple: RangeColumns,
    keys: usize,
    results: usize,
    aggs: usize,
) -> Result<Vec<usize>, NoMemory>
    requires keys { triple.first ≡ 3 * keys }
    requires room { results + 3 * aggs < 2 ^ 64 }
    ensures { IfOk result (λ v. v.items ≡ plan.result_places keys results aggs) }
{
    let mut places = Vec::new(alloc);
    push_cells(&mut places, 0, keys)?;
    push_cells(&mut places, results, aggs)?;
    push_three(&mut places, triple)?;
    Ok(places)
}
