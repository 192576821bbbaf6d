//! Expressions over other places of the same columns.
ghost use Rattle.std.specs.Prelude.{◌≡◌, IfOk, map, slice_index};
ghost use Rattle.au_plain.specs.PTerms.{pterm};
ghost use Rattle.au_passes.specs.Pruning.{renumbered, renumbered_agg};

use au_plain::{PAgg, PExpr};
use au_value::{NoMemory, Value};
use std::alloc::Global;
use std::mem;

/// Puts in the place of each column the number that stands there in `found`, and 0 where none does.
#[cycle(renumber)]
pub(crate) fn renumber(tree: &mut PExpr, found: &[usize])
    ensures { pterm tree.new ≡ renumbered found.now (pterm tree.old) }
{
    match tree {
        PExpr::Column(i) => *i = found_at(found, *i),
        PExpr::Literal(_) => {}
        PExpr::Negate(a) => renumber(a, found),
        PExpr::Not(a) => renumber(a, found),
        PExpr::Add(a, b) => {
            renumber(a, found);
            renumber(b, found);
        }
        PExpr::Subtract(a, b) => {
            renumber(a, found);
            renumber(b, found);
        }
        PExpr::Multiply(a, b) => {
            renumber(a, found);
            renumber(b, found);
        }
        PExpr::Compare(_, a, b) => {
            renumber(a, found);
            renumber(b, found);
        }
        PExpr::And(a, b) => {
            renumber(a, found);
            renumber(b, found);
        }
        PExpr::Or(a, b) => {
            renumber(a, found);
            renumber(b, found);
        }
        PExpr::Case(c, a, b) => {
            renumber(c, found);
            renumber(a, found);
            renumber(b, found);
        }
        PExpr::Least(_) => {
            if let PExpr::Least(es) = mem::replace(tree, nothing()) {
                *tree = PExpr::Least(renumber_all(es, found));
            }
        }
        PExpr::Greatest(_) => {
            if let PExpr::Greatest(es) = mem::replace(tree, nothing()) {
                *tree = PExpr::Greatest(renumber_all(es, found));
            }
        }
    }
}

// The same for each of some expressions.
#[cycle(renumber)]
fn renumber_all(mut es: Vec<PExpr>, found: &[usize]) -> Vec<PExpr>
    ensures { map pterm result.items ≡ map (λ e. renumbered found.now (pterm e)) es.items }
{
    for i in 0..es.len() {
        renumber(&mut es[i], found);
    }
    es
}

// Stands in for an expression while its parts are changed.
fn nothing() -> PExpr {
    PExpr::Literal(Value::Int(0))
}

/// The number at a place, and 0 past the last.
pub(crate) fn found_at(found: &[usize], place: usize) -> usize
    ensures { result ≡ slice_index found.now place }
{
    if place < found.len() { found[place] } else { 0 }
}

/// The numbers at these places.
pub(crate) fn all_found(
    alloc: Global,
    found: &[usize],
    places: &[usize],
) -> Result<Vec<usize>, NoMemory>
    ensures { IfOk result (λ v. v.items ≡ map (slice_index found.now) places.now) }
{
    let mut numbers = Vec::with_capacity(alloc, places.len())?;
    for place in places {
        numbers.push(found_at(found, *place))?;
    }
    Ok(numbers)
}

/// Aggregates over other places of the same columns.
pub(crate) fn renumber_aggs(
    alloc: Global,
    found: &[usize],
    aggs: &[PAgg],
) -> Result<Vec<PAgg>, NoMemory>
    ensures { IfOk result (λ v. v.items ≡ map (renumbered_agg found.now) aggs.now) }
{
    let mut renumbered = Vec::with_capacity(alloc, aggs.len())?;
    for agg in aggs {
        renumbered.push(renumber_agg(*agg, found))?;
    }
    Ok(renumbered)
}

fn renumber_agg(agg: PAgg, found: &[usize]) -> PAgg
    ensures { result ≡ renumbered_agg found.now agg }
{
    match agg {
        PAgg::Sum(column) => PAgg::Sum(found_at(found, column)),
        PAgg::Min(column) => PAgg::Min(found_at(found, column)),
        PAgg::Max(column) => PAgg::Max(found_at(found, column)),
    }
}
