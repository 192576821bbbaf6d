//! Which columns of a plan are read: marks, one for each column.
ghost use Rattle.std.specs.Prelude.{◌≡◌, ◌+◌, ◌-◌, ◌<◌, ◌^◌, ◌++◌, ◌∷◌, [], IfOk, OnOk, cond, count_by, flat_map, false, length, map, replicate, slice_set, take, true};
ghost use Rattle.au_plain.specs.PTerms.{pterm};
ghost use Rattle.au_passes.specs.Reading.{agg_column, at_least_one, chosen, columns, is_marked as is_marked_at, mark_all, ranks, read_places, reads_last as reads_last_of};

use au_plain::{PAgg, PExpr};
use au_value::NoMemory;
use std::alloc::Global;

/// Marks the columns that an expression reads.
#[tactic(auto, using(crate::proofs::Marks::marked_in_turn))]
#[cycle(mark)]
pub(crate) fn mark(tree: &PExpr, marks: &mut [bool])
    ensures { marks.new ≡ mark_all (columns (pterm tree.now)) marks.old }
{
    match tree {
        PExpr::Column(i) => mark_column(*i, marks),
        PExpr::Literal(_) => {}
        PExpr::Negate(a) | PExpr::Not(a) => mark(a, marks),
        PExpr::Add(a, b)
        | PExpr::Subtract(a, b)
        | PExpr::Multiply(a, b)
        | PExpr::Compare(_, a, b)
        | PExpr::And(a, b)
        | PExpr::Or(a, b) => {
            mark(a, marks);
            mark(b, marks);
        }
        PExpr::Case(c, a, b) => {
            mark(c, marks);
            mark(a, marks);
            mark(b, marks);
        }
        PExpr::Least(es) | PExpr::Greatest(es) => mark_each(es, marks),
    }
}

// The same for each of some expressions.
#[tactic(auto, using(crate::proofs::Marks::marked_in_turn))]
#[cycle(mark)]
fn mark_each(es: &[PExpr], marks: &mut [bool])
    ensures { marks.new ≡ mark_all (flat_map (λ e. columns (pterm e)) es.now) marks.old }
{
    for e in es {
        mark(e, marks);
    }
}

fn mark_column(i: usize, marks: &mut [bool])
    ensures { marks.new ≡ slice_set marks.old i true }
{
    if i < marks.len() {
        marks[i] = true;
    }
}

/// Marks the columns of these places.
pub(crate) fn mark_places(places: &[usize], marks: &mut [bool])
    ensures { marks.new ≡ mark_all places.now marks.old }
{
    for place in places {
        mark_column(*place, marks);
    }
}

/// Marks the columns that some aggregates read.
pub(crate) fn mark_aggs(aggs: &[PAgg], marks: &mut [bool])
    ensures { marks.new ≡ mark_all (map agg_column aggs.now) marks.old }
{
    for agg in aggs {
        mark_column(column_of(*agg), marks);
    }
}

fn column_of(agg: PAgg) -> usize
    ensures { result ≡ agg_column agg }
{
    match agg {
        PAgg::Sum(column) | PAgg::Min(column) | PAgg::Max(column) => column,
    }
}

/// Marks the first column where none is marked.
pub(crate) fn mark_one(marks: &mut [bool])
    ensures { marks.new ≡ at_least_one marks.old }
{
    if count(marks) == 0 {
        mark_column(0, marks);
    }
}

/// The places of the marked columns.
pub(crate) fn marked(alloc: Global, marks: &[bool]) -> Result<Vec<usize>, NoMemory>
    ensures { IfOk result (λ v. v.items ≡ read_places marks.now) }
{
    let mut places = Vec::new(alloc);
    for i in 0..marks.len() {
        if marks[i] {
            places.push(i)?;
        }
    }
    Ok(places)
}

/// Adds where each marked column is, if the marked ones alone are numbered from `first` on.
pub(crate) fn push_ranks(
    found: &mut Vec<usize>,
    first: usize,
    marks: &[bool],
) -> Result<(), NoMemory>
    requires { first + length marks.now < 2 ^ 64 }
    ensures { OnOk result (found.new.items ≡ found.old.items ++ ranks first marks.now) }
{
    let mut next = first;
    for marked in marks {
        found.push(next)?;
        if *marked {
            next += 1;
        }
    }
    Ok(())
}

/// How many columns are marked.
pub(crate) fn count(marks: &[bool]) -> usize
    ensures { result ≡ count_by (λ b. b) marks.now }
{
    marks.iter().filter(|marked| **marked).count()
}

/// The marked ones of some aggregates.
pub(crate) fn chosen_aggs(
    alloc: Global,
    aggs: &[PAgg],
    marks: &[bool],
) -> Result<Vec<PAgg>, NoMemory>
    ensures { IfOk result (λ v. v.items ≡ chosen marks.now aggs.now) }
{
    let mut read = Vec::new(alloc);
    for i in 0..aggs.len() {
        push_if(&mut read, aggs[i], is_marked(marks, i))?;
    }
    Ok(read)
}

fn push_if(read: &mut Vec<PAgg>, agg: PAgg, marked: bool) -> Result<(), NoMemory>
    ensures { OnOk result (read.new.items ≡ read.old.items ++ cond marked (agg ∷ []) []) }
{
    if marked {
        read.push(agg)?;
    }
    Ok(())
}

fn is_marked(marks: &[bool], i: usize) -> bool
    ensures { result ≡ is_marked_at marks.now i }
{
    i < marks.len() && marks[i]
}

/// Whether the last column is marked, or is the only one.
pub(crate) fn reads_last(marks: &[bool]) -> bool
    ensures { result ≡ reads_last_of marks.now }
{
    marks.len() <= 1 || marks[marks.len() - 1]
}

/// The marks of all columns but the last.
pub(crate) fn without_last(mut marks: Vec<bool>) -> Vec<bool>
    ensures { result.items ≡ take (length marks.items - 1) marks.items }
{
    let _ = marks.pop();
    marks
}

/// The marks, with the columns marked that an expression reads.
pub(crate) fn with_reads(tree: &PExpr, mut marks: Vec<bool>) -> Vec<bool>
    ensures { result.items ≡ mark_all (columns (pterm tree.now)) marks.items }
{
    mark(tree, &mut marks);
    marks
}

/// The marks of so many columns, all of them marked.
pub(crate) fn all_read(alloc: Global, width: usize) -> Result<Vec<bool>, NoMemory>
    ensures { IfOk result (λ v. v.items ≡ replicate width true) }
{
    Ok(vec![in alloc; true; width]?)
}

/// The marks of so many columns, with these places marked.
pub(crate) fn places_read(
    alloc: Global,
    width: usize,
    places: &[usize],
) -> Result<Vec<bool>, NoMemory>
    ensures { IfOk result (λ v. v.items ≡ mark_all places.now (replicate width false)) }
{
    let mut marks = vec![in alloc; false; width]?;
    mark_places(places, &mut marks);
    Ok(marks)
}
