//! Expressions without arithmetic: which columns they read, and what they are over other rows.
ghost use Rattle.std.specs.Prelude.{◌≡◌, ◌+◌, ◌<◌, IfOk, IsTrue, MatchOption, map, nat_le};
ghost use Rattle.std.specs.List.{list_all};
ghost use Rattle.au_expr.specs.Figures.{fit};
ghost use Rattle.au_expr.specs.Numbers.{number_if_any};
ghost use Rattle.au_plain.specs.PTerms.{pterm};
ghost use Rattle.au_passes.specs.Tests.{
  reads_only,
  total_weight,
  weight,
  with_columns,
  without_arithmetic,
};
ghost use Rattle.au_passes.specs.Places.{column_in, is_among};
ghost use Rattle.au_passes.specs.Pushing.{most_weight};

use au_plain::{PExpr, copy_expr, of_part, of_parts};
use au_value::{NoMemory, Value};
use std::alloc::Global;

/// The most nodes that conjuncts may have which follow the definition of a column.
const MOST_WEIGHT: usize = 1000;

/// Some of the places in a row.
#[derive(Clone, Copy)]
pub(crate) enum Places {
    /// All but this one.
    OtherThan(usize),
    /// Those before this one.
    Before(usize),
    /// This one and those behind it.
    From(usize),
}

/// What columns become over other rows.
#[derive(Clone, Copy)]
pub(crate) enum Change<'a> {
    /// The column of this place is what defines it.
    Defined(usize, &'a PExpr),
    /// The columns are those of these places.
    Renamed(&'a [usize]),
    /// The columns are counted from this place on.
    CountedFrom(usize),
}

/// Whether a place is one of these.
pub(crate) fn is_in(places: Places, i: usize) -> bool
    ensures { result ≡ is_among places i }
{
    match places {
        Places::OtherThan(n) => i != n,
        Places::Before(n) => i < n,
        Places::From(n) => n <= i,
    }
}

/// What a column becomes.
fn changed_column(alloc: Global, change: &Change, i: usize) -> Result<PExpr, NoMemory>
    ensures { IfOk result (λ e. pterm e ≡ column_in change.now i) }
{
    match change {
        Change::Defined(n, e) => {
            if i == *n {
                copy_expr(alloc, e)
            } else {
                Ok(PExpr::Column(i))
            }
        }
        Change::Renamed(places) => match places.get(i) {
            Some(place) => Ok(PExpr::Column(*place)),
            None => Ok(PExpr::Literal(Value::Int(0))),
        },
        Change::CountedFrom(n) => Ok(PExpr::Column(i.saturating_sub(*n))),
    }
}

/// The expression over other rows.
pub(crate) fn changed(alloc: Global, change: &Change, tree: &PExpr) -> Result<PExpr, NoMemory>
    ensures { IfOk result (λ e. pterm e ≡ with_columns (column_in change.now) (pterm tree.now)) }
{
    match tree {
        PExpr::Column(i) => changed_column(alloc, change, *i),
        PExpr::Not(a) => {
            let part = changed(alloc, change, a)?;
            of_part(alloc, tree, part)
        }
        PExpr::Compare(_, a, b) | PExpr::And(a, b) | PExpr::Or(a, b) => {
            let left = changed(alloc, change, a)?;
            let right = changed(alloc, change, b)?;
            of_parts(alloc, tree, left, right)
        }
        PExpr::Literal(_)
        | PExpr::Add(_, _)
        | PExpr::Subtract(_, _)
        | PExpr::Multiply(_, _)
        | PExpr::Negate(_)
        | PExpr::Case(_, _, _)
        | PExpr::Least(_)
        | PExpr::Greatest(_) => copy_expr(alloc, tree),
    }
}

/// The expressions over other rows.
pub(crate) fn all_changed(
    alloc: Global,
    change: &Change,
    es: &[PExpr],
) -> Result<Vec<PExpr>, NoMemory>
    ensures { IfOk result (λ v. map pterm v.items ≡ map (with_columns (column_in change.now)) (map pterm es.now)) }
{
    let mut all = Vec::new(alloc);
    for e in es {
        all.push(changed(alloc, change, e)?)?;
    }
    Ok(all)
}

/// Whether an expression is without arithmetic.
pub(crate) fn is_without_arithmetic(tree: &PExpr) -> bool
    ensures { result ≡ without_arithmetic (pterm tree.now) }
{
    match tree {
        PExpr::Column(_) => true,
        PExpr::Literal(v) => {
            read(v);
            true
        }
        PExpr::Not(a) => is_without_arithmetic(a),
        PExpr::Compare(_, a, b) | PExpr::And(a, b) | PExpr::Or(a, b) => {
            is_without_arithmetic(a) && is_without_arithmetic(b)
        }
        PExpr::Add(_, _)
        | PExpr::Subtract(_, _)
        | PExpr::Multiply(_, _)
        | PExpr::Negate(_)
        | PExpr::Case(_, _, _)
        | PExpr::Least(_)
        | PExpr::Greatest(_) => false,
    }
}

// Reads the number of a value, if it is one: a number that is held in memory fits.
fn read(value: &Value)
    ensures { IsTrue (fit (number_if_any value.now)) }
{
    if let Value::Int(n) = value {
        let _n = *n;
    }
}

/// Whether an expression reads columns of these places alone, and is without arithmetic.
pub(crate) fn is_reading_only(places: Places, tree: &PExpr) -> bool
    ensures { result ≡ reads_only (is_among places) (pterm tree.now) }
{
    match tree {
        PExpr::Column(i) => is_in(places, *i),
        PExpr::Literal(_) => true,
        PExpr::Not(a) => is_reading_only(places, a),
        PExpr::Compare(_, a, b) | PExpr::And(a, b) | PExpr::Or(a, b) => {
            is_reading_only(places, a) && is_reading_only(places, b)
        }
        PExpr::Add(_, _)
        | PExpr::Subtract(_, _)
        | PExpr::Multiply(_, _)
        | PExpr::Negate(_)
        | PExpr::Case(_, _, _)
        | PExpr::Least(_)
        | PExpr::Greatest(_) => false,
    }
}

/// Whether the expressions read columns of these places alone, and are without arithmetic.
pub(crate) fn are_reading_only(places: Places, es: &[PExpr]) -> bool
    ensures { result ≡ list_all (reads_only (is_among places)) (map pterm es.now) }
{
    for e in es {
        if !is_reading_only(places, e) {
            return false;
        }
    }
    true
}

// What is left of a number of nodes behind those of an expression, if it has no more.
#[tactic(auto, using(crate::proofs::Weights::some_weight))]
fn left_behind(tree: &PExpr, nodes: usize) -> Option<usize>
    ensures { MatchOption result (nodes < weight (pterm tree.now)) (λ left. left + weight (pterm tree.now) ≡ nodes) }
{
    let others = nodes.checked_sub(1)?;
    match tree {
        PExpr::Not(a) => left_behind(a, others),
        PExpr::Compare(_, a, b) | PExpr::And(a, b) | PExpr::Or(a, b) => {
            left_behind(b, left_behind(a, others)?)
        }
        PExpr::Column(_)
        | PExpr::Literal(_)
        | PExpr::Add(_, _)
        | PExpr::Subtract(_, _)
        | PExpr::Multiply(_, _)
        | PExpr::Negate(_)
        | PExpr::Case(_, _, _)
        | PExpr::Least(_)
        | PExpr::Greatest(_) => Some(others),
    }
}

/// Whether the expressions are small enough to be moved.
pub(crate) fn are_light(es: &[PExpr]) -> bool
    ensures { result ≡ nat_le (total_weight (map pterm es.now)) most_weight }
{
    let mut left = MOST_WEIGHT;
    for e in es {
        match left_behind(e, left) {
            Some(rest) => left = rest,
            None => return false,
        }
    }
    true
}
