//! The trees of the clauses of a SELECT: conditions, groups, and rows that are given once.
ghost use Rattle.std.specs.Prelude.{◌≡◌, ◌++◌, IfOk, length, map, option_map};
ghost use Rattle.au_algebra.specs.Trees.{Project, tree};
ghost use Rattle.au_expr.specs.Terms.{term, Column as column};
ghost use Rattle.au_typing.specs.Results.{groups_tree, selected_by};
ghost use Rattle.au_typing.specs.Selects.{distinct_if};

use crate::setting::{Gathered, Groups};
use au_algebra::Query;
use au_expr::Expr;
use au_value::{NoMemory, beside};
use std::alloc::Global;

/// A tree under a WHERE or HAVING, if there is one.
pub(crate) fn selected(
    alloc: Global,
    condition: Option<Expr>,
    query: Query,
) -> Result<Query, NoMemory>
    ensures { IfOk result (λ q. tree q ≡ selected_by (option_map term condition) (tree query)) }
{
    match condition {
        Some(expr) => Ok(Query::Select(expr, Box::new(alloc, query)?)),
        None => Ok(query),
    }
}

// The columns of the keys, and the arguments behind them.
fn arguments(alloc: Global, keys: &[usize], others: Vec<Expr>) -> Result<Vec<Expr>, NoMemory>
    ensures { IfOk result (λ v. map term v.items ≡ map column keys.now ++ map term others.items) }
{
    let mut columns = key_columns(alloc, keys)?;
    for argument in others {
        columns.push(argument)?;
    }
    Ok(columns)
}

// The columns of the keys.
fn key_columns(alloc: Global, keys: &[usize]) -> Result<Vec<Expr>, NoMemory>
    ensures { IfOk result (λ v. map term v.items ≡ map column keys.now) }
{
    let mut columns = Vec::new(alloc);
    for place in keys {
        columns.push(Expr::Column(*place))?;
    }
    Ok(columns)
}

// The columns of the keys over a tree, and the arguments behind them.
fn projected(
    alloc: Global,
    keys: &[usize],
    others: Vec<Expr>,
    query: Query,
) -> Result<Box<Query>, NoMemory>
    ensures { IfOk result (λ q. tree q.value ≡ Project (map column keys.now ++ map term others.items) (tree query)) }
{
    let (columns, query) = beside(arguments(alloc, keys, others), query)?;
    let (query, columns) = beside(Box::new(alloc, query), columns)?;
    Ok(Box::new(alloc, Query::Project(columns, query))?)
}

/// The groups of a tree: its keys and the arguments of the aggregates, and the aggregates of these.
pub(crate) fn grouped(
    alloc: Global,
    groups: Groups,
    gathered: Gathered,
    query: Query,
) -> Result<Query, NoMemory>
    ensures { IfOk result (λ q. tree q ≡ groups_tree groups.by (length groups.keys.items) gathered.aggs.items (map column groups.keys.items ++ map term gathered.arguments.items) (tree query)) }
{
    let by = groups.by;
    let keys = groups.keys.len();
    let rows = projected(alloc, groups.keys.as_slice(), gathered.arguments, query);
    let (rows, aggs) = beside(rows, gathered.aggs)?;
    if by {
        Ok(Query::Group(keys, aggs, rows))
    } else {
        Ok(Query::Total(aggs, rows))
    }
}

/// A tree that gives each row once, where that is wanted.
pub(crate) fn distinct_if(alloc: Global, distinct: bool, query: Query) -> Result<Query, NoMemory>
    ensures { IfOk result (λ q. tree q ≡ distinct_if distinct (tree query)) }
{
    if distinct {
        Ok(Query::Distinct(Box::new(alloc, query)?))
    } else {
        Ok(query)
    }
}
