//! The plan of a tree over rows with counts.
//!
//! A row with counts is a plain row: its values, and behind them the number of its copies, or some numbers that add up as
//! this does. No plan holds an input twice, so each tree is one plan, without steps.
ghost use Rattle.std.specs.Prelude.{IfOk};
ghost use Rattle.au_algebra.specs.Trees.{tree};
ghost use Rattle.au_algebra.specs.Typing.{IsTyped};
ghost use Rattle.au_plain.specs.Plans.{plan_tree};
ghost use Rattle.au_typing.specs.Queries.{relations, table_kinds};
ghost use Rattle.au_program.specs.CountedPlans.{GivesCounted};

use crate::counted_steps::{
    Counted, difference_of, distinct_of, group_of, product_of, project_of, scan_of, select_of,
    total_of, union_of,
};
use au_algebra::Query;
use au_typing::Schema;
use au_value::{NoMemory, beside};
use std::alloc::Global;

/// The plan of a tree over rows with so many counts, and how many values its rows have. The tree is typed for tables of these
/// schemas; where there is not one count alone, it is to be positive.
///
/// `NoMemory` comes also where a row cannot have so many columns.
pub fn counted_plan(
    alloc: Global,
    query: &Query,
    schemas: &[Schema],
    counts: usize,
) -> Result<Counted, NoMemory>
    requires { IsTyped (table_kinds (relations schemas.now)) (tree query.now) }
    ensures { IfOk result (λ p. GivesCounted counts (table_kinds (relations schemas.now)) (tree query.now) (plan_tree p.plan) p.columns) }
{
    match query {
        Query::Table(i) => match schemas.get(*i) {
            Some(schema) => scan_of(*i, schema.columns.len(), counts),
            None => unreachable!(),
        },
        Query::Select(condition, of) => {
            let of = counted_plan(alloc, of, schemas, counts)?;
            select_of(alloc, condition, of, counts)
        }
        Query::Project(items, of) => {
            let of = counted_plan(alloc, of, schemas, counts)?;
            project_of(alloc, items.as_slice(), of, counts)
        }
        Query::Product(left, right) => {
            let left = counted_plan(alloc, left, schemas, counts)?;
            let second = counted_plan(alloc, right, schemas, counts);
            let (right, left) = beside(second, left)?;
            product_of(alloc, left, right, counts)
        }
        Query::Union(left, right) => {
            let left = counted_plan(alloc, left, schemas, counts)?;
            let second = counted_plan(alloc, right, schemas, counts);
            let (right, left) = beside(second, left)?;
            union_of(alloc, left, right, counts)
        }
        Query::Difference(left, right) => {
            let left = counted_plan(alloc, left, schemas, counts)?;
            let second = counted_plan(alloc, right, schemas, counts);
            let (right, left) = beside(second, left)?;
            difference_of(alloc, left, right)
        }
        Query::Distinct(of) => {
            let of = counted_plan(alloc, of, schemas, counts)?;
            distinct_of(alloc, of)
        }
        Query::Group(keys, aggs, of) => {
            let of = counted_plan(alloc, of, schemas, counts)?;
            group_of(alloc, *keys, aggs.as_slice(), of)
        }
        Query::Total(aggs, of) => {
            let of = counted_plan(alloc, of, schemas, counts)?;
            total_of(alloc, aggs.as_slice(), of)
        }
    }
}
