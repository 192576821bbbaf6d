//! The plan of a tree, over sources that are put behind others.
//!
//! The plan of a grouping holds its input twice or more, and so do those of distinct rows by points and, with its combined
//! left side, of a difference. So the plans of these inputs stand among the sources: each operator of the tree is run once,
//! and each plan grows with the tree alone.
ghost use Rattle.std.specs.Prelude.{IfOk};
ghost use Rattle.au_algebra.specs.Trees.{Difference, Distinct, Group, Product, Union, tree};
ghost use Rattle.au_algebra.specs.Typing.{IsTyped};
ghost use Rattle.au_plain.specs.Plans.{plan_tree};
ghost use Rattle.au_typing.specs.Queries.{relations, table_kinds};
ghost use Rattle.au_program.specs.Programs.{PlansCombined, PlansTree};
ghost use Rattle.au_program.specs.Rules.{IsCompression};

use crate::compressing::scanned_pairs;
use crate::rules::Rules;
use crate::sources::Sources;
use crate::stage::{scanned_groups, scanned_step, scanned_table};
use crate::steps::{
    Planned, combined_of, difference_of, distinct_by_points_of, distinct_of, product_of,
    project_of, select_of, total_of, union_of,
};
use au_algebra::{Agg, Query};
use au_typing::Schema;
use au_value::{NoMemory, beside};
use std::alloc::Global;

/// The plan of a tree that is typed for tables of these schemas, over sources that it puts behind others.
///
/// `NoMemory` comes also where a row cannot have so many columns.
#[cycle(plans)]
pub(crate) fn planned(
    alloc: Global,
    query: &Query,
    schemas: &[Schema],
    rules: Rules,
    sources: &mut Sources,
) -> Result<Planned, NoMemory>
    requires typed { IsTyped (table_kinds (relations schemas.now)) (tree query.now) }
    requires compression { IsCompression rules.compress }
    ensures { IfOk result (λ p. PlansTree rules (table_kinds (relations schemas.now)) (tree query.now) sources.old sources.new (plan_tree p.plan) p.layout.columns) }
{
    match query {
        Query::Table(place) => match schemas.get(*place) {
            Some(schema) => scanned_table(alloc, *place, schema.columns.len(), sources),
            None => unreachable!(),
        },
        Query::Select(condition, of) => {
            let of = planned(alloc, of, schemas, rules, sources)?;
            select_of(alloc, condition, of)
        }
        Query::Project(items, of) => {
            let of = planned(alloc, of, schemas, rules, sources)?;
            project_of(alloc, items.as_slice(), of)
        }
        Query::Product(left, right) => paired(alloc, left, right, schemas, rules, sources),
        Query::Union(left, right) => united(alloc, left, right, schemas, rules, sources),
        Query::Difference(left, right) => lessened(alloc, left, right, schemas, rules, sources),
        Query::Distinct(of) => deduplicated(alloc, of, schemas, rules, sources),
        Query::Group(keys, aggs, of) => {
            grouped(alloc, *keys, aggs.as_slice(), of, schemas, rules, sources)
        }
        Query::Total(aggs, of) => {
            let of = planned(alloc, of, schemas, rules, sources)?;
            total_of(alloc, aggs.as_slice(), of)
        }
    }
}

// The plan of a tree over sources of its own.
#[cycle(plans)]
fn apart(
    alloc: Global,
    query: &Query,
    schemas: &[Schema],
    rules: Rules,
) -> Result<(Planned, Sources), NoMemory>
    requires typed { IsTyped (table_kinds (relations schemas.now)) (tree query.now) }
    requires compression { IsCompression rules.compress }
    ensures { IfOk result (λ p. PlansTree rules (table_kinds (relations schemas.now)) (tree query.now) Sources.Nothing p.1 (plan_tree p.0.plan) p.0.layout.columns) }
{
    let mut own = Sources::Nothing;
    let first = planned(alloc, query, schemas, rules, &mut own);
    let made = beside(first, own)?;
    Ok(made)
}

// The Scan of what is found by the plan of a tree.
#[cycle(plans)]
fn first_found(
    alloc: Global,
    query: &Query,
    schemas: &[Schema],
    rules: Rules,
    sources: &mut Sources,
) -> Result<Planned, NoMemory>
    requires typed { IsTyped (table_kinds (relations schemas.now)) (tree query.now) }
    requires compression { IsCompression rules.compress }
    ensures { IfOk result (λ p. PlansTree rules (table_kinds (relations schemas.now)) (tree query.now) sources.old sources.new (plan_tree p.plan) p.layout.columns) }
{
    let of = apart(alloc, query, schemas, rules)?;
    let (of, own) = of;
    let scan = scanned_step(alloc, of, own, sources)?;
    Ok(scan)
}

// The groups of a tree by so many leading columns, with aggregates, by points or by the hulls of keys.
#[cycle(plans)]
fn grouped(
    alloc: Global,
    keys: usize,
    aggs: &[Agg],
    of: &Query,
    schemas: &[Schema],
    rules: Rules,
    sources: &mut Sources,
) -> Result<Planned, NoMemory>
    requires typed { IsTyped (table_kinds (relations schemas.now)) (Group keys aggs.now (tree of.now)) }
    requires compression { IsCompression rules.compress }
    ensures { IfOk result (λ p. PlansTree rules (table_kinds (relations schemas.now)) (Group keys aggs.now (tree of.now)) sources.old sources.new (plan_tree p.plan) p.layout.columns) }
{
    let mut own = Sources::Nothing;
    let first = first_found(alloc, of, schemas, rules, &mut own);
    let (of, own) = beside(first, own)?;
    let scan = scanned_groups(alloc, keys, aggs, rules.points, of, own, sources)?;
    Ok(scan)
}

// The distinct rows of a tree.
#[cycle(plans)]
fn deduplicated(
    alloc: Global,
    of: &Query,
    schemas: &[Schema],
    rules: Rules,
    sources: &mut Sources,
) -> Result<Planned, NoMemory>
    requires typed { IsTyped (table_kinds (relations schemas.now)) (Distinct (tree of.now)) }
    requires compression { IsCompression rules.compress }
    ensures { IfOk result (λ p. PlansTree rules (table_kinds (relations schemas.now)) (Distinct (tree of.now)) sources.old sources.new (plan_tree p.plan) p.layout.columns) }
{
    if rules.points {
        let of = first_found(alloc, of, schemas, rules, sources)?;
        let rows = distinct_by_points_of(alloc, of)?;
        return Ok(rows);
    }
    let of = planned(alloc, of, schemas, rules, sources)?;
    let rows = distinct_of(alloc, of)?;
    Ok(rows)
}

// Each pair of rows of two trees.
#[cycle(plans)]
fn paired(
    alloc: Global,
    left: &Query,
    right: &Query,
    schemas: &[Schema],
    rules: Rules,
    sources: &mut Sources,
) -> Result<Planned, NoMemory>
    requires typed { IsTyped (table_kinds (relations schemas.now)) (Product (tree left.now) (tree right.now)) }
    requires compression { IsCompression rules.compress }
    ensures { IfOk result (λ p. PlansTree rules (table_kinds (relations schemas.now)) (Product (tree left.now) (tree right.now)) sources.old sources.new (plan_tree p.plan) p.layout.columns) }
{
    match rules.compress {
        None => {
            let first = planned(alloc, left, schemas, rules, sources)?;
            let second = planned(alloc, right, schemas, rules, sources);
            let (right, left) = beside(second, first)?;
            let pairs = product_of(alloc, left, right)?;
            Ok(pairs)
        }
        Some(size) => {
            let first = apart(alloc, left, schemas, rules)?;
            let second = apart(alloc, right, schemas, rules);
            let (right, left) = beside(second, first)?;
            let pairs = scanned_pairs(alloc, left, right, size, sources)?;
            Ok(pairs)
        }
    }
}

// The rows of two trees.
#[cycle(plans)]
fn united(
    alloc: Global,
    left: &Query,
    right: &Query,
    schemas: &[Schema],
    rules: Rules,
    sources: &mut Sources,
) -> Result<Planned, NoMemory>
    requires typed { IsTyped (table_kinds (relations schemas.now)) (Union (tree left.now) (tree right.now)) }
    requires compression { IsCompression rules.compress }
    ensures { IfOk result (λ p. PlansTree rules (table_kinds (relations schemas.now)) (Union (tree left.now) (tree right.now)) sources.old sources.new (plan_tree p.plan) p.layout.columns) }
{
    let first = planned(alloc, left, schemas, rules, sources)?;
    let second = planned(alloc, right, schemas, rules, sources);
    let (right, left) = beside(second, first)?;
    let rows = union_of(alloc, left, right)?;
    Ok(rows)
}

// The Scan of the combined rows of a tree, which are found first.
#[cycle(plans)]
fn first_combined(
    alloc: Global,
    query: &Query,
    schemas: &[Schema],
    rules: Rules,
    sources: &mut Sources,
) -> Result<Planned, NoMemory>
    requires typed { IsTyped (table_kinds (relations schemas.now)) (tree query.now) }
    requires compression { IsCompression rules.compress }
    ensures { IfOk result (λ p. PlansCombined rules (table_kinds (relations schemas.now)) (tree query.now) sources.old sources.new (plan_tree p.plan) p.layout.columns) }
{
    let first = apart(alloc, query, schemas, rules)?;
    let (of, own) = first;
    let made = combined_of(alloc, of);
    let (combined, own) = beside(made, own)?;
    let scan = scanned_step(alloc, combined, own, sources)?;
    Ok(scan)
}

// The rows of a tree, each less those of another one.
#[cycle(plans)]
fn lessened(
    alloc: Global,
    left: &Query,
    right: &Query,
    schemas: &[Schema],
    rules: Rules,
    sources: &mut Sources,
) -> Result<Planned, NoMemory>
    requires typed { IsTyped (table_kinds (relations schemas.now)) (Difference (tree left.now) (tree right.now)) }
    requires compression { IsCompression rules.compress }
    ensures { IfOk result (λ p. PlansTree rules (table_kinds (relations schemas.now)) (Difference (tree left.now) (tree right.now)) sources.old sources.new (plan_tree p.plan) p.layout.columns) }
{
    let first = first_combined(alloc, left, schemas, rules, sources)?;
    let second = planned(alloc, right, schemas, rules, sources);
    let (right, left) = beside(second, first)?;
    let rows = difference_of(alloc, left, right)?;
    Ok(rows)
}
