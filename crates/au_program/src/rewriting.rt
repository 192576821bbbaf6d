//! The plan of a whole tree, for those who run it themselves.
ghost use Rattle.std.specs.Prelude.{◌≡◌, ◌∷◌, ◌++◌, [], IfOk, OnOk, map, true};
ghost use Rattle.au_value.specs.Order.{data_kind};
ghost use Rattle.au_algebra.specs.Trees.{tree};
ghost use Rattle.au_algebra.specs.Typing.{IsTyped};
ghost use Rattle.au_plain.specs.Plans.{plan_tree};
ghost use Rattle.au_encode.specs.Encode.{encoded_kinds as encoded_kinds_of};
ghost use Rattle.au_split.specs.Reorders.{Reorders};
ghost use Rattle.au_sqltext.specs.Fitting.{written_numbers_fit, widths_fit};
ghost use Rattle.au_typing.specs.Queries.{relations, table_kinds};
ghost use Rattle.au_program.specs.Rewriting.{GivesTree, IsPlanOf};

use crate::steps::{
    Planned, combined_of, difference_of, distinct_of, group_of, product_of, project_of, scan,
    select_of, total_of, union_of,
};
use au_algebra::Query;
use au_blocks::Column;
use au_passes::push;
use au_plain::Plan;
use au_rwgroup::Folding;
use au_split::split;
use au_sqltext::read_numbers;
use au_typing::{Schema, Typed};
use au_value::{Kind, NoMemory, beside, both};
use std::alloc::Global;

/// The plan of a typed tree over the encoded rows of tables, of which the i-th has the columns of the i-th schema. The
/// tree is typed for these columns.
///
/// The plan is one tree of operators, made for a reader or another engine: conditions are tested as near to the tables as
/// they come without arithmetic, and a join of ranges is done in three parts, of which the one for sure ranges is a join by
/// equality. A grouping holds its input twice, a difference its combined left side, and a join of ranges each of its sides
/// three times. Rows come in some order. `NoMemory` comes also where a row cannot have so many columns.
pub fn rewritten(alloc: Global, typed: &Typed, schemas: &[Schema]) -> Result<Plan, NoMemory>
    requires { IsTyped (table_kinds (relations schemas.now)) (tree typed.now.query) }
    ensures plan { IfOk result (λ p. IsPlanOf (table_kinds (relations schemas.now)) (tree typed.now.query) (plan_tree p)) }
    ensures widths { IfOk result (λ p. widths_fit (plan_tree p) ≡ true) }
    ensures numbers { IfOk result (λ p. written_numbers_fit (plan_tree p) ≡ true) }
{
    let planned = plan_of(alloc, &typed.query, schemas)?;
    let plan = arranged(alloc, planned.plan, schemas)?;
    read_numbers(&plan);
    Ok(plan)
}

// The plan as it is best run by an engine that hashes equal columns and knows nothing of ranges.
fn arranged(alloc: Global, plan: Plan, schemas: &[Schema]) -> Result<Plan, NoMemory>
    ensures { IfOk result (λ q. Reorders (map encoded_kinds_of (table_kinds (relations schemas.now))) (plan_tree plan) (plan_tree q)) }
{
    let pushed = push(alloc, plan);
    let made = both(encoded_tables(alloc, schemas), pushed)?;
    split(alloc, made.1, made.0.as_slice())
}

// The kinds of the tables' encoded columns.
fn encoded_tables(alloc: Global, schemas: &[Schema]) -> Result<Vec<Vec<Kind>>, NoMemory>
    ensures { IfOk result (λ v. map (λ ks. ks.items) v.items ≡ map encoded_kinds_of (table_kinds (relations schemas.now))) }
{
    let mut all = Vec::new(alloc);
    for schema in schemas {
        all.push(encoded_kinds(alloc, schema.columns.as_slice())?)?;
    }
    Ok(all)
}

/// The kinds of the encoded columns: that of each column's values three times, and three of whole numbers.
pub fn encoded_kinds(alloc: Global, columns: &[Column]) -> Result<Vec<Kind>, NoMemory>
    ensures { IfOk result (λ v. v.items ≡ encoded_kinds_of (map (λ c. data_kind c.kind) columns.now)) }
{
    let mut kinds = Vec::new(alloc);
    for column in columns {
        push_thrice(&mut kinds, column.kind.data())?;
    }
    push_thrice(&mut kinds, Kind::Int)?;
    Ok(kinds)
}

fn push_thrice(kinds: &mut Vec<Kind>, kind: Kind) -> Result<(), NoMemory>
    ensures { OnOk result (kinds.new.items ≡ kinds.old.items ++ kind ∷ kind ∷ kind ∷ []) }
{
    kinds.push(kind)?;
    kinds.push(kind)?;
    kinds.push(kind)?;
    Ok(())
}

// The plan of a tree, with the number of its columns.
fn plan_of(alloc: Global, query: &Query, schemas: &[Schema]) -> Result<Planned, NoMemory>
    requires { IsTyped (table_kinds (relations schemas.now)) (tree query.now) }
    ensures { IfOk result (λ p. GivesTree (table_kinds (relations schemas.now)) (tree query.now) (plan_tree p.plan) p.layout.columns) }
{
    match query {
        Query::Table(i) => match schemas.get(*i) {
            Some(schema) => scan(*i, schema.columns.len()),
            None => unreachable!(),
        },
        Query::Select(condition, of) => {
            let of = plan_of(alloc, of, schemas)?;
            select_of(alloc, condition, of)
        }
        Query::Project(items, of) => {
            let of = plan_of(alloc, of, schemas)?;
            project_of(alloc, items.as_slice(), of)
        }
        Query::Product(left, right) => {
            let left = plan_of(alloc, left, schemas)?;
            let second = plan_of(alloc, right, schemas);
            let (right, left) = beside(second, left)?;
            product_of(alloc, left, right)
        }
        Query::Union(left, right) => {
            let left = plan_of(alloc, left, schemas)?;
            let second = plan_of(alloc, right, schemas);
            let (right, left) = beside(second, left)?;
            union_of(alloc, left, right)
        }
        Query::Difference(left, right) => {
            let left = plan_of(alloc, left, schemas)?;
            let left = combined_of(alloc, left)?;
            let second = plan_of(alloc, right, schemas);
            let (right, left) = beside(second, left)?;
            difference_of(alloc, left, right)
        }
        Query::Distinct(of) => {
            let of = plan_of(alloc, of, schemas)?;
            distinct_of(alloc, of)
        }
        Query::Group(keys, aggs, of) => {
            let of = plan_of(alloc, of, schemas)?;
            group_of(alloc, *keys, aggs.as_slice(), Folding::EqualKeys, of)
        }
        Query::Total(aggs, of) => {
            let of = plan_of(alloc, of, schemas)?;
            total_of(alloc, aggs.as_slice(), of)
        }
    }
}
