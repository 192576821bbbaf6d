//! The kinds of a plan's rows.
ghost use Rattle.std.specs.Prelude.{◌≡◌, ◌++◌, IfOk, None, OnOk, map, option_map, slice_get, unwrap_or};
ghost use Rattle.std.specs.Option.{option_or};
ghost use Rattle.au_physical.specs.Physicals.{physical_tree};
ghost use Rattle.au_plain.specs.PTerms.{pterm};
ghost use Rattle.au_value.specs.Order.{kind_of};
ghost use Rattle.au_exec.specs.KnownKinds.{agg_kind as agg_kind_of, all_held, first_kinds, grouped_kinds, held_kinds, joined_kinds, kinds_at as kinds_at_of, known_kinds, with_kind as with_kind_of};

use crate::term_kinds::{agg_kind, kind_at, term_kind};
use au_physical::Physical;
use au_plain::{PAgg, PExpr, PRow};
use au_value::{Kind, NoMemory, Value, both, kind};
use std::alloc::Global;

/// The kinds of a typed plan's rows, over tables whose rows have these kinds. Of a table without rows, and of a plan that
/// has none because a table has none, they aren't known.
pub fn kinds_of(
    alloc: Global,
    plan: &Physical,
    tables: &[Option<Vec<Kind>>],
) -> Result<Option<Vec<Kind>>, NoMemory>
    ensures { IfOk result (λ v. held_kinds v ≡ known_kinds (all_held tables.now) (physical_tree plan.now)) }
{
    match plan {
        Physical::Scan(place, _) => table_kinds(alloc, tables, *place),
        Physical::Rows(_, rows) => kinds_of_rows(alloc, rows),
        Physical::Filter(_, of) => kinds_of(alloc, of, tables),
        Physical::Extend(tree, of) => {
            let found = kinds_of(alloc, of, tables)?;
            with_kind(found, tree)
        }
        Physical::Keep(places, of) => {
            let found = kinds_of(alloc, of, tables)?;
            kinds_at_all(alloc, found, places)
        }
        Physical::Group(keys, aggs, of) => {
            let found = kinds_of(alloc, of, tables)?;
            kinds_of_groups(alloc, found, keys, aggs)
        }
        Physical::Nested(_, left, right)
        | Physical::Hash(_, _, left, right)
        | Physical::Overlap(_, _, left, right) => {
            let (first, second) = both(
                kinds_of(alloc, left, tables),
                kinds_of(alloc, right, tables),
            )?;
            joined(first, second)
        }
        Physical::Union(left, right) => {
            let (first, second) = both(
                kinds_of(alloc, left, tables),
                kinds_of(alloc, right, tables),
            )?;
            Ok(either(first, second))
        }
    }
}

// Those of a table.
fn table_kinds(
    alloc: Global,
    tables: &[Option<Vec<Kind>>],
    place: usize,
) -> Result<Option<Vec<Kind>>, NoMemory>
    ensures { IfOk result (λ v. held_kinds v ≡ unwrap_or (slice_get (all_held tables.now) place) None) }
{
    if place >= tables.len() {
        return Ok(None);
    }
    match &tables[place] {
        Some(kinds) => Ok(Some(Vec::from_slice(alloc, kinds)?)),
        None => Ok(None),
    }
}

/// The kinds of the first of some rows, if there is one.
pub(crate) fn kinds_of_rows(alloc: Global, rows: &[PRow]) -> Result<Option<Vec<Kind>>, NoMemory>
    ensures { IfOk result (λ v. held_kinds v ≡ first_kinds (map (λ row. row.items) rows.now)) }
{
    if rows.is_empty() {
        return Ok(None);
    }
    Ok(Some(row_kinds(alloc, &rows[0])?))
}

// The kinds of a row.
fn row_kinds(alloc: Global, row: &[Value]) -> Result<Vec<Kind>, NoMemory>
    ensures { IfOk result (λ v. v.items ≡ map kind_of row.now) }
{
    let mut kinds = Vec::with_capacity(alloc, row.len())?;
    for value in row {
        kinds.push(kind(value))?;
    }
    Ok(kinds)
}

// With the kind of an expression behind the others.
fn with_kind(found: Option<Vec<Kind>>, tree: &PExpr) -> Result<Option<Vec<Kind>>, NoMemory>
    ensures { IfOk result (λ v. held_kinds v ≡ option_map (λ ks. with_kind_of ks (pterm tree.now)) (held_kinds found)) }
{
    match found {
        Some(kinds) => {
            let mut kinds = kinds;
            let last = term_kind(&kinds, tree);
            kinds.push(last)?;
            Ok(Some(kinds))
        }
        None => Ok(None),
    }
}

// The kinds in some places.
fn kinds_at_all(
    alloc: Global,
    found: Option<Vec<Kind>>,
    places: &[usize],
) -> Result<Option<Vec<Kind>>, NoMemory>
    ensures { IfOk result (λ v. held_kinds v ≡ option_map (λ ks. kinds_at_of ks places.now) (held_kinds found)) }
{
    match found {
        Some(kinds) => Ok(Some(kinds_at(alloc, &kinds, places)?)),
        None => Ok(None),
    }
}

// The same of kinds that are known.
fn kinds_at(alloc: Global, kinds: &[Kind], places: &[usize]) -> Result<Vec<Kind>, NoMemory>
    ensures { IfOk result (λ v. v.items ≡ kinds_at_of kinds.now places.now) }
{
    let mut kept = Vec::with_capacity(alloc, places.len())?;
    for place in places {
        kept.push(kind_at(kinds, *place))?;
    }
    Ok(kept)
}

// The kinds of groups: those of their keys, and of the aggregates.
fn kinds_of_groups(
    alloc: Global,
    found: Option<Vec<Kind>>,
    keys: &[usize],
    aggs: &[PAgg],
) -> Result<Option<Vec<Kind>>, NoMemory>
    ensures { IfOk result (λ v. held_kinds v ≡ option_map (grouped_kinds keys.now aggs.now) (held_kinds found)) }
{
    match found {
        Some(kinds) => Ok(Some(group_kinds(alloc, &kinds, keys, aggs)?)),
        None => Ok(None),
    }
}

// The same of kinds that are known.
fn group_kinds(
    alloc: Global,
    kinds: &[Kind],
    keys: &[usize],
    aggs: &[PAgg],
) -> Result<Vec<Kind>, NoMemory>
    ensures { IfOk result (λ v. v.items ≡ grouped_kinds keys.now aggs.now kinds.now) }
{
    let mut made = kinds_at(alloc, kinds, keys)?;
    put_agg_kinds(kinds, aggs, &mut made)?;
    Ok(made)
}

// Puts the kinds of aggregates behind others.
fn put_agg_kinds(kinds: &[Kind], aggs: &[PAgg], made: &mut Vec<Kind>) -> Result<(), NoMemory>
    ensures { OnOk result (made.new.items ≡ made.old.items ++ map (agg_kind_of kinds.now) aggs.now) }
{
    for agg in aggs {
        made.push(agg_kind(kinds, *agg))?;
    }
    Ok(())
}

// Those of joined rows.
fn joined(left: Option<Vec<Kind>>, right: Option<Vec<Kind>>) -> Result<Option<Vec<Kind>>, NoMemory>
    ensures { IfOk result (λ v. held_kinds v ≡ joined_kinds (held_kinds left) (held_kinds right)) }
{
    match (left, right) {
        (Some(left), Some(right)) => Ok(Some(beside(left, &right)?)),
        _ => Ok(None),
    }
}

// Kinds and more kinds.
fn beside(left: Vec<Kind>, right: &[Kind]) -> Result<Vec<Kind>, NoMemory>
    ensures { IfOk result (λ v. v.items ≡ left.items ++ right.now) }
{
    let mut left = left;
    left.extend_from_slice(right)?;
    Ok(left)
}

// The left ones, if they are known, and else the right ones.
fn either(left: Option<Vec<Kind>>, right: Option<Vec<Kind>>) -> Option<Vec<Kind>>
    ensures { held_kinds result ≡ option_or (held_kinds left) (held_kinds right) }
{
    match left {
        Some(kinds) => Some(kinds),
        None => right,
    }
}
