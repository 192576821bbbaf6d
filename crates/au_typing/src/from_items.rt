//! FROM items: under which names they are visible, the scope that they make, and their product.
ghost use Rattle.std.specs.Prelude.{◌≡◌, ◌++◌, [], Contains, IfOk, IfSome, IfNone, OnOk, map, option_map};
ghost use Rattle.std.specs.List.{list_any};
ghost use Rattle.std.specs.Str.{str_eq_ignore_ascii_case};
ghost use Rattle.au_algebra.specs.Trees.{tree};
ghost use Rattle.au_typing.specs.Results.{from_view, joined_to, scope_view};
ghost use Rattle.au_typing.specs.Selects.{alias_faults, is_join, owned, from_product, scope_of};

use crate::fault::TypingFault;
use crate::part::Part;
use crate::scope::{Field, Scope, same_word};
use au_algebra::Query;
use au_blocks::Column;
use au_value::{NoMemory, Word, both};
use std::alloc::Global;

/// A FROM item: its place, the name under which it is visible, and what it is.
#[derive(Drop)]
pub(crate) struct FromPart {
    pub at: usize,
    pub name: Word,
    pub part: Part,
}

// Whether one of these FROM items is visible under this name.
fn is_visible(from: &[FromPart], name: &Word) -> bool
    ensures { result ≡ list_any (λ item. str_eq_ignore_ascii_case item.name name.now) from.now }
{
    from.iter().any(|item| same_word(&item.name, name))
}

/// The first FROM item that is visible under the name of an earlier one.
pub(crate) fn alias_fault(from: &[FromPart]) -> Option<TypingFault>
    ensures some { IfSome result (Contains (alias_faults [] (map from_view from.now))) }
    ensures none { IfNone result (alias_faults [] (map from_view from.now) ≡ []) }
{
    for (place, item) in from.iter().enumerate() {
        if is_visible(&from[..place], &item.name) {
            return Some(TypingFault::SameAlias(item.at));
        }
    }
    None
}

// Puts the columns of a FROM item behind the others.
fn put_fields(fields: &mut Vec<Field>, owner: &Word, columns: &[Column]) -> Result<(), NoMemory>
    ensures { OnOk result (fields.new.items ≡ fields.old.items ++ map (owned owner.now) columns.now) }
{
    for column in columns {
        fields.push(Field {
            owner: owner.copy()?,
            name: column.name.copy()?,
            kind: column.kind,
        })?;
    }
    Ok(())
}

/// The scope of FROM items.
pub(crate) fn scope_of(alloc: Global, from: &[FromPart]) -> Result<Scope, NoMemory>
    ensures { IfOk result (λ s. scope_view s ≡ scope_of (map from_view from.now)) }
{
    let mut owners = Vec::new(alloc);
    let mut fields = Vec::new(alloc);
    for item in from {
        owners.push(item.name.copy()?)?;
        put_fields(&mut fields, &item.name, item.part.columns.as_slice())?;
    }
    Ok(Scope { owners, fields })
}

// Whether one of these FROM items joins.
fn has_join(from: &[FromPart]) -> bool
    ensures { result ≡ list_any (λ item. item.part.joins) from.now }
{
    from.iter().any(|item| item.part.joins)
}

/// Whether there is more than one FROM item, or one of them joins.
pub(crate) fn is_join(from: &[FromPart]) -> bool
    ensures { result ≡ is_join (map from_view from.now) }
{
    from.len() > 1 || has_join(from)
}

// The tree of a FROM item.
fn query_of(item: FromPart) -> Query
    ensures { tree result ≡ tree item.part.query }
{
    let part = item.part;
    part.query
}

// A tree joined with those before it.
fn joined_to(alloc: Global, before: Option<Query>, query: Query) -> Result<Query, NoMemory>
    ensures { IfOk result (λ q. tree q ≡ joined_to (option_map tree before) (tree query)) }
{
    match before {
        Some(left) => {
            let (left, right) = both(Box::new(alloc, left), Box::new(alloc, query))?;
            Ok(Query::Product(left, right))
        }
        None => Ok(query),
    }
}

/// The FROM items joined from the left.
pub(crate) fn product(alloc: Global, from: Vec<FromPart>) -> Result<Query, NoMemory>
    ensures { IfOk result (λ q. tree q ≡ from_product (map from_view from.items)) }
{
    let mut joined = None;
    for item in from {
        joined = Some(joined_to(alloc, joined, query_of(item))?);
    }
    Ok(joined.unwrap_or(Query::Table(0)))
}
