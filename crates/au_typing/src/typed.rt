//! Statements over tables of known columns.
ghost use Rattle.std.specs.Prelude.{◌≡◌, ◌<◌, Some, IfOk, IfErr, IfSome, IsTrue, flat_map, length, map, position};
ghost use Rattle.std.specs.Str.{str_eq_ignore_ascii_case};
ghost use Rattle.au_algebra.specs.Trees.{tree};
ghost use Rattle.au_algebra.specs.Typing.{kinds_of};
ghost use Rattle.au_value.specs.Order.{data_kind};
ghost use Rattle.au_parse.specs.Views.{statement_tree};
ghost use Rattle.au_parse.specs.Whole.{WholeQuery};
ghost use Rattle.au_typing.specs.Queries.{IsWellTyped, typing_defects, resolved_kinds, kinds_of_columns, resolved_names, relations, table_kinds, table_place, table_typing, resolved_tree, typing, Refuses};
ghost use Rattle.au_typing.specs.MadeColumns.{makes_few_columns};
ghost use Rattle.au_typing.specs.Judged.{Judges, JudgesSides, Shows, source_faults, source_item};
ghost use Rattle.au_typing.specs.Results.{from_view};

use crate::fault::TypingFault;
use crate::from_items::FromPart;
use crate::part::Part;
use crate::schema::Schema;
use crate::scope::same_word;
use crate::select::select;
use crate::sets::{except, union};
use au_algebra::Query;
use au_blocks::{Column, copy_columns};
use au_parse::{Source, Statement};
use au_value::{Kind, NoMemory, Word, beside};
use std::alloc::Global;

/// A well-typed statement: its tree, and the name and the kind of each column.
#[derive(Drop)]
pub struct Typed {
    pub query: Query,
    pub names: Vec<Word>,
    pub kinds: Vec<Kind>,
}

// The number of the table of a name.
fn table_of(schemas: &[Schema], word: &Word) -> Option<usize>
    ensures place { result ≡ position (λ schema. str_eq_ignore_ascii_case schema.name word.now) schemas.now }
    ensures within { IfSome result (λ i. i < length schemas.now) }
{
    schemas
        .iter()
        .position(|schema| same_word(&schema.name, word))
}

// The table of a name.
fn table(alloc: Global, schemas: &[Schema], at: usize, word: &Word) -> Result<Part, TypingFault>
    ensures { Judges (table_typing (relations schemas.now) at (table_place (relations schemas.now) word.now)) result }
{
    match table_of(schemas, word) {
        Some(place) => {
            let columns = copy_columns(alloc, schemas[place].columns.as_slice())?;
            Ok(Part {
                query: Query::Table(place),
                columns,
                joins: false,
            })
        }
        None => Err(TypingFault::UnknownTable(at)),
    }
}

// A statement.
#[cycle(statements)]
fn query(alloc: Global, schemas: &[Schema], statement: &Statement) -> Result<Part, TypingFault>
    ensures { Judges (typing (relations schemas.now) (statement_tree statement.now)) result }
{
    match statement {
        Statement::Select(part) => match sources(alloc, schemas, part.sources.as_slice()) {
            Ok(from) => select(alloc, part, from),
            Err(fault) => Err(fault),
        },
        Statement::Union(all, at, l, r) => match sides(alloc, schemas, l, r) {
            Ok((left, right)) => union(alloc, *all, *at, left, right),
            Err(fault) => Err(fault),
        },
        Statement::Except(all, at, l, r) => match sides(alloc, schemas, l, r) {
            Ok((left, right)) => except(alloc, *all, *at, left, right),
            Err(fault) => Err(fault),
        },
    }
}

// The sides of a set word.
#[cycle(statements)]
fn sides(
    alloc: Global,
    schemas: &[Schema],
    left: &Statement,
    right: &Statement,
) -> Result<(Part, Part), TypingFault>
    ensures { JudgesSides (typing (relations schemas.now) (statement_tree left.now)) (typing (relations schemas.now) (statement_tree right.now)) result }
{
    match query(alloc, schemas, left) {
        Ok(a) => match query(alloc, schemas, right) {
            Ok(b) => Ok((a, b)),
            Err(fault) => Err(fault),
        },
        Err(fault) => Err(fault),
    }
}

// The FROM items of a SELECT.
#[cycle(statements)]
fn sources(alloc: Global, schemas: &[Schema], list: &[Source]) -> Result<Vec<FromPart>, TypingFault>
    ensures items { IfOk result (λ v. map from_view v.items ≡ map (source_item (relations schemas.now)) list.now) }
    ensures fault { IfErr result (Refuses (flat_map (source_faults (relations schemas.now)) list.now)) }
{
    let mut from = Vec::new(alloc);
    for source in list {
        match from_part(alloc, schemas, source) {
            Ok(item) => from.push(item)?,
            Err(fault) => return Err(fault),
        }
    }
    Ok(from)
}

// A FROM item.
#[cycle(statements)]
fn from_part(alloc: Global, schemas: &[Schema], source: &Source) -> Result<FromPart, TypingFault>
    ensures item { IfOk result (λ p. from_view p ≡ source_item (relations schemas.now) source.now) }
    ensures fault { IfErr result (Refuses (source_faults (relations schemas.now) source.now)) }
{
    match source {
        Source::Table(at, word, alias) => {
            let part = table(alloc, schemas, *at, word);
            visible(*at, alias.as_ref().unwrap_or(word), part)
        }
        Source::Inner(at, inner, alias) => {
            let part = query(alloc, schemas, inner);
            visible(*at, alias, part)
        }
    }
}

// What is at this place, visible under a name.
fn visible(at: usize, name: &Word, part: Result<Part, TypingFault>) -> Result<FromPart, TypingFault>
    ensures { Shows at name.now part result }
{
    match part {
        Ok(part) => {
            let name = name.copy()?;
            Ok(FromPart { at, name, part })
        }
        Err(fault) => Err(fault),
    }
}

// The names and the kinds of columns.
fn names_and_kinds(alloc: Global, columns: Vec<Column>) -> Result<(Vec<Word>, Vec<Kind>), NoMemory>
    ensures names { IfOk result (λ r. r.0.items ≡ map (λ c. c.name) columns.items) }
    ensures kinds { IfOk result (λ r. r.1.items ≡ kinds_of_columns columns.items) }
{
    let mut names = Vec::new(alloc);
    let mut kinds = Vec::new(alloc);
    for column in columns {
        names.push(column.name)?;
        kinds.push(column.kind)?;
    }
    Ok((names, kinds))
}

// A tree with the names and the kinds of its columns.
fn with_columns(alloc: Global, query: Query, columns: Vec<Column>) -> Result<Typed, NoMemory>
    ensures tree { IfOk result (λ t. tree t.query ≡ tree query) }
    ensures names { IfOk result (λ t. t.names.items ≡ map (λ c. c.name) columns.items) }
    ensures kinds { IfOk result (λ t. t.kinds.items ≡ kinds_of_columns columns.items) }
{
    let ((names, kinds), query) = beside(names_and_kinds(alloc, columns), query)?;
    Ok(Typed {
        query,
        names,
        kinds,
    })
}

/// The tree of a statement over these tables, and the names and kinds of its columns. A fault names a place at which
/// that defect stands; where several stand, it may be any of them. `NoMemory` comes also where the tree would make more
/// than 8,192 columns along a path, as stars in nested SELECTs can.
pub fn resolve(
    alloc: Global,
    statement: &Statement,
    schemas: &[Schema],
) -> Result<Typed, TypingFault>
    requires { WholeQuery (statement_tree statement.now) }
    ensures well_typed { IfOk result (λ _. IsWellTyped (relations schemas.now) (statement_tree statement.now)) }
    ensures tree { IfOk result (λ t. tree t.query ≡ resolved_tree (relations schemas.now) (statement_tree statement.now)) }
    ensures names { IfOk result (λ t. t.names.items ≡ resolved_names (relations schemas.now) (statement_tree statement.now)) }
    ensures kinds { IfOk result (λ t. t.kinds.items ≡ resolved_kinds (relations schemas.now) (statement_tree statement.now)) }
    ensures few { IfOk result (λ t. IsTrue (makes_few_columns (tree t.query))) }
    ensures typed { IfOk result (λ t. kinds_of (table_kinds (relations schemas.now)) (tree t.query) ≡ Some (map data_kind t.kinds.items)) }
    ensures fault { IfErr result (Refuses (typing_defects (relations schemas.now) (statement_tree statement.now))) }
{
    match query(alloc, schemas, statement) {
        Ok(part) => Ok(with_columns(alloc, part.query, part.columns)?),
        Err(fault) => Err(fault),
    }
}
