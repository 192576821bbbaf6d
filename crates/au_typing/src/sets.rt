//! UNION and EXCEPT: the columns of both sides brought to one kind in each place.
ghost use Rattle.std.specs.Prelude.{◌≡◌, [], true, Contains, IfOk, IfErr, IfSome, IfNone, map};
ghost use Rattle.au_algebra.specs.Trees.{tree};
ghost use Rattle.au_expr.specs.Terms.{term};
ghost use Rattle.au_parse.specs.Tree.{SetWord};
ghost use Rattle.au_typing.specs.Queries.{brought_from, is_narrower, kinds_fit, set_columns, set_tree, set_typing, side_tree, sides_faults, Refuses};
ghost use Rattle.au_typing.specs.Judged.{Brings, FewDigits, Judges};
ghost use Rattle.au_typing.specs.Results.{part_typing};

use crate::fault::TypingFault;
use crate::part::Part;
use crate::scales::{common_kind, rescaled, scale};
use crate::trees::distinct_if;
use au_algebra::Query;
use au_blocks::Column;
use au_expr::Expr;
use au_value::{NoMemory, beside, both};
use std::alloc::Global;

// The sides of a set word, brought to the kinds of its columns, and whether one of them joins.
#[derive(Drop)]
struct Fitted {
    left: Query,
    right: Query,
    columns: Vec<Column>,
    joins: bool,
}

// Whether the columns of two sides are as many, and in each place of kinds that can be brought to one.
fn kinds_fit(left: &[Column], right: &[Column]) -> bool
    ensures { result ≡ kinds_fit left.now right.now }
{
    let mut own = left;
    let mut other = right;
    while let Some((l, more)) = own.split_first() {
        let Some((r, others)) = other.split_first() else {
            return false;
        };
        if common_kind(l.kind, r.kind).is_none() {
            return false;
        }
        own = more;
        other = others;
    }
    other.is_empty()
}

// What is wrong with the columns of the sides of a set word.
fn sides_fault(at: usize, left: &[Column], right: &[Column]) -> Option<TypingFault>
    ensures some { IfSome result (Contains (sides_faults at left.now right.now)) }
    ensures none { IfNone result (sides_faults at left.now right.now ≡ []) }
    ensures fit { IfNone result (kinds_fit left.now right.now ≡ true) }
{
    if left.len() != right.len() {
        Some(TypingFault::WidthMismatch(at))
    } else if kinds_fit(left, right) {
        None
    } else {
        Some(TypingFault::KindMismatch(at))
    }
}

// The columns of a set: the names of its left side, and in each place the kind that both sides are brought to.
fn set_columns(alloc: Global, left: &[Column], right: &[Column]) -> Result<Vec<Column>, NoMemory>
    requires { kinds_fit left.now right.now ≡ true }
    ensures columns { IfOk result (λ v. v.items ≡ set_columns left.now right.now) }
    ensures few { IfOk result (λ v. FewDigits v.items) }
{
    let mut columns = Vec::new(alloc);
    let mut own = left;
    let mut other = right;
    while let Some((l, more)) = own.split_first() {
        let Some((r, others)) = other.split_first() else {
            unreachable!()
        };
        let Some(kind) = common_kind(l.kind, r.kind) else {
            unreachable!()
        };
        let name = l.name.copy()?;
        columns.push(Column { name, kind })?;
        own = more;
        other = others;
    }
    Ok(columns)
}

// Whether one of the columns of a side is of lesser scale than in the set.
fn is_narrower(own: &[Column], columns: &[Column]) -> bool
    ensures { result ≡ is_narrower own.now columns.now }
{
    let mut rest = own;
    let mut to = columns;
    while let Some((c, more)) = rest.split_first() {
        let Some((d, others)) = to.split_first() else {
            return false;
        };
        if scale(Some(c.kind)) < scale(Some(d.kind)) {
            return true;
        }
        rest = more;
        to = others;
    }
    false
}

// The columns of a side, brought to the kinds of a set.
fn brought(alloc: Global, own: &[Column], columns: &[Column]) -> Result<Vec<Expr>, NoMemory>
    requires { FewDigits columns.now }
    ensures { IfOk result (λ v. map term v.items ≡ brought_from 0 own.now columns.now) }
{
    let mut exprs = Vec::new(alloc);
    let mut rest = own;
    let mut to = columns;
    let mut place: usize = 0;
    while let Some((c, more)) = rest.split_first() {
        let Some((d, others)) = to.split_first() else {
            return Ok(exprs);
        };
        let column = Expr::Column(place);
        exprs.push(rescaled(alloc, c.kind, Some(d.kind), column)?)?;
        rest = more;
        to = others;
        place += 1;
    }
    Ok(exprs)
}

// A side of a set of these columns.
fn side(alloc: Global, columns: &[Column], own: &[Column], query: Query) -> Result<Query, NoMemory>
    requires { FewDigits columns.now }
    ensures { IfOk result (λ q. tree q ≡ side_tree columns.now own.now (tree query)) }
{
    if is_narrower(own, columns) {
        let (exprs, query) = beside(brought(alloc, own, columns), query)?;
        Ok(Query::Project(exprs, Box::new(alloc, query)?))
    } else {
        Ok(query)
    }
}

// The columns of a set, where its sides fit.
fn fitted_columns(
    alloc: Global,
    at: usize,
    left: &[Column],
    right: &[Column],
) -> Result<Vec<Column>, TypingFault>
    ensures fit { IfOk result (λ _. sides_faults at left.now right.now ≡ []) }
    ensures columns { IfOk result (λ v. v.items ≡ set_columns left.now right.now) }
    ensures few { IfOk result (λ v. FewDigits v.items) }
    ensures fault { IfErr result (Refuses (sides_faults at left.now right.now)) }
{
    match sides_fault(at, left, right) {
        Some(fault) => Err(fault),
        None => Ok(set_columns(alloc, left, right)?),
    }
}

// What is a side of a set of these columns.
fn side_of(alloc: Global, columns: &[Column], part: Part) -> Result<Query, NoMemory>
    requires { FewDigits columns.now }
    ensures { IfOk result (λ q. tree q ≡ side_tree columns.now part.columns.items (tree part.query)) }
{
    let own = part.columns;
    side(alloc, columns, own.as_slice(), part.query)
}

// Two sides, brought to the kinds of these columns.
fn bring_to(
    alloc: Global,
    columns: Vec<Column>,
    joins: bool,
    left: Part,
    right: Part,
) -> Result<Fitted, NoMemory>
    requires { FewDigits columns.items }
    ensures columns { IfOk result (λ f. f.columns.items ≡ columns.items) }
    ensures left { IfOk result (λ f. tree f.left ≡ side_tree columns.items left.columns.items (tree left.query)) }
    ensures right { IfOk result (λ f. tree f.right ≡ side_tree columns.items right.columns.items (tree right.query)) }
    ensures joins { IfOk result (λ f. f.joins ≡ joins) }
{
    let left = side_of(alloc, columns.as_slice(), left);
    let right = side_of(alloc, columns.as_slice(), right);
    let ((left, right), columns) = beside(both(left, right), columns)?;
    Ok(Fitted {
        left,
        right,
        columns,
        joins,
    })
}

// The sides of a set word, brought to the kinds of its columns.
fn bring(alloc: Global, at: usize, left: Part, right: Part) -> Result<Fitted, TypingFault>
    ensures { Brings at (part_typing left) (part_typing right) result }
{
    let joins = left.joins || right.joins;
    let columns = fitted_columns(alloc, at, left.columns.as_slice(), right.columns.as_slice());
    match beside(columns, (left, right)) {
        Ok((columns, (left, right))) => Ok(bring_to(alloc, columns, joins, left, right)?),
        Err(fault) => Err(fault),
    }
}

// The rows of two trees, each once where not all are wanted.
fn united(alloc: Global, all: bool, left: Query, right: Query) -> Result<Query, NoMemory>
    ensures { IfOk result (λ q. tree q ≡ set_tree SetWord.union all (tree left) (tree right)) }
{
    let (left, right) = both(Box::new(alloc, left), Box::new(alloc, right))?;
    distinct_if(alloc, !all, Query::Union(left, right))
}

// The rows of a tree less those of another one, each once where not all are wanted.
fn lessened(alloc: Global, all: bool, left: Query, right: Query) -> Result<Query, NoMemory>
    ensures { IfOk result (λ q. tree q ≡ set_tree SetWord.except all (tree left) (tree right)) }
{
    let (left, right) = beside(distinct_if(alloc, !all, left), right)?;
    let (left, right) = both(Box::new(alloc, left), Box::new(alloc, right))?;
    Ok(Query::Difference(left, right))
}

/// UNION of two sides.
pub(crate) fn union(
    alloc: Global,
    all: bool,
    at: usize,
    left: Part,
    right: Part,
) -> Result<Part, TypingFault>
    ensures { Judges (set_typing SetWord.union all at (part_typing left) (part_typing right)) result }
{
    match bring(alloc, at, left, right) {
        Ok(sides) => {
            let joins = sides.joins;
            let query = united(alloc, all, sides.left, sides.right);
            let (query, columns) = beside(query, sides.columns)?;
            Ok(Part::new(query, columns, joins)?)
        }
        Err(fault) => Err(fault),
    }
}

/// EXCEPT of two sides.
pub(crate) fn except(
    alloc: Global,
    all: bool,
    at: usize,
    left: Part,
    right: Part,
) -> Result<Part, TypingFault>
    ensures { Judges (set_typing SetWord.except all at (part_typing left) (part_typing right)) result }
{
    match bring(alloc, at, left, right) {
        Ok(sides) => {
            let joins = sides.joins;
            let query = lessened(alloc, all, sides.left, sides.right);
            let (query, columns) = beside(query, sides.columns)?;
            Ok(Part::new(query, columns, joins)?)
        }
        Err(fault) => Err(fault),
    }
}
