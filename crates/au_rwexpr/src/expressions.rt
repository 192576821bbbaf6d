//! An expression over ranges as plain columns.
ghost use Rattle.std.specs.Prelude.{◌≡◌, ◌+◌, ◌*◌, ◌++◌, IfOk, length, map};
ghost use Rattle.au_expr.specs.Terms.{term};
ghost use Rattle.au_plain.specs.PTerms.{pterm};
ghost use Rattle.au_rwexpr.specs.Adding.{EndsWithKind, EndsWithRange, NumbersStay};
ghost use Rattle.au_rwexpr.specs.Flatten.{flatten as flattened};
ghost use Rattle.au_rwexpr.specs.Nodes.{AddsColumns, nodes, terms_of};

use crate::nodes::{Node, case_node, column_node, literal_node, operator_node};
use crate::range_columns::{RangeColumns, width_of};
use au_expr::Expr;
use au_plain::{Layout, PExpr, Steps};
use au_value::{NoMemory, beside};
use std::alloc::Global;

/// The columns of an expression over encoded rows: three for each node, after those of its parts. The last three hold
/// `lo`, `sg` and `hi` of the whole. No expression is copied.
///
/// `NoMemory` comes also where a row cannot have so many columns.
#[tactic(auto, using(crate::proofs::FlattenLaws::columns_are, crate::proofs::FlattenLaws::three_each, crate::proofs::FlattenLaws::range_last, crate::proofs::FlattenLaws::kind_last, crate::proofs::FlattenLaws::numbers_fit))]
pub fn flatten(alloc: Global, tree: &Expr, layout: &Layout) -> Result<Steps, NoMemory>
    ensures columns { IfOk result (λ s. map pterm s.columns.items ≡ flattened (3 * layout.now.columns + 3) (term tree.now)) }
    ensures three { IfOk result (λ s. length s.columns.items ≡ 3 * nodes (term tree.now)) }
    ensures range { IfOk result (λ s. EndsWithRange layout.now.columns (term tree.now) (map pterm s.columns.items)) }
    ensures kind { IfOk result (λ s. EndsWithKind layout.now.columns (term tree.now) (map pterm s.columns.items)) }
    ensures numbers { IfOk result (λ s. NumbersStay layout.now.columns (term tree.now) (map pterm s.columns.items)) }
{
    let mut columns = Vec::new(alloc);
    let width = width_of(layout)?;
    push_columns(alloc, tree, width, &mut columns)?;
    Ok(Steps { columns })
}

/// Adds the columns of an expression to those of a row of so many, and gives its own three.
///
/// `NoMemory` comes also where a row cannot have so many columns.
#[tactic(auto, using(crate::proofs::Flattening::column_adds, crate::proofs::Flattening::literal_adds))]
pub fn push_columns(
    alloc: Global,
    tree: &Expr,
    width: usize,
    columns: &mut Vec<PExpr>,
) -> Result<RangeColumns, NoMemory>
    ensures { IfOk result (λ r. AddsColumns width (term tree.now) columns.old.items columns.new.items r.first) }
{
    match tree {
        Expr::Column(i) => push_node(column_node(RangeColumns::of(*i)?), width, columns),
        Expr::Literal(value) => push_node(literal_node(value)?, width, columns),
        Expr::Negate(a) | Expr::Not(a) => {
            let part = push_columns(alloc, a, width, columns)?;
            let own = push_node(operator_node(alloc, tree, part, part)?, width, columns)?;
            Ok(own)
        }
        Expr::Add(a, b)
        | Expr::Subtract(a, b)
        | Expr::Multiply(a, b)
        | Expr::Compare(_, a, b)
        | Expr::And(a, b)
        | Expr::Or(a, b) => {
            let left = push_columns(alloc, a, width, columns)?;
            let right = push_columns(alloc, b, width, columns)?;
            let own = push_node(operator_node(alloc, tree, left, right)?, width, columns)?;
            Ok(own)
        }
        Expr::Case(c, a, b) => {
            let test = push_columns(alloc, c, width, columns)?;
            let left = push_columns(alloc, a, width, columns)?;
            let right = push_columns(alloc, b, width, columns)?;
            let own = push_node(case_node(alloc, test, left, right)?, width, columns)?;
            Ok(own)
        }
    }
}

// The place behind all columns.
fn next_columns(width: usize, columns: &[PExpr]) -> Result<RangeColumns, NoMemory>
    ensures { IfOk result (λ r. r.first ≡ width + length columns.now) }
{
    match width.checked_add(columns.len()) {
        Some(place) => RangeColumns::at(place),
        None => Err(NoMemory),
    }
}

// Adds the three columns of a node.
fn push_node(node: Node, width: usize, columns: &mut Vec<PExpr>) -> Result<RangeColumns, NoMemory>
    ensures columns { IfOk result (λ _. map pterm columns.new.items ≡ map pterm columns.old.items ++ terms_of node) }
    ensures place { IfOk result (λ r. r.first ≡ width + length columns.old.items) }
{
    let (at, node) = beside(next_columns(width, columns.as_slice()), node)?;
    let (_, (sg, hi)) = beside(columns.push(node.lo), (node.sg, node.hi))?;
    let (_, hi) = beside(columns.push(sg), hi)?;
    columns.push(hi)?;
    Ok(at)
}
