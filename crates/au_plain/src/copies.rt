//! Copies of plans and of their expressions, so that a plan can stand in another one twice.
ghost use Rattle.std.specs.Prelude.{◌≡◌, IfOk, map};
ghost use Rattle.au_plain.specs.PTerms.{pterm};
ghost use Rattle.au_plain.specs.Plans.{plan_tree};
ghost use Rattle.au_plain.specs.Copies.{with_part, with_parts};

use crate::expr::PExpr;
use crate::plan::{PAgg, Plan};
use crate::plans::{extend, filter, group, join, keep, union};
use crate::rows::copy_rows;
use crate::terms::{add, and, case, compare, multiply, negate, not, or, subtract};
use au_value::{NoMemory, both, copy};
use std::alloc::Global;

/// A copy of a plan, with copies of the rows and the values in it.
pub fn copy_plan(alloc: Global, plan: &Plan) -> Result<Plan, NoMemory>
    ensures { IfOk result (λ p. plan_tree p ≡ plan_tree plan.now) }
{
    match plan {
        Plan::Scan(table, width) => Ok(Plan::Scan(*table, *width)),
        Plan::Rows(width, rows) => Ok(Plan::Rows(*width, copy_rows(alloc, rows)?)),
        Plan::Extend(e, of) => {
            let (term, part) = both(copy_expr(alloc, e), copy_plan(alloc, of))?;
            extend(alloc, term, part)
        }
        Plan::Keep(places, of) => {
            let (places, part) = both(copy_places(alloc, places), copy_plan(alloc, of))?;
            keep(alloc, places, part)
        }
        Plan::Filter(e, of) => {
            let (term, part) = both(copy_expr(alloc, e), copy_plan(alloc, of))?;
            filter(alloc, term, part)
        }
        Plan::Join(e, a, b) => {
            let sides = both(copy_plan(alloc, a), copy_plan(alloc, b));
            let (test, (left, right)) = both(copy_expr(alloc, e), sides)?;
            join(alloc, test, left, right)
        }
        Plan::Union(a, b) => {
            let (left, right) = both(copy_plan(alloc, a), copy_plan(alloc, b))?;
            union(alloc, left, right)
        }
        Plan::Group(keys, aggs, of) => {
            let lists = both(copy_places(alloc, keys), copy_aggs(alloc, aggs));
            let ((keys, aggs), part) = both(lists, copy_plan(alloc, of))?;
            group(alloc, keys, aggs, part)
        }
    }
}

/// A copy of an expression, with copies of the values in it.
#[cycle(copies)]
pub fn copy_expr(alloc: Global, tree: &PExpr) -> Result<PExpr, NoMemory>
    ensures { IfOk result (λ e. pterm e ≡ pterm tree.now) }
{
    match tree {
        PExpr::Column(i) => Ok(PExpr::Column(*i)),
        PExpr::Literal(v) => Ok(PExpr::Literal(copy(v)?)),
        PExpr::Negate(a) | PExpr::Not(a) => {
            let part = copy_expr(alloc, a)?;
            of_part(alloc, tree, part)
        }
        PExpr::Add(a, b)
        | PExpr::Subtract(a, b)
        | PExpr::Multiply(a, b)
        | PExpr::Compare(_, a, b)
        | PExpr::And(a, b)
        | PExpr::Or(a, b) => {
            let (left, right) = both(copy_expr(alloc, a), copy_expr(alloc, b))?;
            of_parts(alloc, tree, left, right)
        }
        PExpr::Case(c, a, b) => {
            let branches = both(copy_expr(alloc, a), copy_expr(alloc, b));
            let (test, (left, right)) = both(copy_expr(alloc, c), branches)?;
            case(alloc, test, left, right)
        }
        PExpr::Least(es) => Ok(PExpr::Least(copy_all(alloc, es)?)),
        PExpr::Greatest(es) => Ok(PExpr::Greatest(copy_all(alloc, es)?)),
    }
}

// Copies of some expressions.
#[cycle(copies)]
fn copy_all(alloc: Global, es: &[PExpr]) -> Result<Vec<PExpr>, NoMemory>
    ensures { IfOk result (λ v. map pterm v.items ≡ map pterm es.now) }
{
    let mut copied = Vec::new(alloc);
    for e in es {
        copied.push(copy_expr(alloc, e)?)?;
    }
    Ok(copied)
}

/// The operator of an expression with one part, over another part; of any other expression that part itself.
pub fn of_part(alloc: Global, tree: &PExpr, part: PExpr) -> Result<PExpr, NoMemory>
    ensures { IfOk result (λ e. pterm e ≡ with_part (pterm tree.now) (pterm part)) }
{
    match tree {
        PExpr::Negate(_) => negate(alloc, part),
        PExpr::Not(_) => not(alloc, part),
        PExpr::Column(_)
        | PExpr::Literal(_)
        | PExpr::Add(_, _)
        | PExpr::Subtract(_, _)
        | PExpr::Multiply(_, _)
        | PExpr::Compare(_, _, _)
        | PExpr::And(_, _)
        | PExpr::Or(_, _)
        | PExpr::Case(_, _, _)
        | PExpr::Least(_)
        | PExpr::Greatest(_) => Ok(part),
    }
}

/// The operator of an expression with two parts, over two other parts; of any other expression the first of them.
pub fn of_parts(alloc: Global, tree: &PExpr, left: PExpr, right: PExpr) -> Result<PExpr, NoMemory>
    ensures { IfOk result (λ e. pterm e ≡ with_parts (pterm tree.now) (pterm left) (pterm right)) }
{
    match tree {
        PExpr::Add(_, _) => add(alloc, left, right),
        PExpr::Subtract(_, _) => subtract(alloc, left, right),
        PExpr::Multiply(_, _) => multiply(alloc, left, right),
        PExpr::Compare(how, _, _) => compare(alloc, *how, left, right),
        PExpr::And(_, _) => and(alloc, left, right),
        PExpr::Or(_, _) => or(alloc, left, right),
        PExpr::Column(_)
        | PExpr::Literal(_)
        | PExpr::Negate(_)
        | PExpr::Not(_)
        | PExpr::Case(_, _, _)
        | PExpr::Least(_)
        | PExpr::Greatest(_) => Ok(left),
    }
}

fn copy_places(alloc: Global, places: &[usize]) -> Result<Vec<usize>, NoMemory>
    ensures { IfOk result (λ v. v.items ≡ places.now) }
{
    let mut copied = Vec::with_capacity(alloc, places.len())?;
    for place in places {
        copied.push(*place)?;
    }
    Ok(copied)
}

fn copy_aggs(alloc: Global, aggs: &[PAgg]) -> Result<Vec<PAgg>, NoMemory>
    ensures { IfOk result (λ v. v.items ≡ aggs.now) }
{
    let mut copied = Vec::with_capacity(alloc, aggs.len())?;
    for agg in aggs {
        copied.push(*agg)?;
    }
    Ok(copied)
}
