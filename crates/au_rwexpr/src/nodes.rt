//! The three columns that a node of an expression adds, from those of its parts.
ghost use Rattle.std.specs.Prelude.{◌≡◌, IfOk, Ok};
ghost use Rattle.au_plain.specs.PTerms.{pterm};
ghost use Rattle.au_plain.specs.PTerms as term;
ghost use Rattle.au_rwexpr.specs.Flatten as columns;
ghost use Rattle.au_expr.specs.Terms.{term as tree_of};
ghost use Rattle.au_rwexpr.specs.Nodes.{operator_step, terms_of};

use crate::range_columns::RangeColumns;
use au_expr::Expr;
use au_plain::{
    Comparison2, PExpr, add, and, case, compare, greatest_of_two, least_of_two, multiply, negate,
    not, or, subtract,
};
use au_value::{Comparison, NoMemory, Value, beside, both, copy};
use std::alloc::Global;

/// The terms of a lower end, a guess and an upper end.
#[derive(Drop)]
pub struct Node {
    pub lo: PExpr,
    pub sg: PExpr,
    pub hi: PExpr,
}

/// The columns of an operator, from those of its two parts, or of its one part twice; of anything else a copy of the
/// first.
pub(crate) fn operator_node(
    alloc: Global,
    tree: &Expr,
    a: RangeColumns,
    b: RangeColumns,
) -> Result<Node, NoMemory>
    ensures { IfOk result (λ n. terms_of n ≡ operator_step (tree_of tree.now) a.first b.first) }
{
    match tree {
        Expr::Add(_, _) => add_node(alloc, a, b),
        Expr::Subtract(_, _) => subtract_node(alloc, a, b),
        Expr::Multiply(_, _) => multiply_node(alloc, a, b),
        Expr::Negate(_) => negate_node(alloc, a),
        Expr::Compare(how, _, _) => compare_node(alloc, *how, a, b),
        Expr::And(_, _) => and_node(alloc, a, b),
        Expr::Or(_, _) => or_node(alloc, a, b),
        Expr::Not(_) => not_node(alloc, a),
        Expr::Column(_) | Expr::Literal(_) | Expr::Case(_, _, _) => Ok(column_node(a)),
    }
}

// The three terms, where each could be made.
fn three(
    lo: Result<PExpr, NoMemory>,
    sg: Result<PExpr, NoMemory>,
    hi: Result<PExpr, NoMemory>,
) -> Result<Node, NoMemory>
    ensures { IfOk result (λ n. (lo ≡ Ok n.lo) × (sg ≡ Ok n.sg) × (hi ≡ Ok n.hi)) }
{
    let ((lo, sg), hi) = both(both(lo, sg), hi)?;
    Ok(Node { lo, sg, hi })
}

pub(crate) fn column_node(a: RangeColumns) -> Node
    ensures { terms_of result ≡ columns.column_step a.first }
{
    Node {
        lo: a.lo(),
        sg: a.sg(),
        hi: a.hi(),
    }
}

pub(crate) fn literal_node(value: &Value) -> Result<Node, NoMemory>
    ensures { IfOk result (λ n. terms_of n ≡ columns.three (term.Literal value.now) (term.Literal value.now) (term.Literal value.now)) }
{
    let node = three(literal(value), literal(value), literal(value))?;
    Ok(node)
}

fn literal(value: &Value) -> Result<PExpr, NoMemory>
    ensures { IfOk result (λ e. pterm e ≡ term.Literal value.now) }
{
    Ok(PExpr::Literal(copy(value)?))
}

fn add_node(alloc: Global, a: RangeColumns, b: RangeColumns) -> Result<Node, NoMemory>
    ensures { IfOk result (λ n. terms_of n ≡ columns.add_step a.first b.first) }
{
    let node = three(
        add(alloc, a.lo(), b.lo()),
        add(alloc, a.sg(), b.sg()),
        add(alloc, a.hi(), b.hi()),
    )?;
    Ok(node)
}

fn subtract_node(alloc: Global, a: RangeColumns, b: RangeColumns) -> Result<Node, NoMemory>
    ensures { IfOk result (λ n. terms_of n ≡ columns.subtract_step a.first b.first) }
{
    let node = three(
        subtract(alloc, a.lo(), b.hi()),
        subtract(alloc, a.sg(), b.sg()),
        subtract(alloc, a.hi(), b.lo()),
    )?;
    Ok(node)
}

fn multiply_node(alloc: Global, a: RangeColumns, b: RangeColumns) -> Result<Node, NoMemory>
    ensures { IfOk result (λ n. terms_of n ≡ columns.multiply_step a.first b.first) }
{
    let node = three(
        least_product(alloc, a, b),
        multiply(alloc, a.sg(), b.sg()),
        greatest_product(alloc, a, b),
    )?;
    Ok(node)
}

// The least product of two ends.
fn least_product(alloc: Global, a: RangeColumns, b: RangeColumns) -> Result<PExpr, NoMemory>
    ensures { IfOk result (λ e. pterm e ≡ term.least_of_two (term.least_of_two (term.Multiply (columns.lo a.first) (columns.lo b.first)) (term.Multiply (columns.lo a.first) (columns.hi b.first))) (term.least_of_two (term.Multiply (columns.hi a.first) (columns.lo b.first)) (term.Multiply (columns.hi a.first) (columns.hi b.first)))) }
{
    let lower = lesser_product(alloc, a.first, b);
    let (low, high) = both(lower, lesser_product(alloc, a.first + 2, b))?;
    least_of_two(alloc, low, high)
}

// The greatest product of two ends.
fn greatest_product(alloc: Global, a: RangeColumns, b: RangeColumns) -> Result<PExpr, NoMemory>
    ensures { IfOk result (λ e. pterm e ≡ term.greatest_of_two (term.greatest_of_two (term.Multiply (columns.lo a.first) (columns.lo b.first)) (term.Multiply (columns.lo a.first) (columns.hi b.first))) (term.greatest_of_two (term.Multiply (columns.hi a.first) (columns.lo b.first)) (term.Multiply (columns.hi a.first) (columns.hi b.first)))) }
{
    let lower = greater_product(alloc, a.first, b);
    let (low, high) = both(lower, greater_product(alloc, a.first + 2, b))?;
    greatest_of_two(alloc, low, high)
}

// The lesser product of the column of a place and an end of a range.
fn lesser_product(alloc: Global, place: usize, b: RangeColumns) -> Result<PExpr, NoMemory>
    ensures { IfOk result (λ e. pterm e ≡ term.least_of_two (term.Multiply (term.Column place) (columns.lo b.first)) (term.Multiply (term.Column place) (columns.hi b.first))) }
{
    let first = multiply(alloc, PExpr::Column(place), b.lo());
    let (low, high) = both(first, multiply(alloc, PExpr::Column(place), b.hi()))?;
    least_of_two(alloc, low, high)
}

// The greater product of the column of a place and an end of a range.
fn greater_product(alloc: Global, place: usize, b: RangeColumns) -> Result<PExpr, NoMemory>
    ensures { IfOk result (λ e. pterm e ≡ term.greatest_of_two (term.Multiply (term.Column place) (columns.lo b.first)) (term.Multiply (term.Column place) (columns.hi b.first))) }
{
    let first = multiply(alloc, PExpr::Column(place), b.lo());
    let (low, high) = both(first, multiply(alloc, PExpr::Column(place), b.hi()))?;
    greatest_of_two(alloc, low, high)
}

fn negate_node(alloc: Global, a: RangeColumns) -> Result<Node, NoMemory>
    ensures { IfOk result (λ n. terms_of n ≡ columns.negate_step a.first) }
{
    let node = three(
        negate(alloc, a.hi()),
        negate(alloc, a.sg()),
        negate(alloc, a.lo()),
    )?;
    Ok(node)
}

fn and_node(alloc: Global, a: RangeColumns, b: RangeColumns) -> Result<Node, NoMemory>
    ensures { IfOk result (λ n. terms_of n ≡ columns.and_step a.first b.first) }
{
    let node = three(
        and(alloc, a.lo(), b.lo()),
        and(alloc, a.sg(), b.sg()),
        and(alloc, a.hi(), b.hi()),
    )?;
    Ok(node)
}

fn or_node(alloc: Global, a: RangeColumns, b: RangeColumns) -> Result<Node, NoMemory>
    ensures { IfOk result (λ n. terms_of n ≡ columns.or_step a.first b.first) }
{
    let node = three(
        or(alloc, a.lo(), b.lo()),
        or(alloc, a.sg(), b.sg()),
        or(alloc, a.hi(), b.hi()),
    )?;
    Ok(node)
}

fn not_node(alloc: Global, a: RangeColumns) -> Result<Node, NoMemory>
    ensures { IfOk result (λ n. terms_of n ≡ columns.not_step a.first) }
{
    let node = three(not(alloc, a.hi()), not(alloc, a.sg()), not(alloc, a.lo()))?;
    Ok(node)
}

/// Whether both are certain and equal.
pub fn certainly_equal(alloc: Global, a: RangeColumns, b: RangeColumns) -> Result<PExpr, NoMemory>
    ensures { IfOk result (λ e. pterm e ≡ columns.certainly_equal_term a.first b.first) }
{
    let certain = both_certain(alloc, a, b);
    let (certain, equal) = both(certain, compare(alloc, Comparison2::Equal, a.lo(), b.lo()))?;
    and(alloc, certain, equal)
}

// Whether both are certain.
fn both_certain(alloc: Global, a: RangeColumns, b: RangeColumns) -> Result<PExpr, NoMemory>
    ensures { IfOk result (λ e. pterm e ≡ term.And (term.Compare Comparison2.Equal (columns.lo a.first) (columns.hi a.first)) (term.Compare Comparison2.Equal (columns.lo b.first) (columns.hi b.first))) }
{
    let left = compare(alloc, Comparison2::Equal, a.lo(), a.hi());
    let (left, right) = both(left, compare(alloc, Comparison2::Equal, b.lo(), b.hi()))?;
    and(alloc, left, right)
}

/// Whether they overlap.
pub fn overlap(alloc: Global, a: RangeColumns, b: RangeColumns) -> Result<PExpr, NoMemory>
    ensures { IfOk result (λ e. pterm e ≡ columns.overlap_term a.first b.first) }
{
    let left = compare(alloc, Comparison2::AtMost, a.lo(), b.hi());
    let (left, right) = both(left, compare(alloc, Comparison2::AtMost, b.lo(), a.hi()))?;
    and(alloc, left, right)
}

fn compare_node(
    alloc: Global,
    how: Comparison,
    a: RangeColumns,
    b: RangeColumns,
) -> Result<Node, NoMemory>
    ensures { IfOk result (λ n. terms_of n ≡ columns.compare_step how a.first b.first) }
{
    match how {
        Comparison::Equal => equal_node(alloc, a, b),
        Comparison::Differs => differs_node(alloc, a, b),
        Comparison::Less => order_node(alloc, Comparison2::Less, a, b),
        Comparison::AtMost => order_node(alloc, Comparison2::AtMost, a, b),
        Comparison::Greater => order_node(alloc, Comparison2::Less, b, a),
        Comparison::AtLeast => order_node(alloc, Comparison2::AtMost, b, a),
    }
}

fn equal_node(alloc: Global, a: RangeColumns, b: RangeColumns) -> Result<Node, NoMemory>
    ensures { IfOk result (λ n. terms_of n ≡ columns.three (columns.certainly_equal_term a.first b.first) (term.Compare Comparison2.Equal (columns.sg a.first) (columns.sg b.first)) (columns.overlap_term a.first b.first)) }
{
    let node = three(
        certainly_equal(alloc, a, b),
        compare(alloc, Comparison2::Equal, a.sg(), b.sg()),
        overlap(alloc, a, b),
    )?;
    Ok(node)
}

fn differs_node(alloc: Global, a: RangeColumns, b: RangeColumns) -> Result<Node, NoMemory>
    ensures { IfOk result (λ n. terms_of n ≡ columns.three (term.Not (columns.overlap_term a.first b.first)) (term.Not (term.Compare Comparison2.Equal (columns.sg a.first) (columns.sg b.first))) (term.Not (columns.certainly_equal_term a.first b.first))) }
{
    let node = three(
        apart(alloc, a, b),
        guessed_apart(alloc, a, b),
        perhaps_unequal(alloc, a, b),
    )?;
    Ok(node)
}

// Whether they don't overlap.
fn apart(alloc: Global, a: RangeColumns, b: RangeColumns) -> Result<PExpr, NoMemory>
    ensures { IfOk result (λ e. pterm e ≡ term.Not (columns.overlap_term a.first b.first)) }
{
    not(alloc, overlap(alloc, a, b)?)
}

// Whether their guesses differ.
fn guessed_apart(alloc: Global, a: RangeColumns, b: RangeColumns) -> Result<PExpr, NoMemory>
    ensures { IfOk result (λ e. pterm e ≡ term.Not (term.Compare Comparison2.Equal (columns.sg a.first) (columns.sg b.first))) }
{
    not(alloc, compare(alloc, Comparison2::Equal, a.sg(), b.sg())?)
}

// Whether they are not certain and equal.
fn perhaps_unequal(alloc: Global, a: RangeColumns, b: RangeColumns) -> Result<PExpr, NoMemory>
    ensures { IfOk result (λ e. pterm e ≡ term.Not (columns.certainly_equal_term a.first b.first)) }
{
    not(alloc, certainly_equal(alloc, a, b)?)
}

fn order_node(
    alloc: Global,
    how: Comparison2,
    a: RangeColumns,
    b: RangeColumns,
) -> Result<Node, NoMemory>
    ensures { IfOk result (λ n. terms_of n ≡ columns.three (term.Compare how (columns.hi a.first) (columns.lo b.first)) (term.Compare how (columns.sg a.first) (columns.sg b.first)) (term.Compare how (columns.lo a.first) (columns.hi b.first))) }
{
    let node = three(
        compare(alloc, how, a.hi(), b.lo()),
        compare(alloc, how, a.sg(), b.sg()),
        compare(alloc, how, a.lo(), b.hi()),
    )?;
    Ok(node)
}

pub(crate) fn case_node(
    alloc: Global,
    c: RangeColumns,
    a: RangeColumns,
    b: RangeColumns,
) -> Result<Node, NoMemory>
    ensures { IfOk result (λ n. terms_of n ≡ columns.case_step c.first a.first b.first) }
{
    let node = three(
        case_lo(alloc, c, a, b),
        case_sg(alloc, c, a, b),
        case_hi(alloc, c, a, b),
    )?;
    Ok(node)
}

fn case_lo(
    alloc: Global,
    c: RangeColumns,
    a: RangeColumns,
    b: RangeColumns,
) -> Result<PExpr, NoMemory>
    ensures { IfOk result (λ e. pterm e ≡ columns.by_case c.first (columns.lo a.first) (term.least_of_two (columns.lo a.first) (columns.lo b.first)) (columns.lo b.first)) }
{
    let low = least_of_two(alloc, a.lo(), b.lo())?;
    by_case(alloc, c, a.lo(), low, b.lo())
}

fn case_sg(
    alloc: Global,
    c: RangeColumns,
    a: RangeColumns,
    b: RangeColumns,
) -> Result<PExpr, NoMemory>
    ensures { IfOk result (λ e. pterm e ≡ columns.by_case c.first (columns.sg a.first) (term.Case (columns.sg c.first) (columns.sg a.first) (columns.sg b.first)) (columns.sg b.first)) }
{
    let guess = case(alloc, c.sg(), a.sg(), b.sg())?;
    by_case(alloc, c, a.sg(), guess, b.sg())
}

fn case_hi(
    alloc: Global,
    c: RangeColumns,
    a: RangeColumns,
    b: RangeColumns,
) -> Result<PExpr, NoMemory>
    ensures { IfOk result (λ e. pterm e ≡ columns.by_case c.first (columns.hi a.first) (term.greatest_of_two (columns.hi a.first) (columns.hi b.first)) (columns.hi b.first)) }
{
    let high = greatest_of_two(alloc, a.hi(), b.hi())?;
    by_case(alloc, c, a.hi(), high, b.hi())
}

// The first where the condition is certainly true, the last where it is certainly false, and else the middle.
fn by_case(
    alloc: Global,
    c: RangeColumns,
    a: PExpr,
    middle: PExpr,
    b: PExpr,
) -> Result<PExpr, NoMemory>
    ensures { IfOk result (λ e. pterm e ≡ columns.by_case c.first (pterm a) (pterm middle) (pterm b)) }
{
    let (unsure, sure) = beside(case(alloc, c.hi(), middle, b), a)?;
    case(alloc, c.lo(), sure, unsure)
}
