//! The value of an expression on a row.
ghost use Rattle.std.specs.Prelude.{◌≡◌, IfOk, IfErr, List, MatchResult, Some};
ghost use Rattle.au_value.specs.declared.kinds.Kind.{Kind};
ghost use Rattle.au_value.specs.declared.value.Value.{Value};
ghost use Rattle.au_expr.specs.Evaluate.{evaluate as value_over, HasKind};
ghost use Rattle.au_expr.specs.Figures.{Fit, numbers_of};
ghost use Rattle.au_expr.specs.Holding.{WhichWorld};
ghost use Rattle.au_expr.specs.Kinds.{kind_in};
ghost use Rattle.au_expr.specs.Ordinary.{value_of};
ghost use Rattle.au_expr.specs.Related.{RelatedRows};
ghost use Rattle.au_expr.specs.Steps.{Found};
ghost use Rattle.au_expr.specs.Terms.{term, Case, Term};
ghost use Rattle.au_expr.specs.Views.{seen, IfMade};
ghost use Rattle.au_expr.specs.declared.fault.EvalFault.TheVariants as fault;

use crate::combine::combine;
use crate::domain::Domain;
use crate::expr::Expr;
use crate::fault::EvalFault;
use crate::view::{View, cell};

/// The value of the expression on the row, over any domain. Every subexpression is evaluated, both branches of
/// a CASE included. Overflow comes exactly where a number of a subexpression, or one that a product is chosen
/// from, leaves -2^127 to 2^127-1, unless memory is wanting before.
pub fn evaluate<D: Domain>(tree: &Expr, row: &[D::Cell]) -> Result<D::Cell, EvalFault>
    requires { (k : Kind) × HasKind D.is_kind row.now (term tree.now) k }
    ensures value { IfOk result (λ c. c ≡ value_over D.operators (term tree.now) row.now) }
    ensures kind { IfOk result (λ c. (k : Kind) → HasKind D.is_kind row.now (term tree.now) k → D.is_kind k c) }
    ensures fits { IfOk result (λ _. Fit (numbers_of D.operators D.figures (term tree.now) row.now)) }
    ensures overflow { IfErr result (λ f. f ≡ fault.Overflow → ¬ (Fit (numbers_of D.operators D.figures (term tree.now) row.now))) }
    ensures keeps { IfOk result (λ c. (w : WhichWorld) (ks : List Kind) (vs : List Value) (k : Kind) → RelatedRows (D.stands_for w) ks row.now vs → kind_in ks (term tree.now) ≡ Some k → D.stands_for w k c (value_of (term tree.now) vs)) }
{
    match part_of::<D>(tree, row)? {
        View::Lent(c) => Ok(D::copy(c)?),
        View::Made(c) => Ok(c),
    }
}

// The value, lent by the row where the expression is a column.
#[cycle(views)]
fn view_of<'a, D: Domain>(tree: &Expr, row: &'a [D::Cell]) -> Result<View<'a, D::Cell>, EvalFault>
    requires { (k : Kind) × HasKind D.is_kind row.now (term tree.now) k }
    ensures found { MatchResult result (λ v. Found D.operators D.is_kind D.figures D.stands_for row.now (term tree.now) (seen v)) (λ f. f ≡ fault.Overflow → ¬ (Fit (numbers_of D.operators D.figures (term tree.now) row.now))) }
    ensures made { IfOk result (λ v. IfMade v (Fit (numbers_of D.operators D.figures (term tree.now) row.now))) }
{
    match tree {
        Expr::Column(i) => Ok(View::Lent(&row[*i])),
        Expr::Literal(v) => Ok(View::Made(D::literal(v)?)),
        Expr::Negate(a) | Expr::Not(a) => {
            let x = part_of::<D>(a, row)?;
            Ok(View::Made(combine::<D>(tree, cell(&x), cell(&x))?))
        }
        Expr::Add(a, b)
        | Expr::Subtract(a, b)
        | Expr::Multiply(a, b)
        | Expr::Compare(_, a, b)
        | Expr::And(a, b)
        | Expr::Or(a, b) => {
            let x = part_of::<D>(a, row)?;
            let y = part_of::<D>(b, row)?;
            Ok(View::Made(combine::<D>(tree, cell(&x), cell(&y))?))
        }
        Expr::Case(_, _, _) => choice_of::<D>(tree, row),
    }
}

// The same. What a function holds is zeroed as it is entered, so that columns are found in a small one.
#[cycle(views)]
fn part_of<'a, D: Domain>(tree: &Expr, row: &'a [D::Cell]) -> Result<View<'a, D::Cell>, EvalFault>
    requires { (k : Kind) × HasKind D.is_kind row.now (term tree.now) k }
    ensures found { MatchResult result (λ v. Found D.operators D.is_kind D.figures D.stands_for row.now (term tree.now) (seen v)) (λ f. f ≡ fault.Overflow → ¬ (Fit (numbers_of D.operators D.figures (term tree.now) row.now))) }
    ensures made { IfOk result (λ v. IfMade v (Fit (numbers_of D.operators D.figures (term tree.now) row.now))) }
{
    match tree {
        Expr::Column(i) => Ok(View::Lent(&row[*i])),
        _ => view_of::<D>(tree, row),
    }
}

// The value of a CASE, apart from the others, since it holds the most.
#[cycle(views)]
fn choice_of<'a, D: Domain>(tree: &Expr, row: &'a [D::Cell]) -> Result<View<'a, D::Cell>, EvalFault>
    requires case { (p q r : Term) × (term tree.now ≡ Case p q r) }
    requires kind { (k : Kind) × HasKind D.is_kind row.now (term tree.now) k }
    ensures found { MatchResult result (λ v. Found D.operators D.is_kind D.figures D.stands_for row.now (term tree.now) (seen v)) (λ f. f ≡ fault.Overflow → ¬ (Fit (numbers_of D.operators D.figures (term tree.now) row.now))) }
    ensures made { IfOk result (λ v. IfMade v (Fit (numbers_of D.operators D.figures (term tree.now) row.now))) }
{
    match tree {
        Expr::Case(c, a, b) => {
            let t = part_of::<D>(c, row)?;
            let x = part_of::<D>(a, row)?;
            let y = part_of::<D>(b, row)?;
            Ok(View::Made(D::choose(cell(&t), cell(&x), cell(&y))?))
        }
        _ => unreachable!(),
    }
}
