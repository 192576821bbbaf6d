//! One operator on the cells of its parts.
ghost use Rattle.std.specs.Prelude.{MatchResult};
ghost use Rattle.au_expr.specs.Figures.{Fit};
ghost use Rattle.au_expr.specs.Steps.{Both, Combined, formed};
ghost use Rattle.au_expr.specs.Terms.{term};

use crate::domain::Domain;
use crate::expr::Expr;
use au_value::Overflow;

/// The operator of the tree on the cells of its parts, one of one part on that part twice.
pub(crate) fn combine<D: Domain>(tree: &Expr, x: &D::Cell, y: &D::Cell) -> Result<D::Cell, Overflow>
    requires { Both (λ k. D.is_kind k x.now) (λ k. D.is_kind k y.now) (term tree.now) }
    ensures { MatchResult result (λ c. Combined D.operators D.is_kind D.figures D.stands_for (term tree.now) x.now y.now c) (λ _. ¬ (Fit (formed D.operators D.figures (term tree.now) x.now y.now))) }
{
    match tree {
        Expr::Add(_, _) => D::add(x, y),
        Expr::Subtract(_, _) => D::subtract(x, y),
        Expr::Multiply(_, _) => D::multiply(x, y),
        Expr::Negate(_) => D::negate(x),
        Expr::Compare(how, _, _) => Ok(D::compare(*how, x, y)),
        Expr::And(_, _) => Ok(D::and(x, y)),
        Expr::Or(_, _) => Ok(D::or(x, y)),
        Expr::Not(_) => Ok(D::not(x)),
        Expr::Column(_) | Expr::Literal(_) | Expr::Case(_, _, _) => unreachable!(),
    }
}
