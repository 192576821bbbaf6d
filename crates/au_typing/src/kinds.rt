//! The kinds of terms over a scope, where their names are known and their parts fit.
ghost use Rattle.std.specs.Prelude.{◌≡◌, ◌≤◌};
ghost use Rattle.au_parse.specs.Levels.{arms_tree};
ghost use Rattle.au_parse.specs.Views.{term_tree};
ghost use Rattle.au_typing.specs.Results.{scope_view};
ghost use Rattle.au_typing.specs.Shapes.{if_arms};
ghost use Rattle.au_typing.specs.Scales.{scale};
ghost use Rattle.au_typing.specs.Scopes.{field_kind};
ghost use Rattle.au_typing.specs.Terms.{term_kind};

use crate::aggregates::aggregate_kind;
use crate::operators::{operator_kind, signed_kind, when_kind};
use crate::scope::{Scope, column};
use crate::shape::{Shape, shape_of};
use au_parse::{Name, Term};
use au_value::Kind;

// The kind of the column that a name means.
fn field_kind(scope: &Scope, name: &Name) -> Option<Kind>
    ensures { result ≡ field_kind (scope_view scope.now) name.now }
{
    match column(scope, name) {
        Ok((_, field)) => Some(field.kind),
        Err(_) => None,
    }
}

// The kind of a term, where its names are known and its parts fit.
#[cycle(kinds)]
fn kind_of(scope: &Scope, what: &Term) -> Option<Kind>
    ensures { result ≡ term_kind (scope_view scope.now) (term_tree what.now) }
{
    match shape_of(what) {
        Shape::Column(name) => field_kind(scope, name),
        Shape::Number(_, _) | Shape::CountRows(_) => Some(Kind::Int),
        Shape::Decimal(_, _, digits) => Some(Kind::Dec(digits)),
        Shape::Text(_, _) => Some(Kind::Text),
        Shape::Flag(_, _) => Some(Kind::Flag),
        Shape::Binary(_, operation, l, r) => {
            let left = kind_of(scope, l)?;
            let right = kind_of(scope, r)?;
            operator_kind(operation, left, right)
        }
        Shape::Unary(_, sign, e) => signed_kind(sign, kind_of(scope, e)?),
        Shape::Case(_, arms, otherwise) => kind_of_case(scope, arms, otherwise),
        Shape::Aggregate(_, word, e) => aggregate_kind(word, kind_of(scope, e)?),
    }
}

// The same of the parts of a CASE.
#[cycle(kinds)]
fn kind_of_case(scope: &Scope, arms: &[(Term, Term)], otherwise: &Term) -> Option<Kind>
    ensures { result ≡ term_kind (scope_view scope.now) (arms_tree arms.now (term_tree otherwise.now)) }
{
    let Some((arm, others)) = arms.split_first() else {
        return kind_of(scope, otherwise);
    };
    let condition = kind_of(scope, &arm.0)?;
    let value = kind_of(scope, &arm.1)?;
    let rest = kind_of_case(scope, others, otherwise)?;
    when_kind(condition, value, rest)
}

/// The kind that the branches of a CASE are brought to.
pub(crate) fn branches_kind(scope: &Scope, arms: &[(Term, Term)], otherwise: &Term) -> Option<Kind>
    ensures kind { result ≡ if_arms arms.now (term_kind (scope_view scope.now) (arms_tree arms.now (term_tree otherwise.now))) }
    ensures few { scale result ≤ 9 }
{
    if arms.is_empty() {
        return None;
    }
    kind_of_case(scope, arms, otherwise)
}
