//! The kinds of expressions and of aggregates.
ghost use Rattle.std.specs.Prelude.{◌≡◌};
ghost use Rattle.au_codes.specs.Gathering.{terms};
ghost use Rattle.au_plain.specs.PTerms.{pterm};
ghost use Rattle.au_exec.specs.KnownKinds.{agg_kind as agg_kind_of, first_kind as first_kind_of, kind_at as kind_at_of, term_kind as term_kind_of};

use au_plain::{PAgg, PExpr};
use au_value::{Kind, kind};

/// The kind in a place. Past the last stand numbers.
pub(crate) fn kind_at(kinds: &[Kind], place: usize) -> Kind
    ensures { result ≡ kind_at_of kinds.now place }
{
    if place < kinds.len() {
        kinds[place]
    } else {
        Kind::Int
    }
}

/// The kind of an expression that is typed over columns of these kinds.
#[cycle(kinds)]
pub(crate) fn term_kind(kinds: &[Kind], tree: &PExpr) -> Kind
    ensures { result ≡ term_kind_of kinds.now (pterm tree.now) }
{
    match tree {
        PExpr::Column(place) => kind_at(kinds, *place),
        PExpr::Literal(value) => kind(value),
        PExpr::Add(_, _) | PExpr::Subtract(_, _) | PExpr::Multiply(_, _) | PExpr::Negate(_) => {
            Kind::Int
        }
        PExpr::Compare(_, _, _) | PExpr::And(_, _) | PExpr::Or(_, _) | PExpr::Not(_) => Kind::Flag,
        PExpr::Case(_, a, _) => term_kind(kinds, a),
        PExpr::Least(es) => first_kind(kinds, es),
        PExpr::Greatest(es) => first_kind(kinds, es),
    }
}

// That of the first of several.
#[cycle(kinds)]
fn first_kind(kinds: &[Kind], es: &[PExpr]) -> Kind
    ensures { result ≡ first_kind_of kinds.now (terms es.now) }
{
    if es.is_empty() {
        Kind::Int
    } else {
        term_kind(kinds, &es[0])
    }
}

/// The kind of an aggregate over columns of these kinds.
pub(crate) fn agg_kind(kinds: &[Kind], agg: PAgg) -> Kind
    ensures { result ≡ agg_kind_of kinds.now agg }
{
    match agg {
        PAgg::Sum(_) => Kind::Int,
        PAgg::Min(place) | PAgg::Max(place) => kind_at(kinds, place),
    }
}
