//! Aggregates: where they are written, which kinds they give, and where they may stand.
ghost use Rattle.std.specs.Prelude.{◌≡◌, [], Some, IfSome, IfNone, Contains, length, nat_lt};
ghost use Rattle.au_expr.specs.Terms.{term};
ghost use Rattle.au_parse.specs.Levels.{arms_tree};
ghost use Rattle.au_parse.specs.Views.{term_tree, item_view};
ghost use Rattle.au_typing.specs.Results.{setting_view};
ghost use Rattle.au_typing.specs.Shapes.{argument_given};
ghost use Rattle.au_typing.specs.Terms.{aggregate_faults, aggregate_kind, is_counting, is_extreme, names_column};
ghost use Rattle.std.specs.List.{list_any};
ghost use Rattle.au_typing.specs.Items.{item_written};
ghost use Rattle.au_typing.specs.Aggregates.{written};

use crate::fault::TypingFault;
use crate::scales::number_if;
use crate::setting::Setting;
use crate::shape::{Shape, shape_of};
use au_expr::Expr;
use au_parse::{AggWord, Item, Term};
use au_value::{Kind, Value};

// Whether an aggregate is written in a term.
#[cycle(aggregates)]
fn has_aggregate(what: &Term) -> bool
    ensures { result ≡ nat_lt 0 (length (written (term_tree what.now))) }
{
    match shape_of(what) {
        Shape::Column(_) | Shape::Number(_, _) | Shape::Decimal(_, _, _) => false,
        Shape::Text(_, _) | Shape::Flag(_, _) => false,
        Shape::CountRows(_) | Shape::Aggregate(_, _, _) => true,
        Shape::Binary(_, _, l, r) => has_aggregate(l) || has_aggregate(r),
        Shape::Unary(_, _, e) => has_aggregate(e),
        Shape::Case(_, arms, otherwise) => has_aggregate_in(arms, otherwise),
    }
}

// The same of the parts of a CASE.
#[cycle(aggregates)]
fn has_aggregate_in(arms: &[(Term, Term)], otherwise: &Term) -> bool
    ensures { result ≡ nat_lt 0 (length (written (arms_tree arms.now (term_tree otherwise.now)))) }
{
    let Some((arm, others)) = arms.split_first() else {
        return has_aggregate(otherwise);
    };
    has_aggregate(&arm.0) || has_aggregate(&arm.1) || has_aggregate_in(others, otherwise)
}

fn item_has_aggregate(item: &Item) -> bool
    ensures { result ≡ nat_lt 0 (length (item_written (item_view item.now))) }
{
    match item {
        Item::Star(_) | Item::StarOf(_, _) => false,
        Item::Value(what, _) => has_aggregate(what),
    }
}

/// Whether an aggregate is written in one of these items.
pub(crate) fn have_aggregate(items: &[Item]) -> bool
    ensures { result ≡ list_any (λ item. nat_lt 0 (length (item_written (item_view item)))) items.now }
{
    items.iter().any(|item| item_has_aggregate(item))
}

/// The kind that an aggregate gives, where its argument fits.
pub(crate) fn aggregate_kind(word: AggWord, kind: Kind) -> Option<Kind>
    ensures { result ≡ aggregate_kind word (Some kind) }
{
    match word {
        AggWord::Count => Some(Kind::Int),
        AggWord::Sum => number_if(kind),
        AggWord::Min | AggWord::Max => Some(kind),
    }
}

/// Whether an aggregate is MIN or MAX.
pub(crate) fn is_extreme(word: AggWord) -> bool
    ensures { result ≡ is_extreme word }
{
    matches!(word, AggWord::Min | AggWord::Max)
}

/// Whether an aggregate counts rows, or sums what names no column.
pub(crate) fn counts(word: AggWord, argument: &Term) -> bool
    ensures { result ≡ is_counting word (term_tree argument.now) }
{
    match word {
        AggWord::Count => true,
        AggWord::Sum => !names_column(argument),
        AggWord::Min | AggWord::Max => false,
    }
}

// Whether a term names a column.
#[cycle(columns)]
fn names_column(argument: &Term) -> bool
    ensures { result ≡ names_column (term_tree argument.now) }
{
    match shape_of(argument) {
        Shape::Column(_) => true,
        Shape::Number(_, _) | Shape::Decimal(_, _, _) | Shape::Text(_, _) => false,
        Shape::Flag(_, _) | Shape::CountRows(_) => false,
        Shape::Binary(_, _, l, r) => names_column(l) || names_column(r),
        Shape::Unary(_, _, e) | Shape::Aggregate(_, _, e) => names_column(e),
        Shape::Case(_, arms, otherwise) => names_column_in(arms, otherwise),
    }
}

// The same of the parts of a CASE.
#[cycle(columns)]
fn names_column_in(arms: &[(Term, Term)], otherwise: &Term) -> bool
    ensures { result ≡ names_column (arms_tree arms.now (term_tree otherwise.now)) }
{
    let Some((arm, others)) = arms.split_first() else {
        return names_column(otherwise);
    };
    names_column(&arm.0) || (names_column(&arm.1) || names_column_in(others, otherwise))
}

/// What is wrong with the place of an aggregate.
pub(crate) fn aggregate_fault(
    setting: &Setting,
    at: usize,
    extreme: bool,
    counting: bool,
) -> Option<TypingFault>
    ensures some { IfSome result (Contains (aggregate_faults (setting_view setting.now) at extreme counting)) }
    ensures none { IfNone result (aggregate_faults (setting_view setting.now) at extreme counting ≡ []) }
{
    match setting {
        Setting::Rows => Some(TypingFault::MisplacedAggregate(at)),
        Setting::Groups(groups) => {
            if extreme && !groups.by {
                Some(TypingFault::MinMaxNeedsGroup(at))
            } else if counting && groups.joins {
                Some(TypingFault::CountOverJoin(at))
            } else {
                None
            }
        }
    }
}

/// The argument of an aggregate: the number 1 where rows are counted.
pub(crate) fn argument_of(word: AggWord, argument: Expr) -> Expr
    ensures { term result ≡ argument_given word (term argument) }
{
    match word {
        AggWord::Count => Expr::Literal(Value::Int(1)),
        AggWord::Sum | AggWord::Min | AggWord::Max => argument,
    }
}
