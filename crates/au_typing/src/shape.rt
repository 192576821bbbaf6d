//! A term taken apart: operators of two and of one operand are one case each.
ghost use Rattle.std.specs.Prelude.{◌≡◌};
ghost use Rattle.au_parse.specs.Views.{term_tree};
ghost use Rattle.au_typing.specs.Shapes.{shape_tree};

use au_parse::{AggWord, Name, Operation, Term};
use au_value::Word;

/// The operators of one operand.
#[derive(Clone, Copy)]
pub(crate) enum Sign {
    Minus,
    Not,
}

/// A term, with the place of its word, symbol or literal.
#[derive(Clone, Copy)]
pub(crate) enum Shape<'a> {
    Column(&'a Name),
    Number(usize, i128),
    Decimal(usize, i128, u32),
    Text(usize, &'a Word),
    Flag(usize, bool),
    Binary(usize, Operation, &'a Term, &'a Term),
    Unary(usize, Sign, &'a Term),
    Case(usize, &'a [(Term, Term)], &'a Term),
    CountRows(usize),
    Aggregate(usize, AggWord, &'a Term),
}

pub(crate) fn shape_of(term: &Term) -> Shape<'_>
    ensures { term_tree term.now ≡ shape_tree result }
{
    match term {
        Term::Column(name) => Shape::Column(name),
        Term::Number(at, n) => Shape::Number(*at, *n),
        Term::Decimal(at, n, digits) => Shape::Decimal(*at, *n, *digits),
        Term::Text(at, word) => Shape::Text(*at, word),
        Term::Flag(at, b) => Shape::Flag(*at, *b),
        Term::Add(at, l, r) => Shape::Binary(*at, Operation::Add, l, r),
        Term::Subtract(at, l, r) => Shape::Binary(*at, Operation::Subtract, l, r),
        Term::Multiply(at, l, r) => Shape::Binary(*at, Operation::Multiply, l, r),
        Term::Negate(at, e) => Shape::Unary(*at, Sign::Minus, e),
        Term::Compare(at, how, l, r) => Shape::Binary(*at, Operation::Compare(*how), l, r),
        Term::And(at, l, r) => Shape::Binary(*at, Operation::And, l, r),
        Term::Or(at, l, r) => Shape::Binary(*at, Operation::Or, l, r),
        Term::Not(at, e) => Shape::Unary(*at, Sign::Not, e),
        Term::Case(at, arms, otherwise) => Shape::Case(*at, arms.as_slice(), otherwise),
        Term::CountRows(at) => Shape::CountRows(*at),
        Term::Aggregate(at, word, e) => Shape::Aggregate(*at, *word, e),
    }
}
