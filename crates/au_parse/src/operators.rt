//! Operators over expressions: the levels at which they split, what each lexeme is there, and the terms that they make.
ghost use Rattle.std.specs.Prelude.{◌≡◌, true, option_map, IfOk};
ghost use Rattle.au_parse.specs.Expressions.{both};
ghost use Rattle.au_parse.specs.Levels.{mark_kind, mark_of, operator_of, tree_read};
ghost use Rattle.au_parse.specs.Tree.{Operator, TermTree};
ghost use Rattle.au_parse.specs.Views.{term_tree};
ghost use Rattle.au_parse.specs.Words.{comparison_operator};

use crate::options::paired;
use crate::pieces::Mark;
use crate::{AggWord, Term};
use au_lex::{Keyword, Lexeme, Symbol};
use au_value::{Comparison, both};
use std::alloc::{AllocError, Global};

/// The levels that split at their last operator, from the loosest to the tightest.
#[derive(Clone, Copy)]
pub enum Level {
    Or,
    And,
    Sum,
    Product,
}

/// The operators of two operands.
#[derive(Clone, Copy)]
pub enum Operation {
    Or,
    And,
    Compare(Comparison),
    Add,
    Subtract,
    Multiply,
}

/// The comparison that a lexeme is behind an operand.
pub fn comparison_of(what: &Lexeme) -> Option<Comparison>
    ensures { option_map (λ how. Operator.compare how) result ≡ comparison_operator what.now }
{
    match what {
        Lexeme::Symbol(Symbol::Equal) => Some(Comparison::Equal),
        Lexeme::Symbol(Symbol::Differs) => Some(Comparison::Differs),
        Lexeme::Symbol(Symbol::Less) => Some(Comparison::Less),
        Lexeme::Symbol(Symbol::AtMost) => Some(Comparison::AtMost),
        Lexeme::Symbol(Symbol::Greater) => Some(Comparison::Greater),
        Lexeme::Symbol(Symbol::AtLeast) => Some(Comparison::AtLeast),
        _ => None,
    }
}

/// The operation of a level that a lexeme is behind an operand.
pub fn operation_of(level: Level, what: &Lexeme) -> Option<Operation>
    ensures { option_map operator_of result ≡ mark_of level true what.now }
{
    match (level, what) {
        (Level::Or, Lexeme::Key(Keyword::Or)) => Some(Operation::Or),
        (Level::And, Lexeme::Key(Keyword::And)) => Some(Operation::And),
        (Level::Sum, Lexeme::Symbol(Symbol::Plus)) => Some(Operation::Add),
        (Level::Sum, Lexeme::Symbol(Symbol::Minus)) => Some(Operation::Subtract),
        (Level::Product, Lexeme::Symbol(Symbol::Star)) => Some(Operation::Multiply),
        _ => None,
    }
}

/// The mark at which a level splits.
pub fn mark_of(level: Level) -> Mark
    ensures { result ≡ mark_kind level }
{
    match level {
        Level::Or => Mark::Or,
        Level::And => Mark::And,
        Level::Sum => Mark::Sum,
        Level::Product => Mark::Product,
    }
}

fn joined(
    alloc: Global,
    at: usize,
    operation: Operation,
    left: Term,
    right: Term,
) -> Result<Term, AllocError>
    ensures { IfOk result (λ t. term_tree t ≡ TermTree.binary at (operator_of operation) (term_tree left) (term_tree right)) }
{
    let (left, right) = both(Box::new(alloc, left), Box::new(alloc, right))?;
    match operation {
        Operation::Or => Ok(Term::Or(at, left, right)),
        Operation::And => Ok(Term::And(at, left, right)),
        Operation::Compare(how) => Ok(Term::Compare(at, how, left, right)),
        Operation::Add => Ok(Term::Add(at, left, right)),
        Operation::Subtract => Ok(Term::Subtract(at, left, right)),
        Operation::Multiply => Ok(Term::Multiply(at, left, right)),
    }
}

/// The two sides of an operator made one, where both could be read.
pub fn joined_if(
    alloc: Global,
    at: usize,
    operation: Operation,
    left: Option<Term>,
    right: Option<Term>,
) -> Result<Option<Term>, AllocError>
    ensures { IfOk result (λ o. tree_read o ≡ both (TermTree.binary at (operator_of operation)) (tree_read left) (tree_read right)) }
{
    match paired(left, right) {
        Some((left, right)) => Ok(Some(joined(alloc, at, operation, left, right)?)),
        None => Ok(None),
    }
}

/// NOT before what was read, if it is an expression.
pub fn not_if(alloc: Global, at: usize, found: Option<Term>) -> Result<Option<Term>, AllocError>
    ensures { IfOk result (λ o. tree_read o ≡ option_map (TermTree.not at) (tree_read found)) }
{
    match found {
        Some(term) => Ok(Some(Term::Not(at, Box::new(alloc, term)?))),
        None => Ok(None),
    }
}

/// A minus before what was read, if it is an expression.
pub fn negate_if(alloc: Global, at: usize, found: Option<Term>) -> Result<Option<Term>, AllocError>
    ensures { IfOk result (λ o. tree_read o ≡ option_map (TermTree.negate at) (tree_read found)) }
{
    match found {
        Some(term) => Ok(Some(Term::Negate(at, Box::new(alloc, term)?))),
        None => Ok(None),
    }
}

/// An aggregate of what was read, if it is an expression.
pub fn aggregate_if(
    alloc: Global,
    at: usize,
    word: AggWord,
    found: Option<Term>,
) -> Result<Option<Term>, AllocError>
    ensures { IfOk result (λ o. tree_read o ≡ option_map (TermTree.aggregate at word) (tree_read found)) }
{
    match found {
        Some(term) => Ok(Some(Term::Aggregate(at, word, Box::new(alloc, term)?))),
        None => Ok(None),
    }
}
