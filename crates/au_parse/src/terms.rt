//! Expressions: each call reads a list of tokens as a whole, cut at the operators of its level from the left.
ghost use Rattle.std.specs.Prelude.{◌≡◌, ◌≤◌, length, false, option_map, IfOk, IfNone, IfSome};
ghost use Rattle.au_parse.specs.Expressions.{aggregate_tree, case_tree, comparison_step, counts_rows, expression, not_step, primary, sign_step};
ghost use Rattle.au_parse.specs.Levels.{arms_tree, begins_with_when, below, IsWhen, level_step, Reads, ReadsArm, ReadsElse, ReadsInside, ReadsNoArm};
ghost use Rattle.au_parse.specs.Tree.{TermTree};
ghost use Rattle.au_parse.specs.Views.{term_tree};

use crate::operands::{atom, column_term};
use crate::operators::{
    Level, Operation, aggregate_if, comparison_of, joined_if, mark_of, negate_if, not_if,
    operation_of,
};
use crate::options::paired;
use crate::pieces::{Bracket, Mark, front_length, inside};
use crate::words::{
    aggregate_word, is_case, is_else, is_group_open, is_minus, is_not, is_star, is_then, is_when,
};
use crate::{AggWord, Term};
use au_lex::Token;
use au_value::{beside, both};
use std::alloc::{AllocError, Global};

// Whether what stands between the brackets of an aggregate is the star of COUNT.
fn counts_rows(word: AggWord, tokens: &[Token]) -> bool
    ensures { result ≡ counts_rows word tokens.now }
{
    let Some((token, others)) = tokens.split_first() else {
        return false;
    };
    match word {
        AggWord::Count => others.is_empty() && is_star(&token.what),
        _ => false,
    }
}

/// The expression that the tokens are, if they are one.
pub fn expression(alloc: Global, tokens: &[Token]) -> Result<Option<Term>, AllocError>
    ensures { IfOk result (λ o. expression tokens.now ≡ option_map term_tree o) }
{
    chain(alloc, Level::Or, tokens)
}

/// The tree of a level, all of the tokens: its operands joined from the left.
#[cycle(terms)]
fn chain(alloc: Global, level: Level, tokens: &[Token]) -> Result<Option<Term>, AllocError>
    ensures { IfOk result (Reads (level_step level) tokens.now) }
{
    let (first, behind) = tokens.split_at(front_length(mark_of(level), tokens));
    let mut tree = below(alloc, level, first)?;
    let mut rest = behind;
    'operands: while let Some((op, others)) = rest.split_first() {
        let Some(operation) = operation_of(level, &op.what) else {
            return Ok(tree);
        };
        let (piece, behind) = others.split_at(front_length(mark_of(level), others));
        let (right, left) = beside(below(alloc, level, piece), tree)?;
        tree = joined_if(alloc, op.from, operation, left, right)?;
        rest = behind;
    }
    Ok(tree)
}

// What the operands of a level are.
#[cycle(terms)]
fn below(alloc: Global, level: Level, tokens: &[Token]) -> Result<Option<Term>, AllocError>
    ensures { IfOk result (Reads (below level) tokens.now) }
{
    match level {
        Level::Or => chain(alloc, Level::And, tokens),
        Level::And => negation(alloc, tokens),
        Level::Sum => chain(alloc, Level::Product, tokens),
        Level::Product => signed(alloc, tokens),
    }
}

#[cycle(terms)]
fn negation(alloc: Global, tokens: &[Token]) -> Result<Option<Term>, AllocError>
    ensures { IfOk result (Reads not_step tokens.now) }
{
    let Some((token, others)) = tokens.split_first() else {
        return Ok(None);
    };
    if is_not(&token.what) {
        not_if(alloc, token.from, comparison(alloc, others)?)
    } else {
        comparison(alloc, tokens)
    }
}

#[cycle(terms)]
fn comparison(alloc: Global, tokens: &[Token]) -> Result<Option<Term>, AllocError>
    ensures { IfOk result (Reads comparison_step tokens.now) }
{
    let (left, behind) = tokens.split_at(front_length(Mark::Compare, tokens));
    let Some((op, others)) = behind.split_first() else {
        return chain(alloc, Level::Sum, left);
    };
    if front_length(Mark::Compare, others) < others.len() {
        return Ok(None);
    }
    let Some(how) = comparison_of(&op.what) else {
        unreachable!()
    };
    let left = chain(alloc, Level::Sum, left);
    let right = chain(alloc, Level::Sum, others);
    let (left, right) = both(left, right)?;
    joined_if(alloc, op.from, Operation::Compare(how), left, right)
}

#[cycle(terms)]
fn signed(alloc: Global, tokens: &[Token]) -> Result<Option<Term>, AllocError>
    ensures { IfOk result (Reads sign_step tokens.now) }
{
    let Some((token, others)) = tokens.split_first() else {
        return Ok(None);
    };
    if is_minus(&token.what) {
        negate_if(alloc, token.from, primary(alloc, others)?)
    } else {
        primary(alloc, tokens)
    }
}

#[cycle(terms)]
fn primary(alloc: Global, tokens: &[Token]) -> Result<Option<Term>, AllocError>
    ensures { IfOk result (Reads primary tokens.now) }
{
    let Some((token, others)) = tokens.split_first() else {
        return Ok(None);
    };
    let Some((next, behind)) = others.split_first() else {
        return atom(alloc, token);
    };
    if is_group_open(&token.what) {
        return match inside(Bracket::Group, others) {
            Some(middle) => chain(alloc, Level::Or, middle),
            None => Ok(None),
        };
    }
    if is_case(&token.what) {
        return match inside(Bracket::Case, others) {
            Some(middle) => case(alloc, token.from, middle),
            None => Ok(None),
        };
    }
    let Some(word) = aggregate_word(&token.what) else {
        return column_term(alloc, tokens);
    };
    if !is_group_open(&next.what) {
        return column_term(alloc, tokens);
    }
    match inside(Bracket::Group, behind) {
        Some(middle) => aggregate(alloc, token.from, word, middle),
        None => Ok(None),
    }
}

#[cycle(terms)]
fn aggregate(
    alloc: Global,
    at: usize,
    word: AggWord,
    tokens: &[Token],
) -> Result<Option<Term>, AllocError>
    ensures { IfOk result (ReadsInside (λ inner. aggregate_tree inner at word) tokens.now) }
{
    if counts_rows(word, tokens) {
        Ok(Some(Term::CountRows(at)))
    } else {
        aggregate_if(alloc, at, word, chain(alloc, Level::Or, tokens)?)
    }
}

fn case_term(at: usize, arms: Vec<(Term, Term)>, otherwise: Box<Term>) -> Term
    ensures { term_tree result ≡ TermTree.case at (arms_tree arms.items (term_tree otherwise.value)) }
{
    Term::Case(at, arms, otherwise)
}

// The tree of what stands between CASE and END.
#[cycle(terms)]
fn case(alloc: Global, at: usize, tokens: &[Token]) -> Result<Option<Term>, AllocError>
    ensures { IfOk result (ReadsInside (λ inner. case_tree inner at) tokens.now) }
{
    let (first, behind) = tokens.split_at(front_length(Mark::Case, tokens));
    if !first.is_empty() {
        return Ok(None);
    }
    let Some(_) = behind_when(behind) else {
        return Ok(None);
    };
    let mut arms = Vec::new(alloc);
    let mut rest = behind;
    'arms: while let Some(others) = behind_when(rest) {
        let Some((condition, value, left)) = arm(alloc, others)? else {
            return Ok(None);
        };
        arms.push((condition, value))?;
        rest = left;
    }
    match otherwise(alloc, rest)? {
        Some(value) => Ok(Some(case_term(at, arms, Box::new(alloc, value)?))),
        None => Ok(None),
    }
}

// What stands behind a WHEN.
fn behind_when(tokens: &[Token]) -> Option<&[Token]>
    ensures some { IfSome result (λ x. IsWhen tokens.now x.now) }
    ensures none { IfNone result (begins_with_when tokens.now ≡ false) }
{
    let (word, others) = tokens.split_first()?;
    if is_when(&word.what) {
        Some(others)
    } else {
        None
    }
}

// A condition, THEN and a value at the front of a list, and what is left.
#[cycle(terms)]
fn arm(alloc: Global, tokens: &[Token]) -> Result<Option<(Term, Term, &[Token])>, AllocError>
    ensures some { IfOk result (λ o. IfSome o (λ r. ReadsArm tokens.now (term_tree r.0) (term_tree r.1) r.2.now)) }
    ensures none { IfOk result (λ o. IfNone o (ReadsNoArm tokens.now)) }
    ensures shorter { IfOk result (λ o. IfSome o (λ r. length r.2.now ≤ length tokens.now)) }
{
    let (front, behind) = tokens.split_at(front_length(Mark::Case, tokens));
    let Some((word, others)) = behind.split_first() else {
        return Ok(None);
    };
    if !is_then(&word.what) {
        return Ok(None);
    }
    let (piece, left) = others.split_at(front_length(Mark::Case, others));
    let condition = chain(alloc, Level::Or, front);
    let value = chain(alloc, Level::Or, piece);
    let (condition, value) = both(condition, value)?;
    match paired(condition, value) {
        Some((condition, value)) => Ok(Some((condition, value, left))),
        None => Ok(None),
    }
}

// The value of an ELSE, all of the tokens.
#[cycle(terms)]
fn otherwise(alloc: Global, tokens: &[Token]) -> Result<Option<Term>, AllocError>
    requires { begins_with_when tokens.now ≡ false }
    ensures { IfOk result (ReadsElse tokens.now) }
{
    let Some((word, others)) = tokens.split_first() else {
        return Ok(None);
    };
    if !is_else(&word.what) {
        return Ok(None);
    }
    if front_length(Mark::Case, others) < others.len() {
        return Ok(None);
    }
    chain(alloc, Level::Or, others)
}
