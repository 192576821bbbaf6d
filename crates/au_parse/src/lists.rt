//! The lists of a query: the items of a SELECT, each with or without an alias, and the keys of a GROUP BY.
ghost use Rattle.std.specs.Prelude.{◌≡◌, ◌<◌, ◌≤◌, ◌∷◌, ◌&&◌, length, map, option_map, option_and_then, is_some, true, IfOk, IfSome};
ghost use Rattle.au_parse.specs.Expressions.{column_of};
ghost use Rattle.au_parse.specs.Queries.{aliased, all_some, between_commas, item_tree, keys_tree, value_item};
ghost use Rattle.au_parse.specs.Statements.{aliased_by, behind_comma, star_owner, whole_star};
ghost use Rattle.au_parse.specs.Tree.{ItemTree};
ghost use Rattle.au_parse.specs.Views.{item_view};
ghost use Rattle.au_parse.specs.Words.{is_dot, is_star, name_word};

use crate::operands::column_of;
use crate::pieces::{Mark, front_length};
use crate::terms::expression;
use crate::words::{ends_operand, is_as, is_by, is_dot, is_name, is_star, name_word};
use crate::{Item, Name};
use au_lex::Token;
use au_value::Word;
use std::alloc::{AllocError, Global};

/// What stands before the first comma of a list, and behind it, if there is one.
pub fn at_comma(tokens: &[Token]) -> (&[Token], Option<&[Token]>)
    ensures pieces { between_commas tokens.now ≡ result.0.now ∷ behind_comma (option_map (λ x. x.now) result.1) }
    ensures front { length result.0.now ≤ length tokens.now }
    ensures shorter { IfSome result.1 (λ x. length x.now < length tokens.now) }
{
    let (piece, behind) = tokens.split_at(front_length(Mark::Comma, tokens));
    match behind.split_first() {
        Some((_comma, others)) => (piece, Some(others)),
        None => (piece, None),
    }
}

/// A list without its alias, and the name that is the alias.
pub fn aliased(tokens: &[Token]) -> (&[Token], Option<&Token>)
    ensures parts { aliased tokens.now ≡ aliased_by result.0.now (option_map (λ t. t.now) result.1) }
    ensures front { length result.0.now ≤ length tokens.now }
{
    let Some((last, front)) = tokens.split_last() else {
        return (tokens, None);
    };
    let Some((before, rest)) = front.split_last() else {
        return (tokens, None);
    };
    if !is_name(&last.what) {
        (tokens, None)
    } else if is_as(&before.what) {
        (rest, Some(last))
    } else if ends_operand(&before.what) {
        (front, Some(last))
    } else {
        (tokens, None)
    }
}

/// The word of a name, if there is one.
pub fn alias_word(alloc: Global, name: Option<&Token>) -> Result<Option<Word>, AllocError>
    ensures { IfOk result (λ o. o ≡ option_and_then (λ t. name_word t.now.what) name.entry) }
{
    match name {
        Some(token) => name_word(alloc, &token.what),
        None => Ok(None),
    }
}

// The place of a `*` that is a whole list.
fn whole_star(tokens: &[Token]) -> Option<usize>
    ensures { result ≡ whole_star tokens.now }
{
    let (token, others) = tokens.split_first()?;
    if others.is_empty() && is_star(&token.what) {
        Some(token.from)
    } else {
        None
    }
}

fn is_dot_star(dot: &Token, star: &Token) -> bool
    ensures { result ≡ (is_dot dot.now.what && is_star star.now.what) }
{
    is_dot(&dot.what) && is_star(&star.what)
}

// What stands before `.` and `*` in a list of three.
fn star_owner(tokens: &[Token]) -> Option<&Token>
    ensures { option_map (λ t. t.now) result ≡ star_owner tokens.now }
{
    let (owner, others) = tokens.split_first()?;
    let (dot, behind) = others.split_first()?;
    let (star, rest) = behind.split_first()?;
    if !rest.is_empty() {
        return None;
    }
    if is_dot_star(dot, star) {
        Some(owner)
    } else {
        None
    }
}

fn star_of(alloc: Global, owner: &Token) -> Result<Option<Item>, AllocError>
    ensures { IfOk result (λ o. option_map item_view o ≡ option_map (ItemTree.star_of owner.now.from) (name_word owner.now.what)) }
{
    match name_word(alloc, &owner.what)? {
        Some(word) => Ok(Some(Item::StarOf(owner.from, word))),
        None => Ok(None),
    }
}

fn value_item(alloc: Global, tokens: &[Token]) -> Result<Option<Item>, AllocError>
    ensures { IfOk result (λ o. option_map item_view o ≡ value_item tokens.now) }
{
    let (value, name) = aliased(tokens);
    let alias = alias_word(alloc, name)?;
    match expression(alloc, value)? {
        Some(term) => Ok(Some(Item::Value(term, alias))),
        None => Ok(None),
    }
}

fn item(alloc: Global, tokens: &[Token]) -> Result<Option<Item>, AllocError>
    ensures { IfOk result (λ o. option_map item_view o ≡ item_tree tokens.now) }
{
    if let Some(at) = whole_star(tokens) {
        return Ok(Some(Item::Star(at)));
    }
    match star_owner(tokens) {
        Some(owner) => star_of(alloc, owner),
        None => value_item(alloc, tokens),
    }
}

/// The items of a SELECT.
pub fn items(alloc: Global, tokens: &[Token]) -> Result<Option<Vec<Item>>, AllocError>
    ensures { IfOk result (λ o. option_map (λ v. map item_view v.items) o ≡ all_some (map item_tree (between_commas tokens.now))) }
{
    let mut items = Vec::new(alloc);
    let mut left = Some(tokens);
    'items: while let Some(rest) = left {
        let (piece, behind) = at_comma(rest);
        let Some(item) = item(alloc, piece)? else {
            return Ok(None);
        };
        items.push(item)?;
        left = behind;
    }
    Ok(Some(items))
}

// The keys behind BY.
fn columns(alloc: Global, tokens: &[Token]) -> Result<Option<Vec<Name>>, AllocError>
    ensures { IfOk result (λ o. option_map (λ v. v.items) o ≡ all_some (map column_of (between_commas tokens.now))) }
{
    let mut keys = Vec::new(alloc);
    let mut left = Some(tokens);
    'keys: while let Some(rest) = left {
        let (piece, behind) = at_comma(rest);
        let Some(key) = column_of(alloc, piece)? else {
            return Ok(None);
        };
        keys.push(key)?;
        left = behind;
    }
    Ok(Some(keys))
}

/// The keys of what stands behind GROUP; none where it doesn't stand.
pub fn keys(alloc: Global, group: Option<&[Token]>) -> Result<Option<Vec<Name>>, AllocError>
    ensures { IfOk result (λ o. option_map (λ v. v.items) o ≡ keys_tree (option_map (λ x. x.now) group.entry)) }
{
    let Some(tokens) = group else {
        return Ok(Some(Vec::new(alloc)));
    };
    let Some((by, others)) = tokens.split_first() else {
        return Ok(None);
    };
    if is_by(&by.what) {
        columns(alloc, others)
    } else {
        Ok(None)
    }
}
