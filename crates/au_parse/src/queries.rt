//! Queries: each call reads a list of tokens as a whole, cut at its set words, clause words and commas from the left.
ghost use Rattle.std.specs.Prelude.{◌≡◌, ◌<◌, ◌≤◌, length, map, false, true, Option, Some, None, option_map, is_some, IfOk, IfNone, IfSome};
ghost use Rattle.au_parse.specs.Expressions.{both};
ghost use Rattle.au_parse.specs.Queries.{all_some, between_commas, clauses, condition_tree, has_all, inner_source, item_tree, keys_tree, operand, select_of, select_rest, table_source, without_all};
ghost use Rattle.au_parse.specs.Statements.{ReadsQuery, ReadsSource, ReadsSources, TakesClause, all_clauses, behind_quantifier, clause_parts, has_parts, is_clause, part_view, query_read, says_distinct, set_of, set_step, sources_of};
ghost use Rattle.au_parse.specs.Tree.{QueryTree, Sources};
ghost use Rattle.au_parse.specs.Views.{condition_view, item_view, source_before, statement_tree};
ghost use Rattle.au_parse.specs.Words.{name_word, set_word};

use crate::lists::{alias_word, aliased, at_comma, items, keys};
use crate::options::paired;
use crate::pieces::{Bracket, Mark, front_length, inside, is_mark};
use crate::terms::expression;
use crate::words::{is_all, is_distinct, is_group_open, is_select, name_word};
use crate::{Item, Name, SelectPart, Source, Statement, Term};
use au_lex::{Keyword, Lexeme, Token};
use au_value::{Word, beside, both};
use std::alloc::{AllocError, Global};

/// The words that cut a SELECT.
#[derive(Clone, Copy)]
pub enum ClauseWord {
    From,
    Where,
    Group,
    Having,
}

// Whether a lexeme is this clause word.
fn is_clause(word: ClauseWord, what: &Lexeme) -> bool
    ensures { result ≡ is_clause word what.now }
{
    match word {
        ClauseWord::From => matches!(what, Lexeme::Key(Keyword::From)),
        ClauseWord::Where => matches!(what, Lexeme::Key(Keyword::Where)),
        ClauseWord::Group => matches!(what, Lexeme::Key(Keyword::Group)),
        ClauseWord::Having => matches!(what, Lexeme::Key(Keyword::Having)),
    }
}

// The place of a clause word at the front of a list and what stands behind it, if it is this one, and the list from
// the next clause word on.
fn clause(word: ClauseWord, tokens: &[Token]) -> (Option<(usize, &[Token])>, &[Token])
    ensures takes { TakesClause word tokens.now (option_map (λ c. (c.0, c.1.now)) result.0) result.1.now }
    ensures shorter { IfSome result.0 (λ c. length c.1.now < length tokens.now) }
{
    let Some((first, others)) = tokens.split_first() else {
        return (None, tokens);
    };
    if !is_clause(word, &first.what) {
        return (None, tokens);
    }
    let (piece, behind) = others.split_at(front_length(Mark::Clause, others));
    (Some((first.from, piece)), behind)
}

// Whether a list begins with a clause word.
fn begins_clause(tokens: &[Token]) -> bool
    ensures { result ≡ has_parts (clause_parts tokens.now) }
{
    match tokens.split_first() {
        Some((first, _)) => is_mark(Mark::Clause, true, &first.what),
        None => false,
    }
}

/// What stands behind the clause words of a SELECT: FROM, WHERE, GROUP and HAVING.
#[derive(Clone, Copy)]
struct SelectClauses<'a> {
    from: &'a [Token],
    condition: Option<(usize, &'a [Token])>,
    group: Option<(usize, &'a [Token])>,
    having: Option<(usize, &'a [Token])>,
}

// The clauses of a list that begins with a clause word, each at most once and in their order.
fn clauses(tokens: &[Token]) -> Option<SelectClauses>
    ensures clauses { option_map (λ c. all_clauses c.from.now (option_map (λ p. (p.0, p.1.now)) c.condition) (option_map (λ p. (p.0, p.1.now)) c.group) (option_map (λ p. (p.0, p.1.now)) c.having)) result ≡ clauses (clause_parts tokens.now) }
    ensures shorter { IfSome result (λ c. length c.from.now < length tokens.now) }
{
    let (from, rest) = clause(ClauseWord::From, tokens);
    let Some((_, from)) = from else {
        return None;
    };
    let (condition, rest) = clause(ClauseWord::Where, rest);
    let (group, rest) = clause(ClauseWord::Group, rest);
    let (having, rest) = clause(ClauseWord::Having, rest);
    if begins_clause(rest) {
        return None;
    }
    Some(SelectClauses {
        from,
        condition,
        group,
        having,
    })
}

// The condition of a WHERE or HAVING, if there is one.
fn condition(
    alloc: Global,
    clause: Option<(usize, &[Token])>,
) -> Result<Option<Option<(usize, Term)>>, AllocError>
    ensures { IfOk result (λ o. option_map condition_view o ≡ condition_tree (option_map (λ p. (p.0, p.1.now)) clause.entry)) }
{
    let Some((at, tokens)) = clause else {
        return Ok(Some(None));
    };
    match expression(alloc, tokens)? {
        Some(term) => Ok(Some(Some((at, term)))),
        None => Ok(None),
    }
}

// The parts of a SELECT made one, where each could be read.
fn select_part(
    at: usize,
    distinct: bool,
    grouped: bool,
    items: Option<Vec<Item>>,
    sources: Option<Vec<Source>>,
    condition: Option<Option<(usize, Term)>>,
    keys: Option<Vec<Name>>,
    having: Option<Option<(usize, Term)>>,
) -> Option<SelectPart>
    ensures { option_map part_view result ≡ select_of at distinct grouped (option_map (λ v. map item_view v.items) items) (option_map (λ v. sources_of v.items) sources)
        (option_map condition_view condition) (option_map (λ v. v.items) keys) (option_map condition_view having) }
{
    let lists = paired(items, sources);
    let tests = paired(condition, having);
    let rest = paired(keys, tests);
    match paired(lists, rest) {
        Some((lists, rest)) => {
            let (items, sources) = lists;
            let (keys, tests) = rest;
            let (condition, having) = tests;
            Some(SelectPart {
                at,
                distinct,
                items,
                sources,
                condition,
                keys,
                grouped,
                having,
            })
        }
        None => None,
    }
}

fn select_statement(part: Box<SelectPart>) -> Statement
    ensures { statement_tree result ≡ part_view part.value }
{
    Statement::Select(part)
}

// A SELECT whose sources have been read.
fn select_of(
    alloc: Global,
    at: usize,
    distinct: bool,
    listed: &[Token],
    sources: Option<Vec<Source>>,
    parts: SelectClauses,
) -> Result<Option<Statement>, AllocError>
    ensures { IfOk result (λ o. query_read o ≡ select_of at distinct (is_some parts.entry.group) (all_some (map item_tree (between_commas listed.now))) (option_map (λ v. sources_of v.items) sources)
        (condition_tree (option_map (λ p. (p.0, p.1.now)) parts.entry.condition)) (keys_tree (option_map (λ p. p.1.now) parts.entry.group)) (condition_tree (option_map (λ p. (p.0, p.1.now)) parts.entry.having))) }
{
    let lists = both(items(alloc, listed), keys(alloc, behind_group(parts.group)));
    let conditions = both(
        condition(alloc, parts.condition),
        condition(alloc, parts.having),
    );
    let (((items, keys), (condition, having)), sources) = beside(both(lists, conditions), sources)?;
    let grouped = parts.group.is_some();
    match select_part(
        at, distinct, grouped, items, sources, condition, keys, having,
    ) {
        Some(part) => Ok(Some(select_statement(Box::new(alloc, part)?))),
        None => Ok(None),
    }
}

fn behind_group(group: Option<(usize, &[Token])>) -> Option<&[Token]>
    ensures { option_map (λ x. x.now) result ≡ option_map (λ p. p.1.now) group.entry }
{
    match group {
        Some((_, tokens)) => Some(tokens),
        None => None,
    }
}

// A SELECT word's DISTINCT, and what stands behind one DISTINCT or ALL.
fn quantifier(tokens: &[Token]) -> (bool, &[Token])
    ensures distinct { result.0 ≡ says_distinct tokens.now }
    ensures rest { result.1.now ≡ behind_quantifier tokens.now }
    ensures within { length result.1.now ≤ length tokens.now }
{
    let Some((first, others)) = tokens.split_first() else {
        return (false, tokens);
    };
    if is_distinct(&first.what) {
        (true, others)
    } else if is_all(&first.what) {
        (false, others)
    } else {
        (false, tokens)
    }
}

// Whether ALL stands first, and what is left.
fn all_first(tokens: &[Token]) -> (bool, &[Token])
    ensures all { result.0 ≡ has_all tokens.now }
    ensures rest { result.1.now ≡ without_all tokens.now }
    ensures within { length result.1.now ≤ length tokens.now }
{
    let Some((first, others)) = tokens.split_first() else {
        return (false, tokens);
    };
    if is_all(&first.what) {
        (true, others)
    } else {
        (false, tokens)
    }
}

/// UNION and EXCEPT.
#[derive(Clone, Copy)]
pub enum SetOperation {
    Union,
    Except,
}

fn set_word(what: &Lexeme) -> Option<SetOperation>
    ensures { option_map set_of result ≡ set_word what.now }
{
    match what {
        Lexeme::Key(Keyword::Union) => Some(SetOperation::Union),
        Lexeme::Key(Keyword::Except) => Some(SetOperation::Except),
        _ => None,
    }
}

fn set_joined(
    alloc: Global,
    operation: SetOperation,
    all: bool,
    at: usize,
    left: Statement,
    right: Statement,
) -> Result<Statement, AllocError>
    ensures { IfOk result (λ s. statement_tree s ≡ QueryTree.set (set_of operation) all at (statement_tree left) (statement_tree right)) }
{
    let (left, right) = both(Box::new(alloc, left), Box::new(alloc, right))?;
    match operation {
        SetOperation::Union => Ok(Statement::Union(all, at, left, right)),
        SetOperation::Except => Ok(Statement::Except(all, at, left, right)),
    }
}

// The two sides of a set word made one, where both could be read.
fn set_joined_if(
    alloc: Global,
    operation: SetOperation,
    all: bool,
    at: usize,
    left: Option<Statement>,
    right: Option<Statement>,
) -> Result<Option<Statement>, AllocError>
    ensures { IfOk result (λ o. query_read o ≡ both (QueryTree.set (set_of operation) all at) (query_read left) (query_read right)) }
{
    match paired(left, right) {
        Some((left, right)) => Ok(Some(set_joined(alloc, operation, all, at, left, right)?)),
        None => Ok(None),
    }
}

fn table(alloc: Global, name: &Token, alias: Option<Word>) -> Result<Option<Source>, AllocError>
    ensures { IfOk result (λ o. (others : Option Sources) → table_source name.now.from (name_word name.now.what) alias others ≡ both source_before o others) }
{
    match name_word(alloc, &name.what)? {
        Some(word) => Ok(Some(Source::Table(name.from, word, alias))),
        None => Ok(None),
    }
}

fn inner(
    alloc: Global,
    at: usize,
    found: Option<Statement>,
    alias: Option<Word>,
) -> Result<Option<Source>, AllocError>
    ensures { IfOk result (λ o. (others : Option Sources) → inner_source at (query_read found) alias others ≡ both source_before o others) }
{
    match found {
        Some(query) => match alias {
            Some(name) => Ok(Some(Source::Inner(at, Box::new(alloc, query)?, name))),
            None => Ok(None),
        },
        None => Ok(None),
    }
}

/// The query that the tokens are, if they are one: its operands joined from the left.
#[cycle(queries)]
pub fn query(alloc: Global, tokens: &[Token]) -> Result<Option<Statement>, AllocError>
    ensures { IfOk result (ReadsQuery set_step tokens.now) }
{
    let (first, behind) = tokens.split_at(front_length(Mark::Set, tokens));
    let mut tree = operand(alloc, first)?;
    let mut rest = behind;
    'sides: while let Some((word, others)) = rest.split_first() {
        let Some(operation) = set_word(&word.what) else {
            return Ok(tree);
        };
        let (piece, behind) = others.split_at(front_length(Mark::Set, others));
        let (all, side) = all_first(piece);
        let (right, left) = beside(operand(alloc, side), tree)?;
        tree = set_joined_if(alloc, operation, all, word.from, left, right)?;
        rest = behind;
    }
    Ok(tree)
}

// A SELECT, or a query between brackets.
#[cycle(queries)]
fn operand(alloc: Global, tokens: &[Token]) -> Result<Option<Statement>, AllocError>
    ensures { IfOk result (ReadsQuery operand tokens.now) }
{
    let Some((first, others)) = tokens.split_first() else {
        return Ok(None);
    };
    if is_group_open(&first.what) {
        return match inside(Bracket::Group, others) {
            Some(middle) => query(alloc, middle),
            None => Ok(None),
        };
    }
    if is_select(&first.what) {
        select(alloc, first.from, others)
    } else {
        Ok(None)
    }
}

// What stands behind a SELECT word.
#[cycle(queries)]
fn select(alloc: Global, at: usize, tokens: &[Token]) -> Result<Option<Statement>, AllocError>
    ensures { IfOk result (ReadsQuery (λ query. select_rest query at) tokens.now) }
{
    let (distinct, body) = quantifier(tokens);
    let (listed, behind) = body.split_at(front_length(Mark::Clause, body));
    let Some(parts) = clauses(behind) else {
        return Ok(None);
    };
    let sources = sources(alloc, parts.from)?;
    select_of(alloc, at, distinct, listed, sources, parts)
}

// The sources of a FROM clause.
#[cycle(queries)]
fn sources(alloc: Global, tokens: &[Token]) -> Result<Option<Vec<Source>>, AllocError>
    ensures { IfOk result (λ o. ReadsSources tokens.now (option_map (λ v. v.items) o)) }
{
    let mut list = Vec::new(alloc);
    let mut left = Some(tokens);
    'list: while let Some(rest) = left {
        let (piece, behind) = at_comma(rest);
        let Some(source) = source(alloc, piece)? else {
            return Ok(None);
        };
        list.push(source)?;
        left = behind;
    }
    Ok(Some(list))
}

// One source: a table, or a query between brackets with an alias.
#[cycle(queries)]
fn source(alloc: Global, tokens: &[Token]) -> Result<Option<Source>, AllocError>
    ensures { IfOk result (ReadsSource tokens.now) }
{
    let (what, name) = aliased(tokens);
    let alias = alias_word(alloc, name)?;
    let Some((first, others)) = what.split_first() else {
        return Ok(None);
    };
    if others.is_empty() {
        return table(alloc, first, alias);
    }
    if !is_group_open(&first.what) {
        return Ok(None);
    }
    let Some(middle) = inside(Bracket::Group, others) else {
        return Ok(None);
    };
    let found = query(alloc, middle)?;
    inner(alloc, first.from, found, alias)
}
