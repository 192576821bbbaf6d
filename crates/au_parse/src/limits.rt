//! The limits of a list of tokens, each in one pass from the left.
ghost use Rattle.std.specs.Prelude.{◌≡◌, ◌+◌, ◌<◌, ◌^◌, [], None, IfOk, IfSome, OnOk};
ghost use Rattle.au_parse.specs.Limits.{begins_part, earlier, fault_of, first_fault, limit_fault, placed, passes_limit, token_place, too_deep};
ghost use Rattle.au_parse.specs.Statements.{Commas, commas_after, counted, is_last};

use crate::ParseFault;
use crate::words::{depth_after, is_comma, is_group_close, is_group_open, is_open};
use au_lex::{Keyword, Lexeme, Token};
use std::alloc::{AllocError, Global};
use std::marker::Model;

/// The place of the first bracket that makes the depth exceed 32.
#[tactic(auto, unfolding(crate::specs::Limits::too_deep))]
pub fn too_deep(tokens: &[Token]) -> Option<usize>
    ensures { result ≡ too_deep 32 0 tokens.now }
{
    let mut rest = tokens;
    let mut depth: usize = 0;
    while let Some((token, others)) = rest.split_first() {
        let now = depth_after(depth, &token.what);
        if is_open(&token.what) && now > 32 {
            return Some(token.from);
        }
        depth = now;
        rest = others;
    }
    None
}

/// The words whose commas are counted: SELECT, before items, and FROM, before sources.
#[derive(Clone, Copy)]
pub enum Listed {
    Items,
    Sources,
}

fn counted(listed: Listed, what: &Lexeme) -> bool
    ensures { result ≡ counted listed what.now }
{
    match listed {
        Listed::Items => matches!(what, Lexeme::Key(Keyword::Select)),
        Listed::Sources => matches!(what, Lexeme::Key(Keyword::From)),
    }
}

// Whether a lexeme begins a part of a query.
fn begins_part(what: &Lexeme) -> bool
    ensures { result ≡ begins_part what.now }
{
    match what {
        Lexeme::Key(key) => matches!(
            key,
            Keyword::Select
                | Keyword::From
                | Keyword::Where
                | Keyword::Group
                | Keyword::Having
                | Keyword::Union
                | Keyword::Except
        ),
        _ => false,
    }
}

/// The commas so far of the word for which a comma would count, if it is counted: inside all brackets that are open,
/// and outside each of them, the innermost bracket last.
#[derive(Drop)]
pub struct CommaCounts {
    inner: Option<usize>,
    outer: Vec<Option<usize>>,
}

impl Model for CommaCounts {
    ghost use Rattle.std.specs.Prelude.{reverse};
    ghost use Rattle.au_parse.specs.Statements.{Commas};

    ghost Value = { Commas };

    ghost view = { λ c. record { inner = c.inner; outer = reverse c.outer.items } };
}

impl CommaCounts {
    fn new(alloc: Global) -> CommaCounts
        ensures { result ≡ record { inner = None; outer = [] } }
    {
        CommaCounts {
            inner: None,
            outer: Vec::new(alloc),
        }
    }

    // Whether this is the comma of that number.
    fn is_last(&self, limit: usize, what: &Lexeme) -> bool
        requires { IfSome self.now.inner (λ n. n + 1 < 2 ^ 64) }
        ensures { result ≡ is_last limit what.now self.now }
    {
        match self.inner {
            Some(commas) => is_comma(what) && commas + 1 == limit,
            None => false,
        }
    }

    fn pass(&mut self, listed: Listed, what: &Lexeme) -> Result<(), AllocError>
        requires { IfSome self.old.inner (λ n. n + 1 < 2 ^ 64) }
        ensures { OnOk result (self.new ≡ commas_after (counted listed) what.now self.old) }
    {
        if is_comma(what) {
            if let Some(commas) = self.inner {
                self.inner = Some(commas + 1);
            }
            return Ok(());
        }
        if is_group_open(what) {
            let around = self.inner;
            self.outer.push(around)?;
            self.inner = None;
            return Ok(());
        }
        if is_group_close(what) {
            if let Some(around) = self.outer.pop() {
                self.inner = around;
            }
            return Ok(());
        }
        if begins_part(what) {
            self.inner = if counted(listed, what) { Some(0) } else { None };
        }
        Ok(())
    }
}

fn place_of(end: usize, tokens: &[Token]) -> usize
    ensures { result ≡ token_place end tokens.now }
{
    match tokens.split_first() {
        Some((token, _)) => token.from,
        None => end,
    }
}

/// The place after the comma of that number of one word.
fn passes(
    alloc: Global,
    listed: Listed,
    limit: usize,
    end: usize,
    tokens: &[Token],
) -> Result<Option<usize>, AllocError>
    ensures { IfOk result (λ o. o ≡ passes_limit (counted listed) limit end [] [] tokens.now) }
{
    let mut commas = CommaCounts::new(alloc);
    let mut rest = tokens;
    while let Some((token, others)) = rest.split_first() {
        if commas.is_last(limit, &token.what) {
            return Ok(Some(place_of(end, others)));
        }
        commas.pass(listed, &token.what)?;
        rest = others;
    }
    Ok(None)
}

/// What a token list may pass: the depth of its brackets, and the commas of a FROM or a SELECT word.
#[derive(Clone, Copy)]
pub enum Limit {
    Depth,
    Sources,
    Items,
}

fn fault_of(limit: Limit, at: usize) -> ParseFault
    ensures { result ≡ fault_of limit at }
{
    match limit {
        Limit::Depth => ParseFault::TooDeep(at),
        Limit::Sources => ParseFault::TooManyFrom(at),
        Limit::Items => ParseFault::TooManyItems(at),
    }
}

fn placed(limit: Limit, found: Option<usize>) -> Option<(usize, ParseFault)>
    ensures { result ≡ placed limit found }
{
    match found {
        Some(at) => Some((at, fault_of(limit, at))),
        None => None,
    }
}

// The earlier of two faults, each with its place, and the first where both have one place.
fn earlier(
    first: Option<(usize, ParseFault)>,
    second: Option<(usize, ParseFault)>,
) -> Option<(usize, ParseFault)>
    ensures { result ≡ earlier first second }
{
    let Some((here, fault)) = first else {
        return second;
    };
    let Some((there, other)) = second else {
        return Some((here, fault));
    };
    if there < here {
        Some((there, other))
    } else {
        Some((here, fault))
    }
}

// The fault of the least place, where these have been found.
fn first_fault(
    deep: Option<usize>,
    sources: Option<usize>,
    items: Option<usize>,
) -> Option<ParseFault>
    ensures { result ≡ first_fault deep sources items }
{
    let lists = earlier(placed(Limit::Sources, sources), placed(Limit::Items, items));
    match earlier(placed(Limit::Depth, deep), lists) {
        Some((_, fault)) => Some(fault),
        None => None,
    }
}

/// The limit that the tokens pass, the one of the least place, in a query of this length.
pub fn limit_fault(
    alloc: Global,
    end: usize,
    tokens: &[Token],
) -> Result<Option<ParseFault>, AllocError>
    ensures { IfOk result (λ o. o ≡ limit_fault end tokens.now) }
{
    let sources = passes(alloc, Listed::Sources, 8, end, tokens)?;
    let items = passes(alloc, Listed::Items, 64, end, tokens)?;
    Ok(first_fault(too_deep(tokens), sources, items))
}
