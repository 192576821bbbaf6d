//! The tokens of a text, one after the other: blanks, and the lexeme behind them.
ghost use Rattle.std.specs.Prelude.{◌≡◌, ◌+◌, ◌<◌, ◌≤◌, suc, true, false, ◌^◌, length, [], Some, None, take, Ok, Err, IfOk, IfErr, IfSome, drop, slice_index, ◌⊎◌};
ghost use Rattle.std.specs.List.{prefix_len};
ghost use Rattle.std.specs.Char.{is_ascii_digit};
ghost use Rattle.std.specs.Str.{IsUtf8};
ghost use Rattle.au_lex.specs.Lexemes.{begins_name, continues_name, word_lexeme, entry_of, keywords};
ghost use Rattle.au_lex.specs.Tokens.{is_space, after_blank, blank_length, token_at, tokens_from, tokens_of, longest, GoesOn, HaveScales, Spans};

use crate::front::{lexeme_at, one_too_many};
use crate::{LexFault, Token, TokenList};
use std::alloc::{AllocError, AllocFailed, Global};

fn is_space(b: u8) -> bool
    ensures { result ≡ is_space b }
{
    b == b' ' || b == b'\t' || b == b'\n' || b == b'\r'
}

/// Whether a name may begin with this byte: a letter of ASCII or `_`.
pub fn begins_name(b: u8) -> bool
    ensures { result ≡ begins_name b }
{
    b.is_ascii_alphabetic() || b == b'_'
}

fn continues_name(b: u8) -> bool
    ensures { result ≡ continues_name b }
{
    begins_name(b) || b.is_ascii_digit()
}

// Whether the bytes behind the first are in a comment, if the first is blank.
fn after_blank(inside: bool, text: &[u8]) -> Option<bool>
    ensures { result ≡ after_blank inside text.now }
{
    let (b, _) = text.split_first()?;
    if inside {
        Some(*b != b'\n')
    } else if is_space(*b) {
        Some(false)
    } else if text.starts_with(b"--") {
        Some(true)
    } else {
        None
    }
}

// How many bytes of blanks a text begins with.
#[tactic(auto, unfolding(crate::specs::Tokens::blank_length))]
fn blanks(text: &[u8]) -> usize
    ensures length { result ≡ blank_length false text.now }
    ensures within { result ≤ length text.now }
{
    let mut rest = text;
    let mut inside = false;
    let mut count = 0;
    while let Some((_, others)) = rest.split_first() {
        let Some(now_inside) = after_blank(inside, rest) else {
            return count;
        };
        inside = now_inside;
        rest = others;
        count += 1;
    }
    count
}

// How many bytes of a name a text begins with.
fn name_length(text: &[u8]) -> usize
    ensures length { result ≡ prefix_len continues_name text.now }
    ensures within { result ≤ length text.now }
{
    text.iter().take_while(|b| continues_name(**b)).count()
}

/// How many digits a text begins with.
pub fn digits_length(text: &[u8]) -> usize
    ensures length { result ≡ prefix_len is_ascii_digit text.now }
    ensures within { result ≤ length text.now }
{
    text.iter().take_while(|b| b.is_ascii_digit()).count()
}

/// How long the name or reserved word is that begins here.
pub fn word_length(text: &[u8]) -> usize
    requires some { 0 < length text.now }
    requires begins { begins_name (slice_index text.now 0) ≡ true }
    ensures longest { longest (length text.now) text.now ≡ Some (result, word_lexeme (take result text.now) (entry_of keywords (take result text.now))) }
    ensures run { result ≡ suc (prefix_len continues_name (drop 1 text.now)) }
    ensures within { result ≤ length text.now }
{
    match text.split_first() {
        Some((_, rest)) => name_length(rest) + 1,
        None => unreachable!(),
    }
}

impl From<AllocError> for LexFault {
    ghost use Rattle.au_lex.specs.declared.LexFault.TheVariants.{NoMemory};

    ghost from_gives = { λ _ e. e ≡ NoMemory };

    fn from(_: AllocError) -> Self {
        LexFault::NoMemory
    }
}

impl<T: Drop> From<AllocFailed<T>> for LexFault {
    ghost use Rattle.au_lex.specs.declared.LexFault.TheVariants.{NoMemory};

    ghost from_gives = { λ _ e. e ≡ NoMemory };

    fn from(_: AllocFailed<T>) -> Self {
        LexFault::NoMemory
    }
}

/// A text without its first bytes.
pub fn behind(text: &[u8], count: usize) -> &[u8]
    requires { count ≤ length text.now }
    ensures { result.now ≡ drop count text.now }
{
    text.split_at(count).1
}

// The next token and how many bytes it takes with the blanks before it, where `room` more may come.
fn next_token(
    alloc: Global,
    text: &[u8],
    at: usize,
    room: usize,
) -> Result<Option<(Token, usize)>, LexFault>
    requires fits { at + length text.now < 2 ^ 64 }
    requires utf8 { IsUtf8 text.now }
    ensures none { result ≡ Ok None → tokens_from room at text.now ≡ Ok [] }
    ensures some { IfOk result (λ o. IfSome o (λ t. GoesOn room at text.now t.0 t.1)) }
    ensures fault { IfErr result (λ e. (e ≡ LexFault.NoMemory) ⊎ (tokens_from room at text.now ≡ Err e)) }
{
    let gap = blanks(text);
    let rest = behind(text, gap);
    if rest.is_empty() {
        return Ok(None);
    }
    let from = at + gap;
    if room == 0 {
        return Err(one_too_many(rest, from));
    }
    match lexeme_at(alloc, rest, from) {
        Ok((len, what)) => {
            let to = from + len;
            Ok(Some((Token { what, from, to }, gap + len)))
        }
        Err(fault) => Err(fault),
    }
}

// The tokens of a text.
fn token_list(alloc: Global, text: &[u8]) -> Result<Vec<Token>, LexFault>
    requires { IsUtf8 text.now }
    ensures tokens { IfOk result (λ v. tokens_of text.now ≡ Ok v.items) }
    ensures fault { IfErr result (λ e. (e ≡ LexFault.NoMemory) ⊎ (tokens_of text.now ≡ Err e)) }
{
    let mut items = Vec::new(alloc);
    let mut rest = text;
    let mut at = 0;
    let mut room: usize = 4096;
    loop {
        match next_token(alloc, rest, at, room) {
            Ok(Some((token, passed))) => {
                items.push(token)?;
                rest = behind(rest, passed);
                at += passed;
                room -= 1;
            }
            Ok(None) => return Ok(items),
            Err(fault) => return Err(fault),
        }
    }
}

/// The tokens of a query.
pub fn tokens(alloc: Global, text: &str) -> Result<TokenList, LexFault>
    ensures tokens { IfOk result (λ ts. tokens_of text.now ≡ Ok ts) }
    ensures spans { IfOk result (Spans text.now 0) }
    ensures scales { IfOk result HaveScales }
    ensures fault { IfErr result (λ e. (e ≡ LexFault.NoMemory) ⊎ (tokens_of text.now ≡ Err e)) }
{
    match token_list(alloc, text.as_bytes()) {
        Ok(items) => Ok(TokenList::new(items)),
        Err(fault) => Err(fault),
    }
}
