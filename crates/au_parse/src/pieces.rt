//! Pieces of a list of tokens: before a mark outside brackets, and inside brackets.
ghost use Rattle.std.specs.Prelude.{◌≡◌, ◌<◌, ◌≤◌, ◌+◌, false, length, drop, IfSome, option_map};
ghost use Rattle.au_parse.specs.Cuts.{inside};
ghost use Rattle.au_parse.specs.Levels.{BeginsAtMark, close_length, closes, front_length, is_mark};

use crate::words::{depth_after, ends_operand, is_close, is_end, is_group_close, is_minus};
use au_lex::{Keyword, Lexeme, Symbol, Token};

/// What cuts a list: the operators of a level, commas, clause words, the words of a CASE, set words.
#[derive(Clone, Copy)]
pub enum Mark {
    Or,
    And,
    Compare,
    Sum,
    Product,
    Comma,
    Clause,
    Case,
    Set,
}

/// The two kinds of brackets: `(` with `)`, and CASE with END.
#[derive(Clone, Copy)]
pub enum Bracket {
    Group,
    Case,
}

fn is_comparison(what: &Lexeme) -> bool
    ensures { result ≡ is_mark Mark.Compare false what.now }
{
    match what {
        Lexeme::Symbol(symbol) => matches!(
            symbol,
            Symbol::Equal
                | Symbol::Differs
                | Symbol::Less
                | Symbol::AtMost
                | Symbol::Greater
                | Symbol::AtLeast
        ),
        _ => false,
    }
}

fn is_clause_word(what: &Lexeme) -> bool
    ensures { result ≡ is_mark Mark.Clause false what.now }
{
    match what {
        Lexeme::Key(key) => matches!(
            key,
            Keyword::From | Keyword::Where | Keyword::Group | Keyword::Having
        ),
        _ => false,
    }
}

fn is_case_word(what: &Lexeme) -> bool
    ensures { result ≡ is_mark Mark.Case false what.now }
{
    match what {
        Lexeme::Key(key) => matches!(key, Keyword::When | Keyword::Then | Keyword::Else),
        _ => false,
    }
}

/// Whether a lexeme is a mark of a kind, `after` an operand or not.
pub fn is_mark(mark: Mark, after: bool, what: &Lexeme) -> bool
    ensures { result ≡ is_mark mark after what.now }
{
    match mark {
        Mark::Or => matches!(what, Lexeme::Key(Keyword::Or)),
        Mark::And => matches!(what, Lexeme::Key(Keyword::And)),
        Mark::Compare => is_comparison(what),
        Mark::Sum => matches!(what, Lexeme::Symbol(Symbol::Plus)) || after && is_minus(what),
        Mark::Product => matches!(what, Lexeme::Symbol(Symbol::Star)),
        Mark::Comma => matches!(what, Lexeme::Symbol(Symbol::Comma)),
        Mark::Clause => is_clause_word(what),
        Mark::Case => is_case_word(what),
        Mark::Set => matches!(
            what,
            Lexeme::Key(Keyword::Union) | Lexeme::Key(Keyword::Except)
        ),
    }
}

/// How many tokens stand before the first mark outside brackets.
#[tactic(auto, unfolding(crate::specs::Levels::front_length))]
pub fn front_length(mark: Mark, tokens: &[Token]) -> usize
    ensures count { result ≡ front_length (is_mark mark) false 0 tokens.now }
    ensures within { result ≤ length tokens.now }
{
    let mut rest = tokens;
    let mut after = false;
    let mut depth: usize = 0;
    let mut count: usize = 0;
    while let Some((token, others)) = rest.split_first() {
        if depth == 0 && is_mark(mark, after, &token.what) {
            return count;
        }
        after = ends_operand(&token.what);
        depth = depth_after(depth, &token.what);
        count += 1;
        rest = others;
    }
    count
}

// How many tokens stand before the first bracket that closes none of them.
#[tactic(auto, unfolding(crate::specs::Levels::close_length))]
fn close_length(tokens: &[Token]) -> usize
    ensures count { result ≡ close_length 0 tokens.now }
    ensures within { result ≤ length tokens.now }
{
    let mut rest = tokens;
    let mut depth: usize = 0;
    let mut count: usize = 0;
    while let Some((token, others)) = rest.split_first() {
        if depth == 0 && is_close(&token.what) {
            return count;
        }
        depth = depth_after(depth, &token.what);
        count += 1;
        rest = others;
    }
    count
}

fn closes(bracket: Bracket, what: &Lexeme) -> bool
    ensures { result ≡ closes bracket what.now }
{
    match bracket {
        Bracket::Group => is_group_close(what),
        Bracket::Case => is_end(what),
    }
}

/// What stands before the last token, where that one closes the bracket that is open before the list.
pub fn inside(bracket: Bracket, tokens: &[Token]) -> Option<&[Token]>
    ensures tokens { option_map (λ x. x.now) result ≡ inside (closes bracket) 0 tokens.now }
    ensures shorter { IfSome result (λ x. length x.now < length tokens.now) }
{
    let (middle, behind) = tokens.split_at(close_length(tokens));
    let Some((last, others)) = behind.split_first() else {
        return None;
    };
    if !others.is_empty() {
        return None;
    }
    if closes(bracket, &last.what) {
        Some(middle)
    } else {
        None
    }
}
