//! Where a list of tokens that has no tree goes wrong, as far as one token and the one before it tell.
ghost use Rattle.au_parse.specs.Parsing.{IsPlace};

use crate::words::{ends_operand, is_open, is_star};
use au_lex::{Keyword, Lexeme, Symbol, Token};

/// What is being read outside brackets.
#[derive(Clone, Copy)]
enum Section {
    Listed,
    Condition,
}

// Whether a lexeme can only stand behind an operand or a `*`.
fn joins(what: &Lexeme) -> bool {
    match what {
        Lexeme::Key(key) => matches!(
            key,
            Keyword::From
                | Keyword::Where
                | Keyword::Group
                | Keyword::Having
                | Keyword::Union
                | Keyword::Except
                | Keyword::As
                | Keyword::And
                | Keyword::Or
                | Keyword::When
                | Keyword::Then
                | Keyword::Else
                | Keyword::End
        ),
        Lexeme::Symbol(symbol) => !matches!(symbol, Symbol::Open | Symbol::Star | Symbol::Minus),
        _ => false,
    }
}

// Whether a lexeme can't stand directly behind an operand.
fn begins(what: &Lexeme) -> bool {
    match what {
        Lexeme::Text(_) | Lexeme::Number(_) | Lexeme::Decimal(_, _) => true,
        Lexeme::Key(key) => matches!(
            key,
            Keyword::Select
                | Keyword::Distinct
                | Keyword::Not
                | Keyword::Case
                | Keyword::True
                | Keyword::False
                | Keyword::By
        ),
        _ => false,
    }
}

// Whether a lexeme may follow the one before it.
fn follows(before: &Lexeme, what: &Lexeme) -> bool {
    let after = ends_operand(before);
    let name = matches!(before, Lexeme::Name(_));
    let case = matches!(before, Lexeme::Key(Keyword::Case))
        && matches!(what, Lexeme::Key(Keyword::When));
    if joins(what) {
        after || is_star(before) || case
    } else if is_open(what) {
        name || !after
    } else {
        !(after && begins(what))
    }
}

// The part of a query that a word begins.
fn section_after(section: Section, what: &Lexeme) -> Section {
    match what {
        Lexeme::Key(Keyword::Where) | Lexeme::Key(Keyword::Having) => Section::Condition,
        Lexeme::Key(Keyword::Select) | Lexeme::Key(Keyword::From) | Lexeme::Key(Keyword::Group) => {
            Section::Listed
        }
        _ => section,
    }
}

/// The place of the first token that can't follow the one before it, or is a comma behind a condition; else the end.
pub fn misplaced(tokens: &[Token], length: usize) -> usize
    ensures { IsPlace length tokens.now result }
{
    let Some((first, others)) = tokens.split_first() else {
        return length;
    };
    let mut before = first;
    let mut rest = others;
    let mut section = Section::Listed;
    while let Some((token, others)) = rest.split_first() {
        section = section_after(section, &before.what);
        if !follows(&before.what, &token.what) || is_stray_comma(section, &token.what) {
            return token.from;
        }
        before = token;
        rest = others;
    }
    length
}

// Whether this is a comma where no list stands.
fn is_stray_comma(section: Section, what: &Lexeme) -> bool {
    match section {
        Section::Listed => false,
        Section::Condition => matches!(what, Lexeme::Symbol(Symbol::Comma)),
    }
}
