//! Operands that hold no others: a token alone, and a column behind the name of a table.
ghost use Rattle.std.specs.Prelude.{◌≡◌, Some, None, option_map, IfOk, if◌then◌else◌};
ghost use Rattle.au_lex.specs.Lexemes.{is_scale};
ghost use Rattle.au_parse.specs.Expressions.{atom, both, column_of};
ghost use Rattle.au_parse.specs.Levels.{tree_read};
ghost use Rattle.au_parse.specs.Tree.{TermTree};
ghost use Rattle.au_parse.specs.Words.{name_word};

use crate::options::paired;
use crate::words::{copied, is_dot, name_word};
use crate::{Name, Term};
use au_lex::{Keyword, Lexeme, Token};
use au_value::both;
use std::alloc::{AllocError, Global};

// A number with so many digits behind its point: 1 to 9.
fn decimal(at: usize, n: i128, digits: u32) -> Option<Term>
    ensures { tree_read result ≡ (if is_scale digits then Some (TermTree.decimal at n digits) else None) }
{
    if 0 < digits && digits < 10 {
        Some(Term::Decimal(at, n, digits))
    } else {
        None
    }
}

/// A token alone.
pub fn atom(alloc: Global, token: &Token) -> Result<Option<Term>, AllocError>
    ensures { IfOk result (λ o. tree_read o ≡ atom token.now.from token.now.what) }
{
    let at = token.from;
    match &token.what {
        Lexeme::Name(word) | Lexeme::Quoted(word) => {
            let column = copied(alloc, word)?;
            Ok(Some(Term::Column(Name {
                at,
                table: None,
                column,
            })))
        }
        Lexeme::Number(n) => Ok(Some(Term::Number(at, *n))),
        Lexeme::Decimal(n, digits) => Ok(decimal(at, *n, *digits)),
        Lexeme::Text(word) => Ok(Some(Term::Text(at, copied(alloc, word)?))),
        Lexeme::Key(Keyword::True) => Ok(Some(Term::Flag(at, true))),
        Lexeme::Key(Keyword::False) => Ok(Some(Term::Flag(at, false))),
        _ => Ok(None),
    }
}

/// A column, perhaps behind a name and a dot.
pub fn column_of(alloc: Global, tokens: &[Token]) -> Result<Option<Name>, AllocError>
    ensures { IfOk result (λ o. o ≡ column_of tokens.now) }
{
    let Some((first, others)) = tokens.split_first() else {
        return Ok(None);
    };
    let Some((dot, behind)) = others.split_first() else {
        return one_name(alloc, first);
    };
    let Some((last, rest)) = behind.split_first() else {
        return Ok(None);
    };
    if !rest.is_empty() {
        return Ok(None);
    }
    if !is_dot(&dot.what) {
        return Ok(None);
    }
    two_names(alloc, first, last)
}

fn one_name(alloc: Global, token: &Token) -> Result<Option<Name>, AllocError>
    ensures { IfOk result (λ o. o ≡ option_map (λ w. record { at = token.now.from; table = None; column = w }) (name_word token.now.what)) }
{
    match name_word(alloc, &token.what)? {
        Some(column) => Ok(Some(Name {
            at: token.from,
            table: None,
            column,
        })),
        None => Ok(None),
    }
}

fn two_names(alloc: Global, first: &Token, last: &Token) -> Result<Option<Name>, AllocError>
    ensures { IfOk result (λ o. o ≡ both (λ table column. record { at = first.now.from; table = Some table; column = column }) (name_word first.now.what) (name_word last.now.what)) }
{
    let (table, column) = both(name_word(alloc, &first.what), name_word(alloc, &last.what))?;
    match paired(table, column) {
        Some((table, column)) => Ok(Some(Name {
            at: first.from,
            table: Some(table),
            column,
        })),
        None => Ok(None),
    }
}

/// The expression of a column, perhaps behind a name and a dot.
pub fn column_term(alloc: Global, tokens: &[Token]) -> Result<Option<Term>, AllocError>
    ensures { IfOk result (λ o. tree_read o ≡ option_map TermTree.column (column_of tokens.now)) }
{
    match column_of(alloc, tokens)? {
        Some(name) => Ok(Some(Term::Column(name))),
        None => Ok(None),
    }
}
