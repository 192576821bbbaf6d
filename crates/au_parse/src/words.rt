//! What a single lexeme is to the grammar.
ghost use Rattle.std.specs.Prelude.{◌≡◌, ◌<◌, ◌^◌, ◌≤◌, ◌+◌, IfOk, is_some};
ghost use Rattle.au_lex.specs.Lexemes.{entry_of};
ghost use Rattle.au_parse.specs.Levels.{is_else, is_then, is_when};
ghost use Rattle.au_parse.specs.Words.{aggregate_word, aggregates, depth_after, ends_operand, is_all, is_as, is_by, is_case, is_close, is_comma, is_distinct, is_dot, is_end, is_group_close, is_group_open, is_minus, is_not, is_open, is_select, is_semicolon, is_star, name_word};

use crate::AggWord;
use au_lex::{Keyword, Lexeme, Symbol};
use au_value::Word;
use std::alloc::{AllocError, Global};

/// Whether a lexeme opens what another closes: a bracket or a CASE.
pub fn is_open(what: &Lexeme) -> bool
    ensures { result ≡ is_open what.now }
{
    matches!(
        what,
        Lexeme::Symbol(Symbol::Open) | Lexeme::Key(Keyword::Case)
    )
}

/// Whether a lexeme closes what another opened: a bracket or END.
pub fn is_close(what: &Lexeme) -> bool
    ensures { result ≡ is_close what.now }
{
    matches!(
        what,
        Lexeme::Symbol(Symbol::Close) | Lexeme::Key(Keyword::End)
    )
}

/// Whether a lexeme is `(`.
pub fn is_group_open(what: &Lexeme) -> bool
    ensures { result ≡ is_group_open what.now }
{
    matches!(what, Lexeme::Symbol(Symbol::Open))
}

/// Whether a lexeme is `)`.
pub fn is_group_close(what: &Lexeme) -> bool
    ensures { result ≡ is_group_close what.now }
{
    matches!(what, Lexeme::Symbol(Symbol::Close))
}

/// Whether a lexeme is END.
pub fn is_end(what: &Lexeme) -> bool
    ensures { result ≡ is_end what.now }
{
    matches!(what, Lexeme::Key(Keyword::End))
}

/// Whether a lexeme is CASE.
pub fn is_case(what: &Lexeme) -> bool
    ensures { result ≡ is_case what.now }
{
    matches!(what, Lexeme::Key(Keyword::Case))
}

/// Whether a lexeme is NOT.
pub fn is_not(what: &Lexeme) -> bool
    ensures { result ≡ is_not what.now }
{
    matches!(what, Lexeme::Key(Keyword::Not))
}

/// Whether a lexeme is `-`.
pub fn is_minus(what: &Lexeme) -> bool
    ensures { result ≡ is_minus what.now }
{
    matches!(what, Lexeme::Symbol(Symbol::Minus))
}

/// Whether a lexeme is `*`.
pub fn is_star(what: &Lexeme) -> bool
    ensures { result ≡ is_star what.now }
{
    matches!(what, Lexeme::Symbol(Symbol::Star))
}

/// Whether a lexeme is `.`.
pub fn is_dot(what: &Lexeme) -> bool
    ensures { result ≡ is_dot what.now }
{
    matches!(what, Lexeme::Symbol(Symbol::Dot))
}

/// Whether a lexeme is WHEN.
pub fn is_when(what: &Lexeme) -> bool
    ensures { result ≡ is_when what.now }
{
    matches!(what, Lexeme::Key(Keyword::When))
}

/// Whether a lexeme is THEN.
pub fn is_then(what: &Lexeme) -> bool
    ensures { result ≡ is_then what.now }
{
    matches!(what, Lexeme::Key(Keyword::Then))
}

/// Whether a lexeme is ELSE.
pub fn is_else(what: &Lexeme) -> bool
    ensures { result ≡ is_else what.now }
{
    matches!(what, Lexeme::Key(Keyword::Else))
}

/// Whether a lexeme ends an operand.
pub fn ends_operand(what: &Lexeme) -> bool
    ensures { result ≡ ends_operand what.now }
{
    match what {
        Lexeme::Name(_) | Lexeme::Quoted(_) => true,
        Lexeme::Text(_) | Lexeme::Number(_) | Lexeme::Decimal(_, _) => true,
        Lexeme::Key(key) => matches!(key, Keyword::True | Keyword::False | Keyword::End),
        Lexeme::Symbol(symbol) => matches!(symbol, Symbol::Close),
    }
}

/// How many brackets are open after a lexeme, where so many are before it.
pub fn depth_after(depth: usize, what: &Lexeme) -> usize
    requires { depth + 1 < 2 ^ 64 }
    ensures { result ≡ depth_after depth what.now }
{
    if is_open(what) {
        depth + 1
    } else if is_close(what) {
        depth.saturating_sub(1)
    } else {
        depth
    }
}

/// The aggregate that a name is before a bracket.
pub fn aggregate_word(what: &Lexeme) -> Option<AggWord>
    ensures { result ≡ aggregate_word what.now }
{
    match what {
        Lexeme::Name(word) => aggregate_named(word.as_str()),
        _ => None,
    }
}

fn aggregate_named(text: &str) -> Option<AggWord>
    ensures { result ≡ entry_of aggregates text.now }
{
    if "COUNT".eq_ignore_ascii_case(text) {
        Some(AggWord::Count)
    } else if "SUM".eq_ignore_ascii_case(text) {
        Some(AggWord::Sum)
    } else if "MIN".eq_ignore_ascii_case(text) {
        Some(AggWord::Min)
    } else if "MAX".eq_ignore_ascii_case(text) {
        Some(AggWord::Max)
    } else {
        None
    }
}

/// A word of its own with the same text.
pub fn copied(alloc: Global, word: &Word) -> Result<Word, AllocError>
    ensures { IfOk result (λ w. w ≡ word.now) }
{
    let text = String::from_str(alloc, word.as_str())?;
    Ok(Word::new(text))
}

/// Whether a lexeme is `,`.
pub fn is_comma(what: &Lexeme) -> bool
    ensures { result ≡ is_comma what.now }
{
    matches!(what, Lexeme::Symbol(Symbol::Comma))
}

/// The word of a name.
pub fn name_word(alloc: Global, what: &Lexeme) -> Result<Option<Word>, AllocError>
    ensures { IfOk result (λ o. o ≡ name_word what.now) }
{
    match what {
        Lexeme::Name(word) => Ok(Some(copied(alloc, word)?)),
        Lexeme::Quoted(word) => Ok(Some(copied(alloc, word)?)),
        _ => Ok(None),
    }
}

/// Whether a lexeme is `;`.
pub fn is_semicolon(what: &Lexeme) -> bool
    ensures { result ≡ is_semicolon what.now }
{
    matches!(what, Lexeme::Symbol(Symbol::Semicolon))
}

/// Whether a lexeme is AS.
pub fn is_as(what: &Lexeme) -> bool
    ensures { result ≡ is_as what.now }
{
    matches!(what, Lexeme::Key(Keyword::As))
}

/// Whether a lexeme is SELECT.
pub fn is_select(what: &Lexeme) -> bool
    ensures { result ≡ is_select what.now }
{
    matches!(what, Lexeme::Key(Keyword::Select))
}

/// Whether a lexeme is BY.
pub fn is_by(what: &Lexeme) -> bool
    ensures { result ≡ is_by what.now }
{
    matches!(what, Lexeme::Key(Keyword::By))
}

/// Whether a lexeme is ALL.
pub fn is_all(what: &Lexeme) -> bool
    ensures { result ≡ is_all what.now }
{
    matches!(what, Lexeme::Key(Keyword::All))
}

/// Whether a lexeme is DISTINCT.
pub fn is_distinct(what: &Lexeme) -> bool
    ensures { result ≡ is_distinct what.now }
{
    matches!(what, Lexeme::Key(Keyword::Distinct))
}

/// Whether a lexeme is a name.
pub fn is_name(what: &Lexeme) -> bool
    ensures { result ≡ is_some (name_word what.now) }
{
    matches!(what, Lexeme::Name(_) | Lexeme::Quoted(_))
}
