//! The tokens of a query text.
//!
//! `tokens` cuts a text into its `Token`s, each with the places (in bytes) where it begins and ends: at each place the
//! longest front that spells a `Lexeme`. Blanks and comments separate tokens. Where the text has no tokens, the
//! `LexFault` is the first from the left.
//!
//! ```text
//! let list = tokens(alloc, "SELECT id FROM orders -- all of them")?;
//! for token in list.items() {
//!     // Key(Select) at 0 to 6, Name(id) at 7 to 9, Key(From) at 10 to 14, Name(orders) at 15 to 21
//! }
//! ```
#![tactic(auto)]

ghost use Rattle.std.specs.Prelude.{◌≡◌};

mod front;
mod scan;

use au_value::Word;
pub use scan::tokens;
use std::marker::Model;
use thiserror::Error;

/// The reserved words.
#[derive(Clone, Copy, Debug, PartialEq, Eq)]
pub enum Keyword {
    Select,
    Distinct,
    All,
    From,
    Where,
    Group,
    By,
    Having,
    Union,
    Except,
    As,
    And,
    Or,
    Not,
    Case,
    When,
    Then,
    Else,
    End,
    True,
    False,
}

/// The symbols, `!=` being the one of `<>`.
#[derive(Clone, Copy, Debug, PartialEq, Eq)]
pub enum Symbol {
    Open,
    Close,
    Comma,
    Dot,
    Star,
    Plus,
    Minus,
    Equal,
    Differs,
    Less,
    AtMost,
    Greater,
    AtLeast,
    Semicolon,
}

/// What a token spells.
#[derive(Drop)]
pub enum Lexeme {
    /// An ASCII letter or `_`, then ASCII letters, digits and `_`; no reserved word.
    Name(Word),
    /// What stands between double quotes, a doubled one read as one.
    Quoted(Word),
    /// A reserved word, in any ASCII case.
    Key(Keyword),
    /// What stands between single quotes, a doubled one read as one.
    Text(Word),
    /// Up to 39 digits; at least 0 and at most 2^127-1.
    Number(i128),
    /// Digits, a point and 1 to 9 digits, up to 39 in all: the number of all digits, and how many stand behind the point.
    Decimal(i128, u32),
    Symbol(Symbol),
}

/// A lexeme, and the places where it begins and ends in the query.
#[derive(Drop)]
pub struct Token {
    pub what: Lexeme,
    pub from: usize,
    pub to: usize,
}

/// Why a text has no tokens: the first fault from the left, and at which byte.
#[derive(Clone, Copy, Debug, PartialEq, Eq, Error)]
pub enum LexFault {
    /// The character at this place begins no token.
    #[error("the character at byte {0} begins no token")]
    BadChar(usize),
    /// The text or quoted name that begins here has no end.
    #[error("the quote at byte {0} has no end")]
    OpenText(usize),
    /// The digits that begin here, perhaps with a point among them, are more than 39, or more than 9 behind the point,
    /// pass 2^127-1 without the point, or run into a letter or `_`.
    #[error("the number at byte {0} is too long, or runs into a word")]
    BadNumber(usize),
    /// A 4,097th token begins, whatever it would be.
    #[error("there are more than 4,096 tokens")]
    TooManyTokens,
    /// Memory was wanting.
    #[error("out of memory")]
    NoMemory,
}

/// The tokens of a text. Contracts see their list.
#[derive(Drop)]
pub struct TokenList {
    items: Vec<Token>,
}

impl Model for TokenList {
    ghost use Rattle.std.specs.Prelude.{List};
    ghost use Rattle.au_lex.specs.declared.Token.{Token};

    ghost Value = { List Token };

    ghost view = { λ t. t.items.items };
}

impl TokenList {
    fn new(items: Vec<Token>) -> TokenList
        ensures { result ≡ items.items }
    {
        TokenList { items }
    }

    /// The tokens, in order.
    pub fn items(&self) -> &[Token]
        ensures { result.now ≡ self.now }
    {
        &self.items
    }
}
