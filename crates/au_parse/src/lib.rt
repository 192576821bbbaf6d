//! The statement of a query's tokens.
//!
//! `parse` gives the `Statement` that the tokens of a query are: SELECTs joined by set words, with `Term`s as
//! expressions. Where there is none, the `ParseFault` names the limit that is passed, or else a fault of syntax.
//! Operators of one level group from the left, and each part of a statement has its place in the query, in bytes.
//!
//! ```text
//! let text = "SELECT a - b - c FROM t";
//! let list = tokens(alloc, text)?;
//! let statement = parse(alloc, list.items(), text.len())?;
//! // one item, (a - b) - c, whose root stands at byte 13
//! ```
#![tactic(auto)]

mod limits;
mod lists;
mod operands;
mod operators;
mod options;
mod pieces;
mod places;
mod queries;
mod reading;
mod terms;
mod words;

use au_value::{Comparison, Word};
pub use operators::Operation;
pub use reading::parse;
use thiserror::Error;

/// The aggregates.
#[derive(Clone, Copy, Debug, PartialEq, Eq)]
pub enum AggWord {
    Count,
    Sum,
    Min,
    Max,
}

/// A column, perhaps behind the name of a table, and where its first token stands.
#[derive(Drop)]
pub struct Name {
    pub at: usize,
    pub table: Option<Word>,
    pub column: Word,
}

/// An expression. Each place is that of its word, symbol or literal, and a column's that of its first token.
#[derive(Drop)]
pub enum Term {
    Column(Name),
    Number(usize, i128),
    /// A number without its point, and how many digits stand behind the point: 1 to 9.
    Decimal(usize, i128, u32),
    Text(usize, Word),
    Flag(usize, bool),
    Add(usize, Box<Term>, Box<Term>),
    Subtract(usize, Box<Term>, Box<Term>),
    Multiply(usize, Box<Term>, Box<Term>),
    Negate(usize, Box<Term>),
    Compare(usize, Comparison, Box<Term>, Box<Term>),
    And(usize, Box<Term>, Box<Term>),
    Or(usize, Box<Term>, Box<Term>),
    Not(usize, Box<Term>),
    /// The conditions and values of its WHEN parts, at least one, and the value of ELSE.
    Case(usize, Vec<(Term, Term)>, Box<Term>),
    /// COUNT(*)
    CountRows(usize),
    Aggregate(usize, AggWord, Box<Term>),
}

/// An item of a SELECT: `*`, the star of a table, or an expression with or without an alias.
#[derive(Drop)]
pub enum Item {
    Star(usize),
    StarOf(usize, Word),
    Value(Term, Option<Word>),
}

/// An item of a FROM clause, the place being that of its first token: a table with or without an alias, or a query
/// between brackets with its alias.
#[derive(Drop)]
#[cycle(statement)]
pub enum Source {
    Table(usize, Word, Option<Word>),
    Inner(usize, Box<Statement>, Word),
}

/// A SELECT, at the place of its SELECT word.
#[derive(Drop)]
#[cycle(statement)]
pub struct SelectPart {
    pub at: usize,
    pub distinct: bool,
    pub items: Vec<Item>,
    pub sources: Vec<Source>,
    /// The place of WHERE, and what stands behind it.
    pub condition: Option<(usize, Term)>,
    pub keys: Vec<Name>,
    /// Whether GROUP BY is written.
    pub grouped: bool,
    /// The place of HAVING, and what stands behind it.
    pub having: Option<(usize, Term)>,
}

/// A query. The flag of a set word is true where ALL stands, and the place is that of the set word.
#[derive(Drop)]
#[cycle(statement)]
pub enum Statement {
    Select(Box<SelectPart>),
    Union(bool, usize, Box<Statement>, Box<Statement>),
    Except(bool, usize, Box<Statement>, Box<Statement>),
}

/// Why tokens have no statement, and at which byte. Of several limits that are passed the one of the least place comes.
#[derive(Clone, Copy, Debug, PartialEq, Eq, Error)]
pub enum ParseFault {
    /// The tokens are no query and pass no limit; the place is where a token begins, or the query's length.
    #[error("the tokens are no query, which shows at byte {0}")]
    Syntax(usize),
    /// The bracket or CASE that begins here is the 33rd that is open.
    #[error("more than 32 brackets and CASE words are open at byte {0}")]
    TooDeep(usize),
    /// Behind the 8th comma of one FROM word.
    #[error("a SELECT has more than 8 FROM items at byte {0}")]
    TooManyFrom(usize),
    /// Behind the 64th comma of one SELECT word.
    #[error("a SELECT has more than 64 items at byte {0}")]
    TooManyItems(usize),
    /// Memory was wanting.
    #[error("out of memory")]
    NoMemory,
}
