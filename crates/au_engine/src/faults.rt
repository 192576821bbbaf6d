//! Why a query is not answered.

use thiserror::Error;

/// Which limit is passed.
#[derive(Clone, Copy, Debug, PartialEq, Eq, Error)]
pub enum LimitFault {
    /// There are so many table words, more than 8.
    #[error("there are {0} table words, more than 8")]
    Files(usize),

    /// The query has so many bytes, more than 65,536.
    #[error("the query has {0} bytes, more than 65,536")]
    QueryLength(usize),

    /// The query has more than 4,096 tokens.
    #[error("the query has more than 4,096 tokens")]
    Tokens,

    /// At this byte of the query more than 32 brackets and CASE words are open.
    #[error("more than 32 brackets and CASE words are open at byte {0} of the query")]
    Depth(usize),

    /// At this byte of the query one SELECT has more than 8 FROM items.
    #[error("a SELECT has more than 8 FROM items at byte {0} of the query")]
    FromItems(usize),

    /// At this byte of the query one SELECT has more than 64 items.
    #[error("a SELECT has more than 64 items at byte {0} of the query")]
    SelectItems(usize),

    /// This file has more than 8,388,608 bytes.
    #[error("file {0} has more than 8,388,608 bytes")]
    FileSize(usize),

    /// With this file all files have more than 16,777,216 bytes.
    #[error("with file {0} all files have more than 16,777,216 bytes")]
    AllFiles(usize),

    /// The table whose rows are to be encoded has so many columns, more than 20. The engine never gives it.
    #[error("the table to be encoded has {0} columns, more than 20")]
    EncodeColumns(usize),

    /// The guess rows of this file's table are too many to be made: g of them with c columns, where g * (c + 1) exceeds
    /// 16,777,216. The engine never gives it.
    #[error("file {0} stands for too many guess rows")]
    PlainRows(usize),
}

/// Why a query is refused, with the byte of its text at which the fault stands.
#[derive(Clone, Copy, Debug, PartialEq, Eq, Error)]
pub enum QueryFault {
    /// A character begins no token.
    #[error("the character at byte {0} begins no token")]
    BadChar(usize),

    /// A quotation has no end.
    #[error("the quote at byte {0} has no end")]
    OpenText(usize),

    /// A number leaves 128 bits, or is no number.
    #[error("the number at byte {0} is too long, or runs into a word")]
    BadNumber(usize),

    /// The tokens are no statement.
    #[error("the tokens are no statement, which shows at byte {0}")]
    Syntax(usize),

    /// A statement that should be positive has UNION without ALL, EXCEPT, DISTINCT, GROUP BY, HAVING or an aggregate.
    #[error("the query is not positive at byte {0}")]
    NotPositive(usize),

    /// No table has the name.
    #[error("no table has the name at byte {0}")]
    UnknownTable(usize),

    /// No column has the name.
    #[error("no visible column has the name at byte {0}")]
    UnknownColumn(usize),

    /// Several columns have the name.
    #[error("several visible columns have the name at byte {0}")]
    Ambiguous(usize),

    /// Two FROM items have one name.
    #[error("an earlier FROM item has the name of the one at byte {0}")]
    SameAlias(usize),

    /// The kinds of the operands don't fit.
    #[error("the kinds at byte {0} do not fit")]
    KindMismatch(usize),

    /// A column is neither a key of the grouping nor inside an aggregate.
    #[error("the column at byte {0} is no key of its grouping")]
    NotGrouped(usize),

    /// An aggregate stands where none may.
    #[error("the aggregate at byte {0} stands in WHERE or inside an aggregate")]
    MisplacedAggregate(usize),

    /// MIN or MAX stands in a SELECT without GROUP BY.
    #[error("the MIN or MAX at byte {0} stands in a SELECT without GROUP BY")]
    MinMaxNeedsGroup(usize),

    /// The rows of several FROM items are counted, or summed over no column.
    #[error("the aggregate at byte {0} counts the rows of a join")]
    CountOverJoin(usize),

    /// The two sides of a set operation have different numbers of columns.
    #[error("the sides of the set word at byte {0} have different numbers of columns")]
    WidthMismatch(usize),
}

/// Why the engine doesn't answer.
#[derive(Clone, Copy, Debug, PartialEq, Eq, Error)]
pub enum EngineFault {
    /// The query is refused.
    #[error(transparent)]
    Query(QueryFault),

    /// The query passes a limit.
    #[error(transparent)]
    Limit(LimitFault),

    /// A number of the answer leaves 128 bits.
    #[error("a number of the answer leaves 128 bits")]
    Overflow,

    /// Memory was refused.
    #[error("out of memory")]
    NoMemory,
}
