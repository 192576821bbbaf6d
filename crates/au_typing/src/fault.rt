//! What is wrong with a statement.
ghost use Rattle.std.specs.Prelude.{◌≡◌};

use au_value::NoMemory;
use std::alloc::{AllocError, AllocFailed};
use thiserror::Error;

/// A defect of a statement, and the byte of the query at which it stands.
#[derive(Clone, Copy, Debug, PartialEq, Eq, Error)]
pub enum TypingFault {
    /// No table has this name, or no FROM item is visible under this qualifier.
    #[error("no table has the name at byte {0}")]
    UnknownTable(usize),
    /// No visible column has this name.
    #[error("no visible column has the name at byte {0}")]
    UnknownColumn(usize),
    /// Two or more visible columns have this name.
    #[error("several visible columns have the name at byte {0}")]
    Ambiguous(usize),
    /// The FROM item that begins here is visible under the name of an earlier one.
    #[error("an earlier FROM item has the name of the one at byte {0}")]
    SameAlias(usize),
    /// The kinds of this operator, CASE, aggregate, WHERE, HAVING or set word don't fit.
    #[error("the kinds at byte {0} do not fit")]
    KindMismatch(usize),
    /// This column, or one of this star, is no key of its grouped SELECT and stands outside aggregates.
    #[error("the column at byte {0} is no key of its grouping")]
    NotGrouped(usize),
    /// This aggregate stands in WHERE or inside an aggregate.
    #[error("the aggregate at byte {0} stands in WHERE or inside an aggregate")]
    MisplacedAggregate(usize),
    /// This MIN or MAX stands in a SELECT without GROUP BY.
    #[error("the MIN or MAX at byte {0} stands in a SELECT without GROUP BY")]
    MinMaxNeedsGroup(usize),
    /// This COUNT, or SUM of what names no column, stands in a SELECT that joins.
    #[error("the aggregate at byte {0} counts the rows of a join")]
    CountOverJoin(usize),
    /// The sides of this set word have different numbers of columns.
    #[error("the sides of the set word at byte {0} have different numbers of columns")]
    WidthMismatch(usize),
    /// An allocation was refused.
    #[error("out of memory")]
    NoMemory,
}

impl From<NoMemory> for TypingFault {
    ghost use Rattle.au_typing.specs.declared.fault.TypingFault.{TypingFault};

    ghost from_gives = { λ e fault. fault ≡ TypingFault.NoMemory };

    fn from(_error: NoMemory) -> TypingFault {
        TypingFault::NoMemory
    }
}

impl From<AllocError> for TypingFault {
    ghost use Rattle.au_typing.specs.declared.fault.TypingFault.{TypingFault};

    ghost from_gives = { λ e fault. fault ≡ TypingFault.NoMemory };

    fn from(_error: AllocError) -> TypingFault {
        TypingFault::NoMemory
    }
}

impl<T: Drop> From<AllocFailed<T>> for TypingFault {
    ghost use Rattle.au_typing.specs.declared.fault.TypingFault.{TypingFault};

    ghost from_gives = { λ e fault. fault ≡ TypingFault.NoMemory };

    fn from(_error: AllocFailed<T>) -> TypingFault {
        TypingFault::NoMemory
    }
}
