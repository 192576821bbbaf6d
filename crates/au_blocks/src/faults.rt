//! Why a text is no block table.
ghost use Rattle.std.specs.Prelude.{◌≡◌};

use au_csv::CsvFault;
use au_value::NoMemory;
use std::alloc::{AllocError, AllocFailed};
use thiserror::Error;

/// The first defect of a text that is no block table, with its place.
///
/// Records are counted from 0, where record 0 is the header. Columns are counted from 0 behind `_block`, `_role` and `_times`,
/// and blocks from 0 in the order of their first records. The defects are judged in this order: `NotText`; `NoHeader`;
/// `TooManyColumns`; for each column `BadColumnName`, `UnknownKind`, `SameName`; for each further record `WrongWidth`,
/// `BadRole`, `AbsentWithValues`, `BadTimes`, `BadField` by columns; for each block `TwoGuesses`, `NoGuess`,
/// `OnlyAbsent`, `TwoAbsent`.
#[derive(Clone, Copy, Debug, PartialEq, Eq, Error)]
pub enum TableFault {
    /// There is no record.
    #[error("there is no header")]
    NoHeader,
    /// A field of this record isn't UTF-8.
    #[error("record {0} has a field that is not UTF-8")]
    NotText(usize),
    /// There are more than 64 columns, `_block`, `_role` and `_times` not counted.
    #[error("there are more than 64 columns")]
    TooManyColumns,
    /// The name of this column is longer than 128 bytes.
    #[error("the name of column {0} has more than 128 bytes")]
    BadColumnName(usize),
    /// These two columns have names that are equal ignoring ASCII case. The first is the least such.
    #[error("columns {0} and {1} have one name")]
    SameName(usize, usize),
    /// In a block table's header a colon stands in this column's field, and what is behind the last one is no kind.
    #[error("the kind of column {0} is unknown")]
    UnknownKind(usize),
    /// This record hasn't as many fields as the header.
    #[error("record {0} has not as many fields as the header")]
    WrongWidth(usize),
    /// The role of this record is none of `guess`, `alt`, `absent` and `absent-guess`.
    #[error("the role of record {0} is unknown")]
    BadRole(usize),
    /// In this record, which isn't absent, the field of this column is no value of the column's written kind, and no range
    /// of a written kind of numbers in a table with `_times`.
    #[error("the field of column {1} in record {0} is no value of its kind")]
    BadField(usize, usize),
    /// More than one record of this block is marked as the guess.
    #[error("block {0} has more than one guess")]
    TwoGuesses(usize),
    /// No record of this block is marked as the guess.
    #[error("block {0} has no guess")]
    NoGuess(usize),
    /// This block has no alternative.
    #[error("block {0} has no alternative")]
    OnlyAbsent(usize),
    /// This block has two absent records.
    #[error("block {0} has two absent records")]
    TwoAbsent(usize),
    /// This absent record has a field behind its role that isn't empty.
    #[error("the absent record {0} has values")]
    AbsentWithValues(usize),
    /// In a table with `_times`, this record isn't absent, and its third field writes no numbers of copies.
    #[error("record {0} writes no numbers of copies")]
    BadTimes(usize),
    /// An allocation was refused.
    #[error("out of memory")]
    NoMemory,
}

impl From<CsvFault> for TableFault {
    ghost use Rattle.au_blocks.specs.Faults.{of_csv};

    ghost from_gives = { λ e fault. fault ≡ of_csv e };

    fn from(fault: CsvFault) -> TableFault {
        match fault {
            CsvFault::NotText(record) => TableFault::NotText(record),
            CsvFault::NoMemory => TableFault::NoMemory,
        }
    }
}

impl From<NoMemory> for TableFault {
    ghost use Rattle.au_blocks.specs.declared.faults.TableFault.{TableFault};

    ghost from_gives = { λ e fault. fault ≡ TableFault.NoMemory };

    fn from(_error: NoMemory) -> TableFault {
        TableFault::NoMemory
    }
}

impl From<AllocError> for TableFault {
    ghost use Rattle.au_blocks.specs.declared.faults.TableFault.{TableFault};

    ghost from_gives = { λ e fault. fault ≡ TableFault.NoMemory };

    fn from(_error: AllocError) -> TableFault {
        TableFault::NoMemory
    }
}

impl<T: Drop> From<AllocFailed<T>> for TableFault {
    ghost use Rattle.au_blocks.specs.declared.faults.TableFault.{TableFault};

    ghost from_gives = { λ e fault. fault ≡ TableFault.NoMemory };

    fn from(_error: AllocFailed<T>) -> TableFault {
        TableFault::NoMemory
    }
}
