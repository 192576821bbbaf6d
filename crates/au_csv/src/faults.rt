//! Why bytes are no list of records of text.
ghost use Rattle.std.specs.Prelude.{◌≡◌};

use std::alloc::{AllocError, AllocFailed};
use thiserror::Error;

/// Why there are no records.
#[derive(Clone, Copy, Debug, PartialEq, Eq, Error)]
pub enum CsvFault {
    /// This record, counted from 0, is the first with a field that isn't UTF-8.
    #[error("record {0} has a field that is not UTF-8")]
    NotText(usize),
    /// An allocation was refused.
    #[error("out of memory")]
    NoMemory,
}

impl From<AllocError> for CsvFault {
    ghost use Rattle.au_csv.specs.declared.faults.CsvFault.{CsvFault};

    ghost from_gives = { λ e fault. fault ≡ CsvFault.NoMemory };

    fn from(_error: AllocError) -> CsvFault {
        CsvFault::NoMemory
    }
}

impl<T: Drop> From<AllocFailed<T>> for CsvFault {
    ghost use Rattle.au_csv.specs.declared.faults.CsvFault.{CsvFault};

    ghost from_gives = { λ e fault. fault ≡ CsvFault.NoMemory };

    fn from(_error: AllocFailed<T>) -> CsvFault {
        CsvFault::NoMemory
    }
}
