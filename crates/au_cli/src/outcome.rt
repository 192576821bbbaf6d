//! How a run ends.
ghost use Rattle.std.specs.Prelude.{◌≡◌};

use au_blocks::TableFault;
use au_engine::{LimitFault, QueryFault};
use au_sqltext::PlanFault;
use au_words::UsageFault;

/// How a run ends. Files are numbered from 0, in the order of their words; that of a plan is one of them.
#[derive(Clone, Copy, Debug, PartialEq, Eq)]
pub enum Outcome {
    /// The answer is put.
    Done,

    /// The query is refused.
    Query(QueryFault),

    /// The words are refused.
    Usage(UsageFault),

    /// This file is no block table.
    Table(usize, TableFault),

    /// A number leaves 128 bits.
    Overflow,

    /// This file could not be read.
    ReadFault(usize),

    /// The answer could not be put.
    WriteFault,

    /// Memory was refused.
    NoMemory,

    /// A limit is passed.
    Limit(LimitFault),

    /// This file is not there.
    NoFile(usize),

    /// The plan is refused: its text, or over the tables that are given.
    Plan(PlanFault),
}

impl Outcome {
    ghost use Rattle.au_cli.specs.Lines.{status_of};

    /// The exit status.
    pub fn code(&self) -> u8
        ensures { result ≡ status_of self.now }
    {
        match self {
            Outcome::Done => 0,
            Outcome::Query(_) => 1,
            Outcome::Usage(_) => 2,
            Outcome::Table(_, _) => 3,
            Outcome::Overflow => 4,
            Outcome::ReadFault(_) => 5,
            Outcome::WriteFault => 6,
            Outcome::NoMemory => 7,
            Outcome::Limit(_) => 8,
            Outcome::NoFile(_) => 9,
            Outcome::Plan(_) => 11,
        }
    }
}
