//! What a plan is run over.
ghost use Rattle.std.specs.Prelude.{◌≡◌, IfOk};
ghost use Rattle.au_blocks.specs.Tables.{IsBlockTable, table};
ghost use Rattle.au_batches.specs.BlockRows.{block_rows};
ghost use Rattle.au_exec.specs.HeldRows.{rows_of};
ghost use Rattle.au_engine.specs.HeldTables.{held_rows, IsHeld};

use au_blocks::{Blocks, Column};
use au_exec::{Coded, Source};
use au_plain::PRow;
use au_value::NoMemory;
use std::alloc::Global;
use std::marker::Model;

/// A table that a plan is run over. Contracts see its rows.
#[derive(Drop)]
pub(crate) struct Held<'a> {
    content: Kept<'a>,
}

/// Rows; or rows as the run of a plan gave them; or the columns and some blocks of a block table, of whose encoded rows the
/// values in some places are read.
#[derive(Drop)]
pub(crate) enum Kept<'a> {
    Rows(Vec<PRow>),
    Coded(Coded),
    Blocks(&'a [Column], Blocks<'a>, Vec<usize>),
}

impl<'a> Model for Held<'a> {
    ghost use Rattle.std.specs.Prelude.{List};
    ghost use Rattle.au_value.specs.declared.value.Value.{Value as Cell};
    ghost use Rattle.au_engine.specs.HeldTables.{held_rows, IsHeld};

    ghost Value = { List (List Cell) };

    ghost view = { λ h. held_rows h.content };

    ghost invariant = { λ h. IsHeld h.content };
}

impl<'a> Held<'a> {
    /// Rows that are there.
    pub(crate) fn of_rows(rows: Vec<PRow>) -> Held<'a>
        ensures { result ≡ rows_of rows }
    {
        Held {
            content: Kept::Rows(rows),
        }
    }

    /// Rows that the run of a plan gave.
    pub(crate) fn of_coded(rows: Coded) -> Held<'a>
        ensures { result ≡ rows }
    {
        Held {
            content: Kept::Coded(rows),
        }
    }

    /// The encoded rows of some blocks of a table of these columns, in block order: of each the values in these places.
    pub(crate) fn of_blocks(
        columns: &'a [Column],
        blocks: Blocks<'a>,
        places: Vec<usize>,
    ) -> Held<'a>
        requires { IsBlockTable (table columns.now blocks) }
        ensures { result ≡ block_rows places.items blocks.entry }
    {
        Held {
            content: Kept::Blocks(columns, blocks, places),
        }
    }

    /// The same, lent.
    pub(crate) fn source(&self) -> Source<'_>
        ensures { result ≡ self.now }
    {
        match &self.content {
            Kept::Rows(rows) => Source::of_rows(rows),
            Kept::Coded(rows) => Source::of_coded(rows),
            Kept::Blocks(columns, blocks, places) => {
                Source::of_blocks(columns, lent(blocks), places)
            }
        }
    }
}

/// These blocks, lent once more.
pub(crate) fn lent<'a>(blocks: &Blocks<'a>) -> Blocks<'a>
    ensures { result ≡ blocks.now }
{
    let (rows, extents) = blocks.parts();
    Blocks::of(rows, extents)
}

/// Each of some tables, lent.
pub(crate) fn sources_of<'b>(
    alloc: Global,
    held: &'b [Held<'_>],
) -> Result<Vec<Source<'b>>, NoMemory>
    ensures { IfOk result (λ v. v.items ≡ held.now) }
{
    let mut sources = Vec::with_capacity(alloc, held.len())?;
    for table in held {
        sources.push(table.source())?;
    }
    Ok(sources)
}
