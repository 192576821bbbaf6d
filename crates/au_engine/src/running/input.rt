//! Tables that plans read.
ghost use Rattle.std.specs.Prelude.{◌≡◌};
ghost use Rattle.au_blocks.specs.Tables.{IsBlockTable, table};
ghost use Rattle.au_plain.specs.PlanKinds.{FitRows};
ghost use Rattle.au_engine.specs.CountedTables.{certain_guesses, counted_guesses};
ghost use Rattle.au_engine.specs.InputRows.{content_rows, IsContent};

use crate::running::held::Held;
use au_blocks::{Blocks, Column};
use std::marker::Model;

/// A table that plans read. Contracts see its rows, whether they are there or are still to be made.
#[derive(Drop)]
pub(crate) struct Input<'a> {
    content: Content<'a>,
}

/// What a plan can be run over as it is; or the columns and some blocks of a block table, whose rows in the guess world, with
/// the number of their copies, are found when a plan is run; or blocks, whose rows there, with how many of the copies are certain
/// and how many guessed, are made then.
#[derive(Drop)]
pub(crate) enum Content<'a> {
    Ready(Held<'a>),
    Guesses(&'a [Column], Blocks<'a>),
    Certain(Blocks<'a>),
}

impl<'a> Model for Input<'a> {
    ghost use Rattle.std.specs.Prelude.{List};
    ghost use Rattle.au_value.specs.declared.value.Value.{Value as Cell};
    ghost use Rattle.au_engine.specs.InputRows.{content_rows, IsContent};

    ghost Value = { List (List Cell) };

    ghost view = { λ i. content_rows i.content };

    ghost invariant = { λ i. IsContent i.content };
}

impl<'a> Input<'a> {
    /// What a plan can be run over as it is.
    pub(crate) fn of(rows: Held<'a>) -> Input<'a>
        requires { FitRows rows }
        ensures { result ≡ rows.entry }
    {
        Input {
            content: Content::Ready(rows),
        }
    }

    /// The rows of some blocks of a table of these columns in the guess world, in block order, each with the number of its
    /// copies.
    pub(crate) fn of_guesses(columns: &'a [Column], blocks: Blocks<'a>) -> Input<'a>
        requires { IsBlockTable (table columns.now blocks) }
        ensures { result ≡ counted_guesses blocks.entry }
    {
        Input {
            content: Content::Guesses(columns, blocks),
        }
    }

    /// The rows of some blocks there with how many of the copies are certain before how many are guessed.
    pub(crate) fn of_certain(blocks: Blocks<'a>) -> Input<'a>
        ensures { result ≡ certain_guesses blocks.entry }
    {
        Input {
            content: Content::Certain(blocks),
        }
    }

    /// The rows, where a plan can be run over them as they are.
    pub(crate) fn ready(&self) -> Option<&Held<'a>> {
        match &self.content {
            Content::Ready(rows) => Some(rows),
            _ => None,
        }
    }

    /// What there is of the rows.
    pub(crate) fn into_content(self) -> Content<'a>
        ensures rows { content_rows result ≡ self.entry }
        ensures is { IsContent result }
    {
        let Input { content } = self;
        content
    }
}
