//! A block of alternative rows.
ghost use Rattle.std.specs.Prelude.{◌≡◌};
ghost use Rattle.au_blocks.specs.Blocks.{IsBlock};
ghost use Rattle.au_blocks.specs.Held.{IsWithin, block_at};
ghost use Rattle.au_blocks.specs.Singles.{stands_once};

use crate::alternatives::Alternatives;
use crate::candidates::Candidates;
use crate::extent::Extent;
use std::marker::Model;

/// A block: alternative rows, of which one holds, or none where it is optional. One of these choices is the guess.
#[derive(Drop)]
pub struct Block<'a> {
    rows: &'a Alternatives,
    extent: &'a Extent,
}

impl<'a> Model for Block<'a> {
    ghost use Rattle.au_blocks.specs.Blocks.{Choices};
    ghost use Rattle.au_blocks.specs.Held.{IsWithin, block_at};

    ghost Value = { Choices };

    ghost view = { λ b. block_at b.rows.now b.extent.now };

    ghost invariant = { λ b. IsWithin b.rows.now b.extent.now };
}

impl<'a> Block<'a> {
    // The block at a place among the alternatives of a table.
    pub(crate) fn of(rows: &'a Alternatives, extent: &'a Extent) -> Block<'a>
        requires { IsWithin rows.now extent.now }
        ensures { result ≡ block_at rows.now extent.now }
    {
        Block { rows, extent }
    }

    /// The alternatives, of which there is at least one.
    pub fn alternatives(&self) -> Candidates<'a>
        ensures of { result ≡ self.now.alternatives }
        ensures is_block { IsBlock self.now }
    {
        Candidates::of(self.rows, self.extent.first, self.extent.count)
    }

    /// Whether none of the alternatives may hold.
    pub fn optional(&self) -> bool
        ensures of { result ≡ self.now.optional }
        ensures is_block { IsBlock self.now }
    {
        self.extent.optional
    }

    /// The number of the alternative that is the guess, or `None` where absence is.
    pub fn guess(&self) -> Option<usize>
        ensures of { result ≡ self.now.guess }
        ensures is_block { IsBlock self.now }
    {
        self.extent.guess
    }

    // Whether it is one alternative that stands once, in every world.
    pub(crate) fn stands_once(&self) -> bool
        ensures { result ≡ stands_once self.now }
    {
        let alternatives = self.alternatives();
        if alternatives.len() != 1 || self.optional() {
            return false;
        }
        alternatives.get(0).times().is_once()
    }
}
