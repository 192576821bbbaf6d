//! The blocks of a table.
ghost use Rattle.std.specs.Prelude.{◌≡◌, ◌≤◌, ◌<◌, ◌∷◌, [], Some, length, slice_get, take, drop, MatchOption};
ghost use Rattle.std.specs.List.{All, list_all};
ghost use Rattle.au_blocks.specs.Held.{IsWithin, held};
ghost use Rattle.au_blocks.specs.Singles.{stands_once};

use crate::alternatives::Alternatives;
use crate::block::Block;
use crate::extent::Extent;
use crate::item::item;
use std::marker::Model;

/// Some blocks of a table, in their order. Contracts see their list.
#[derive(Drop)]
pub struct Blocks<'a> {
    rows: &'a Alternatives,
    extents: &'a [Extent],
}

impl<'a> Model for Blocks<'a> {
    ghost use Rattle.std.specs.Prelude.{List};
    ghost use Rattle.std.specs.List.{All};
    ghost use Rattle.au_blocks.specs.Blocks.{Choices};
    ghost use Rattle.au_blocks.specs.Held.{IsWithin, held};

    ghost Value = { List Choices };

    ghost view = { λ b. held b.rows.now b.extents.now };

    ghost invariant = { λ b. All (IsWithin b.rows.now) b.extents.now };
}

impl<'a> Blocks<'a> {
    /// The blocks of these places among the alternatives of a table.
    pub fn of(rows: &'a Alternatives, extents: &'a [Extent]) -> Blocks<'a>
        requires { All (IsWithin rows.now) extents.now }
        ensures { result ≡ held rows.now extents.now }
    {
        Blocks { rows, extents }
    }

    /// The alternatives of the table, and the places of these blocks among them.
    pub fn parts(&self) -> (&'a Alternatives, &'a [Extent])
        ensures held { held result.0.now result.1.now ≡ self.now }
        ensures within { All (IsWithin result.0.now) result.1.now }
    {
        (self.rows, self.extents)
    }

    /// How many blocks there are.
    pub fn len(&self) -> usize
        ensures { result ≡ length self.now }
    {
        self.extents.len()
    }

    /// The first block and the others, or none where there is no block.
    pub fn split_first(&self) -> Option<(Block<'a>, Blocks<'a>)>
        ensures { MatchOption result (self.now ≡ []) (λ p. self.now ≡ p.0 ∷ p.1) }
    {
        let Some((first, others)) = self.extents.split_first() else {
            return None;
        };
        let block = Block::of(self.rows, first);
        Some((block, Blocks::of(self.rows, others)))
    }

    /// The block at a place.
    pub fn get(&self, place: usize) -> Block<'a>
        requires { place < length self.now }
        ensures { slice_get self.now place ≡ Some result }
    {
        Block::of(self.rows, item(self.extents, place))
    }

    /// The first blocks, so many, and the others.
    pub fn split_at(&self, count: usize) -> (Blocks<'a>, Blocks<'a>)
        requires { count ≤ length self.now }
        ensures first { result.0 ≡ take count self.now }
        ensures others { result.1 ≡ drop count self.now }
    {
        let (first, others) = self.extents.split_at(count);
        let front = Blocks::of(self.rows, first);
        let back = Blocks::of(self.rows, others);
        (front, back)
    }

    /// Whether each block is one alternative that stands once, in every world.
    pub fn stand_once(&self) -> bool
        ensures { result ≡ list_all stands_once self.now }
    {
        all_stand_once(self.rows, self.extents)
    }
}

// The same of the blocks of these places.
fn all_stand_once(rows: &Alternatives, extents: &[Extent]) -> bool
    requires { All (IsWithin rows.now) extents.now }
    ensures { result ≡ list_all stands_once (held rows.now extents.now) }
{
    for extent in extents {
        if !Block::of(rows, extent).stands_once() {
            return false;
        }
    }
    true
}
