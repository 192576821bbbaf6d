//! An alternative row of a block.
ghost use Rattle.std.specs.Prelude.{◌≡◌, ◌<◌, Some, length, slice_get, map};
ghost use Rattle.au_blocks.specs.Blocks.{IsCopies};
ghost use Rattle.au_blocks.specs.Laid.{alternative_at};
ghost use Rattle.au_blocks.specs.Scalars.{scalar_value};

use crate::alternatives::Alternatives;
use crate::scalar::Scalar;
use crate::times::Times;
use std::marker::Model;

/// A row with one cell for each column, and how many copies of it there are. A cell is a value, or a range that holds it.
#[derive(Drop)]
pub struct Alternative<'a> {
    rows: &'a Alternatives,
    place: usize,
}

impl<'a> Model for Alternative<'a> {
    ghost use Rattle.std.specs.Prelude.{◌<◌, length};
    ghost use Rattle.au_blocks.specs.Blocks.{Candidate};
    ghost use Rattle.au_blocks.specs.Laid.{alternative_at};

    ghost Value = { Candidate };

    ghost view = { λ a. alternative_at a.rows.now a.place };

    ghost invariant = { λ a. a.place < length a.rows.now };
}

impl<'a> Alternative<'a> {
    // The alternative at a place.
    pub(crate) fn of(rows: &'a Alternatives, place: usize) -> Alternative<'a>
        requires { place < length rows.now }
        ensures { result ≡ alternative_at rows.now place }
    {
        Alternative { rows, place }
    }

    /// How many cells there are.
    pub fn width(&self) -> usize
        ensures { result ≡ length self.now.cells }
    {
        self.rows.width(self.place)
    }

    /// How many copies there are.
    pub fn times(&self) -> Times
        ensures of { result ≡ self.now.copies }
        ensures copies { IsCopies self.now.copies }
    {
        self.rows.times(self.place)
    }

    /// The least value that the cell in a column may have.
    pub fn lo(&self, column: usize) -> Scalar<'a>
        requires { column < length self.now.cells }
        ensures { slice_get (map (λ c. c.lo) self.now.cells) column ≡ Some (scalar_value result) }
    {
        self.rows.lo(self.place, column)
    }

    /// The guess of the value of the cell in a column.
    pub fn sg(&self, column: usize) -> Scalar<'a>
        requires { column < length self.now.cells }
        ensures { slice_get (map (λ c. c.sg) self.now.cells) column ≡ Some (scalar_value result) }
    {
        self.rows.sg(self.place, column)
    }

    /// The greatest value that the cell in a column may have.
    pub fn hi(&self, column: usize) -> Scalar<'a>
        requires { column < length self.now.cells }
        ensures { slice_get (map (λ c. c.hi) self.now.cells) column ≡ Some (scalar_value result) }
    {
        self.rows.hi(self.place, column)
    }
}
