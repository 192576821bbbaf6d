//! The alternatives of all blocks of a table.
ghost use Rattle.std.specs.Prelude.{◌≡◌, ◌+◌, ◌≤◌, ◌<◌, IfSome, Some, length, slice_get, get_or, map};
ghost use Rattle.au_blocks.specs.Blocks.{IsCopies, once};
ghost use Rattle.au_blocks.specs.Laid.{AreLong, alternative_at, rows_of};
ghost use Rattle.au_blocks.specs.Scalars.{scalar_value};
ghost use Rattle.au_blocks.specs.Singles.{HaveCopies, HaveValues};
ghost use Rattle.au_value.specs.declared.value.Value.TheVariants as value;

use crate::cells::Cells;
use crate::item::item;
use crate::scalar::Scalar;
use crate::times::Times;
use au_value::Word;
use std::marker::Model;

/// The alternatives of all blocks of a table, block behind block, held by columns. Contracts see their list. Where each
/// stands once, no list of numbers of copies is held.
#[derive(Drop)]
pub struct Alternatives {
    columns: Vec<Cells>,
    times: Vec<Times>,
    count: usize,
}

impl Model for Alternatives {
    ghost use Rattle.std.specs.Prelude.{List};
    ghost use Rattle.au_blocks.specs.Blocks.{Candidate};
    ghost use Rattle.au_blocks.specs.Laid.{AreLong, rows_of};

    ghost Value = { List Candidate };

    ghost view = { λ a. rows_of a.count a.columns.items a.times.items };

    ghost invariant = { λ a. AreLong a.count a.columns.items };
}

impl Alternatives {
    // So many alternatives, which have these columns, and these numbers of copies, where past the last each stands once.
    pub(crate) fn of(columns: Vec<Cells>, times: Vec<Times>, count: usize) -> Alternatives
        requires { AreLong count columns.items }
        ensures { result ≡ rows_of count columns.items times.items }
    {
        Alternatives {
            columns,
            times,
            count,
        }
    }

    // The place so many behind another one.
    pub(crate) fn behind(&self, first: usize, count: usize) -> usize
        requires { first + count ≤ length self.now }
        ensures { result ≡ first + count }
    {
        first.saturating_add(count).min(self.count)
    }

    /// The numbers in a column, one for each alternative, lent, where each is known and all are held in 64 bits.
    pub fn numbers(&self, column: usize) -> Option<&[i64]>
        ensures { IfSome result (λ numbers. HaveValues self.now column (map value.Int numbers.now)) }
    {
        if column < self.columns.len() {
            item(&self.columns, column).as_numbers()
        } else {
            None
        }
    }

    /// The texts in a column, one for each alternative, lent, where each is known.
    pub fn texts(&self, column: usize) -> Option<&[Word]>
        ensures { IfSome result (λ texts. HaveValues self.now column (map value.Text texts.now)) }
    {
        if column < self.columns.len() {
            item(&self.columns, column).as_texts()
        } else {
            None
        }
    }

    /// The numbers of copies of the first alternatives, so many as are listed. Each of the others stands once.
    pub fn listed_times(&self) -> &[Times]
        ensures { HaveCopies self.now result.now }
    {
        self.times.as_slice()
    }

    // How many cells each has.
    pub(crate) fn width(&self, place: usize) -> usize
        requires { place < length self.now }
        ensures { result ≡ length (alternative_at self.now place).cells }
    {
        self.columns.len()
    }

    // How many copies there are of the one at a place.
    pub(crate) fn times(&self, place: usize) -> Times
        requires { place < length self.now }
        ensures of { result ≡ (alternative_at self.now place).copies }
        ensures copies { IsCopies (alternative_at self.now place).copies }
    {
        times_at(&self.times, place).copied()
    }

    // The least value that the cell in a column of the one at a place may have.
    pub(crate) fn lo(&self, place: usize, column: usize) -> Scalar<'_>
        requires place { place < length self.now }
        requires column { column < length (alternative_at self.now place).cells }
        ensures { slice_get (map (λ c. c.lo) (alternative_at self.now place).cells) column ≡ Some (scalar_value result) }
    {
        item(&self.columns, column).lo(place)
    }

    // The guess of its value.
    pub(crate) fn sg(&self, place: usize, column: usize) -> Scalar<'_>
        requires place { place < length self.now }
        requires column { column < length (alternative_at self.now place).cells }
        ensures { slice_get (map (λ c. c.sg) (alternative_at self.now place).cells) column ≡ Some (scalar_value result) }
    {
        item(&self.columns, column).sg(place)
    }

    // The greatest value that it may have.
    pub(crate) fn hi(&self, place: usize, column: usize) -> Scalar<'_>
        requires place { place < length self.now }
        requires column { column < length (alternative_at self.now place).cells }
        ensures { slice_get (map (λ c. c.hi) (alternative_at self.now place).cells) column ≡ Some (scalar_value result) }
    {
        item(&self.columns, column).hi(place)
    }
}

// The numbers of copies at a place, and one copy past the last.
fn times_at(times: &[Times], place: usize) -> Times
    ensures { result ≡ get_or times.now place once }
{
    if place < times.len() {
        times[place]
    } else {
        Times::once()
    }
}
