//! Alternatives of a block.
ghost use Rattle.std.specs.Prelude.{◌≡◌, ◌+◌, ◌≤◌, ◌<◌, ◌∷◌, [], Some, length, slice_get, take, drop, MatchOption};

use crate::alternative::Alternative;
use crate::alternatives::Alternatives;
use std::marker::Model;

/// Some alternatives of a block, in their order. Contracts see their list.
#[derive(Drop)]
pub struct Candidates<'a> {
    rows: &'a Alternatives,
    first: usize,
    count: usize,
}

impl<'a> Model for Candidates<'a> {
    ghost use Rattle.std.specs.Prelude.{◌+◌, ◌≤◌, List, length, take, drop};
    ghost use Rattle.au_blocks.specs.Blocks.{Candidate};

    ghost Value = { List Candidate };

    ghost view = { λ c. take c.count (drop c.first c.rows.now) };

    ghost invariant = { λ c. c.first + c.count ≤ length c.rows.now };
}

impl<'a> Candidates<'a> {
    // So many alternatives from a place on.
    pub(crate) fn of(rows: &'a Alternatives, first: usize, count: usize) -> Candidates<'a>
        requires { first + count ≤ length rows.now }
        ensures { result ≡ take count (drop first rows.now) }
    {
        Candidates { rows, first, count }
    }

    /// How many there are.
    pub fn len(&self) -> usize
        ensures { result ≡ length self.now }
    {
        self.count
    }

    /// The alternative at a place.
    pub fn get(&self, place: usize) -> Alternative<'a>
        requires { place < length self.now }
        ensures { slice_get self.now place ≡ Some result }
    {
        Alternative::of(self.rows, self.rows.behind(self.first, place))
    }

    /// The first alternative and the others, or none where there is no alternative.
    pub fn split_first(&self) -> Option<(Alternative<'a>, Candidates<'a>)>
        ensures { MatchOption result (self.now ≡ []) (λ p. self.now ≡ p.0 ∷ p.1) }
    {
        if self.count == 0 {
            return None;
        }
        let first = Alternative::of(self.rows, self.first);
        let others = Candidates::of(self.rows, self.rows.behind(self.first, 1), self.count - 1);
        Some((first, others))
    }
}
