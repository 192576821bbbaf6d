//! How often a tuple occurs over all possible worlds.
ghost use Rattle.std.specs.Prelude.{◌≡◌, ◌<◌, ◌^◌, IsNone, IfSome, ◌↔◌};
ghost use Rattle.au_annot.specs.Triples.{Counts, counts, IsTriple, plus, times, none, one, at_most, in_range};
ghost use Rattle.au_annot.specs.TripleLaws.{triple_order, triple_semiring, triple_plus_keeps, triple_times_keeps, triple_zero_least, triple_range};

use crate::annot::Annot;
use crate::count::Count;
use au_value::Overflow;
use std::marker::Model;

/// How often a tuple occurs at least, in the selected-guess world, and at most: least <= guess <= most.
///
/// It is no `Monus`. A difference of relations lowers the least count by the right side's most, and the most count by
/// its least, so it goes by components; subtracting least from least and most from most gives no sound bounds.
#[derive(Clone, Copy, Debug, PartialEq, Eq)]
pub struct Triple {
    least: Count,
    guess: Count,
    most: Count,
}

impl Model for Triple {
    ghost use Rattle.au_annot.specs.Triples.{Counts, counts, IsTriple};

    ghost Value = { Counts };

    ghost view = { λ t. counts t.least t.guess t.most };

    ghost invariant = { λ t. IsTriple (counts t.least t.guess t.most) };

    ghost inverse = { λ t. record { least = t.least; guess = t.guess; most = t.most } };
}

impl Triple {
    /// The triple of three counts, or `None` exactly where they aren't in order.
    pub fn of(least: Count, guess: Count, most: Count) -> Option<Triple>
        ensures value { IfSome result (λ t. t ≡ counts least guess most) }
        ensures none { IsNone result ↔ (¬ IsTriple (counts least guess most)) }
    {
        if least.at_most(guess) && guess.at_most(most) {
            Some(Triple { least, guess, most })
        } else {
            None
        }
    }

    /// How often the tuple occurs at least.
    pub fn least(self) -> Count
        ensures of { result ≡ self.least }
        ensures triple { IsTriple self }
        ensures fits { self.least < 2 ^ 127 }
    {
        let least = self.least;
        // Read for the proof alone: a count lies in its range.
        let _fits = least.get();
        least
    }

    /// How often the tuple occurs in the selected-guess world.
    pub fn guess(self) -> Count
        ensures of { result ≡ self.guess }
        ensures triple { IsTriple self }
        ensures fits { self.guess < 2 ^ 127 }
    {
        let guess = self.guess;
        // Read for the proof alone: a count lies in its range.
        let _fits = guess.get();
        guess
    }

    /// How often the tuple occurs at most.
    pub fn most(self) -> Count
        ensures of { result ≡ self.most }
        ensures triple { IsTriple self }
        ensures fits { self.most < 2 ^ 127 }
    {
        let most = self.most;
        // Read for the proof alone: a count lies in its range.
        let _fits = most.get();
        most
    }
}

impl Annot for Triple {
    ghost zero = { none };

    ghost one = { one };

    ghost plus = { plus };

    ghost times = { times };

    ghost at_most = { at_most };

    ghost in_range = { in_range };

    ghost IsValid = { IsTriple };

    fn zero() -> Triple {
        Triple {
            least: Count::zero(),
            guess: Count::zero(),
            most: Count::zero(),
        }
    }

    fn one() -> Triple {
        Triple {
            least: Count::one(),
            guess: Count::one(),
            most: Count::one(),
        }
    }

    fn plus(self, other: Triple) -> Result<Triple, Overflow> {
        Ok(Triple {
            least: self.least.plus(other.least)?,
            guess: self.guess.plus(other.guess)?,
            most: self.most.plus(other.most)?,
        })
    }

    fn times(self, other: Triple) -> Result<Triple, Overflow> {
        Ok(Triple {
            least: self.least.times(other.least)?,
            guess: self.guess.times(other.guess)?,
            most: self.most.times(other.most)?,
        })
    }

    fn at_most(self, other: Triple) -> bool {
        self.least.at_most(other.least)
            && self.guess.at_most(other.guess)
            && self.most.at_most(other.most)
    }

    ghost order = { triple_order };

    ghost semiring = { triple_semiring };

    ghost plus_keeps = { triple_plus_keeps };

    ghost times_keeps = { triple_times_keeps };

    ghost zero_least = { triple_zero_least };

    ghost range = { triple_range };
}
