//! How often a row may stand in a table.
ghost use Rattle.std.specs.Prelude.{◌≡◌};
ghost use Rattle.au_blocks.specs.Blocks.{IsCopies, copies_of, once};
ghost use Rattle.au_blocks.specs.Singles.{is_once};

use std::marker::Model;

/// How many copies of a row there are at least, by the guess and at most: least <= guess <= most <= 10^12.
#[derive(Clone, Copy, Debug, PartialEq, Eq)]
pub struct Times {
    least: u64,
    guess: u64,
    most: u64,
}

impl Model for Times {
    ghost use Rattle.au_blocks.specs.Blocks.{Copies, IsCopies, copies_of};

    ghost Value = { Copies };

    ghost view = { λ t. copies_of t.least t.guess t.most };

    ghost invariant = { λ t. IsCopies (copies_of t.least t.guess t.most) };

    ghost inverse = { λ t. record { least = t.least; guess = t.guess; most = t.most } };
}

impl Times {
    // These numbers.
    pub(crate) fn of(least: u64, guess: u64, most: u64) -> Times
        requires { IsCopies (copies_of least guess most) }
        ensures { result ≡ copies_of least guess most }
    {
        Times { least, guess, most }
    }

    // One copy.
    pub(crate) fn once() -> Times
        ensures { result ≡ once }
    {
        Times {
            least: 1,
            guess: 1,
            most: 1,
        }
    }

    // The same numbers.
    pub(crate) fn copied(&self) -> Times
        ensures of { result ≡ self.now }
        ensures copies { IsCopies self.now }
    {
        Times {
            least: self.least,
            guess: self.guess,
            most: self.most,
        }
    }

    // Whether it is one copy.
    pub(crate) fn is_once(&self) -> bool
        ensures { result ≡ is_once self.now }
    {
        self.least == 1 && self.guess == 1 && self.most == 1
    }

    /// The least number of copies.
    pub fn least(&self) -> u64
        ensures of { result ≡ self.now.least }
        ensures copies { IsCopies self.now }
    {
        self.least
    }

    /// The guessed number of copies.
    pub fn guess(&self) -> u64
        ensures of { result ≡ self.now.guess }
        ensures copies { IsCopies self.now }
    {
        self.guess
    }

    /// The greatest number of copies.
    pub fn most(&self) -> u64
        ensures of { result ≡ self.now.most }
        ensures copies { IsCopies self.now }
    {
        self.most
    }
}
