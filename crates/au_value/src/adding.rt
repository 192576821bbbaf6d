//! Sums of 128-bit numbers that are exact or refused.
ghost use Rattle.std.specs.Prelude.{◌≡◌, ◌+◌, ◌^◌, ◌<◌, ◌≤◌, ◌↔◌, OnOk, OnErr, IsErr, unsigned_abs};
ghost use Rattle.au_value.specs.Adding.{no_terms, with_term};

use crate::faults::Overflow;
use std::marker::Model;

mod joining;

/// The sum of some numbers, and the sum of their magnitudes, which bounds each part of the sum.
///
/// The total of a list of terms is one number whatever their order, and so is whether they are refused.
#[derive(Drop)]
pub struct Adder {
    total: i128,
    magnitude: u128,
}

impl Model for Adder {
    ghost use Rattle.au_value.specs.Adding.{Sum, sum_of, IsSum};

    ghost Value = { Sum };

    ghost view = { λ a. sum_of a.total a.magnitude };

    ghost invariant = { λ a. IsSum (sum_of a.total a.magnitude) };
}

impl Adder {
    /// The sum of no terms.
    pub fn new() -> Adder
        ensures { result ≡ no_terms }
    {
        Adder {
            total: 0,
            magnitude: 0,
        }
    }

    /// The sum of the terms so far.
    pub fn total(&self) -> i128
        ensures { result ≡ self.now.total }
    {
        self.total
    }

    /// Adds a term. It overflows where the sum of the magnitudes, this one included, exceeds 2^127-1, and then changes
    /// nothing.
    pub fn add(&mut self, term: i128) -> Result<(), Overflow>
        ensures sum { OnOk result (self.new ≡ with_term self.old term) }
        ensures overflow { IsErr result ↔ (2 ^ 127 ≤ self.old.magnitude + unsigned_abs term) }
        ensures unchanged { OnErr result (self.new ≡ self.old) }
    {
        let magnitude = self.magnitude + term.unsigned_abs();
        if magnitude > i128::MAX.unsigned_abs() {
            return Err(Overflow);
        }
        self.total += term;
        self.magnitude = magnitude;
        Ok(())
    }
}
