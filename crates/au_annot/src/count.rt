//! How often a tuple occurs.
ghost use Rattle.std.specs.Prelude.{◌≡◌, ℕ, ◌+◌, ◌-◌, ◌*◌, ◌<◌, ◌^◌, ◌≤◌, IsNone, IfSome, ◌↔◌, nat_le};
ghost use Rattle.au_annot.specs.Counts.{count_fits};
ghost use Rattle.au_annot.specs.CountLaws.{count_order, count_semiring, count_plus_keeps, count_times_keeps, count_zero_least, count_range, count_monus};

use crate::annot::{Annot, Monus};
use au_value::Overflow;
use std::marker::Model;

/// A natural number below 2^127, as how often a tuple occurs.
#[derive(Clone, Copy, Debug, PartialEq, Eq)]
pub struct Count {
    n: u128,
}

impl Model for Count {
    ghost use Rattle.std.specs.Prelude.{ℕ, ◌<◌, ◌^◌};

    ghost Value = { ℕ };

    ghost view = { λ c. c.n };

    ghost invariant = { λ c. c.n < 2 ^ 127 };

    ghost inverse = { λ n. record { n = n } };
}

impl Count {
    /// The count of a number, or `None` exactly where it exceeds 2^127-1.
    pub fn of(n: u128) -> Option<Count>
        ensures value { IfSome result (λ c. c ≡ n) }
        ensures none { IsNone result ↔ (2 ^ 127 ≤ n) }
    {
        if n < 1 << 127 {
            Some(Count { n })
        } else {
            None
        }
    }

    /// The number.
    pub fn get(self) -> u128
        ensures value { result ≡ self }
        ensures fits { result < 2 ^ 127 }
    {
        self.n
    }
}

impl Annot for Count {
    ghost zero = { 0 };

    ghost one = { 1 };

    ghost plus = { λ a b. a + b };

    ghost times = { λ a b. a * b };

    ghost at_most = { nat_le };

    ghost in_range = { count_fits };

    ghost IsValid = { λ _. Unit {0} };

    fn zero() -> Count {
        Count { n: 0 }
    }

    fn one() -> Count {
        Count { n: 1 }
    }

    fn plus(self, other: Count) -> Result<Count, Overflow> {
        Count::of(self.n + other.n).ok_or(Overflow)
    }

    fn times(self, other: Count) -> Result<Count, Overflow> {
        self.n
            .checked_mul(other.n)
            .and_then(Count::of)
            .ok_or(Overflow)
    }

    fn at_most(self, other: Count) -> bool {
        self.n <= other.n
    }

    ghost order = { count_order };

    ghost semiring = { count_semiring };

    ghost plus_keeps = { count_plus_keeps };

    ghost times_keeps = { count_times_keeps };

    ghost zero_least = { count_zero_least };

    ghost range = { count_range };
}

impl Monus for Count {
    ghost monus = { λ a b. a - b };

    fn monus(self, other: Count) -> Count {
        Count {
            n: self.n.saturating_sub(other.n),
        }
    }

    ghost residual = { count_monus };
}
