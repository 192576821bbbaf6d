//! The draws of a linear congruential generator.
ghost use Rattle.std.specs.Prelude.{◌≡◌, ◌/◌, ◌%◌, ◌^◌, ◌<◌};
ghost use Rattle.au_gen.specs.Generator.{next};

use std::marker::Model;

/// The state of the generator, a number below 2^31.
#[derive(Drop)]
pub struct Draws {
    state: u64,
}

impl Model for Draws {
    ghost use Rattle.std.specs.Prelude.{ℕ, ◌<◌, ◌^◌};

    ghost Value = { ℕ };

    ghost view = { λ d. d.state };

    ghost invariant = { λ d. d.state < 2 ^ 31 };
}

impl Draws {
    /// The state that a start gives.
    pub fn new(start: u32) -> Draws
        ensures { result ≡ start % 2 ^ 31 }
    {
        Draws {
            state: u64::from(start) % (1 << 31),
        }
    }

    /// A number below 2^15, the upper half of the next state.
    pub fn draw(&mut self) -> u64
        ensures state { self.new ≡ next self.old }
        ensures value { result ≡ next self.old / 65536 }
        ensures bound { result < 2 ^ 15 }
    {
        self.state = (self.state * 1_103_515_245 + 12_345) % (1 << 31);
        self.state / 65_536
    }
}
