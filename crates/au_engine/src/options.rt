//! What is asked beside the statement.
ghost use Rattle.std.specs.Prelude.{◌≡◌};
ghost use Rattle.au_engine.specs.Options.{rules_of};

use au_program::Rules;

/// What is asked beside the statement.
#[derive(Clone, Copy, Debug, PartialEq, Eq)]
pub struct Options {
    /// Whether the rows of one guess are combined.
    pub combine: bool,

    /// How many workers share the joins and the groupings: 1 to 64. The answer is the same.
    pub workers: usize,

    /// Where it is given, products pair the guesses of their sides, and what is possible of them in at most so many rows
    /// of each side: 1 to 1000. The bounds are then wider, and the guesses are the same.
    pub compress: Option<u32>,

    /// Whether groups and distinct rows are formed by points: one for each list of guessed keys, whose keys are certain,
    /// and wider ones for the keys that nobody guessed. The guesses are the same.
    pub points: bool,
}

impl Options {
    /// The rules that are asked for.
    pub(crate) fn rules(self) -> Rules
        ensures { result ≡ rules_of self }
    {
        Rules {
            compress: self.compress,
            points: self.points,
        }
    }
}
