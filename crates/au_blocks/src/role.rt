//! What a record says of its block.
ghost use Rattle.std.specs.Prelude.{◌≡◌};
ghost use Rattle.au_blocks.specs.Entries.{role_named, is_marked, is_absent};

/// The role of a record in its block.
#[derive(Clone, Copy)]
pub(crate) enum Role {
    /// An alternative, marked as the guess.
    Guess,
    /// An alternative.
    Alternative,
    /// The block may be absent.
    Absent,
    /// The block may be absent, and that is the guess.
    AbsentGuess,
}

impl Role {
    /// The role that a word names, if it is one of the four.
    pub(crate) fn named(word: &str) -> Option<Role>
        ensures { result ≡ role_named word.now }
    {
        if word == "guess" {
            Some(Role::Guess)
        } else if word == "alt" {
            Some(Role::Alternative)
        } else if word == "absent" {
            Some(Role::Absent)
        } else if word == "absent-guess" {
            Some(Role::AbsentGuess)
        } else {
            None
        }
    }

    /// Whether it marks the guess.
    pub(crate) fn is_marked(self) -> bool
        ensures { result ≡ is_marked self }
    {
        match self {
            Role::Guess | Role::AbsentGuess => true,
            Role::Alternative | Role::Absent => false,
        }
    }

    /// Whether it says that the block may be absent.
    pub(crate) fn is_absent(self) -> bool
        ensures { result ≡ is_absent self }
    {
        match self {
            Role::Absent | Role::AbsentGuess => true,
            Role::Guess | Role::Alternative => false,
        }
    }
}
