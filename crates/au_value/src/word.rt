//! A text, seen as its bytes.
ghost use Rattle.std.specs.Prelude.{◌≡◌, string_bytes, IfOk};
ghost use Rattle.std.specs.Prelude.{nat_eq};
ghost use Rattle.std.specs.Ordering.{nat_cmp};
ghost use Rattle.std.specs.Cmp.Lexicographic.{pointwise, slice_cmp};
ghost use Rattle.std.specs.Cmp.Rules.{comparing, hashing};
ghost use Rattle.std.specs.Hash as fed;
ghost use Rattle.std.proofs.Common.{rules};

use crate::faults::NoMemory;
use arrayvec::ArrayString;
use std::alloc::Global;
use std::cmp::Ordering;
use std::hash::{Hash, Hasher};
use std::marker::Model;

/// A text. Contracts see its bytes. One of at most 16 bytes lies in the word itself, so that it is copied and let go without
/// a call for memory.
#[derive(Drop)]
pub struct Word {
    held: Held,
}

// Where the bytes lie.
#[derive(Drop)]
enum Held {
    Short(ArrayString<16>),
    Long(String),
}

impl Model for Word {
    ghost use Rattle.std.specs.Prelude.{ℕ, List};
    ghost use Rattle.au_value.specs.Held.{held_bytes};

    ghost Value = { List ℕ };

    ghost view = { λ w. held_bytes w.held };
}

impl Word {
    /// The word of a text. It takes no memory.
    pub fn new(text: String) -> Word
        ensures { result ≡ string_bytes text }
    {
        match ArrayString::from(text.as_str()).ok() {
            Some(short) => Word {
                held: Held::Short(short),
            },
            None => Word {
                held: Held::Long(text),
            },
        }
    }

    /// The word of a lent text.
    pub fn of(alloc: Global, text: &str) -> Result<Word, NoMemory>
        ensures { IfOk result (λ w. w ≡ text.now) }
    {
        match ArrayString::from(text).ok() {
            Some(short) => Ok(Word {
                held: Held::Short(short),
            }),
            None => Ok(Word {
                held: Held::Long(String::from_str(alloc, text)?),
            }),
        }
    }

    /// The text, lent.
    pub fn as_str(&self) -> &str
        ensures { result.now ≡ self.now }
    {
        match &self.held {
            Held::Short(text) => text.as_str(),
            Held::Long(text) => text.as_str(),
        }
    }

    /// The order of the bytes.
    pub fn order(&self, other: &Word) -> Ordering
        ensures { result ≡ slice_cmp nat_cmp self.now other.now }
    {
        self.as_str().cmp(other.as_str())
    }

    /// A copy of the word.
    pub fn copy(&self) -> Result<Word, NoMemory>
        ensures { IfOk result (λ w. w ≡ self.now) }
    {
        match &self.held {
            Held::Short(text) => Ok(Word {
                held: Held::Short(*text),
            }),
            Held::Long(text) => Ok(Word {
                held: Held::Long(text.clone()?),
            }),
        }
    }
}

impl PartialEq for Word {
    ghost eq = { pointwise nat_eq };

    ghost laws = { Prim.search (comparing, rules) };

    fn eq(&self, other: &Word) -> bool {
        self.as_str() == other.as_str()
    }
}

impl Eq for Word {
    ghost laws = { Prim.search (comparing, rules) };
}

impl Hash for Word {
    ghost hash_input = { λ w. fed.str w };

    ghost respects_eq = { Prim.search (hashing, rules) };

    fn hash<H: Hasher>(&self, state: &mut H) {
        self.as_str().hash(state);
    }
}
