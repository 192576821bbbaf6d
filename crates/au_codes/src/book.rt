//! Codebooks, which tell the rank of a long text and the text of a rank.
ghost use Rattle.std.specs.Prelude.{◌≡◌, ◌<◌, ◌+◌, ◌^◌, IfOk, ℕ, List, option_copied, slice_get, bytes_eq};
ghost use Rattle.std.specs.HashSet.{IsUnique};
ghost use Rattle.std.specs.List.{AllByRecursion};
ghost use Rattle.std.specs.List.Sorted.{IsSortedBy};
ghost use Rattle.std.specs.Str.{IsUtf8};
ghost use Rattle.au_codes.specs.Books.{IsBookOf, has, rank, rank_if_any, text_below};

use au_value::{NoMemory, Word};
use indexmap::IndexSet;
use std::marker::Model;

// How many texts a book may have: so many that a tag, 13 and a rank, takes 31 bits.
const MOST_TEXTS: usize = 2147483634;

/// Texts in order, each once. Contracts see their list.
#[derive(Drop)]
pub struct Codebook {
    texts: IndexSet<Word>,
}

impl Model for Codebook {
    ghost use Rattle.au_codes.specs.Books.{Book, IsCodebook};

    ghost Value = { Book };

    ghost view = { λ b. b.texts.keys };

    ghost invariant = { λ b. IsCodebook b.texts.keys };
}

impl Codebook {
    // The book of some texts. More than a book may have are want of memory.
    pub(crate) fn of(texts: IndexSet<Word>) -> Result<Codebook, NoMemory>
        requires { AllByRecursion IsUtf8 texts.keys }
        ensures { IfOk result (λ book. IsBookOf texts.keys book) }
    {
        let texts = sorted(texts)?;
        if texts.len() > MOST_TEXTS {
            return Err(NoMemory);
        }
        Ok(Codebook { texts })
    }

    /// The rank of a text, if the book has it.
    pub fn rank(&self, word: &Word) -> Option<usize>
        ensures { result ≡ rank_if_any self.now word.now }
    {
        self.texts.get_index_of(word)
    }

    /// How many texts are below this one. Of a text that the book has it is the rank. With 13 it takes at most 31 bits.
    pub fn below(&self, word: &Word) -> usize
        ensures is { result ≡ rank self.now word.now }
        ensures few { result + 13 < 2 ^ 31 }
    {
        match self.rank(word) {
            Some(rank) => rank,
            None => count_below(self.texts.as_slice(), word),
        }
    }

    /// The text of a rank.
    pub fn text(&self, rank: usize) -> Option<&Word>
        ensures { option_copied result ≡ slice_get self.now rank }
    {
        self.texts.get_index(rank)
    }
}

// How many of the texts are below this one.
fn count_below(texts: &[Word], word: &Word) -> usize
    ensures { result ≡ rank texts.now word.now }
{
    let mut count = 0;
    for text in texts {
        if text.order(word).is_lt() {
            count += 1;
        }
    }
    count
}

// The texts in order.
fn sorted(texts: IndexSet<Word>) -> Result<IndexSet<Word>, NoMemory>
    ensures sorted { IfOk result (λ s. IsSortedBy text_below s.keys) }
    ensures unique { IfOk result (λ s. IsUnique bytes_eq s) }
    ensures same { IfOk result (λ s. (w : List ℕ) → has s.keys w ≡ has texts.keys w) }
{
    let mut texts = texts;
    texts.sort_unstable_by(|a, b| a.order(b))?;
    Ok(texts)
}
