//! What the row of a block says: the ends in each column, and the triple.
ghost use Rattle.std.specs.Prelude.{◌≡◌, ◌<◌, Some, length, map, slice_get, unwrap_or};
ghost use Rattle.std.specs.List.{AllByRecursion};
ghost use Rattle.au_value.specs.Ranges.{lesser as lesser_of, greater as greater_of};
ghost use Rattle.au_annot.specs.Triples.{IsTriple, counts};
ghost use Rattle.au_algebra.specs.Lists.{least as least_of, greatest as greatest_of};
ghost use Rattle.au_blocks.specs.Scalars.{scalar_value};
ghost use Rattle.au_translate.specs.Translate.{candidate_cell, greatest_number, guessed_copies as guessed_copies_of, high_at, least_number, low_at, marked_or_first as marked_or_first_of, triple_of};

use au_annot::{Annot, Count, Triple};
use au_blocks::{Alternative, Block, Candidates, Scalar};

/// The alternative whose guesses a block's row shows.
pub(crate) fn marked_or_first<'a>(block: &Block<'a>) -> Alternative<'a>
    ensures of { result ≡ marked_or_first_of block.now }
    ensures place { slice_get block.now.alternatives (unwrap_or block.now.guess 0) ≡ Some (marked_or_first_of block.now) }
{
    let at = block.guess().unwrap_or(0);
    block.alternatives().get(at)
}

/// The least value in a column of a block whose row shows this alternative. Where it is the only one, it is the least of
/// its own.
pub(crate) fn least_end<'a>(block: &Block<'a>, at: usize, shown: &Alternative<'a>) -> Scalar<'a>
    requires wide { AllByRecursion (λ a. at < length a.cells) block.now.alternatives }
    requires shown { shown.now ≡ marked_or_first_of block.now }
    requires within { at < length shown.now.cells }
    ensures { scalar_value result ≡ least_of (map (low_at at) block.now.alternatives) }
{
    let alternatives = block.alternatives();
    if alternatives.len() == 1 {
        low(shown, at)
    } else {
        least(&alternatives, at)
    }
}

/// The greatest, likewise.
pub(crate) fn greatest_end<'a>(block: &Block<'a>, at: usize, shown: &Alternative<'a>) -> Scalar<'a>
    requires wide { AllByRecursion (λ a. at < length a.cells) block.now.alternatives }
    requires shown { shown.now ≡ marked_or_first_of block.now }
    requires within { at < length shown.now.cells }
    ensures { scalar_value result ≡ greatest_of (map (high_at at) block.now.alternatives) }
{
    let alternatives = block.alternatives();
    if alternatives.len() == 1 {
        high(shown, at)
    } else {
        greatest(&alternatives, at)
    }
}

// The least value in a column of some alternatives.
fn least<'a>(alternatives: &Candidates<'a>, at: usize) -> Scalar<'a>
    requires some { 0 < length alternatives.now }
    requires wide { AllByRecursion (λ a. at < length a.cells) alternatives.now }
    ensures { scalar_value result ≡ least_of (map (low_at at) alternatives.now) }
{
    let mut least = low(&alternatives.get(0), at);
    for place in 1..alternatives.len() {
        least = lesser(least, low(&alternatives.get(place), at));
    }
    least
}

// The greatest value in a column of some alternatives.
fn greatest<'a>(alternatives: &Candidates<'a>, at: usize) -> Scalar<'a>
    requires some { 0 < length alternatives.now }
    requires wide { AllByRecursion (λ a. at < length a.cells) alternatives.now }
    ensures { scalar_value result ≡ greatest_of (map (high_at at) alternatives.now) }
{
    let mut greatest = high(&alternatives.get(0), at);
    for place in 1..alternatives.len() {
        greatest = greater(greatest, high(&alternatives.get(place), at));
    }
    greatest
}

// The lesser of two values.
fn lesser<'a>(a: Scalar<'a>, b: Scalar<'a>) -> Scalar<'a>
    ensures { scalar_value result ≡ lesser_of (scalar_value a.entry) (scalar_value b.entry) }
{
    if a.compare(&b).is_le() { a } else { b }
}

// The greater of two values.
fn greater<'a>(a: Scalar<'a>, b: Scalar<'a>) -> Scalar<'a>
    ensures { scalar_value result ≡ greater_of (scalar_value a.entry) (scalar_value b.entry) }
{
    if a.compare(&b).is_le() { b } else { a }
}

// The least value that an alternative may have in a column.
fn low<'a>(alternative: &Alternative<'a>, at: usize) -> Scalar<'a>
    requires { at < length alternative.now.cells }
    ensures { scalar_value result ≡ low_at at alternative.now }
{
    alternative.lo(at)
}

/// The guess of the value of an alternative in a column.
pub(crate) fn guess<'a>(alternative: &Alternative<'a>, at: usize) -> Scalar<'a>
    requires { at < length alternative.now.cells }
    ensures { scalar_value result ≡ (candidate_cell at alternative.now).sg }
{
    alternative.sg(at)
}

// The greatest value that an alternative may have in a column.
fn high<'a>(alternative: &Alternative<'a>, at: usize) -> Scalar<'a>
    requires { at < length alternative.now.cells }
    ensures { scalar_value result ≡ high_at at alternative.now }
{
    alternative.hi(at)
}

/// The triple of a block's row.
pub(crate) fn triple(block: &Block<'_>) -> Triple
    ensures { result ≡ triple_of block.now }
{
    let least = least_count(block);
    let guess = count(guessed_copies(block));
    let most = count(most_copies(&block.alternatives()));
    ordered(least, guess, most)
}

// The triple of three counts in order.
fn ordered(least: Count, guess: Count, most: Count) -> Triple
    requires { IsTriple (counts least guess most) }
    ensures { result ≡ counts least guess most }
{
    let Some(triple) = Triple::of(least, guess, most) else {
        unreachable!()
    };
    triple
}

// The fewest copies over the choices that a block offers.
fn least_count(block: &Block<'_>) -> Count
    ensures { result ≡ (triple_of block.now).least }
{
    if block.optional() {
        Count::zero()
    } else {
        count(least_copies(&block.alternatives()))
    }
}

// The copies that are guessed.
fn guessed_copies(block: &Block<'_>) -> u64
    ensures { result ≡ guessed_copies_of block.now }
{
    match block.guess() {
        Some(at) => block.alternatives().get(at).times().guess(),
        None => 0,
    }
}

// The least number of copies of some alternatives.
fn least_copies(alternatives: &Candidates<'_>) -> u64
    requires { 0 < length alternatives.now }
    ensures { result ≡ least_number (map (λ a. a.copies.least) alternatives.now) }
{
    let mut least = alternatives.get(0).times().least();
    for place in 1..alternatives.len() {
        least = least.min(alternatives.get(place).times().least());
    }
    least
}

/// The most copies over the choices that a block offers.
pub(crate) fn most_count(block: &Block<'_>) -> Count
    ensures { result ≡ (triple_of block.now).most }
{
    count(most_copies(&block.alternatives()))
}

// The greatest number of copies of some alternatives.
fn most_copies(alternatives: &Candidates<'_>) -> u64
    ensures { result ≡ greatest_number (map (λ a. a.copies.most) alternatives.now) }
{
    let mut most = 0;
    for place in 0..alternatives.len() {
        most = most.max(alternatives.get(place).times().most());
    }
    most
}

/// A number of copies as a count.
pub(crate) fn count(copies: u64) -> Count
    ensures { result ≡ copies }
{
    let Some(count) = Count::of(copies as u128) else {
        unreachable!()
    };
    count
}
