//! What the records of a block amount to.
ghost use Rattle.std.specs.Prelude.{◌≡◌, ◌<◌, ◌-◌, ◌^◌, Some, None, if◌then◌else◌};
ghost use Rattle.std.specs.Option.{option_or};
ghost use Rattle.au_blocks.specs.Tallies.{certain as certain_of, extent_of, nothing, tally_defect, with_role};

use crate::extent::Extent;
use crate::faults::TableFault;
use crate::role::Role;
use crate::seen::Seen;

/// How many alternatives there are, how often a record marks the guess and how often one says that the block may be absent,
/// and the number of the first marked alternative.
#[derive(Clone, Copy)]
pub(crate) struct Tally {
    pub(crate) count: usize,
    pub(crate) marked: Seen,
    pub(crate) absent: Seen,
    pub(crate) guess: Option<usize>,
}

impl Tally {
    /// No record yet.
    pub(crate) fn nothing() -> Tally
        ensures { result ≡ nothing }
    {
        Tally {
            count: 0,
            marked: Seen::Never,
            absent: Seen::Never,
            guess: None,
        }
    }

    /// One marked alternative.
    pub(crate) fn certain() -> Tally
        ensures { result ≡ certain_of }
    {
        Tally {
            count: 1,
            marked: Seen::Once,
            absent: Seen::Never,
            guess: Some(0),
        }
    }

    /// One record more, of this role.
    pub(crate) fn with(self, role: Role) -> Tally
        requires { self.count < 2 ^ 64 - 1 }
        ensures { result ≡ with_role self role }
    {
        let marked = if role.is_marked() {
            self.marked.more()
        } else {
            self.marked
        };
        if role.is_absent() {
            Tally {
                count: self.count,
                marked,
                absent: self.absent.more(),
                guess: self.guess,
            }
        } else {
            Tally {
                count: self.count + 1,
                marked,
                absent: self.absent,
                guess: guess_after(self.guess, role.is_marked(), self.count),
            }
        }
    }

    /// The first defect of the block with this number.
    pub(crate) fn defect(self, number: usize) -> Option<TableFault>
        ensures { result ≡ tally_defect number self }
    {
        if self.marked.is_again() {
            return Some(TableFault::TwoGuesses(number));
        }
        if self.marked.is_never() {
            return Some(TableFault::NoGuess(number));
        }
        if self.count == 0 {
            return Some(TableFault::OnlyAbsent(number));
        }
        if self.absent.is_again() {
            return Some(TableFault::TwoAbsent(number));
        }
        None
    }

    /// Where the block lies whose first alternative has this place.
    pub(crate) fn extent(self, first: usize) -> Extent
        ensures { result ≡ extent_of first self }
    {
        Extent {
            first,
            count: self.count,
            optional: !self.absent.is_never(),
            guess: self.guess,
        }
    }
}

// The first marked alternative, behind one more at a place.
fn guess_after(guess: Option<usize>, marked: bool, place: usize) -> Option<usize>
    ensures { result ≡ option_or guess (if marked then Some place else None) }
{
    match guess {
        Some(first) => Some(first),
        None if marked => Some(place),
        None => None,
    }
}
