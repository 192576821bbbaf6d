//! How a grouping is to fold its rows, by a look at some of them.
//!
//! Rows with equal key ranges in one are fewer pairs for the boxes, and pay where key ranges repeat; where nearly all differ
//! they cost a grouping more and save nothing. Any choice is right, so all that is here is a matter of time.

use crate::running::held::Held;
use crate::running::input::Input;
use au_exec::Source;
use au_rwgroup::Folding;

// Neighbours are looked at in windows, so that equal keys are seen that stand together as well as those that are spread.
// There are the more windows the more rows there are, up to so many.
const WINDOW: usize = 32;

const WINDOWS: usize = 8;

const ROWS_FOR_A_WINDOW: usize = 1024;

// One row in so many may repeat the keys of another where each row is to stay by itself. A row too few in a fold costs a
// little, and wide ranges that meet each box row by row cost ten times as much, so few repetitions suffice.
const ROWS_FOR_A_REPETITION: usize = 64;

/// How to fold the rows of the last of some inputs by so many keys.
pub(crate) fn folding_for(inputs: &Vec<Input<'_>>, keys: usize) -> Folding {
    let (Some(input), Some(width)) = (inputs.last(), keys.checked_mul(3)) else {
        return Folding::EqualKeys;
    };
    match input.ready() {
        Some(held) => folding_of(held, width),
        None => Folding::EqualKeys,
    }
}

// The same by the leading values of the rows that are there.
fn folding_of(held: &Held<'_>, width: usize) -> Folding {
    let source = held.source();
    let rows = source.held();
    let windows = (rows / ROWS_FOR_A_WINDOW).clamp(1, WINDOWS);
    let sample = Sample {
        source: &source,
        width,
        step: rows / windows,
    };
    let count = windows * WINDOW;
    if sample.repeats(count, count / ROWS_FOR_A_REPETITION) {
        Folding::EqualKeys
    } else {
        Folding::Rows
    }
}

// The leading values of rows in windows that begin a step apart.
#[derive(Clone, Copy)]
struct Sample<'a> {
    source: &'a Source<'a>,
    width: usize,
    step: usize,
}

impl<'a> Sample<'a> {
    // Whether more than a few of so many rows have the values of an earlier one.
    fn repeats(&self, count: usize, few: usize) -> bool {
        let mut left = few;
        for place in 0..count {
            if self.stands_before(place) {
                if left == 0 {
                    return true;
                }
                left -= 1;
            }
        }
        false
    }

    // Whether an earlier row has the values of the one at a place.
    fn stands_before(&self, place: usize) -> bool {
        let Some(row) = self.row(place) else {
            return false;
        };
        for earlier in 0..place {
            if let Some(other) = self.row(earlier) {
                if self.source.alike(other, row, self.width) {
                    return true;
                }
            }
        }
        false
    }

    // Which row stands at a place.
    fn row(&self, place: usize) -> Option<usize> {
        let first = (place / WINDOW).checked_mul(self.step)?;
        first.checked_add(place % WINDOW)
    }
}
