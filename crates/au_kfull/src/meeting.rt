//! How the rows of one relation meet those of another: in the guess world, possibly, or certainly.
ghost use Rattle.std.specs.Prelude.{◌≡◌, ◌<◌, ◌^◌, IfOk, OkIff, filter, if◌then◌else◌};
ghost use Rattle.au_value.specs.Order.{kind_of};
ghost use Rattle.au_kfull.specs.Keys.{keys_of as the_keys, kinds, HasKinds, HasKeyKinds};
ghost use Rattle.au_kfull.specs.Meeting.{meets as meets_of, all_meet as all_meet_of, count_of, sum_meeting as sum_meeting_of};

use crate::keys::{Keys, keys_of};
use crate::tuple::Tuple;
use au_annot::{Annot, Count, Triple};
use au_value::{NoMemory, Overflow, Range, order};
use std::alloc::Global;

/// How two ranges meet.
#[derive(Clone, Copy)]
pub(crate) enum Meeting {
    /// Their guesses are equal.
    Guess,
    /// They overlap.
    Overlap,
    /// Both are certain, and equal.
    Certain,
}

fn meets(how: Meeting, a: &Range, b: &Range) -> bool
    requires { kind_of a.now.sg ≡ kind_of b.now.sg }
    ensures { result ≡ meets_of how a.now b.now }
{
    match how {
        Meeting::Guess => order(a.sg(), b.sg()).is_eq(),
        Meeting::Overlap => a.overlaps(b),
        Meeting::Certain => { a.is_certain() && b.is_certain() && order(a.lo(), b.lo()).is_eq() }
    }
}

/// A count of a row's triple.
#[derive(Clone, Copy)]
pub(crate) enum Part {
    Least,
    Guess,
    Most,
}

/// Whether two rows meet in each column.
pub(crate) fn all_meet(how: Meeting, a: &[Range], b: &[Range]) -> bool
    requires { kinds a.now ≡ kinds b.now }
    ensures { result ≡ all_meet_of how a.now b.now }
{
    let mut left = a;
    let mut right = b;
    while let Some((x, xs)) = left.split_first() {
        let Some((y, ys)) = right.split_first() else {
            return false;
        };
        if !meets(how, x, y) {
            return false;
        }
        left = xs;
        right = ys;
    }
    right.is_empty()
}

fn count(part: Part, triple: Triple) -> Count
    ensures value { result ≡ count_of part triple }
    ensures fits { count_of part triple < 2 ^ 127 }
{
    match part {
        Part::Least => triple.least(),
        Part::Guess => triple.guess(),
        Part::Most => triple.most(),
    }
}

// The count of a row, or 0 where it does not meet the given one.
fn count_meeting(how: Meeting, part: Part, cells: &[Range], row: &Tuple<'_, Range, Triple>) -> Count
    requires { kinds row.now.cells ≡ kinds cells.now }
    ensures { result ≡ (if all_meet_of how cells.now row.now.cells then count_of part row.now.annot else 0) }
{
    if all_meet(how, cells, row.cells()) {
        count(part, row.annot())
    } else {
        Count::zero()
    }
}

/// The sum of these counts over the rows that meet the given one.
pub(crate) fn sum_meeting(
    how: Meeting,
    part: Part,
    cells: &[Range],
    rows: &[Tuple<'_, Range, Triple>],
) -> Result<Count, Overflow>
    requires { HasKinds (kinds cells.now) rows.now }
    ensures { OkIff result (sum_meeting_of how part cells.now rows.now < 2 ^ 127) (sum_meeting_of how part cells.now rows.now) }
{
    let mut sum = Count::zero();
    for row in rows {
        sum = sum.plus(count_meeting(how, part, cells, row))?;
    }
    // Read for the proof alone: a count lies in its range.
    let _fits = sum.get();
    Ok(sum)
}

/// The rows whose keys meet the given ones.
pub(crate) fn rows_meeting<'a>(
    alloc: Global,
    how: Meeting,
    keys: Keys,
    own: &[Range],
    rows: &[Tuple<'a, Range, Triple>],
) -> Result<Vec<Tuple<'a, Range, Triple>>, NoMemory>
    requires { HasKeyKinds keys (kinds own.now) rows.now }
    ensures { IfOk result (λ v. v.items ≡ filter (λ r. all_meet_of how own.now (the_keys keys r.cells)) rows.now) }
{
    let mut found = Vec::new(alloc);
    for row in rows {
        if all_meet(how, own, keys_of(keys, row.cells())) {
            found.push(row.again())?;
        }
    }
    Ok(found)
}
