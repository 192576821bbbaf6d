//! Difference: the combined left side, each row less the right side.
ghost use Rattle.std.specs.Prelude.{◌≡◌, ◌+◌, ◌<◌, ◌^◌, IfErr, IfOk, IsTrue, OkIff, OnOk, false, map};
ghost use Rattle.std.specs.List.{AllByRecursion, list_all};
ghost use Rattle.au_algebra.specs.Bounded.{difference as difference_of, less as less_of, present};
ghost use Rattle.au_algebra.specs.Entries.{entry};
ghost use Rattle.au_value.specs.Ranges.{guesses};
ghost use Rattle.au_expr.specs.declared.fault.EvalFault.TheVariants as fault;
ghost use Rattle.au_kfull.specs.Gives.{GivesOrOverflows};
ghost use Rattle.au_kfull.specs.Groups.{unsure as unsure_of};
ghost use Rattle.au_kfull.specs.Meeting.{sum_meeting as sum_meeting_of};
ghost use Rattle.au_kfull.specs.Numbers.{difference_fits, sums_fit, IsFound, IsReady};
ghost use Rattle.au_kfull.specs.SameGuesses.{IsByGuesses};
ghost use Rattle.au_kfull.specs.Typed.{AreAlike};
ghost use Rattle.au_kfull.specs.declared.keys.Keys.TheVariants as keys;
ghost use Rattle.au_kfull.specs.declared.meeting.Meeting.TheVariants as meeting;
ghost use Rattle.au_kfull.specs.declared.meeting.Part.TheVariants as part;

use crate::combination::combined;
use crate::counts::{all_certain, unsure_rows};
use crate::keys::Keys;
use crate::meeting::{Meeting, Part, sum_meeting};
use crate::same_guesses::{ByGuesses, by_guesses, rows_guessing};
use crate::tuple::{Tuple, push_present, tuples};
use au_algebra::Rel;
use au_annot::{Annot, Count, Monus, Triple};
use au_expr::EvalFault;
use au_keval::operators::Row;
use au_value::{Overflow, Range};
use std::alloc::Global;

// The sum of two counts.
fn added(a: Count, b: Count) -> Result<Count, Overflow>
    ensures { OkIff result (a + b < 2 ^ 127) (a + b) }
{
    let sum = a.plus(b)?;
    // Read for the proof alone: a count lies in its range.
    let _fits = sum.get();
    Ok(sum)
}

// The sum of these counts over the right rows that meet a row. Those that are equal to it in the guess world, or in every
// world, have the same guesses.
fn sum_found(
    how: Meeting,
    part: Part,
    cells: &[Range],
    right: &[Tuple<'_, Range, Triple>],
    same: &[Tuple<'_, Range, Triple>],
) -> Result<Count, Overflow>
    requires { IsFound right.now same.now cells.now }
    ensures { OkIff result (sum_meeting_of how part cells.now right.now < 2 ^ 127) (sum_meeting_of how part cells.now right.now) }
{
    match how {
        Meeting::Guess => sum_meeting(Meeting::Guess, part, cells, same),
        Meeting::Overlap => sum_meeting(Meeting::Overlap, part, cells, right),
        Meeting::Certain => sum_meeting(Meeting::Certain, part, cells, same),
    }
}

// The sum of the greatest counts of the right rows that overlap a row. A certain one overlaps a certain row where it is
// equal to it.
fn sum_overlapping(
    cells: &[Range],
    right: &[Tuple<'_, Range, Triple>],
    unsure: &[Tuple<'_, Range, Triple>],
    same: &[Tuple<'_, Range, Triple>],
) -> Result<Count, Overflow>
    requires found { IsFound right.now same.now cells.now }
    requires unsure { unsure.now ≡ unsure_of keys.All right.now }
    ensures { let sum = sum_meeting_of meeting.Overlap part.Most cells.now right.now in OkIff result (sum < 2 ^ 127) sum }
{
    if !all_certain(cells) {
        return sum_found(Meeting::Overlap, Part::Most, cells, right, same);
    }
    let equal = sum_found(Meeting::Certain, Part::Most, cells, right, same)?;
    let other = sum_meeting(Meeting::Overlap, Part::Most, cells, unsure)?;
    added(equal, other)
}

// The triple of what is left of a row: its least falls by all that may be equal to it, its guess by what is equal in
// the guess world, and its most by what is equal to it in every world.
fn less(
    cells: &[Range],
    triple: Triple,
    right: &[Tuple<'_, Range, Triple>],
    unsure: &[Tuple<'_, Range, Triple>],
    same: &[Tuple<'_, Range, Triple>],
) -> Result<Triple, Overflow>
    requires ready { IsReady right.now (entry cells.now triple) }
    requires found { IsFound right.now same.now cells.now }
    requires unsure { unsure.now ≡ unsure_of keys.All right.now }
    ensures { let t = entry cells.now triple in OkIff result (IsTrue (sums_fit right.now t)) (less_of right.now t).annot }
{
    let most = sum_overlapping(cells, right, unsure, same)?;
    let guess = sum_found(Meeting::Guess, Part::Guess, cells, right, same)?;
    let least = sum_found(Meeting::Certain, Part::Least, cells, right, same)?;
    let Some(rest) = Triple::of(
        triple.least().monus(most),
        triple.guess().monus(guess),
        triple.most().monus(least),
    ) else {
        unreachable!()
    };
    Ok(rest)
}

// Each row less the right side.
fn rest_of(
    alloc: Global,
    left: Vec<(Vec<Range>, Triple)>,
    right: &[Tuple<'_, Range, Triple>],
    unsure: &[Tuple<'_, Range, Triple>],
    index: &ByGuesses<'_>,
) -> Result<Rel<Range, Triple>, EvalFault>
    requires ready { AllByRecursion (IsReady right.now) (map (λ r. entry r.0.items r.1) left.items) }
    requires unsure { unsure.now ≡ unsure_of keys.All right.now }
    requires index { IsByGuesses (λ r. guesses r.cells) right.now index.now }
    ensures { let rows = map (λ r. entry r.0.items r.1) left.items in GivesOrOverflows result (λ r. r ≡ present (map (less_of right.now) rows)) (list_all (sums_fit right.now) rows) }
{
    let mut rel = Rel::new(alloc);
    for (cells, triple) in left {
        let same = rows_guessing(alloc, index, &cells)?;
        let rest = less(&cells, triple, right, unsure, &same)?;
        push_present(&mut rel, cells, rest)?;
    }
    Ok(rel)
}

/// The combined left side, each row less the right side.
pub(crate) fn subtract(
    alloc: Global,
    left: &[Row<Range, Triple>],
    right: &[Row<Range, Triple>],
) -> Result<Rel<Range, Triple>, EvalFault>
    requires { AreAlike (map (λ r. entry r.0.items r.1) left.now) (map (λ r. entry r.0.items r.1) right.now) }
    ensures { let left = map (λ r. entry r.0.items r.1) left.now in let right = map (λ r. entry r.0.items r.1) right.now in GivesOrOverflows result (λ r. r ≡ difference_of left right) (difference_fits left right) }
{
    let lent = tuples(alloc, left)?;
    let combined = combined(alloc, &lent)?;
    let right = tuples(alloc, right)?;
    let unsure = unsure_rows(alloc, Keys::All, &right)?;
    let index = by_guesses(alloc, Keys::All, &right)?;
    rest_of(alloc, combined.rows, &right, &unsure, &index)
}

/// The combined left side, each row less the right side.
///
/// `Overflow` comes exactly where a number leaves the range, unless memory is wanting before.
pub fn difference(
    alloc: Global,
    left: &Rel<Range, Triple>,
    right: &Rel<Range, Triple>,
) -> Result<Rel<Range, Triple>, EvalFault>
    requires { AreAlike left.now right.now }
    ensures rows { IfOk result (λ r. r ≡ difference_of left.now right.now) }
    ensures fits { OnOk result (IsTrue (difference_fits left.now right.now)) }
    ensures overflow { IfErr result (λ f. f ≡ fault.Overflow → difference_fits left.now right.now ≡ false) }
{
    subtract(alloc, left.rows(), right.rows())
}
