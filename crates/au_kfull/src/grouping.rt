//! The rows of an output of a group.
ghost use Rattle.std.specs.Prelude.{◌≡◌, [], IfOk, filter};
ghost use Rattle.au_value.specs.Ranges.{all_overlap};
ghost use Rattle.au_kfull.specs.Groups.{IsGroupOf, IsGrouping, unsure as unsure_of};
ghost use Rattle.au_kfull.specs.Keys.{keys_of as the_keys, kinds, HasKeyKinds};

use crate::counts::{all_certain, has_guess};
use crate::hull::hull_of;
use crate::keys::Keys;
use crate::meeting::{Meeting, rows_meeting};
use crate::tuple::{Tuple, all_again};
use au_annot::Triple;
use au_value::{NoMemory, Range};
use std::alloc::Global;

/// The rows of an output: those that belong to it, and its members. A member is a certain one where its keys are
/// certain, and those of the output are.
#[derive(Drop)]
pub(crate) struct Grouping<'a> {
    pub(crate) keys: Keys,
    pub(crate) is_certain: bool,
    pub(crate) is_guessed: bool,
    pub(crate) belonging: Vec<Tuple<'a, Range, Triple>>,
    pub(crate) members: Vec<Tuple<'a, Range, Triple>>,
}

// The rows whose keys overlap those of an output: where all keys are certain, those that belong to it.
fn members<'a>(
    alloc: Global,
    keys: Keys,
    hull: &[Range],
    belonging: &[Tuple<'a, Range, Triple>],
    rows: &[Tuple<'a, Range, Triple>],
    unsure: &[Tuple<'a, Range, Triple>],
) -> Result<Vec<Tuple<'a, Range, Triple>>, NoMemory>
    requires kinds { HasKeyKinds keys (kinds hull.now) rows.now }
    requires certain { unsure.now ≡ [] → filter (λ r. all_overlap (the_keys keys r.cells) hull.now) rows.now ≡ belonging.now }
    ensures { IfOk result (λ v. v.items ≡ filter (λ r. all_overlap (the_keys keys r.cells) hull.now) rows.now) }
{
    if unsure.is_empty() {
        all_again(alloc, belonging)
    } else {
        rows_meeting(alloc, Meeting::Overlap, keys, hull, rows)
    }
}

/// The key ranges and the rows of the output to which some rows belong.
pub(crate) fn output_grouping<'a>(
    alloc: Global,
    keys: Keys,
    belonging: &[Tuple<'a, Range, Triple>],
    rows: &[Tuple<'a, Range, Triple>],
    unsure: &[Tuple<'a, Range, Triple>],
) -> Result<(Vec<Range>, Grouping<'a>), NoMemory>
    requires group { IsGroupOf keys rows.now belonging.now }
    requires unsure { unsure.now ≡ unsure_of keys rows.now }
    ensures { IfOk result (λ p. IsGrouping keys rows.now belonging.now p.0.items p.1) }
{
    let hull = hull_of(alloc, keys, belonging)?;
    let members = members(alloc, keys, &hull, belonging, rows, unsure)?;
    let is_certain = all_certain(&hull);
    let is_guessed = has_guess(belonging);
    let belonging = all_again(alloc, belonging)?;
    let grouping = Grouping {
        keys,
        is_certain,
        is_guessed,
        belonging,
        members,
    };
    Ok((hull, grouping))
}
