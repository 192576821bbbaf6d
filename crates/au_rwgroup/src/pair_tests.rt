//! What is asked of each pair of a box and a fold, once for all aggregates.
ghost use Rattle.std.specs.Prelude.{◌≡◌, ◌++◌, ◌+◌, ◌*◌, IfOk, OnOk, map};
ghost use Rattle.au_plain.specs.PTerms.{pterm};
ghost use Rattle.au_plain.specs.PTerms as term;
ghost use Rattle.au_rwexpr.specs.Meets as meeting;
ghost use Rattle.au_rwgroup.specs.Groups.{all_sure as are_sure};
ghost use Rattle.au_rwgroup.specs.GroupPlan.{belongs, is_sure, tests, weights};
ghost use Rattle.au_rwgroup.specs.JoinedPlaces.{places_of};

use crate::count_terms::all_sure;
use crate::joined_row::JoinedRow;
use au_plain::{PExpr, and};
use au_rwexpr::{RangeColumns, same_guesses};
use au_value::{NoMemory, both};
use std::alloc::Global;

/// Adds the tests, and then whether the rows of the fold surely have copies in each group, and whether they have some in
/// the guess world.
///
/// `NoMemory` comes also where a row cannot have so many columns.
pub(crate) fn push_tests(
    alloc: Global,
    joined: JoinedRow,
    columns: &mut Vec<PExpr>,
) -> Result<(), NoMemory>
    ensures { OnOk result (map pterm columns.new.items ≡ map pterm columns.old.items ++ (tests (places_of joined) ++ weights (places_of joined))) }
{
    columns.push(keys_are_sure(alloc, joined)?)?;
    columns.push(belongs_to_box(alloc, joined)?)?;
    columns.push(has_sure_copy(alloc, joined)?)?;
    columns.push(has_guessed_copy(alloc, joined)?)?;
    Ok(())
}

// Whether the fold's keys and the box are certain.
fn keys_are_sure(alloc: Global, joined: JoinedRow) -> Result<PExpr, NoMemory>
    ensures { IfOk result (λ e. pterm e ≡ term.And (are_sure joined.fold joined.keys) (are_sure 0 joined.keys)) }
{
    let (fold, own) = (RangeColumns::at(joined.fold)?, RangeColumns::at(0)?);
    let fold = all_sure(alloc, fold, joined.keys);
    let (fold, own) = both(fold, all_sure(alloc, own, joined.keys))?;
    and(alloc, fold, own)
}

// Whether the fold has the guesses of the box.
fn belongs_to_box(alloc: Global, joined: JoinedRow) -> Result<PExpr, NoMemory>
    ensures { IfOk result (λ e. pterm e ≡ meeting.same_guesses 0 joined.fold joined.keys) }
{
    let first = RangeColumns::at(0)?;
    same_guesses(alloc, first, RangeColumns::at(joined.fold)?, joined.keys)
}

// Whether the keys and the box are certain, and the rows surely have copies.
fn has_sure_copy(alloc: Global, joined: JoinedRow) -> Result<PExpr, NoMemory>
    ensures { IfOk result (λ e. pterm e ≡ term.And (is_sure (places_of joined)) (term.Column (joined.fold + 3 * joined.keys))) }
{
    and(alloc, joined.is_sure(), joined.has_sure_copy())
}

// Whether the fold belongs to the box, and its rows have copies in the guess world.
fn has_guessed_copy(alloc: Global, joined: JoinedRow) -> Result<PExpr, NoMemory>
    ensures { IfOk result (λ e. pterm e ≡ term.And (belongs (places_of joined)) (term.Column (joined.fold + 3 * joined.keys + 1))) }
{
    and(alloc, joined.belongs(), joined.has_guessed_copy())
}
