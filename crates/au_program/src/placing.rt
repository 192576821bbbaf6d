//! Sources that are put behind others.
ghost use Rattle.std.specs.Prelude.{◌≡◌, ◌+◌, IfOk, OnOk};
ghost use Rattle.au_program.specs.Programs.{IsPairingBehind, IsStepBehind, IsTableBehind};
ghost use Rattle.au_program.specs.Sources.{count as count_of};

use crate::sources::{Pairing, Sources, Ways};
use au_value::{NoMemory, beside, both};
use std::alloc::Global;
use std::mem;

/// How many tables of a plan the sources are.
pub fn count(sources: &Sources) -> Result<usize, NoMemory>
    ensures { IfOk result (λ n. n ≡ count_of sources.now) }
{
    match sources {
        Sources::Nothing => Ok(0),
        Sources::Table(before, _, _) => more(count(before)?, 1),
        Sources::Step(before, _, _) => more(count(before)?, 1),
        Sources::Pairs(before, _, _, _) => more(count(before)?, 4),
    }
}

/// So many more. There are no more of them than memory can hold.
pub fn more(count: usize, by: usize) -> Result<usize, NoMemory>
    ensures { IfOk result (λ n. n ≡ count + by) }
{
    match count.checked_add(by) {
        Some(more) => Ok(more),
        None => Err(NoMemory),
    }
}

// The sources in a box.
fn boxed(alloc: Global, sources: Sources) -> Result<Box<Sources>, NoMemory>
    ensures { IfOk result (λ b. b.value ≡ sources) }
{
    Ok(Box::new(alloc, sources)?)
}

// The sources, moved, with none in their place.
fn taken(sources: &mut Sources) -> Sources
    ensures { result ≡ sources.old }
{
    mem::replace(sources, Sources::Nothing)
}

/// Puts the table at a place behind the sources.
pub(crate) fn put_table(alloc: Global, place: usize, sources: &mut Sources) -> Result<(), NoMemory>
    ensures { OnOk result (IsTableBehind place sources.old sources.new) }
{
    let before = boxed(alloc, taken(sources))?;
    *sources = Sources::Table(before, place, None);
    Ok(())
}

/// Puts what is found over other sources behind the sources.
pub(crate) fn put_step(
    alloc: Global,
    own: Sources,
    how: Ways,
    sources: &mut Sources,
) -> Result<(), NoMemory>
    ensures { OnOk result (IsStepBehind own sources.old sources.new how) }
{
    let boxes = both(boxed(alloc, taken(sources)), boxed(alloc, own));
    let (boxes, how) = beside(boxes, how)?;
    let (before, own) = boxes;
    *sources = Sources::Step(before, own, how);
    Ok(())
}

/// Puts the parts of what the plans of two sides find behind the sources.
pub(crate) fn put_pairs(
    alloc: Global,
    left: Sources,
    right: Sources,
    pairing: Pairing,
    sources: &mut Sources,
) -> Result<(), NoMemory>
    ensures { OnOk result (IsPairingBehind left right sources.old sources.new pairing) }
{
    let sides = both(boxed(alloc, left), boxed(alloc, right));
    let boxes = both(boxed(alloc, taken(sources)), sides);
    let (boxes, pairing) = beside(boxes, pairing)?;
    let (before, sides) = boxes;
    let (left, right) = sides;
    *sources = Sources::Pairs(before, left, right, pairing);
    Ok(())
}
