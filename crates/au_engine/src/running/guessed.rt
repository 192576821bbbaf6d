//! The rows of blocks in the guess world, each with the number of its copies. They are found among the encoded rows by a plan
//! of their own, and stay coded: no row of values is made.
ghost use Rattle.std.specs.Prelude.{◌≡◌, IfOk, OnOk, map};
ghost use Rattle.au_blocks.specs.Tables.{IsBlockTable, table};
ghost use Rattle.au_plain.specs.Meaning.{kept};
ghost use Rattle.au_plain.specs.PlanKinds.{FitRows};
ghost use Rattle.au_engine.specs.CountedTables.{counted_guesses};

use crate::running::guess_plan::{counted_places, guess_places, guess_plan};
use crate::running::held::Held;
use au_blocks::{Blocks, Column};
use au_exec::{Source, run_coded};
use au_expr::EvalFault;
use au_par::Gate;
use au_translate::read_numbers;
use au_value::{NoMemory, both};
use au_vector::Crew;
use std::alloc::Global;
use std::thread::Threads;

/// The rows of some blocks of a table of these columns in the guess world, in block order, each with the number of its copies
/// behind its values. A block that has no copy there has no row.
pub(crate) fn all_guesses<'a, R: Threads + Sync, G: Gate + Sync>(
    crew: &Crew<'_, R, G>,
    alloc: Global,
    columns: &'a [Column],
    blocks: Blocks<'a>,
) -> Result<Held<'a>, NoMemory>
    requires table { IsBlockTable (table columns.now blocks) }
    ensures rows { IfOk result (λ h. h ≡ counted_guesses blocks.entry) }
    ensures fit { OnOk result (FitRows (counted_guesses blocks.entry)) }
{
    let places = counted_places(alloc, columns)?;
    kept_guesses(crew, alloc, columns, blocks, &places)
}

/// Of these rows the values in some places.
pub(crate) fn kept_guesses<'a, R: Threads + Sync, G: Gate + Sync>(
    crew: &Crew<'_, R, G>,
    alloc: Global,
    columns: &'a [Column],
    blocks: Blocks<'a>,
    places: &[usize],
) -> Result<Held<'a>, NoMemory>
    requires table { IsBlockTable (table columns.now blocks) }
    ensures rows { IfOk result (λ h. h ≡ map (kept places.now) (counted_guesses blocks.entry)) }
    ensures fit { OnOk result (FitRows (counted_guesses blocks.entry)) }
{
    // Read for the proof alone: all numbers lie in their range.
    read_numbers(columns, &blocks);
    let (plan, read) = both(
        guess_plan(alloc, places),
        guess_places(alloc, columns, places),
    )?;
    let sources = [Source::of_blocks(columns, blocks, &read)];
    match run_coded(crew, alloc, plan, &sources) {
        Ok(rows) => Ok(Held::of_coded(rows)),
        Err(EvalFault::Overflow) => unreachable!(),
        Err(EvalFault::NoMemory) => Err(NoMemory),
    }
}
