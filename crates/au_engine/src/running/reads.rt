//! What a plan reads of its inputs. Of rows in the guess world just the columns are found or made that the plan keeps.
ghost use Rattle.std.specs.Prelude.{◌≡◌, IfOk, OnOk};
ghost use Rattle.au_blocks.specs.Tables.{IsBlockTable, table};
ghost use Rattle.au_exec.specs.HeldRows.{rows_of};
ghost use Rattle.au_physical.specs.Physicals.{physical_tree};
ghost use Rattle.au_plain.specs.PlanKinds.{FitRows, FitTables};
ghost use Rattle.au_engine.specs.CountedTables.{certain_guesses, counted_guesses};
ghost use Rattle.au_program.specs.Inputs.{ReadsNext, Reads, ReadsAll};

use crate::running::guessed::{all_guesses, kept_guesses};
use crate::running::held::Held;
use crate::running::input::{Content, Input};
use au_blocks::{Blocks, Column};
use au_par::Gate;
use au_physical::Physical;
use au_plain::PRow;
use au_plan::narrow_scans;
use au_ua::{counted_blocks, counted_places};
use au_value::NoMemory;
use au_vector::Crew;
use std::alloc::Global;
use std::thread::Threads;

/// What the plan reads of its inputs, with the plan changed to read that.
pub(crate) fn read_inputs<'a, R: Threads + Sync, G: Gate + Sync>(
    crew: &Crew<'_, R, G>,
    alloc: Global,
    plan: &mut Physical,
    inputs: Vec<Input<'a>>,
) -> Result<Vec<Held<'a>>, NoMemory>
    ensures reads { IfOk result (λ v. ReadsAll inputs.entry.items v.items (physical_tree plan.old) (physical_tree plan.new)) }
    ensures fit { OnOk result (FitTables inputs.entry.items) }
{
    let mut held = Vec::with_capacity(alloc, inputs.len())?;
    for input in inputs {
        read_next(crew, alloc, plan, input, &mut held)?;
    }
    Ok(held)
}

// Puts what the plan reads of the next input behind what it reads of those before it.
fn read_next<'a, R: Threads + Sync, G: Gate + Sync>(
    crew: &Crew<'_, R, G>,
    alloc: Global,
    plan: &mut Physical,
    input: Input<'a>,
    held: &mut Vec<Held<'a>>,
) -> Result<(), NoMemory>
    ensures reads { OnOk result (ReadsNext input.entry held.old.items held.new.items (physical_tree plan.old) (physical_tree plan.new)) }
    ensures fit { OnOk result (FitRows input.entry) }
{
    let place = held.len();
    let rows = rows_read(crew, alloc, plan, place, input)?;
    held.push(rows)?;
    Ok(())
}

// What the plan reads of the input of this number.
fn rows_read<'a, R: Threads + Sync, G: Gate + Sync>(
    crew: &Crew<'_, R, G>,
    alloc: Global,
    plan: &mut Physical,
    number: usize,
    input: Input<'a>,
) -> Result<Held<'a>, NoMemory>
    ensures reads { IfOk result (λ s. Reads number input.entry s (physical_tree plan.old) (physical_tree plan.new)) }
    ensures fit { OnOk result (FitRows input.entry) }
{
    match input.into_content() {
        Content::Ready(rows) => Ok(rows),
        Content::Guesses(columns, blocks) => {
            guesses_read(crew, alloc, plan, number, columns, blocks)
        }
        Content::Certain(blocks) => {
            Ok(Held::of_rows(certain_read(alloc, plan, number, &blocks)?))
        }
    }
}

// The rows of some blocks of a table of these columns in the guess world.
fn guesses_read<'a, R: Threads + Sync, G: Gate + Sync>(
    crew: &Crew<'_, R, G>,
    alloc: Global,
    plan: &mut Physical,
    number: usize,
    columns: &'a [Column],
    blocks: Blocks<'a>,
) -> Result<Held<'a>, NoMemory>
    requires table { IsBlockTable (table columns.now blocks) }
    ensures reads { IfOk result (λ h. Reads number (counted_guesses blocks.entry) h (physical_tree plan.old) (physical_tree plan.new)) }
    ensures fit { OnOk result (FitRows (counted_guesses blocks.entry)) }
{
    let kept = narrow_scans(alloc, plan, number)?;
    match kept {
        Some(places) => kept_guesses(crew, alloc, columns, blocks, &places),
        None => all_guesses(crew, alloc, columns, blocks),
    }
}

// The same of these rows with two counts.
fn certain_read(
    alloc: Global,
    plan: &mut Physical,
    number: usize,
    blocks: &Blocks<'_>,
) -> Result<Vec<PRow>, NoMemory>
    ensures reads { IfOk result (λ v. Reads number (certain_guesses blocks.now) (rows_of v) (physical_tree plan.old) (physical_tree plan.new)) }
    ensures fit { OnOk result (FitRows (certain_guesses blocks.now)) }
{
    let kept = narrow_scans(alloc, plan, number)?;
    match kept {
        Some(places) => counted_places(alloc, blocks, &places),
        None => counted_blocks(alloc, blocks),
    }
}
