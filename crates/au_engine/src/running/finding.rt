//! What the sources of a plan hold over block tables: the plans of earlier steps are run, one after the other.
//!
//! Tables are encoded when the plan that reads them is run; the inputs of a step are let go when it has been run.
ghost use Rattle.std.specs.Prelude.{◌≡◌, ◌++◌, ◌∷◌, [], IfOk, List, false};
ghost use Rattle.au_algebra.specs.Ordinary.{Rows};
ghost use Rattle.au_blocks.specs.Tables.{IsBlockTable, table as table_of};
ghost use Rattle.au_encode.specs.Encode.{AreEncoded, decode, encode};
ghost use Rattle.au_expr.specs.Figures.{fit};
ghost use Rattle.au_physical.specs.PhysicalKinds.{IsPhysicalFor};
ghost use Rattle.au_physical.specs.PhysicalMeaning.{physical_rows};
ghost use Rattle.au_physical.specs.PhysicalNumbers.{physical_numbers};
ghost use Rattle.au_physical.specs.Physicals.{physical_tree};
ghost use Rattle.au_plain.specs.PlanKinds.{FitRows};
ghost use Rattle.au_engine.specs.Answers.{blocks_of};
ghost use Rattle.au_program.specs.KeptRows.{kept_rows};
ghost use Rattle.au_translate.specs.Translate.{bounded_blocks};
ghost use Rattle.au_program.specs.Sources.{AreParts, Behind, CanRun, CanStart, Gives, Holds, IsFound, IsRead, IsThere, Leaves, PairsOver, StartsOver, Stops};
ghost use Rattle.au_engine.specs.Finding.{IsAppended, IsFoundBy, ProductStops, SideStops, StepStops};

use crate::running::held::Held;
use crate::running::input::Input;
use crate::running::key_sample::folding_for;
use crate::running::places::places_read;
use crate::running::running::run;
use crate::running::splitting::put_parts;
use au_algebra::Rel;
use au_annot::Triple;
use au_blocks::{Blocks, Column, Table};
use au_exec::Coded;
use au_expr::EvalFault;
use au_par::Gate;
use au_physical::Physical;
use au_program::{Pairing, Sources, Ways, copy_physical};
use au_rwgroup::Folding;
use au_translate::read_numbers;
use au_value::{NoMemory, Range, Word, beside};
use au_vector::Crew;
use std::alloc::Global;
use std::thread::Threads;

/// What the sources of a plan hold over tables.
///
/// `Overflow` comes only where a number of what a step finds leaves 128 bits.
#[cycle(finds)]
pub(crate) fn inputs_of<'a, R: Threads + Sync, G: Gate + Sync>(
    crew: &Crew<'_, R, G>,
    alloc: Global,
    sources: &'a Sources,
    tables: &'a [(Word, Table)],
) -> Result<Vec<Input<'a>>, EvalFault>
    requires runs { CanRun (blocks_of tables.now) sources.now }
    ensures rows { IfOk result (λ v. Holds (blocks_of tables.now) sources.now v.items) }
    ensures overflow { result ≡ Err EvalFault.Overflow → Stops (blocks_of tables.now) sources.now }
{
    match sources {
        Sources::Nothing => Ok(Vec::new(alloc)),
        Sources::Table(before, place, kept) => {
            with_table(crew, alloc, before, *place, kept, tables)
        }
        Sources::Step(before, own, how) => with_step(crew, alloc, before, own, how, tables),
        Sources::Pairs(before, left, right, pairing) => {
            with_pairs(crew, alloc, before, left, right, pairing, tables)
        }
    }
}

// What the sources before a table hold, and the table.
#[cycle(finds)]
fn with_table<'a, R: Threads + Sync, G: Gate + Sync>(
    crew: &Crew<'_, R, G>,
    alloc: Global,
    before: &'a Sources,
    place: usize,
    kept: &'a Option<Vec<usize>>,
    tables: &'a [(Word, Table)],
) -> Result<Vec<Input<'a>>, EvalFault>
    requires before { CanRun (blocks_of tables.now) before.now }
    requires there { IsThere (blocks_of tables.now) place }
    ensures rows { IfOk result (λ v. Behind (Holds (blocks_of tables.now) before.now) (IsRead (blocks_of tables.now) place kept.now) v.items) }
    ensures overflow { result ≡ Err EvalFault.Overflow → Stops (blocks_of tables.now) before.now }
{
    let inputs = inputs_of(crew, alloc, before, tables)?;
    match put_table(alloc, tables, place, kept, inputs) {
        Ok(inputs) => Ok(inputs),
        Err(NoMemory) => Err(EvalFault::NoMemory),
    }
}

// Puts the table at a place behind the inputs.
fn put_table<'a>(
    alloc: Global,
    tables: &'a [(Word, Table)],
    place: usize,
    kept: &'a Option<Vec<usize>>,
    inputs: Vec<Input<'a>>,
) -> Result<Vec<Input<'a>>, NoMemory>
    requires there { IsThere (blocks_of tables.now) place }
    ensures { IfOk result (λ v. IsAppended (IsRead (blocks_of tables.now) place kept.now) inputs.entry.items v.items) }
{
    let Some(table) = tables.get(place) else {
        unreachable!()
    };
    let columns = table.1.columns();
    let blocks = table.1.blocks();
    // Read for the proof alone: all numbers lie in their range.
    read_numbers(columns, &blocks);
    match blocks_kept(alloc, columns, blocks, kept) {
        Ok(input) => {
            let mut inputs = inputs;
            inputs.push(input)?;
            Ok(inputs)
        }
        Err(NoMemory) => Err(NoMemory),
    }
}

// The encoded rows of some blocks of a table of these columns: of each the values in the places that are kept, or all.
fn blocks_kept<'a>(
    alloc: Global,
    columns: &'a [Column],
    blocks: Blocks<'a>,
    kept: &Option<Vec<usize>>,
) -> Result<Input<'a>, NoMemory>
    requires table { IsBlockTable (table_of columns.now blocks) }
    requires fit { FitRows (encode (bounded_blocks blocks)) }
    ensures { IfOk result (λ i. i ≡ kept_rows kept.now (encode (bounded_blocks blocks.entry))) }
{
    let places = places_read(alloc, columns, kept)?;
    Ok(Input::of(Held::of_blocks(columns, blocks, places)))
}

// What the sources before a step hold, and what it finds.
#[cycle(finds)]
fn with_step<'a, R: Threads + Sync, G: Gate + Sync>(
    crew: &Crew<'_, R, G>,
    alloc: Global,
    before: &'a Sources,
    own: &'a Sources,
    how: &'a Ways,
    tables: &'a [(Word, Table)],
) -> Result<Vec<Input<'a>>, EvalFault>
    requires before { CanRun (blocks_of tables.now) before.now }
    requires own { CanRun (blocks_of tables.now) own.now }
    requires starts { StartsOver (Holds (blocks_of tables.now) own.now) how.now }
    ensures rows { IfOk result (λ v. Behind (Holds (blocks_of tables.now) before.now) (IsFound (Holds (blocks_of tables.now) own.now) how.now) v.items) }
    ensures overflow { result ≡ Err EvalFault.Overflow → StepStops (blocks_of tables.now) before.now own.now how.now }
{
    let inputs = inputs_of(crew, alloc, before, tables)?;
    let held = inputs_of(crew, alloc, own, tables);
    let (held, inputs) = beside(held, inputs)?;
    let rows = found(crew, alloc, how, held);
    let (rows, inputs) = beside(rows, inputs)?;
    match put_found(rows, inputs) {
        Ok(inputs) => Ok(inputs),
        Err(NoMemory) => Err(EvalFault::NoMemory),
    }
}

// Puts rows that were found behind the inputs.
fn put_found<'a>(rows: Coded, inputs: Vec<Input<'a>>) -> Result<Vec<Input<'a>>, NoMemory>
    requires { FitRows rows }
    ensures { IfOk result (λ v. v.items ≡ inputs.entry.items ++ rows ∷ []) }
{
    let mut inputs = inputs;
    inputs.push(Input::of(Held::of_coded(rows)))?;
    Ok(inputs)
}

// The rows of a step over its inputs, which are let go: by the plan for their keys, where there are two.
fn found<R: Threads + Sync, G: Gate + Sync>(
    crew: &Crew<'_, R, G>,
    alloc: Global,
    how: &Ways,
    inputs: Vec<Input<'_>>,
) -> Result<Coded, EvalFault>
    requires starts { CanStart how.now inputs.items }
    ensures rows { IfOk result (λ c. Gives how.now inputs.entry.items c) }
    ensures fit { IfOk result (λ c. FitRows c) }
    ensures overflow { result ≡ Err EvalFault.Overflow → Leaves how.now inputs.entry.items }
{
    match how {
        Ways::Plan(plan) => found_by(crew, alloc, plan, inputs),
        Ways::ByKeys(keys, first, second) => match folding_for(&inputs, *keys) {
            Folding::EqualKeys => found_by(crew, alloc, first, inputs),
            Folding::Rows => found_by(crew, alloc, second, inputs),
        },
    }
}

// The rows of a plan over its inputs, which are let go.
fn found_by<R: Threads + Sync, G: Gate + Sync>(
    crew: &Crew<'_, R, G>,
    alloc: Global,
    plan: &Physical,
    inputs: Vec<Input<'_>>,
) -> Result<Coded, EvalFault>
    requires starts { IsPhysicalFor inputs.items (physical_tree plan.now) }
    ensures rows { IfOk result (λ c. c ≡ physical_rows (physical_tree plan.now) inputs.entry.items) }
    ensures fit { IfOk result (λ c. FitRows c) }
    ensures overflow { result ≡ Err EvalFault.Overflow → fit (physical_numbers (physical_tree plan.now) inputs.entry.items) ≡ false }
{
    let (plan, inputs) = match beside(copy_physical(alloc, plan), inputs) {
        Ok(both) => both,
        Err(NoMemory) => return Err(EvalFault::NoMemory),
    };
    run(crew, alloc, plan, inputs)
}

// What the sources before a product hold, and the parts of what the plans of its sides find.
#[cycle(finds)]
fn with_pairs<'a, R: Threads + Sync, G: Gate + Sync>(
    crew: &Crew<'_, R, G>,
    alloc: Global,
    before: &'a Sources,
    left: &'a Sources,
    right: &'a Sources,
    pairing: &'a Pairing,
    tables: &'a [(Word, Table)],
) -> Result<Vec<Input<'a>>, EvalFault>
    requires before { CanRun (blocks_of tables.now) before.now }
    requires left { CanRun (blocks_of tables.now) left.now }
    requires right { CanRun (blocks_of tables.now) right.now }
    requires pairs { PairsOver (Holds (blocks_of tables.now) left.now) (Holds (blocks_of tables.now) right.now) pairing.now }
    ensures rows { IfOk result (λ v. Behind (Holds (blocks_of tables.now) before.now) (AreParts (Holds (blocks_of tables.now) left.now) (Holds (blocks_of tables.now) right.now) pairing.now) v.items) }
    ensures overflow { result ≡ Err EvalFault.Overflow → ProductStops (blocks_of tables.now) before.now left.now right.now pairing.now }
{
    let inputs = inputs_of(crew, alloc, before, tables)?;
    let first = relation_found(
        crew,
        alloc,
        left,
        &pairing.left,
        pairing.left_columns,
        tables,
    );
    let (first, inputs) = beside(first, inputs)?;
    let second = relation_found(
        crew,
        alloc,
        right,
        &pairing.right,
        pairing.right_columns,
        tables,
    );
    let (second, held) = beside(second, (first, inputs))?;
    let (first, inputs) = held;
    put_parts(alloc, &first, &second, pairing.size, inputs)
}

/// The rows that a plan finds over its sources. They stay coded.
///
/// `Overflow` comes only where a number of the plan or of what a step finds leaves 128 bits.
#[cycle(finds)]
pub(crate) fn rows_found<R: Threads + Sync, G: Gate + Sync>(
    crew: &Crew<'_, R, G>,
    alloc: Global,
    sources: &Sources,
    plan: &Physical,
    tables: &[(Word, Table)],
) -> Result<Coded, EvalFault>
    requires runs { CanRun (blocks_of tables.now) sources.now }
    requires starts { (held : List Rows) → Holds (blocks_of tables.now) sources.now held → IsPhysicalFor held (physical_tree plan.now) }
    ensures rows { IfOk result (λ c. IsFoundBy (blocks_of tables.now) sources.now (physical_tree plan.now) c) }
    ensures overflow { result ≡ Err EvalFault.Overflow → SideStops (blocks_of tables.now) sources.now (physical_tree plan.now) }
{
    let inputs = inputs_of(crew, alloc, sources, tables)?;
    found_by(crew, alloc, plan, inputs)
}

// The relation that a plan finds over its sources, each of whose rows has so many columns, in some order.
//
// `Overflow` comes only where a number of the plan or of what a step finds leaves 128 bits.
#[cycle(finds)]
fn relation_found<R: Threads + Sync, G: Gate + Sync>(
    crew: &Crew<'_, R, G>,
    alloc: Global,
    sources: &Sources,
    plan: &Physical,
    columns: usize,
    tables: &[(Word, Table)],
) -> Result<Rel<Range, Triple>, EvalFault>
    requires runs { CanRun (blocks_of tables.now) sources.now }
    requires starts { (held : List Rows) → Holds (blocks_of tables.now) sources.now held → IsPhysicalFor held (physical_tree plan.now) }
    requires encoded { (held : List Rows) → Holds (blocks_of tables.now) sources.now held → AreEncoded columns (physical_rows (physical_tree plan.now) held) }
    ensures rows { IfOk result (λ rel. (held : List Rows) × (Holds (blocks_of tables.now) sources.now held × (rel ≡ decode columns (physical_rows (physical_tree plan.now) held)))) }
    ensures overflow { result ≡ Err EvalFault.Overflow → SideStops (blocks_of tables.now) sources.now (physical_tree plan.now) }
{
    let rows = rows_found(crew, alloc, sources, plan, tables)?;
    match rows.relation(alloc, columns) {
        Ok(relation) => Ok(relation),
        Err(NoMemory) => Err(EvalFault::NoMemory),
    }
}
