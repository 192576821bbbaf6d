//! The next rows of a run, and all that are left.
ghost use Rattle.std.specs.Prelude.{◌≡◌, false, true, IfOk, IfErr, MatchResult, map};
ghost use Rattle.au_expr.specs.Figures.{fit};
ghost use Rattle.au_expr.specs.declared.fault.EvalFault.TheVariants as fault;
ghost use Rattle.au_physical.specs.PhysicalKinds.{IsPhysicalFor};
ghost use Rattle.au_physical.specs.PhysicalMeaning.{physical_rows};
ghost use Rattle.au_physical.specs.PhysicalNumbers.{physical_numbers};
ghost use Rattle.au_physical.specs.Physicals.{physical_tree};
ghost use Rattle.au_exec.specs.HeldRows.{rows_of};
ghost use Rattle.au_exec.specs.Runs.{CanGo, IsGoing, Same, Stepped, state_fits, state_rows};

use crate::coded::run_coded;
use crate::source::Source;
use crate::state::State;
use crate::taking::{drained, take_rows};
use au_expr::EvalFault;
use au_par::Gate;
use au_physical::Physical;
use au_plain::PRow;
use au_value::{NoMemory, beside};
use au_vector::Crew;
use std::alloc::Global;
use std::mem;
use std::thread::Threads;

/// The next batch, and nothing where no row is left.
pub(crate) fn advance<R: Threads + Sync, G: Gate + Sync>(
    crew: &Crew<'_, R, G>,
    alloc: Global,
    state: &mut State,
) -> Result<Option<Vec<PRow>>, EvalFault>
    requires { CanGo state.old }
    ensures { Stepped state.old state.new result }
{
    begin(crew, alloc, state)?;
    match state {
        State::Going(rows) => Ok(take_rows(alloc, rows)?),
        State::Waiting(_, _) => unreachable!(),
    }
}

/// All rows that are left.
pub(crate) fn rest<R: Threads + Sync, G: Gate + Sync>(
    crew: &Crew<'_, R, G>,
    alloc: Global,
    state: &mut State,
) -> Result<Vec<PRow>, EvalFault>
    requires { CanGo state.old }
    ensures { MatchResult result (λ v. (rows_of v ≡ state_rows state.old) × (state_fits state.old ≡ true)) (λ f. f ≡ fault.Overflow → state_fits state.old ≡ false) }
{
    begin(crew, alloc, state)?;
    match state {
        State::Going(rows) => Ok(drained(alloc, rows)?),
        State::Waiting(_, _) => unreachable!(),
    }
}

// Makes its rows.
fn begin<R: Threads + Sync, G: Gate + Sync>(
    crew: &Crew<'_, R, G>,
    alloc: Global,
    state: &mut State,
) -> Result<(), EvalFault>
    requires { CanGo state.old }
    ensures { MatchResult result (λ _. IsGoing state.new × Same state.old state.new) (λ f. f ≡ fault.Overflow → state_fits state.old ≡ false) }
{
    if let State::Waiting(plan, tables) = state {
        let plan = mem::replace(&mut **plan, Physical::Scan(0, 0));
        let rows = all_rows(crew, alloc, plan, tables)?;
        *state = State::Going(rows.into_iter());
    }
    Ok(())
}

// All rows of a plan over tables.
fn all_rows<R: Threads + Sync, G: Gate + Sync>(
    crew: &Crew<'_, R, G>,
    alloc: Global,
    plan: Physical,
    tables: &[Vec<PRow>],
) -> Result<Vec<PRow>, EvalFault>
    requires plan { IsPhysicalFor (map rows_of tables.now) (physical_tree plan) }
    ensures rows { IfOk result (λ v. rows_of v ≡ physical_rows (physical_tree plan) (map rows_of tables.now)) }
    ensures fits { IfOk result (λ _. fit (physical_numbers (physical_tree plan) (map rows_of tables.now)) ≡ true) }
    ensures overflow { IfErr result (λ f. f ≡ fault.Overflow → fit (physical_numbers (physical_tree plan) (map rows_of tables.now)) ≡ false) }
{
    let (sources, plan) = match beside(sources_of(alloc, tables), plan) {
        Ok(both) => both,
        Err(NoMemory) => return Err(EvalFault::NoMemory),
    };
    let coded = match run_coded(crew, alloc, plan, &sources) {
        Ok(coded) => coded,
        Err(fault) => return Err(fault),
    };
    match coded.rows(alloc) {
        Ok(rows) => Ok(rows),
        Err(NoMemory) => Err(EvalFault::NoMemory),
    }
}

// Each table as a source.
fn sources_of<'a>(alloc: Global, tables: &'a [Vec<PRow>]) -> Result<Vec<Source<'a>>, NoMemory>
    ensures { IfOk result (λ v. v.items ≡ map rows_of tables.now) }
{
    let mut sources = Vec::with_capacity(alloc, tables.len())?;
    for table in tables {
        sources.push(Source::of_rows(table))?;
    }
    Ok(sources)
}
