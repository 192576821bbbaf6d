//! Physical plans that are run over their inputs.
ghost use Rattle.std.specs.Prelude.{◌≡◌, IfOk, OnOk, false, true};
ghost use Rattle.au_expr.specs.Figures.{fit};
ghost use Rattle.au_physical.specs.PhysicalKinds.{IsPhysicalFor};
ghost use Rattle.au_physical.specs.PhysicalMeaning.{physical_rows};
ghost use Rattle.au_physical.specs.PhysicalNumbers.{physical_numbers};
ghost use Rattle.au_physical.specs.Physicals.{physical_tree};
ghost use Rattle.au_plain.specs.PlanKinds.{FitRows, FitTables};
ghost use Rattle.au_program.specs.Inputs.{ReadsAll};

use crate::running::held::{Held, sources_of};
use crate::running::input::Input;
use crate::running::reads::read_inputs;
use au_exec::{Coded, run_coded};
use au_expr::EvalFault;
use au_par::Gate;
use au_physical::Physical;
use au_value::{NoMemory, beside};
use au_vector::Crew;
use std::alloc::Global;
use std::thread::Threads;

// A plan, and what it reads of its inputs.
fn plan_with_rows<'a, R: Threads + Sync, G: Gate + Sync>(
    crew: &Crew<'_, R, G>,
    alloc: Global,
    plan: Physical,
    inputs: Vec<Input<'a>>,
) -> Result<(Physical, Vec<Held<'a>>), NoMemory>
    ensures reads { IfOk result (λ v. ReadsAll inputs.entry.items v.1.items (physical_tree plan) (physical_tree v.0)) }
    ensures fit { OnOk result (FitTables inputs.entry.items) }
{
    let mut plan = plan;
    let held = read_inputs(crew, alloc, &mut plan, inputs);
    let (held, plan) = beside(held, plan)?;
    Ok((plan, held))
}

/// The rows of a plan over what is held.
///
/// `Overflow` comes only where a number of the plan leaves 128 bits.
pub(crate) fn run_over<R: Threads + Sync, G: Gate + Sync>(
    crew: &Crew<'_, R, G>,
    alloc: Global,
    plan: Physical,
    held: &[Held<'_>],
) -> Result<Coded, EvalFault>
    requires plan { IsPhysicalFor held.now (physical_tree plan) }
    ensures rows { IfOk result (λ c. c ≡ physical_rows (physical_tree plan) held.now) }
    ensures fits { IfOk result (λ _. fit (physical_numbers (physical_tree plan) held.now) ≡ true) }
    ensures overflow { result ≡ Err EvalFault.Overflow → fit (physical_numbers (physical_tree plan) held.now) ≡ false }
{
    let (sources, plan) = match beside(sources_of(alloc, held), plan) {
        Ok(both) => both,
        Err(NoMemory) => return Err(EvalFault::NoMemory),
    };
    match run_coded(crew, alloc, plan, &sources) {
        Ok(coded) => Ok(coded),
        Err(fault) => Err(fault),
    }
}

/// The rows of a plan over its inputs, which are let go. They stay coded.
///
/// `Overflow` comes only where a number of the plan leaves 128 bits.
pub(crate) fn run<R: Threads + Sync, G: Gate + Sync>(
    crew: &Crew<'_, R, G>,
    alloc: Global,
    plan: Physical,
    inputs: Vec<Input<'_>>,
) -> Result<Coded, EvalFault>
    requires starts { IsPhysicalFor inputs.items (physical_tree plan) }
    ensures rows { IfOk result (λ c. c ≡ physical_rows (physical_tree plan) inputs.entry.items) }
    ensures fit { IfOk result (λ c. FitRows c) }
    ensures overflow { result ≡ Err EvalFault.Overflow → fit (physical_numbers (physical_tree plan) inputs.entry.items) ≡ false }
{
    let (plan, held) = match plan_with_rows(crew, alloc, plan, inputs) {
        Ok(both) => both,
        Err(NoMemory) => return Err(EvalFault::NoMemory),
    };
    run_over(crew, alloc, plan, &held)
}
