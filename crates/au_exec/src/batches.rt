//! Plans that are run batch by batch.
ghost use Rattle.std.specs.Prelude.{◌≡◌, ◌≤◌, ◌++◌, false, true, IfErr, IfOk, IfSome, map};
ghost use Rattle.au_expr.specs.Figures.{fit};
ghost use Rattle.au_expr.specs.declared.fault.EvalFault.TheVariants as fault;
ghost use Rattle.au_physical.specs.PhysicalKinds.{IsPhysicalFor};
ghost use Rattle.au_physical.specs.PhysicalMeaning.{physical_rows};
ghost use Rattle.au_physical.specs.PhysicalNumbers.{physical_numbers};
ghost use Rattle.au_physical.specs.Physicals.{physical_tree};
ghost use Rattle.au_exec.specs.Advances.{Advances};
ghost use Rattle.au_exec.specs.HeldRows.{rows_of};

use crate::advance::{advance, rest};
use crate::state::State;
use au_expr::EvalFault;
use au_par::Gate;
use au_physical::Physical;
use au_plain::PRow;
use au_value::NoMemory;
use au_vector::Crew;
use std::alloc::Global;
use std::marker::Model;
use std::snapshot::Snapshot;
use std::thread::Threads;

/// Rows that a run gives at once: between 1 and 256.
pub type Batch = Vec<PRow>;

/// A plan that is being run over tables. Its rows are made when the first of them are asked for.
#[derive(Drop)]
pub struct Run<G: Gate> {
    alloc: Global,
    workers: usize,
    gate: G,
    state: State,
    refusal: Option<EvalFault>,
    plan: Snapshot<Physical>,
    tables: Snapshot<Vec<Vec<PRow>>>,
}

impl<G: Gate> Model for Run<G> {
    ghost use Rattle.au_exec.specs.RunViews.{RunView};

    ghost Value = { RunView };

    ghost use Rattle.std.specs.Prelude.{◌≤◌, map};
    ghost use Rattle.au_expr.specs.Figures.{fit};
    ghost use Rattle.au_physical.specs.PhysicalNumbers.{physical_numbers};
    ghost use Rattle.au_physical.specs.Physicals.{physical_tree};
    ghost use Rattle.au_exec.specs.HeldRows.{rows_of};
    ghost use Rattle.au_exec.specs.Runs.{state_rows, IsRun};

    ghost view = { λ r. record { rows = state_rows r.state; fits = fit (physical_numbers (physical_tree r.plan.value) (map rows_of r.tables.value.items)); refusal = r.refusal } };

    ghost invariant = { λ r. ((1 ≤ r.workers) × (r.workers ≤ 64)) × IsRun r.state r.refusal (fit (physical_numbers (physical_tree r.plan.value) (map rows_of r.tables.value.items))) };
}

impl<G: Gate + Sync> Run<G> {
    /// A run of a plan that is typed for the tables, before its first batch, by so many workers: 1 to 64. The gate is told
    /// of the pieces in which several of them join or group rows, as they begin.
    pub fn start(
        alloc: Global,
        plan: Physical,
        tables: Vec<Vec<PRow>>,
        workers: usize,
        gate: G,
    ) -> Result<Run<G>, NoMemory>
        requires workers { (1 ≤ workers) × (workers ≤ 64) }
        requires plan { IsPhysicalFor (map rows_of tables.items) (physical_tree plan) }
        ensures rows { IfOk result (λ run. run.rows ≡ physical_rows (physical_tree plan) (map rows_of tables.items)) }
        ensures fits { IfOk result (λ run. run.fits ≡ fit (physical_numbers (physical_tree plan) (map rows_of tables.items))) }
        ensures fresh { IfOk result (λ run. run.refusal ≡ None) }
    {
        let given = Snapshot::of(&plan);
        let plan = boxed_plan(alloc, plan)?;
        Ok(Run {
            alloc,
            workers,
            gate,
            plan: given,
            tables: Snapshot::of(&tables),
            state: State::Waiting(plan, tables),
            refusal: None,
        })
    }

    /// The next batch, or nothing where no row is left. A batch has a row, and at most 256.
    ///
    /// `Overflow` comes only where a number of the plan leaves -2^127 to 2^127-1. After a refusal each later call gives the
    /// same one.
    pub fn next_batch<R: Threads + Sync>(&mut self, rt: &R) -> Result<Option<Batch>, EvalFault>
        ensures given { Advances self.old self.new result }
        ensures fits { self.new.fits ≡ self.old.fits }
        ensures overflow { IfErr result (λ f. f ≡ fault.Overflow → self.new.fits ≡ false) }
    {
        if let Some(fault) = self.refusal {
            return Err(fault);
        }
        let crew = Crew::new(rt, self.workers, self.gate);
        match advance(&crew, self.alloc, &mut self.state) {
            Ok(batch) => Ok(batch),
            Err(fault) => {
                self.refusal = Some(fault);
                Err(fault)
            }
        }
    }

    /// All rows that are left.
    ///
    /// A refusal that was given before is given again, and `Overflow` comes only where a number of the plan leaves -2^127
    /// to 2^127-1.
    pub fn all<R: Threads + Sync>(self, rt: &R) -> Result<Vec<PRow>, EvalFault>
        ensures rows { IfOk result (λ held. rows_of held ≡ self.rows) }
        ensures fits { IfOk result (λ _. self.fits ≡ true) }
        ensures again { IfSome self.refusal (λ f. result ≡ Err f) }
        ensures overflow { IfErr result (λ f. f ≡ fault.Overflow → self.fits ≡ false) }
    {
        let Run {
            alloc,
            workers,
            gate,
            mut state,
            refusal,
            plan: _,
            tables: _,
        } = self;
        match refusal {
            Some(fault) => Err(fault),
            None => rest(&Crew::new(rt, workers, gate), alloc, &mut state),
        }
    }
}

// The plan in a box.
fn boxed_plan(alloc: Global, plan: Physical) -> Result<Box<Physical>, NoMemory>
    ensures { IfOk result (λ b. b.value ≡ plan) }
{
    Ok(Box::new(alloc, plan)?)
}
