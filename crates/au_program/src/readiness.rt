//! Plans that are made ready to run over their sources: of these just the columns are read which the plan keeps.
ghost use Rattle.std.specs.Prelude.{◌≡◌, IfOk, OnOk};
ghost use Rattle.au_algebra.specs.Ordinary.{Rows};
ghost use Rattle.au_physical.specs.Physicals.{physical_tree};
ghost use Rattle.au_plain.specs.Plans.{plan_tree};
ghost use Rattle.au_program.specs.Inputs.{Reads};
ghost use Rattle.au_program.specs.KeptRows.{kept_rows};
ghost use Rattle.au_program.specs.Programs.{IsReady, ReadsLess};
ghost use Rattle.au_program.specs.Sources.{count};

use crate::placing::more;
use crate::sources::Sources;
use au_physical::Physical;
use au_plain::Plan;
use au_plan::{improve, narrow_scans};
use au_value::{NoMemory, beside};
use std::alloc::Global;

/// A plan that is ready to run over these sources.
#[derive(Drop)]
pub(crate) struct Ready {
    pub(crate) plan: Physical,
    pub(crate) sources: Sources,
}

/// The physical plan that stands for a plan, over the sources of which it reads just what it keeps.
pub(crate) fn made_ready(alloc: Global, plan: Plan, sources: Sources) -> Result<Ready, NoMemory>
    ensures { IfOk result (λ r. IsReady sources r.sources (plan_tree plan) (physical_tree r.plan)) }
{
    let made = beside(improve(alloc, plan), sources)?;
    let (plan, sources) = made;
    let ready = narrowed(alloc, plan, sources)?;
    Ok(ready)
}

// The same of a physical plan.
fn narrowed(alloc: Global, plan: Physical, sources: Sources) -> Result<Ready, NoMemory>
    ensures { IfOk result (λ r. ReadsLess sources r.sources (physical_tree plan) (physical_tree r.plan)) }
{
    let mut plan = plan;
    let mut sources = sources;
    narrow(alloc, &mut plan, &mut sources)?;
    Ok(Ready { plan, sources })
}

// Has the plan read just what it keeps of each table, and gives the number of the sources.
fn narrow(alloc: Global, plan: &mut Physical, sources: &mut Sources) -> Result<usize, NoMemory>
    ensures count { IfOk result (λ n. n ≡ count sources.new) }
    ensures reads { OnOk result (ReadsLess sources.old sources.new (physical_tree plan.old) (physical_tree plan.new)) }
{
    match sources {
        Sources::Nothing => Ok(0),
        Sources::Table(before, _, kept) => {
            let place = narrow(alloc, plan, before)?;
            keep(alloc, plan, place, kept)?;
            more(place, 1)
        }
        Sources::Step(before, _, _) => {
            let place = narrow(alloc, plan, before)?;
            more(place, 1)
        }
        Sources::Pairs(before, _, _, _) => {
            let place = narrow(alloc, plan, before)?;
            more(place, 4)
        }
    }
}

// The same of the table of this number, where it is still read whole.
fn keep(
    alloc: Global,
    plan: &mut Physical,
    number: usize,
    kept: &mut Option<Vec<usize>>,
) -> Result<(), NoMemory>
    ensures { OnOk result ((whole : Rows) → Reads number (kept_rows kept.old whole) (kept_rows kept.new whole) (physical_tree plan.old) (physical_tree plan.new)) }
{
    if kept.is_some() {
        return Ok(());
    }
    *kept = narrow_scans(alloc, plan, number)?;
    Ok(())
}
