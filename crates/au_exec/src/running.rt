//! Plans that are run over the codes of their sources.
ghost use Rattle.std.specs.Prelude.{◌≡◌, List};
ghost use Rattle.std.specs.List.{AllZip};
ghost use Rattle.au_codes.specs.CodedPlans.{coded_tree};
ghost use Rattle.au_codes.specs.Codes.{coded_tables};
ghost use Rattle.au_codes.specs.TextCodes.{text_code};
ghost use Rattle.au_physical.specs.Physicals.{physical_tree};
ghost use Rattle.au_plain.specs.PlanKinds.{HaveKinds};
ghost use Rattle.au_value.specs.declared.kinds.Kind.{Kind as KindOf};
ghost use Rattle.au_vector.specs.Runs.{Runs};
ghost use Rattle.au_vector.specs.Widths.{AreWide};
ghost use Rattle.au_exec.specs.Ready.{GivesCodes, IsReady};

use crate::coded_sources::coded_sources;
use crate::holding::first_of;
use crate::source::Source;
use crate::theorems::ready_plans_stand;
use au_codes::{Codebook, code_plan};
use au_columns::Batch;
use au_expr::EvalFault;
use au_par::Gate;
use au_physical::Physical;
use au_value::NoMemory;
use au_vector::{Crew, run_plan, typed_plans_are_wide};
use std::alloc::Global;
use std::thread::Threads;

/// The codes of a plan's rows over the sources, for which the book is ready.
///
/// `Overflow` comes only where a number of the plan leaves 128 bits.
pub(crate) fn run_codes<R: Threads + Sync, G: Gate + Sync>(
    crew: &Crew<'_, R, G>,
    alloc: Global,
    book: &Codebook,
    plan: Physical,
    sources: &[Source<'_>],
) -> Result<Batch, EvalFault>
    requires ready { (kinds : List KindOf) × IsReady book.now kinds (physical_tree plan) sources.now }
    ensures { GivesCodes book.now (physical_tree plan) sources.now result }
{
    ready_plans_stand();
    typed_plans_are_wide();
    let coded = coded_plan(book, plan);
    let made = run_tables(crew, alloc, book, &coded, sources);
    first_of(made, coded)
}

// The plan over codes.
fn coded_plan(book: &Codebook, plan: Physical) -> Physical
    ensures { physical_tree result ≡ coded_tree (text_code book.now) (physical_tree plan) }
{
    let mut plan = plan;
    code_plan(book, &mut plan);
    plan
}

// The rows of a plan over codes, over the codes of the sources.
fn run_tables<R: Threads + Sync, G: Gate + Sync>(
    crew: &Crew<'_, R, G>,
    alloc: Global,
    book: &Codebook,
    plan: &Physical,
    sources: &[Source<'_>],
) -> Result<Batch, EvalFault>
    requires kinds { (tk : List (List KindOf)) × AllZip HaveKinds tk sources.now }
    requires wide { AreWide (physical_tree plan.now) (coded_tables (text_code book.now) sources.now) }
    ensures { Runs (physical_tree plan.now) (coded_tables (text_code book.now) sources.now) result }
{
    match coded_sources(alloc, book, sources) {
        Ok(tables) => match run_plan(crew, alloc, plan, &tables) {
            Ok(batch) => Ok(batch),
            Err(fault) => Err(fault),
        },
        Err(NoMemory) => Err(EvalFault::NoMemory),
    }
}
