//! Plans that are run over the guess rows of tables.
ghost use Rattle.std.specs.Prelude.{◌≡◌, Some, Err, List, IfOk, IfErr, OnOk, false};
ghost use Rattle.std.specs.List.{AllByRecursion};
ghost use Rattle.au_value.specs.declared.kinds.Kind.{Kind};
ghost use Rattle.au_blocks.specs.Tables.{IsBlockTable};
ghost use Rattle.au_plain.specs.PlanKinds.{FitTables, HaveKinds, IsTypedPlan};
ghost use Rattle.au_plain.specs.Plans.{plan_tree};
ghost use Rattle.au_physical.specs.Physicals.{physical_tree};
ghost use Rattle.au_plan.specs.Implements.{Implements};
ghost use Rattle.au_print.specs.GuessTexts.{in_order};
ghost use Rattle.au_exec.specs.HeldRows.{rows_of};
ghost use Rattle.au_engine.specs.Answers.{blocks_of, guess_tables as guess_tables_of};
ghost use Rattle.au_engine.specs.Exchange.{PlainCause, plain_answer as plain_answer_of, plain_fits, plain_kinds, plain_text as plain_text_of, value_kinds as value_kinds_of};

use crate::answers::guess_rows::{guess_tables, value_kinds};
use crate::answers::ordered::ordered;
use crate::running::held::Held;
use crate::running::running::run_over;
use au_blocks::Table;
use au_exec::Coded;
use au_expr::EvalFault;
use au_par::Gate;
use au_physical::Physical;
use au_plain::{PRow, Plan};
use au_plan::improve;
use au_sqltext::{PlanFault, check_plan, plain_text};
use au_value::{Kind, NoMemory, Word, beside};
use au_vector::Crew;
use std::alloc::Global;
use std::thread::Threads;
use thiserror::Error;

/// Why the rows of a plan aren't given.
#[derive(Clone, Copy, Debug, PartialEq, Eq, Error)]
pub enum PlainFault {
    /// The plan is not typed over the tables.
    #[error("the plan does not fit the kinds of the tables")]
    Untyped,

    /// A number of the plan leaves 128 bits.
    #[error("a number of the plan leaves 128 bits")]
    Overflow,

    /// Memory was refused.
    #[error("out of memory")]
    NoMemory,
}

/// The rows of a plan over the guess rows of tables as CSV, ordered by their values from the first column on. The i-th
/// table is the plan's table i. A row stands there as often as the plan gives it.
///
/// `Untyped` comes exactly where the plan isn't typed over the tables' kinds, and `Overflow` only where a number of a typed
/// plan leaves 128 bits. Each guess row is made as often as it is guessed: `fits_plain` says whether they are many.
pub fn plain_answer<R: Threads + Sync, G: Gate + Sync>(
    rt: &R,
    alloc: Global,
    plan: Plan,
    tables: &[(Word, Table)],
    gate: G,
) -> Result<Vec<u8>, PlainFault>
    ensures typed { OnOk result (IsTypedPlan (value_kinds_of tables.now) (plan_tree plan)) }
    ensures text { IfOk result (λ text. text.items ≡ plain_text_of tables.now (plan_tree plan)) }
    ensures refused { IfErr result (PlainCause tables.now (plan_tree plan)) }
{
    let (kinds, plan) = match beside(checked(alloc, &plan, tables), plan) {
        Ok(both) => both,
        Err(fault) => return Err(fault),
    };
    let crew = Crew::new(rt, 1, gate);
    let rows = match plain_rows(&crew, alloc, plan, tables) {
        Ok(rows) => rows,
        Err(EvalFault::Overflow) => return Err(PlainFault::Overflow),
        Err(EvalFault::NoMemory) => return Err(PlainFault::NoMemory),
    };
    match plain_text(alloc, kinds.as_slice(), rows.as_slice()) {
        Ok(text) => Ok(text),
        Err(NoMemory) => Err(PlainFault::NoMemory),
    }
}

// The kinds of a plan's rows over tables.
fn checked(alloc: Global, plan: &Plan, tables: &[(Word, Table)]) -> Result<Vec<Kind>, PlainFault>
    ensures kinds { IfOk result (λ ks. plain_kinds tables.now (plan_tree plan.now) ≡ Some ks.items) }
    ensures refused { IfErr result (PlainCause tables.now (plan_tree plan.now)) }
{
    let kinds = match value_kinds(alloc, tables) {
        Ok(kinds) => kinds,
        Err(NoMemory) => return Err(PlainFault::NoMemory),
    };
    match check_plan(alloc, plan, kinds.as_slice()) {
        Ok(kinds) => Ok(kinds),
        Err(PlanFault::Untyped) => Err(PlainFault::Untyped),
        Err(PlanFault::NoMemory) => Err(PlainFault::NoMemory),
        Err(PlanFault::Text | PlanFault::Deep) => unreachable!(),
    }
}

// The rows of a typed plan over the tables' guess rows, in order.
fn plain_rows<R: Threads + Sync, G: Gate + Sync>(
    crew: &Crew<'_, R, G>,
    alloc: Global,
    plan: Plan,
    tables: &[(Word, Table)],
) -> Result<Vec<PRow>, EvalFault>
    requires typed { (ks : List Kind) × (plain_kinds tables.now (plan_tree plan) ≡ Some ks) }
    ensures rows { IfOk result (λ rows. rows_of rows ≡ plain_answer_of tables.now (plan_tree plan)) }
    ensures kinds { IfOk result (λ rows. (ks : List Kind) → plain_kinds tables.now (plan_tree plan) ≡ Some ks → HaveKinds ks (rows_of rows)) }
    ensures overflow { result ≡ Err EvalFault.Overflow → plain_fits tables.now (plan_tree plan) ≡ false }
{
    let (plan, held) = match plan_with_guess_rows(alloc, plan, tables) {
        Ok(both) => both,
        Err(NoMemory) => return Err(EvalFault::NoMemory),
    };
    let coded = match run_over(crew, alloc, plan, &held) {
        Ok(coded) => coded,
        Err(fault) => return Err(fault),
    };
    match rows_in_order(alloc, &coded) {
        Ok(rows) => Ok(rows),
        Err(NoMemory) => Err(EvalFault::NoMemory),
    }
}

// The rows, ordered by their values.
fn rows_in_order(alloc: Global, coded: &Coded) -> Result<Vec<PRow>, NoMemory>
    ensures { IfOk result (λ rows. rows_of rows ≡ in_order coded.now) }
{
    ordered(coded.rows(alloc)?)
}

// The physical plan of a plan, and the tables' guess rows.
fn plan_with_guess_rows<'a>(
    alloc: Global,
    plan: Plan,
    tables: &'a [(Word, Table)],
) -> Result<(Physical, Vec<Held<'a>>), NoMemory>
    ensures stands { IfOk result (λ r. Implements (plan_tree plan) (physical_tree r.0)) }
    ensures rows { IfOk result (λ r. r.1.items ≡ guess_tables_of tables.now) }
    ensures fit { IfOk result (λ r. FitTables r.1.items) }
    ensures tables { OnOk result (AllByRecursion IsBlockTable (blocks_of tables.now)) }
{
    let (held, plan) = beside(guess_tables(alloc, tables), plan)?;
    beside(improve(alloc, plan), held)
}
