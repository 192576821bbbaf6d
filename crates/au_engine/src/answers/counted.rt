//! The run of a tree's one plan over rows with counts: the number of the copies of each row, or how many of these are certain and
//! how many guessed.
ghost use Rattle.std.specs.Prelude.{IfOk};
ghost use Rattle.au_algebra.specs.Trees.{tree};
ghost use Rattle.au_algebra.specs.Typing.{IsTyped};
ghost use Rattle.au_physical.specs.Physicals.{physical_tree};
ghost use Rattle.au_plain.specs.Plans.{plan_tree};
ghost use Rattle.au_exec.specs.HeldRows.{rows_of};
ghost use Rattle.au_program.specs.CountedPlans.{GivesCounted, HasCounts};
ghost use Rattle.au_program.specs.Inputs.{StandsReady};
ghost use Rattle.au_engine.specs.CountedInputs.{AreCounted, FindsCounted};
ghost use Rattle.au_engine.specs.Exchange.{value_kinds as value_kinds_of};

use crate::answers::tables::schemas;
use crate::running::held::Held;
use crate::running::input::Input;
use crate::running::reads::read_inputs;
use crate::running::running::run_over;
use au_algebra::Query;
use au_blocks::Table;
use au_expr::EvalFault;
use au_par::Gate;
use au_physical::Physical;
use au_plain::{PRow, Plan};
use au_plan::improve;
use au_program::{Counted, counted_plan};
use au_value::{NoMemory, Word, beside};
use au_vector::Crew;
use std::alloc::Global;
use std::thread::Threads;

/// The rows of a tree over inputs of rows with so many counts, one for each table of the tree, in some order. The tree is
/// typed for the tables. Where there is not one count alone, it is positive.
///
/// `Overflow` comes where a number of the plan leaves 128 bits, which may be none of the tree's.
pub(crate) fn counted_rows<R: Threads + Sync, G: Gate + Sync>(
    crew: &Crew<'_, R, G>,
    alloc: Global,
    query: &Query,
    tables: &[(Word, Table)],
    counts: usize,
    inputs: Vec<Input<'_>>,
) -> Result<Vec<PRow>, EvalFault>
    requires typed { IsTyped (value_kinds_of tables.now) (tree query.now) }
    requires counts { HasCounts counts (tree query.now) }
    requires inputs { AreCounted counts (value_kinds_of tables.now) inputs.items }
    ensures { IfOk result (λ found. FindsCounted counts (value_kinds_of tables.now) (tree query.now) inputs.entry.items (rows_of found)) }
{
    let counted = match table_plan(alloc, query, tables, counts) {
        Ok(counted) => counted,
        Err(NoMemory) => return Err(EvalFault::NoMemory),
    };
    let (plan, held) = match plan_with_rows(crew, alloc, counted.plan, inputs) {
        Ok(both) => both,
        Err(NoMemory) => return Err(EvalFault::NoMemory),
    };
    let coded = match run_over(crew, alloc, plan, &held) {
        Ok(coded) => coded,
        Err(fault) => return Err(fault),
    };
    match coded.rows(alloc) {
        Ok(rows) => Ok(rows),
        Err(NoMemory) => Err(EvalFault::NoMemory),
    }
}

// The plan of a tree over rows of tables with so many counts.
fn table_plan(
    alloc: Global,
    query: &Query,
    tables: &[(Word, Table)],
    counts: usize,
) -> Result<Counted, NoMemory>
    requires { IsTyped (value_kinds_of tables.now) (tree query.now) }
    ensures { IfOk result (λ p. GivesCounted counts (value_kinds_of tables.now) (tree query.now) (plan_tree p.plan) p.columns) }
{
    let schemas = schemas(alloc, tables)?;
    let counted = counted_plan(alloc, query, schemas.as_slice(), counts)?;
    Ok(counted)
}

// The physical plan of a plan, and what it reads of its inputs.
fn plan_with_rows<'a, R: Threads + Sync, G: Gate + Sync>(
    crew: &Crew<'_, R, G>,
    alloc: Global,
    plan: Plan,
    inputs: Vec<Input<'a>>,
) -> Result<(Physical, Vec<Held<'a>>), NoMemory>
    ensures { IfOk result (λ v. StandsReady inputs.entry.items v.1.items (plan_tree plan) (physical_tree v.0)) }
{
    let mut physical = improve(alloc, plan)?;
    let held = read_inputs(crew, alloc, &mut physical, inputs);
    let (held, physical) = beside(held, physical)?;
    Ok((physical, held))
}
