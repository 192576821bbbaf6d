//! The program of a tree: all plans by which its answer is found, made of the tree, the tables' schemas and what is asked alone.
ghost use Rattle.std.specs.Prelude.{◌≡◌, IfOk};
ghost use Rattle.au_algebra.specs.Trees.{tree};
ghost use Rattle.au_algebra.specs.Typing.{IsTyped};
ghost use Rattle.au_plain.specs.Plans.{plan_tree};
ghost use Rattle.au_typing.specs.Queries.{relations, table_kinds};
ghost use Rattle.au_program.specs.Programs.{IsProgram};
ghost use Rattle.au_program.specs.Rules.{IsCompression};
ghost use Rattle.au_program.specs.Stages.{Shows};

use crate::planning::planned;
use crate::readiness::made_ready;
use crate::rules::Rules;
use crate::sources::Sources;
use crate::steps::{Planned, combined_of};
use au_algebra::Query;
use au_physical::Physical;
use au_typing::Schema;
use au_value::{NoMemory, beside};
use std::alloc::Global;

/// By which plans a tree is answered: one plan, over sources that are tables and what the plans of earlier steps find.
#[derive(Drop)]
pub struct Program {
    /// It gives encoded rows.
    pub plan: Physical,
    /// What it reads, in the order of its tables.
    pub sources: Sources,
    /// How many columns its rows have when they are decoded.
    pub columns: usize,
}

/// The program of a tree that is typed for tables of these schemas, by some rules; of its combined rows where that is asked for.
///
/// `NoMemory` comes also where a row cannot have so many columns.
pub fn program_of(
    alloc: Global,
    query: &Query,
    schemas: &[Schema],
    rules: Rules,
    combined: bool,
) -> Result<Program, NoMemory>
    requires typed { IsTyped (table_kinds (relations schemas.now)) (tree query.now) }
    requires compression { IsCompression rules.compress }
    ensures { IfOk result (λ p. IsProgram rules combined (table_kinds (relations schemas.now)) (tree query.now) p) }
{
    let mut own = Sources::Nothing;
    let first = planned(alloc, query, schemas, rules, &mut own);
    let (of, own) = beside(first, own)?;
    let made = combined_plan(alloc, of, combined);
    let (shown, own) = beside(made, own)?;
    let columns = shown.layout.columns;
    let ready = made_ready(alloc, shown.plan, own)?;
    Ok(Program {
        plan: ready.plan,
        sources: ready.sources,
        columns,
    })
}

// The plan of what is shown: combined rows where that is asked for.
fn combined_plan(alloc: Global, of: Planned, combined: bool) -> Result<Planned, NoMemory>
    ensures columns { IfOk result (λ p. p.layout.columns ≡ of.layout.columns) }
    ensures plan { IfOk result (λ p. Shows combined of.layout.columns (plan_tree of.plan) (plan_tree p.plan)) }
{
    if combined {
        combined_of(alloc, of)
    } else {
        Ok(of)
    }
}
