//! The rows of an answer by its program.
ghost use Rattle.std.specs.Prelude.{◌≡◌, ℕ, IfOk, false, map};
ghost use Rattle.au_algebra.specs.Bounded.{normal as normal_of};
ghost use Rattle.au_algebra.specs.Trees.{tree};
ghost use Rattle.au_algebra.specs.Typing.{IsTyped};
ghost use Rattle.au_blocks.specs.Tables.{column_kinds};
ghost use Rattle.au_encode.specs.Encode.{AreEncoded, decode};
ghost use Rattle.au_program.specs.Programs.{IsProgram};
ghost use Rattle.au_program.specs.Rules.{IsCompression};
ghost use Rattle.au_engine.specs.Answers.{blocks_of, tree_asked, tree_asked_fits};
ghost use Rattle.au_engine.specs.CodedAnswers.{Encodes};
ghost use Rattle.au_engine.specs.Options.{rules_of};

use crate::answers::tables::schemas;
use crate::options::Options;
use crate::running::finding::rows_found;
use au_algebra::Query;
use au_blocks::Table;
use au_exec::Coded;
use au_expr::EvalFault;
use au_par::Gate;
use au_program::{Program, program_of};
use au_value::{NoMemory, Word};
use au_vector::Crew;
use std::alloc::Global;
use std::thread::Threads;

// The program of a tree over tables.
fn table_program(
    alloc: Global,
    query: &Query,
    tables: &[(Word, Table)],
    options: Options,
) -> Result<Program, NoMemory>
    requires typed { IsTyped (map column_kinds (blocks_of tables.now)) (tree query.now) }
    requires compression { IsCompression options.compress }
    ensures { IfOk result (λ p. IsProgram (rules_of options) options.combine (map column_kinds (blocks_of tables.now)) (tree query.now) p) }
{
    let schemas = schemas(alloc, tables)?;
    let program = program_of(
        alloc,
        query,
        schemas.as_slice(),
        options.rules(),
        options.combine,
    )?;
    Ok(program)
}

// What the program of a tree gives over the tables, in some order.
fn evaluated<R: Threads + Sync, G: Gate + Sync>(
    crew: &Crew<'_, R, G>,
    alloc: Global,
    query: &Query,
    program: &Program,
    tables: &[(Word, Table)],
    options: Options,
) -> Result<Coded, EvalFault>
    requires typed { IsTyped (map column_kinds (blocks_of tables.now)) (tree query.now) }
    requires program { IsProgram (rules_of options) options.combine (map column_kinds (blocks_of tables.now)) (tree query.now) program.now }
    ensures encoded { IfOk result (λ c. AreEncoded program.now.columns c) }
    ensures rows { IfOk result (λ c. normal_of (decode program.now.columns c) ≡ tree_asked (rules_of options) options.combine tables.now (tree query.now)) }
    ensures overflow { result ≡ Err EvalFault.Overflow → tree_asked_fits (rules_of options) options.combine tables.now (tree query.now) ≡ false }
{
    let _ = query;
    rows_found(crew, alloc, &program.sources, &program.plan, tables)
}

/// The rows that are shown of a tree that is typed for the tables, by its program: this is made first, of the tree and of the
/// tables' columns alone, and then run. The rows stay coded.
///
/// `Overflow` comes only where a number of the answer leaves 128 bits.
pub(crate) fn asked_by_plan<R: Threads + Sync, G: Gate + Sync>(
    crew: &Crew<'_, R, G>,
    alloc: Global,
    query: &Query,
    tables: &[(Word, Table)],
    options: Options,
) -> Result<Coded, EvalFault>
    requires typed { IsTyped (map column_kinds (blocks_of tables.now)) (tree query.now) }
    requires compression { IsCompression options.compress }
    ensures rows { IfOk result (λ c. (columns : ℕ) × Encodes columns c (tree_asked (rules_of options) options.combine tables.now (tree query.now))) }
    ensures overflow { result ≡ Err EvalFault.Overflow → tree_asked_fits (rules_of options) options.combine tables.now (tree query.now) ≡ false }
{
    let program = match table_program(alloc, query, tables, options) {
        Ok(program) => program,
        Err(NoMemory) => return Err(EvalFault::NoMemory),
    };
    let rows = match evaluated(crew, alloc, query, &program, tables, options) {
        Ok(rows) => rows,
        Err(fault) => return Err(fault),
    };
    match rows.normal(alloc, program.columns) {
        Ok(rows) => Ok(rows),
        Err(fault) => Err(fault),
    }
}
