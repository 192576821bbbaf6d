//! The answer of a statement over the guess world of block tables.
ghost use Rattle.std.specs.Prelude.{◌≡◌, [], false, Some, Err, IfOk, IfErr, OnOk, length, map};
ghost use Rattle.std.specs.List.{AllByRecursion};
ghost use Rattle.au_algebra.specs.Counted.{StandsFor};
ghost use Rattle.au_algebra.specs.Ordinary.{answer};
ghost use Rattle.au_algebra.specs.Trees.{tree};
ghost use Rattle.au_value.specs.Order.{data_kind};
ghost use Rattle.au_algebra.specs.Typing.{kinds_of};
ghost use Rattle.au_blocks.specs.Tables.{IsBlockTable, column_kinds};
ghost use Rattle.au_parse.specs.Views.{statement_tree};
ghost use Rattle.au_parse.specs.Whole.{WholeQuery};
ghost use Rattle.au_engine.specs.Answers.{AnswerCause, answer_kinds, answer_names, blocks_of, guess_answer as guess_answer_of, guess_answer_fits, guess_tables, statement_defects, tree_guess_fits};
ghost use Rattle.au_engine.specs.CountedTables.{HaveColumns, counted_guesses};

use crate::answers::counted::counted_rows;
use crate::answers::tables::guessed_tables;
use crate::faults::EngineFault;
use crate::running::input::Input;
use crate::typing::{names_and_kinds, resolved};
use au_algebra::Rel;
use au_annot::Count;
use au_blocks::Table;
use au_expr::EvalFault;
use au_kfull::ordinary;
use au_par::Gate;
use au_parse::Statement;
use au_rwcounted::read_counted;
use au_typing::Typed;
use au_value::{Kind, NoMemory, Value, Word, beside};
use au_vector::Crew;
use std::alloc::Global;
use std::thread::Threads;

/// The answer over the guess world: a name and a kind for each column, and rows that have one value per column, with
/// counts. Equal rows stand for one row.
#[derive(Drop)]
pub struct GuessAnswer {
    pub names: Vec<Word>,
    pub kinds: Vec<Kind>,
    pub rows: Rel<Value, Count>,
}

/// The ordinary answer of a statement over the guess world of tables, each under its name. A plan gives it; where a number
/// of this plan leaves 128 bits, the definitions' own road decides.
///
/// `Query` names a defect of the statement and its byte, one of ten. `Overflow` comes only where a number of the answer
/// leaves 128 bits. `Limit` never comes.
pub fn guess_answer<R: Threads + Sync, G: Gate + Sync>(
    rt: &R,
    alloc: Global,
    statement: &Statement,
    tables: &[(Word, Table)],
    gate: G,
) -> Result<GuessAnswer, EngineFault>
    requires whole { WholeQuery (statement_tree statement.now) }
    ensures typed { OnOk result (statement_defects tables.now (statement_tree statement.now) ≡ []) }
    ensures names { IfOk result (λ a. a.names.items ≡ answer_names tables.now (statement_tree statement.now)) }
    ensures kinds { IfOk result (λ a. a.kinds.items ≡ answer_kinds tables.now (statement_tree statement.now)) }
    ensures rows { IfOk result (λ a. StandsFor a.rows (guess_answer_of tables.now (statement_tree statement.now))) }
    ensures widths { IfOk result (λ a. AllByRecursion (λ r. length r.cells ≡ length a.names.items) a.rows) }
    ensures refused { IfErr result (AnswerCause (statement_defects tables.now (statement_tree statement.now)) (guess_answer_fits tables.now (statement_tree statement.now))) }
{
    let typed = match resolved(alloc, statement, tables) {
        Ok(typed) => typed,
        Err(fault) => return Err(fault),
    };
    let crew = Crew::new(rt, 1, gate);
    let rows = guess_rows(&crew, alloc, &typed, tables);
    match beside(rows, names_and_kinds(typed)) {
        Ok(parts) => {
            let (rows, columns) = parts;
            let (names, kinds) = columns;
            Ok(GuessAnswer { names, kinds, rows })
        }
        Err(EvalFault::Overflow) => Err(EngineFault::Overflow),
        Err(EvalFault::NoMemory) => Err(EngineFault::NoMemory),
    }
}

// The rows of the answer of a typed tree: by its plan, or where a number of the plan leaves 128 bits, by the generic
// evaluator.
fn guess_rows<R: Threads + Sync, G: Gate + Sync>(
    crew: &Crew<'_, R, G>,
    alloc: Global,
    typed: &Typed,
    tables: &[(Word, Table)],
) -> Result<Rel<Value, Count>, EvalFault>
    requires typed { kinds_of (map column_kinds (blocks_of tables.now)) (tree typed.now.query) ≡ Some (map data_kind typed.now.kinds.items) }
    ensures rows { IfOk result (λ r. StandsFor r (answer (tree typed.now.query) (guess_tables tables.now))) }
    ensures widths { IfOk result (HaveColumns typed.now.kinds.items) }
    ensures overflow { result ≡ Err EvalFault.Overflow → tree_guess_fits tables.now (tree typed.now.query) ≡ false }
{
    match planned_rows(crew, alloc, typed, tables) {
        Ok(rows) => Ok(rows),
        Err(EvalFault::Overflow) => ordinary_rows(alloc, typed, tables),
        Err(EvalFault::NoMemory) => Err(EvalFault::NoMemory),
    }
}

// The same by the tree's plan. `Overflow` comes where a number of the plan leaves 128 bits.
fn planned_rows<R: Threads + Sync, G: Gate + Sync>(
    crew: &Crew<'_, R, G>,
    alloc: Global,
    typed: &Typed,
    tables: &[(Word, Table)],
) -> Result<Rel<Value, Count>, EvalFault>
    requires typed { kinds_of (map column_kinds (blocks_of tables.now)) (tree typed.now.query) ≡ Some (map data_kind typed.now.kinds.items) }
    ensures rows { IfOk result (λ r. StandsFor r (answer (tree typed.now.query) (guess_tables tables.now))) }
    ensures widths { IfOk result (HaveColumns typed.now.kinds.items) }
{
    let inputs = match guess_inputs(alloc, tables) {
        Ok(inputs) => inputs,
        Err(NoMemory) => return Err(EvalFault::NoMemory),
    };
    let rows = match counted_rows(crew, alloc, &typed.query, tables, 1, inputs) {
        Ok(rows) => rows,
        Err(fault) => return Err(fault),
    };
    match read_counted(alloc, rows) {
        Ok(rel) => Ok(rel),
        Err(NoMemory) => Err(EvalFault::NoMemory),
    }
}

// The tables as inputs of plans.
fn guess_inputs(alloc: Global, tables: &[(Word, Table)]) -> Result<Vec<Input<'_>>, NoMemory>
    ensures inputs { IfOk result (λ v. v.items ≡ map (λ t. counted_guesses t.blocks) (blocks_of tables.now)) }
    ensures tables { OnOk result (AllByRecursion IsBlockTable (blocks_of tables.now)) }
{
    let mut inputs = Vec::with_capacity(alloc, tables.len())?;
    for table in tables {
        inputs.push(Input::of_guesses(table.1.columns(), table.1.blocks()))?;
    }
    Ok(inputs)
}

// The same rows by the generic evaluator.
fn ordinary_rows(
    alloc: Global,
    typed: &Typed,
    tables: &[(Word, Table)],
) -> Result<Rel<Value, Count>, EvalFault>
    requires { kinds_of (map column_kinds (blocks_of tables.now)) (tree typed.now.query) ≡ Some (map data_kind typed.now.kinds.items) }
    ensures rows { IfOk result (λ r. StandsFor r (answer (tree typed.now.query) (guess_tables tables.now))) }
    ensures widths { IfOk result (HaveColumns typed.now.kinds.items) }
    ensures overflow { result ≡ Err EvalFault.Overflow → tree_guess_fits tables.now (tree typed.now.query) ≡ false }
{
    let guesses = match guessed_tables(alloc, tables) {
        Ok(guesses) => guesses,
        Err(NoMemory) => return Err(EvalFault::NoMemory),
    };
    match ordinary(alloc, &typed.query, guesses.as_slice()) {
        Ok(rows) => Ok(rows),
        Err(EvalFault::Overflow) => Err(EvalFault::Overflow),
        Err(EvalFault::NoMemory) => Err(EvalFault::NoMemory),
    }
}
