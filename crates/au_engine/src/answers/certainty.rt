//! The answer of a positive statement over block tables, with how often each row is certain.
ghost use Rattle.std.specs.Prelude.{◌≡◌, [], true, false, None, Some, Err, IfOk, IfErr, OnOk, length, map};
ghost use Rattle.std.specs.List.{AllByRecursion};
ghost use Rattle.std.specs.List.Sorted.{IsPermutation};
ghost use Rattle.au_algebra.specs.Positive.{is_positive};
ghost use Rattle.au_algebra.specs.Trees.{tree};
ghost use Rattle.au_value.specs.Order.{data_kind};
ghost use Rattle.au_algebra.specs.Typing.{kinds_of};
ghost use Rattle.au_blocks.specs.Tables.{IsBlockTable, column_kinds};
ghost use Rattle.au_parse.specs.Views.{statement_tree};
ghost use Rattle.au_parse.specs.Whole.{WholeQuery};
ghost use Rattle.au_ua.specs.NotPositive.{not_positive};
ghost use Rattle.au_ua.specs.UaTexts.{pairs_fit, summed_pairs};
ghost use Rattle.au_engine.specs.Answers.{AnswerCause, answer_kinds, answer_names, blocks_of, statement_defects};
ghost use Rattle.au_engine.specs.CountedTables.{certain_guesses};
ghost use Rattle.au_engine.specs.Certainty.{TreeUaHolds, UaHolds, tree_ua_fits, tree_ua_rows, ua_answer_fits, ua_rows as ua_rows_of};

use crate::answers::counted::counted_rows;
use crate::answers::tables::ua_tables;
use crate::faults::EngineFault;
use crate::running::input::Input;
use crate::typing::{names_and_kinds, resolved};
use au_algebra::Rel;
use au_annot::Pair;
use au_blocks::Table;
use au_expr::EvalFault;
use au_par::Gate;
use au_parse::Statement;
use au_rwcounted::read_pairs;
use au_typing::Typed;
use au_ua::ua;
use au_value::{Kind, NoMemory, Value, Word, beside};
use au_vector::Crew;
use std::alloc::Global;
use std::thread::Threads;

/// The answer over the guess world with what is certain of it: a name and a kind for each column, and rows that have one
/// value per column, with a certain count and a guess. The counts of equal rows are to be added.
#[derive(Drop)]
pub struct UaAnswer {
    pub names: Vec<Word>,
    pub kinds: Vec<Kind>,
    pub rows: Rel<Value, Pair>,
}

/// The answer of a positive statement over tables, each under its name. In every possible world there are as many copies
/// of a row as its certain counts, added, and in the guess world as many as its guesses. A plan gives it; where a number of
/// this plan leaves 128 bits, the definitions' own road decides.
///
/// `Query` names a defect of the statement and its byte, one of ten. `Overflow` comes only where a number of the answer
/// over the guess world leaves 128 bits. `Limit` never comes.
pub fn ua_answer<R: Threads + Sync, G: Gate + Sync>(
    rt: &R,
    alloc: Global,
    statement: &Statement,
    tables: &[(Word, Table)],
    gate: G,
) -> Result<UaAnswer, EngineFault>
    requires whole { WholeQuery (statement_tree statement.now) }
    requires positive { not_positive (statement_tree statement.now) ≡ None }
    ensures typed { OnOk result (statement_defects tables.now (statement_tree statement.now) ≡ []) }
    ensures names { IfOk result (λ a. a.names.items ≡ answer_names tables.now (statement_tree statement.now)) }
    ensures kinds { IfOk result (λ a. a.kinds.items ≡ answer_kinds tables.now (statement_tree statement.now)) }
    ensures rows { IfOk result (λ a. IsPermutation (ua_rows_of tables.now (statement_tree statement.now)) a.rows) }
    ensures widths { IfOk result (λ a. AllByRecursion (λ r. length r.cells ≡ length a.names.items) a.rows) }
    ensures holds { OnOk result (UaHolds tables.now (statement_tree statement.now)) }
    ensures printed { OnOk result (ua_answer_fits tables.now (statement_tree statement.now) ≡ true → pairs_fit (summed_pairs (ua_rows_of tables.now (statement_tree statement.now))) ≡ true) }
    ensures refused { IfErr result (AnswerCause (statement_defects tables.now (statement_tree statement.now)) (ua_answer_fits tables.now (statement_tree statement.now))) }
{
    let typed = match resolved(alloc, statement, tables) {
        Ok(typed) => typed,
        Err(fault) => return Err(fault),
    };
    let crew = Crew::new(rt, 1, gate);
    let rows = ua_rows(&crew, alloc, &typed, tables);
    match beside(rows, names_and_kinds(typed)) {
        Ok(parts) => {
            let (rows, columns) = parts;
            let (names, kinds) = columns;
            Ok(UaAnswer { names, kinds, rows })
        }
        Err(EvalFault::Overflow) => Err(EngineFault::Overflow),
        Err(EvalFault::NoMemory) => Err(EngineFault::NoMemory),
    }
}

// The rows of the answer of a typed positive tree: by its plan, or where a number of the plan leaves 128 bits, by the
// generic evaluator.
fn ua_rows<R: Threads + Sync, G: Gate + Sync>(
    crew: &Crew<'_, R, G>,
    alloc: Global,
    typed: &Typed,
    tables: &[(Word, Table)],
) -> Result<Rel<Value, Pair>, EvalFault>
    requires typed { kinds_of (map column_kinds (blocks_of tables.now)) (tree typed.now.query) ≡ Some (map data_kind typed.now.kinds.items) }
    requires positive { is_positive (tree typed.now.query) ≡ true }
    ensures rows { IfOk result (λ r. IsPermutation (tree_ua_rows tables.now (tree typed.now.query)) r) }
    ensures widths { IfOk result (λ r. AllByRecursion (λ row. length row.cells ≡ length typed.now.kinds.items) r) }
    ensures holds { OnOk result (TreeUaHolds tables.now (tree typed.now.query)) }
    ensures printed { OnOk result (tree_ua_fits tables.now (tree typed.now.query) ≡ true → pairs_fit (summed_pairs (tree_ua_rows tables.now (tree typed.now.query))) ≡ true) }
    ensures overflow { result ≡ Err EvalFault.Overflow → tree_ua_fits tables.now (tree typed.now.query) ≡ false }
{
    match planned_rows(crew, alloc, typed, tables) {
        Ok(rows) => Ok(rows),
        Err(EvalFault::Overflow) => evaluated_rows(alloc, typed, tables),
        Err(EvalFault::NoMemory) => Err(EvalFault::NoMemory),
    }
}

// The same by the tree's plan. `Overflow` comes where a number of the plan leaves 128 bits.
fn planned_rows<R: Threads + Sync, G: Gate + Sync>(
    crew: &Crew<'_, R, G>,
    alloc: Global,
    typed: &Typed,
    tables: &[(Word, Table)],
) -> Result<Rel<Value, Pair>, EvalFault>
    requires typed { kinds_of (map column_kinds (blocks_of tables.now)) (tree typed.now.query) ≡ Some (map data_kind typed.now.kinds.items) }
    requires positive { is_positive (tree typed.now.query) ≡ true }
    ensures rows { IfOk result (λ r. IsPermutation (tree_ua_rows tables.now (tree typed.now.query)) r) }
    ensures widths { IfOk result (λ r. AllByRecursion (λ row. length row.cells ≡ length typed.now.kinds.items) r) }
    ensures holds { OnOk result (TreeUaHolds tables.now (tree typed.now.query)) }
    ensures printed { OnOk result (tree_ua_fits tables.now (tree typed.now.query) ≡ true → pairs_fit (summed_pairs (tree_ua_rows tables.now (tree typed.now.query))) ≡ true) }
{
    let inputs = match certain_inputs(alloc, tables) {
        Ok(inputs) => inputs,
        Err(NoMemory) => return Err(EvalFault::NoMemory),
    };
    let rows = match counted_rows(crew, alloc, &typed.query, tables, 2, inputs) {
        Ok(rows) => rows,
        Err(fault) => return Err(fault),
    };
    match read_pairs(alloc, rows) {
        Ok(rel) => Ok(rel),
        Err(NoMemory) => Err(EvalFault::NoMemory),
    }
}

// The tables as inputs of plans.
fn certain_inputs(alloc: Global, tables: &[(Word, Table)]) -> Result<Vec<Input<'_>>, NoMemory>
    ensures inputs { IfOk result (λ v. v.items ≡ map (λ t. certain_guesses t.blocks) (blocks_of tables.now)) }
    ensures tables { OnOk result (AllByRecursion IsBlockTable (blocks_of tables.now)) }
{
    let mut inputs = Vec::with_capacity(alloc, tables.len())?;
    for table in tables {
        // Read for the proof alone: the columns and the blocks of a table make one.
        let _columns = table.1.columns();
        inputs.push(Input::of_certain(table.1.blocks()))?;
    }
    Ok(inputs)
}

// The same rows by the generic evaluator.
fn evaluated_rows(
    alloc: Global,
    typed: &Typed,
    tables: &[(Word, Table)],
) -> Result<Rel<Value, Pair>, EvalFault>
    requires typed { kinds_of (map column_kinds (blocks_of tables.now)) (tree typed.now.query) ≡ Some (map data_kind typed.now.kinds.items) }
    requires positive { is_positive (tree typed.now.query) ≡ true }
    ensures rows { IfOk result (λ r. r ≡ tree_ua_rows tables.now (tree typed.now.query)) }
    ensures widths { IfOk result (λ r. AllByRecursion (λ row. length row.cells ≡ length typed.now.kinds.items) r) }
    ensures holds { OnOk result (TreeUaHolds tables.now (tree typed.now.query)) }
    ensures printed { OnOk result (tree_ua_fits tables.now (tree typed.now.query) ≡ true → pairs_fit (summed_pairs (tree_ua_rows tables.now (tree typed.now.query))) ≡ true) }
    ensures overflow { result ≡ Err EvalFault.Overflow → tree_ua_fits tables.now (tree typed.now.query) ≡ false }
{
    let pairs = match ua_tables(alloc, tables) {
        Ok(pairs) => pairs,
        Err(NoMemory) => return Err(EvalFault::NoMemory),
    };
    match ua(alloc, &typed.query, pairs.as_slice()) {
        Ok(rows) => Ok(rows),
        Err(EvalFault::Overflow) => Err(EvalFault::Overflow),
        Err(EvalFault::NoMemory) => Err(EvalFault::NoMemory),
    }
}
