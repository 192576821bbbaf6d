//! The bounded answer of a statement over block tables.
ghost use Rattle.std.specs.Prelude.{◌≡◌, ◌≤◌, Bool, Err, Ok, [], true, false, Some, List, IfOk, IfErr, OnOk, length, map, if◌then◌else◌};
ghost use Rattle.std.specs.List.{AllByRecursion, list_all};
ghost use Rattle.au_algebra.specs.Laws.{IsRelation};
ghost use Rattle.au_parse.specs.Views.{statement_tree};
ghost use Rattle.au_parse.specs.Whole.{WholeQuery};
ghost use Rattle.au_algebra.specs.Trees.{tree};
ghost use Rattle.au_algebra.specs.Typing.{kinds_of};
ghost use Rattle.au_blocks.specs.Tables.{IsBlockTable, column_kinds};
ghost use Rattle.au_encode.specs.Encode.{AreEncoded, decode};
ghost use Rattle.au_translate.specs.Translate.{bounded_table};
ghost use Rattle.au_algebra.specs.Bounded.{bounded, combine as combine_of, normal as normal_of};
ghost use Rattle.au_algebra.specs.Fits.{numbers, triples_fit};
ghost use Rattle.au_value.specs.declared.kinds.Kind.{Kind};
ghost use Rattle.au_value.specs.Order.{data_kind};
ghost use Rattle.au_value.specs.Numeral.{is_i128};
ghost use Rattle.au_program.specs.Rules.{IsCompression};
ghost use Rattle.au_engine.specs.Answers.{AnswerCause, RowsCause, RowsHold, blocks_of, combined_normal_fits, tree_answer, tree_answer_fits, answer_fits, answer_kinds, answer_names, answer_rows as answer_rows_of, asked_fits, asked_rows, statement_defects};
ghost use Rattle.au_engine.specs.Options.{rules_of};

use crate::answers::coded_answer::{CodedAnswer, coded_answer};
use crate::answers::tables::bounded_tables;
use crate::faults::EngineFault;
use crate::options::Options;
use crate::typing::{names_and_kinds, resolved};
use au_algebra::{Query, Rel, normal};
use au_annot::Triple;
use au_blocks::Table;
use au_expr::EvalFault;
use au_kfull::{combine, direct};
use au_par::Gate;
use au_parse::Statement;
use au_print::Answer;
use au_typing::Typed;
use au_value::{Kind, NoMemory, Range, Word, beside};
use std::alloc::Global;
use std::thread::Threads;

/// The bounded answer of a statement over tables, each under its name. Where products are to be compressed, or groups and
/// distinct rows to be formed by points, it is the answer that these give.
///
/// `Query` names a defect of the statement and its byte, one of ten. `Overflow` comes only where a number of the answer
/// leaves 128 bits. `Limit` never comes.
pub fn answer<R: Threads + Sync, G: Gate + Sync>(
    rt: &R,
    alloc: Global,
    statement: &Statement,
    tables: &[(Word, Table)],
    options: Options,
    gate: G,
) -> Result<Answer, EngineFault>
    requires whole { WholeQuery (statement_tree statement.now) }
    requires workers { (1 ≤ options.workers) × (options.workers ≤ 64) }
    requires compression { IsCompression options.compress }
    ensures typed { OnOk result (statement_defects tables.now (statement_tree statement.now) ≡ []) }
    ensures names { IfOk result (λ a. a.names.items ≡ answer_names tables.now (statement_tree statement.now)) }
    ensures kinds { IfOk result (λ a. a.kinds.items ≡ answer_kinds tables.now (statement_tree statement.now)) }
    ensures rows { IfOk result (λ a. a.rows ≡ asked_rows (rules_of options) options.combine tables.now (statement_tree statement.now)) }
    ensures relation { IfOk result (λ a. IsRelation (map data_kind a.kinds.items) a.rows) }
    ensures widths { IfOk result (λ a. AllByRecursion (λ r. length r.cells ≡ length a.names.items) a.rows) }
    ensures holds { IfOk result (λ a. RowsHold tables.now (statement_tree statement.now) a.rows) }
    ensures refused { IfErr result (AnswerCause (statement_defects tables.now (statement_tree statement.now)) (asked_fits (rules_of options) options.combine tables.now (statement_tree statement.now))) }
{
    let coded = match coded_answer(rt, alloc, statement, tables, options, gate) {
        Ok(coded) => coded,
        Err(fault) => return Err(fault),
    };
    match decoded(alloc, coded) {
        Ok(answer) => Ok(answer),
        Err(NoMemory) => Err(EngineFault::NoMemory),
    }
}

// An answer whose rows are read from their codes.
fn decoded(alloc: Global, coded: CodedAnswer) -> Result<Answer, NoMemory>
    requires { AreEncoded (length coded.kinds.items) coded.rows }
    ensures names { IfOk result (λ a. a.names ≡ coded.names) }
    ensures kinds { IfOk result (λ a. a.kinds ≡ coded.kinds) }
    ensures rows { IfOk result (λ a. a.rows ≡ decode (length coded.kinds.items) coded.rows) }
{
    let CodedAnswer { names, kinds, rows } = coded;
    let relation = rows.relation(alloc, kinds.len());
    let (rows, columns) = beside(relation, (names, kinds))?;
    let (names, kinds) = columns;
    Ok(Answer { names, kinds, rows })
}

/// The bounded answer, by the generic evaluator: its rows are combined where that is asked for. `Overflow` comes exactly
/// where a number of the answer leaves 128 bits.
pub fn answer_directly(
    alloc: Global,
    statement: &Statement,
    tables: &[(Word, Table)],
    combine: bool,
) -> Result<Answer, EngineFault>
    requires { WholeQuery (statement_tree statement.now) }
    ensures typed { OnOk result (statement_defects tables.now (statement_tree statement.now) ≡ []) }
    ensures names { IfOk result (λ a. a.names.items ≡ answer_names tables.now (statement_tree statement.now)) }
    ensures kinds { IfOk result (λ a. a.kinds.items ≡ answer_kinds tables.now (statement_tree statement.now)) }
    ensures rows { IfOk result (λ a. a.rows ≡ answer_rows_of combine tables.now (statement_tree statement.now)) }
    ensures relation { IfOk result (λ a. IsRelation (map data_kind a.kinds.items) a.rows) }
    ensures widths { IfOk result (λ a. AllByRecursion (λ r. length r.cells ≡ length a.names.items) a.rows) }
    ensures holds { IfOk result (λ a. RowsHold tables.now (statement_tree statement.now) a.rows) }
    ensures fits { OnOk result (answer_fits combine tables.now (statement_tree statement.now) ≡ true) }
    ensures refused { IfErr result (AnswerCause (statement_defects tables.now (statement_tree statement.now)) (answer_fits combine tables.now (statement_tree statement.now))) }
{
    let typed = match resolved(alloc, statement, tables) {
        Ok(typed) => typed,
        Err(fault) => return Err(fault),
    };
    let rows = direct_rows(alloc, &typed.query, tables, combine);
    match answer_of_rows(typed, rows) {
        Ok(answer) => Ok(answer),
        Err(fault) => Err(fault),
    }
}

// What is answered of a typed tree with these rows.
fn answer_of_rows(
    typed: Typed,
    rows: Result<Rel<Range, Triple>, EvalFault>,
) -> Result<Answer, EngineFault>
    ensures names { IfOk result (λ a. a.names.items ≡ typed.names.items) }
    ensures kinds { IfOk result (λ a. a.kinds.items ≡ typed.kinds.items) }
    ensures rows { IfOk result (λ a. rows ≡ Ok a.rows) }
    ensures refused { (fit : Bool) → (rows ≡ Err EvalFault.Overflow → fit ≡ false) → IfErr result (RowsCause fit) }
{
    match beside(rows, names_and_kinds(typed)) {
        Ok(parts) => {
            let (rows, columns) = parts;
            let (names, kinds) = columns;
            Ok(Answer { names, kinds, rows })
        }
        Err(EvalFault::Overflow) => Err(EngineFault::Overflow),
        Err(EvalFault::NoMemory) => Err(EngineFault::NoMemory),
    }
}

// The rows of the answer by the generic evaluator: the bounded relation of the tree, as it is shown.
fn direct_rows(
    alloc: Global,
    query: &Query,
    tables: &[(Word, Table)],
    combined: bool,
) -> Result<Rel<Range, Triple>, EvalFault>
    requires { (ks : List Kind) × (kinds_of (map column_kinds (blocks_of tables.now)) (tree query.now) ≡ Some ks) }
    ensures rows { IfOk result (λ r. r ≡ tree_answer combined tables.now (tree query.now)) }
    ensures fits { OnOk result (tree_answer_fits combined tables.now (tree query.now) ≡ true) }
    ensures overflow { result ≡ Err EvalFault.Overflow → tree_answer_fits combined tables.now (tree query.now) ≡ false }
{
    let rows = match evaluated_directly(alloc, query, tables) {
        Ok(rows) => rows,
        Err(fault) => return Err(fault),
    };
    match combined_normal(alloc, rows, combined) {
        Ok(answer) => Ok(answer),
        Err(fault) => Err(fault),
    }
}

// The bounded relation of the tree, by the generic evaluator.
fn evaluated_directly(
    alloc: Global,
    query: &Query,
    tables: &[(Word, Table)],
) -> Result<Rel<Range, Triple>, EvalFault>
    requires { (ks : List Kind) × (kinds_of (map column_kinds (blocks_of tables.now)) (tree query.now) ≡ Some ks) }
    ensures rows { IfOk result (λ r. r ≡ bounded (tree query.now) (map bounded_table (blocks_of tables.now))) }
    ensures tables { OnOk result (AllByRecursion IsBlockTable (blocks_of tables.now)) }
    ensures fits { OnOk result (list_all is_i128 (numbers (tree query.now) (map bounded_table (blocks_of tables.now))) ≡ true) }
    ensures overflow { result ≡ Err EvalFault.Overflow → list_all is_i128 (numbers (tree query.now) (map bounded_table (blocks_of tables.now))) ≡ false }
{
    match bounded_tables(alloc, tables) {
        Ok(relations) => direct(alloc, query, relations.as_slice()),
        Err(NoMemory) => Err(EvalFault::NoMemory),
    }
}

// Rows as they are shown: combined where that is asked for, and in their normal form.
fn combined_normal(
    alloc: Global,
    rows: Rel<Range, Triple>,
    combined: bool,
) -> Result<Rel<Range, Triple>, EvalFault>
    requires { (ks : List Kind) × IsRelation ks rows }
    ensures rows { IfOk result (λ r. r ≡ normal_of (if combined then combine_of rows else rows)) }
    ensures fits { OnOk result (triples_fit rows ≡ true → combined_normal_fits combined rows ≡ true) }
    ensures overflow { result ≡ Err EvalFault.Overflow → combined_normal_fits combined rows ≡ false }
{
    if !combined {
        return normal(alloc, rows);
    }
    match combine(alloc, &rows) {
        Ok(combined) => normal(alloc, combined),
        Err(fault) => Err(fault),
    }
}
