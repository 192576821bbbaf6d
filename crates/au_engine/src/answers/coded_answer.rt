//! A bounded answer whose rows are held as codes.
ghost use Rattle.std.specs.Prelude.{◌≡◌, ◌≤◌, Bool, Err, Ok, IfOk, IfErr, OnOk, [], length, map, false};
ghost use Rattle.std.specs.List.{AllByRecursion};
ghost use Rattle.au_value.specs.Order.{data_kind};
ghost use Rattle.au_algebra.specs.Laws.{IsRelation};
ghost use Rattle.au_parse.specs.Views.{statement_tree};
ghost use Rattle.au_parse.specs.Whole.{WholeQuery};
ghost use Rattle.au_program.specs.Rules.{IsCompression};
ghost use Rattle.au_engine.specs.Answers.{AnswerCause, RowsCause, RowsHold, answer_kinds, answer_names, asked_fits, asked_rows, statement_defects};
ghost use Rattle.au_engine.specs.CodedAnswers.{Encodes};
ghost use Rattle.au_engine.specs.Options.{rules_of};

use crate::faults::EngineFault;
use crate::options::Options;
use crate::running::evaluation::asked_by_plan;
use crate::typing::{names_and_kinds, resolved};
use au_blocks::Table;
use au_exec::Coded;
use au_expr::EvalFault;
use au_par::Gate;
use au_parse::Statement;
use au_typing::Typed;
use au_value::{Kind, Word, beside};
use au_vector::Crew;
use std::alloc::Global;
use std::thread::Threads;

/// A bounded answer: a name and a kind for each column, and rows that encode one range of that kind per column, and a triple.
#[derive(Drop)]
pub struct CodedAnswer {
    pub names: Vec<Word>,
    pub kinds: Vec<Kind>,
    pub rows: Coded,
}

/// The answer of [`answer`](crate::answer), whose rows stay coded.
///
/// `Query` names a defect of the statement and its byte, one of ten. `Overflow` comes only where a number of the answer
/// leaves 128 bits. `Limit` never comes.
pub fn coded_answer<R: Threads + Sync, G: Gate + Sync>(
    rt: &R,
    alloc: Global,
    statement: &Statement,
    tables: &[(Word, Table)],
    options: Options,
    gate: G,
) -> Result<CodedAnswer, EngineFault>
    requires whole { WholeQuery (statement_tree statement.now) }
    requires workers { (1 ≤ options.workers) × (options.workers ≤ 64) }
    requires compression { IsCompression options.compress }
    ensures typed { OnOk result (statement_defects tables.now (statement_tree statement.now) ≡ []) }
    ensures names { IfOk result (λ a. a.names.items ≡ answer_names tables.now (statement_tree statement.now)) }
    ensures kinds { IfOk result (λ a. a.kinds.items ≡ answer_kinds tables.now (statement_tree statement.now)) }
    ensures rows { IfOk result (λ a. Encodes (length a.kinds.items) a.rows (asked_rows (rules_of options) options.combine tables.now (statement_tree statement.now))) }
    ensures relation { IfOk result (λ a. IsRelation (map data_kind a.kinds.items) (asked_rows (rules_of options) options.combine tables.now (statement_tree statement.now))) }
    ensures widths { IfOk result (λ a. AllByRecursion (λ r. length r.cells ≡ length a.names.items) (asked_rows (rules_of options) options.combine tables.now (statement_tree statement.now))) }
    ensures holds { OnOk result (RowsHold tables.now (statement_tree statement.now) (asked_rows (rules_of options) options.combine tables.now (statement_tree statement.now))) }
    ensures refused { IfErr result (AnswerCause (statement_defects tables.now (statement_tree statement.now)) (asked_fits (rules_of options) options.combine tables.now (statement_tree statement.now))) }
{
    let typed = match resolved(alloc, statement, tables) {
        Ok(typed) => typed,
        Err(fault) => return Err(fault),
    };
    let crew = Crew::new(rt, options.workers, gate);
    let rows = asked_by_plan(&crew, alloc, &typed.query, tables, options);
    match answer_of_codes(typed, rows) {
        Ok(answer) => Ok(answer),
        Err(fault) => Err(fault),
    }
}

// What is answered of a typed tree with these rows.
fn answer_of_codes(typed: Typed, rows: Result<Coded, EvalFault>) -> Result<CodedAnswer, EngineFault>
    ensures names { IfOk result (λ a. a.names.items ≡ typed.names.items) }
    ensures kinds { IfOk result (λ a. a.kinds.items ≡ typed.kinds.items) }
    ensures rows { IfOk result (λ a. rows ≡ Ok a.rows) }
    ensures refused { (fit : Bool) → (rows ≡ Err EvalFault.Overflow → fit ≡ false) → IfErr result (RowsCause fit) }
{
    match beside(rows, names_and_kinds(typed)) {
        Ok(parts) => {
            let (rows, columns) = parts;
            let (names, kinds) = columns;
            Ok(CodedAnswer { names, kinds, rows })
        }
        Err(EvalFault::Overflow) => Err(EngineFault::Overflow),
        Err(EvalFault::NoMemory) => Err(EngineFault::NoMemory),
    }
}
