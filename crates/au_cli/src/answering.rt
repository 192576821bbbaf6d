//! The text of the answer of a statement over tables.
ghost use Rattle.std.specs.Prelude.{◌≡◌, ◌≤◌, ◌&&◌, length, None, OnOk, IfOk, IfErr, [], true};
ghost use Rattle.std.specs.List.{AllByRecursion};
ghost use Rattle.au_encode.specs.Encode.{AreEncoded, decode};
ghost use Rattle.au_parse.specs.Views.{statement_tree};
ghost use Rattle.au_parse.specs.Whole.{WholeQuery};
ghost use Rattle.au_print.specs.GuessTexts.{counts_fit, world_rows, world_text};
ghost use Rattle.au_ua.specs.NotPositive.{not_positive};
ghost use Rattle.au_ua.specs.UaTexts.{ua_text as ua_text_of};
ghost use Rattle.au_engine.specs.Answers.{AnswerCause, RowsHold, answer_fits, answer_kinds, answer_names, answer_rows, asked_fits, asked_rows, guess_answer as guess_answer_of, guess_answer_fits, statement_defects};
ghost use Rattle.au_program.specs.Rules.{IsCompression};
ghost use Rattle.au_engine.specs.Options.{rules_of};
ghost use Rattle.au_engine.specs.Certainty.{UaHolds, ua_answer_fits, ua_rows};
ghost use Rattle.au_cli.specs.Requests.{FitsBy, HoldsBy, IsTextBy, fit_by, refused_place, bounded_rows_text};
ghost use Rattle.au_words.specs.CommandLine.{seen_request};
ghost use Rattle.au_words.specs.Words.{greatest_workers};

use au_blocks::Table;
use au_engine::{
    CodedAnswer, EngineFault, Options, answer, answer_directly, coded_answer, explained_text,
    guess_answer, rewritten_text, ua_answer,
};
use au_expr::EvalFault;
use au_par::Gate;
use au_parse::Statement;
use au_print::{Answer, LentAnswer, coded_csv_by, csv_text, guess_text, table_text};
use au_ua::ua_text;
use au_value::{NoMemory, Word};
use au_words::{Command, Form, Request};
use std::alloc::Global;
use std::thread::Threads;

/// The text of what a request asks for, over its tables.
pub(crate) fn answer_text<R: Threads + Sync, G: Gate + Sync>(
    rt: &R,
    alloc: Global,
    request: &Request<'_>,
    statement: &Statement,
    tables: &[(Word, Table)],
    gate: G,
) -> Result<Vec<u8>, EngineFault>
    requires workers { (1 ≤ request.now.workers) × (request.now.workers ≤ greatest_workers) }
    requires compression { IsCompression request.now.compress }
    requires whole { WholeQuery (statement_tree statement.now) }
    requires taken { refused_place request.now.command (statement_tree statement.now) ≡ None }
    ensures typed { OnOk result (statement_defects tables.now (statement_tree statement.now) ≡ []) }
    ensures text { IfOk result (λ t. IsTextBy request.now.command (seen_request request.now) tables.now (statement_tree statement.now) t.items) }
    ensures holds { OnOk result (HoldsBy request.now.command (seen_request request.now) tables.now (statement_tree statement.now)) }
    ensures fits { OnOk result (FitsBy request.now.command (seen_request request.now) tables.now (statement_tree statement.now)) }
    ensures refused { IfErr result (AnswerCause (statement_defects tables.now (statement_tree statement.now)) (fit_by request.now.command (seen_request request.now) tables.now (statement_tree statement.now))) }
{
    match request.command {
        Command::Answer => {
            let options = Options {
                combine: request.combine,
                workers: request.workers,
                compress: request.compress,
                points: request.points,
            };
            planned_text(rt, alloc, statement, tables, options, request.form, gate)
        }
        Command::Direct => direct_text(alloc, statement, tables, request.combine, request.form),
        Command::Guess => guess_world_text(rt, alloc, statement, tables, gate),
        Command::Ua => certain_text(rt, alloc, statement, tables, gate),
        Command::Rewrite => rewritten_text(alloc, statement, tables),
        Command::Explain => explained_text(alloc, statement, tables),
    }
}

// The text of the bounded answer.
fn planned_text<R: Threads + Sync, G: Gate + Sync>(
    rt: &R,
    alloc: Global,
    statement: &Statement,
    tables: &[(Word, Table)],
    options: Options,
    form: Form,
    gate: G,
) -> Result<Vec<u8>, EngineFault>
    requires whole { WholeQuery (statement_tree statement.now) }
    requires workers { (1 ≤ options.workers) × (options.workers ≤ greatest_workers) }
    requires compression { IsCompression options.compress }
    ensures typed { OnOk result (statement_defects tables.now (statement_tree statement.now) ≡ []) }
    ensures text { IfOk result (λ t. t.items ≡ bounded_rows_text form (answer_names tables.now (statement_tree statement.now)) (answer_kinds tables.now (statement_tree statement.now)) (asked_rows (rules_of options) options.combine tables.now (statement_tree statement.now))) }
    ensures holds { OnOk result (RowsHold tables.now (statement_tree statement.now) (asked_rows (rules_of options) options.combine tables.now (statement_tree statement.now))) }
    ensures refused { IfErr result (AnswerCause (statement_defects tables.now (statement_tree statement.now)) (asked_fits (rules_of options) options.combine tables.now (statement_tree statement.now))) }
{
    match form {
        Form::Csv => csv_answer(rt, alloc, statement, tables, options, gate),
        Form::Table => table_answer(rt, alloc, statement, tables, options, gate),
    }
}

// The bounded answer as CSV, which the workers write from the codes of its rows.
fn csv_answer<R: Threads + Sync, G: Gate + Sync>(
    rt: &R,
    alloc: Global,
    statement: &Statement,
    tables: &[(Word, Table)],
    options: Options,
    gate: G,
) -> Result<Vec<u8>, EngineFault>
    requires whole { WholeQuery (statement_tree statement.now) }
    requires workers { (1 ≤ options.workers) × (options.workers ≤ greatest_workers) }
    requires compression { IsCompression options.compress }
    ensures typed { OnOk result (statement_defects tables.now (statement_tree statement.now) ≡ []) }
    ensures text { IfOk result (λ t. t.items ≡ bounded_rows_text Form.Csv (answer_names tables.now (statement_tree statement.now)) (answer_kinds tables.now (statement_tree statement.now)) (asked_rows (rules_of options) options.combine tables.now (statement_tree statement.now))) }
    ensures holds { OnOk result (RowsHold tables.now (statement_tree statement.now) (asked_rows (rules_of options) options.combine tables.now (statement_tree statement.now))) }
    ensures refused { IfErr result (AnswerCause (statement_defects tables.now (statement_tree statement.now)) (asked_fits (rules_of options) options.combine tables.now (statement_tree statement.now))) }
{
    let workers = options.workers;
    match coded_answer(rt, alloc, statement, tables, options, gate) {
        Ok(answer) => match coded_text(rt, alloc, workers, &answer) {
            Ok(text) => Ok(text),
            Err(NoMemory) => Err(EngineFault::NoMemory),
        },
        Err(fault) => Err(fault),
    }
}

// An answer whose rows are coded, as CSV.
fn coded_text<R: Threads + Sync>(
    rt: &R,
    alloc: Global,
    workers: usize,
    answer: &CodedAnswer,
) -> Result<Vec<u8>, NoMemory>
    requires workers { 1 ≤ workers }
    requires columns { length answer.now.kinds.items ≡ length answer.now.names.items }
    requires rows { AreEncoded (length answer.now.kinds.items) answer.now.rows }
    ensures { IfOk result (λ t. t.items ≡ bounded_rows_text Form.Csv answer.now.names.items answer.now.kinds.items (decode (length answer.now.kinds.items) answer.now.rows)) }
{
    let (book, value_kinds, batch) = answer.rows.parts();
    let lent = LentAnswer {
        names: answer.names.as_slice(),
        kinds: answer.kinds.as_slice(),
        book,
        value_kinds,
        batch,
    };
    coded_csv_by(rt, alloc, workers, &lent)
}

// The bounded answer as a table for the eye.
fn table_answer<R: Threads + Sync, G: Gate + Sync>(
    rt: &R,
    alloc: Global,
    statement: &Statement,
    tables: &[(Word, Table)],
    options: Options,
    gate: G,
) -> Result<Vec<u8>, EngineFault>
    requires whole { WholeQuery (statement_tree statement.now) }
    requires workers { (1 ≤ options.workers) × (options.workers ≤ greatest_workers) }
    requires compression { IsCompression options.compress }
    ensures typed { OnOk result (statement_defects tables.now (statement_tree statement.now) ≡ []) }
    ensures text { IfOk result (λ t. t.items ≡ bounded_rows_text Form.Table (answer_names tables.now (statement_tree statement.now)) (answer_kinds tables.now (statement_tree statement.now)) (asked_rows (rules_of options) options.combine tables.now (statement_tree statement.now))) }
    ensures holds { OnOk result (RowsHold tables.now (statement_tree statement.now) (asked_rows (rules_of options) options.combine tables.now (statement_tree statement.now))) }
    ensures refused { IfErr result (AnswerCause (statement_defects tables.now (statement_tree statement.now)) (asked_fits (rules_of options) options.combine tables.now (statement_tree statement.now))) }
{
    match answer(rt, alloc, statement, tables, options, gate) {
        Ok(answer) => match table_text(alloc, &answer) {
            Ok(text) => Ok(text),
            Err(NoMemory) => Err(EngineFault::NoMemory),
        },
        Err(fault) => Err(fault),
    }
}

// The text of the bounded answer, by the generic evaluator.
fn direct_text(
    alloc: Global,
    statement: &Statement,
    tables: &[(Word, Table)],
    combine: bool,
    form: Form,
) -> Result<Vec<u8>, EngineFault>
    requires { WholeQuery (statement_tree statement.now) }
    ensures typed { OnOk result (statement_defects tables.now (statement_tree statement.now) ≡ []) }
    ensures text { IfOk result (λ t. t.items ≡ bounded_rows_text form (answer_names tables.now (statement_tree statement.now)) (answer_kinds tables.now (statement_tree statement.now)) (answer_rows combine tables.now (statement_tree statement.now))) }
    ensures holds { OnOk result (RowsHold tables.now (statement_tree statement.now) (answer_rows combine tables.now (statement_tree statement.now))) }
    ensures fits { OnOk result (answer_fits combine tables.now (statement_tree statement.now) ≡ true) }
    ensures refused { IfErr result (AnswerCause (statement_defects tables.now (statement_tree statement.now)) (answer_fits combine tables.now (statement_tree statement.now))) }
{
    match answer_directly(alloc, statement, tables, combine) {
        Ok(answer) => match rows_text(alloc, &answer, form) {
            Ok(text) => Ok(text),
            Err(NoMemory) => Err(EngineFault::NoMemory),
        },
        Err(fault) => Err(fault),
    }
}

// An answer as a table for the eye, or as CSV.
fn rows_text(alloc: Global, answer: &Answer, form: Form) -> Result<Vec<u8>, NoMemory>
    requires columns { length answer.now.kinds.items ≡ length answer.now.names.items }
    requires rows { AllByRecursion (λ r. length r.cells ≡ length answer.now.names.items) answer.now.rows }
    ensures { IfOk result (λ t. t.items ≡ bounded_rows_text form answer.now.names.items answer.now.kinds.items answer.now.rows) }
{
    match form {
        Form::Csv => csv_text(alloc, answer),
        Form::Table => table_text(alloc, answer),
    }
}

// The text of the ordinary answer in the guess world.
fn guess_world_text<R: Threads + Sync, G: Gate + Sync>(
    rt: &R,
    alloc: Global,
    statement: &Statement,
    tables: &[(Word, Table)],
    gate: G,
) -> Result<Vec<u8>, EngineFault>
    requires whole { WholeQuery (statement_tree statement.now) }
    ensures typed { OnOk result (statement_defects tables.now (statement_tree statement.now) ≡ []) }
    ensures text { IfOk result (λ t. t.items ≡ world_text (answer_names tables.now (statement_tree statement.now)) (answer_kinds tables.now (statement_tree statement.now)) (guess_answer_of tables.now (statement_tree statement.now))) }
    ensures printed { OnOk result (counts_fit (world_rows (guess_answer_of tables.now (statement_tree statement.now))) ≡ true) }
    ensures refused { IfErr result (AnswerCause (statement_defects tables.now (statement_tree statement.now)) (guess_answer_fits tables.now (statement_tree statement.now) && counts_fit (world_rows (guess_answer_of tables.now (statement_tree statement.now))))) }
{
    let guess = match guess_answer(rt, alloc, statement, tables, gate) {
        Ok(guess) => guess,
        Err(fault) => return Err(fault),
    };
    match guess_text(
        alloc,
        guess.names.as_slice(),
        guess.kinds.as_slice(),
        &guess.rows,
    ) {
        Ok(text) => Ok(text),
        Err(EvalFault::Overflow) => Err(EngineFault::Overflow),
        Err(EvalFault::NoMemory) => Err(EngineFault::NoMemory),
    }
}

// The text of the rows of the guess world with how often each is certain.
fn certain_text<R: Threads + Sync, G: Gate + Sync>(
    rt: &R,
    alloc: Global,
    statement: &Statement,
    tables: &[(Word, Table)],
    gate: G,
) -> Result<Vec<u8>, EngineFault>
    requires whole { WholeQuery (statement_tree statement.now) }
    requires positive { not_positive (statement_tree statement.now) ≡ None }
    ensures typed { OnOk result (statement_defects tables.now (statement_tree statement.now) ≡ []) }
    ensures text { IfOk result (λ t. t.items ≡ ua_text_of (answer_names tables.now (statement_tree statement.now)) (answer_kinds tables.now (statement_tree statement.now)) (ua_rows tables.now (statement_tree statement.now))) }
    ensures holds { OnOk result (UaHolds tables.now (statement_tree statement.now)) }
    ensures refused { IfErr result (AnswerCause (statement_defects tables.now (statement_tree statement.now)) (ua_answer_fits tables.now (statement_tree statement.now))) }
{
    let answer = match ua_answer(rt, alloc, statement, tables, gate) {
        Ok(answer) => answer,
        Err(fault) => return Err(fault),
    };
    match ua_text(
        alloc,
        answer.names.as_slice(),
        answer.kinds.as_slice(),
        &answer.rows,
    ) {
        Ok(text) => Ok(text),
        Err(EvalFault::Overflow) => Err(EngineFault::Overflow),
        Err(EvalFault::NoMemory) => Err(EngineFault::NoMemory),
    }
}
