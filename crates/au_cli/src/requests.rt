//! The text of what a request asks for, over a shelf.
ghost use Rattle.std.specs.Prelude.{◌≡◌, ◌≤◌, None, Some, map, Ok, IfOk, IfErr};
ghost use Rattle.au_parse.specs.Views.{statement_tree};
ghost use Rattle.au_parse.specs.Whole.{WholeQuery};
ghost use Rattle.au_program.specs.Rules.{IsCompression};
ghost use Rattle.au_engine.specs.Reading.{TextCause, refused_text, statement_of};
ghost use Rattle.au_words.specs.CommandLine.{seen_request};
ghost use Rattle.au_words.specs.Words.{greatest_workers};
ghost use Rattle.au_cli.specs.Causes.{Gives, IsRead, IsRefusedBefore, RequestCause, StatementCause};
ghost use Rattle.au_cli.specs.Requests.{IsAnswer, ended as ended_of, refused_place as refused_place_of, refused_request};

use crate::answering::answer_text;
use crate::files::MAX_FILES;
use crate::outcome::Outcome;
use crate::two_files::query_tables;
use au_engine::{EngineFault, LimitFault, QueryFault, read_query};
use au_io::Shelf;
use au_par::{Gate, let_go};
use au_parse::Statement;
use au_ua::not_positive;
use au_words::{Command, Request};
use std::alloc::Global;
use std::thread::Threads;

/// The text of what a request asks for, or the outcome that is in its place.
pub(crate) fn request_text<R: Threads + Sync, S: Shelf, G: Gate + Sync>(
    rt: &R,
    alloc: Global,
    shelf: &mut S,
    request: &Request<'_>,
    gate: G,
) -> Result<Vec<u8>, Outcome>
    requires workers { (1 ≤ request.now.workers) × (request.now.workers ≤ greatest_workers) }
    requires compression { IsCompression request.now.compress }
    ensures text { IfOk result (λ t. IsRead (seen_request request.now) × Gives (S.files shelf.old) (seen_request request.now) (IsAnswer (seen_request request.now) t.items)) }
    ensures refused { IfErr result (RequestCause (seen_request request.now) (S.files shelf.old) (S.faults shelf.old) (S.faults shelf.new) (S.absences shelf.old) (S.absences shelf.new)) }
    ensures files { S.files shelf.new ≡ S.files shelf.old }
    ensures counts { (S.faults shelf.old ≤ S.faults shelf.new) × (S.absences shelf.old ≤ S.absences shelf.new) }
{
    match read_statement(alloc, request) {
        Ok(statement) => statement_text(rt, alloc, shelf, request, &statement, gate),
        Err(outcome) => Err(outcome),
    }
}

// The statement of a request, if its command answers it.
fn read_statement(alloc: Global, request: &Request<'_>) -> Result<Statement, Outcome>
    ensures allowed { IfOk result (λ s. refused_request (seen_request request.now) ≡ None) }
    ensures tree { IfOk result (λ s. statement_of request.now.query.now ≡ Some (statement_tree s)) }
    ensures whole { IfOk result (λ s. WholeQuery (statement_tree s)) }
    ensures taken { IfOk result (λ s. refused_place_of request.now.command (statement_tree s) ≡ None) }
    ensures refused { IfErr result (StatementCause (seen_request request.now)) }
{
    if request.tables.len() > MAX_FILES {
        return Err(Outcome::Limit(LimitFault::Files(request.tables.len())));
    }
    let statement = match read_query(alloc, request.query) {
        Ok(statement) => statement,
        Err(fault) => return Err(ended(fault)),
    };
    match refused_place(request.command, &statement) {
        Some(at) => Err(Outcome::Query(QueryFault::NotPositive(at))),
        None => Ok(statement),
    }
}

// The place at which a command refuses a statement, if there is one.
fn refused_place(command: Command, statement: &Statement) -> Option<usize>
    ensures { result ≡ refused_place_of command (statement_tree statement.now) }
{
    match command {
        Command::Ua => not_positive(statement),
        Command::Answer | Command::Direct | Command::Guess | Command::Rewrite | Command::Explain =>
            None,
    }
}

// The text over the files of a request that is read.
fn statement_text<R: Threads + Sync, S: Shelf, G: Gate + Sync>(
    rt: &R,
    alloc: Global,
    shelf: &mut S,
    request: &Request<'_>,
    statement: &Statement,
    gate: G,
) -> Result<Vec<u8>, Outcome>
    requires workers { (1 ≤ request.now.workers) × (request.now.workers ≤ greatest_workers) }
    requires compression { IsCompression request.now.compress }
    requires whole { WholeQuery (statement_tree statement.now) }
    requires allowed { refused_request (seen_request request.now) ≡ None }
    requires tree { statement_of request.now.query.now ≡ Some (statement_tree statement.now) }
    requires taken { refused_place_of request.now.command (statement_tree statement.now) ≡ None }
    ensures text { IfOk result (λ t. IsRead (seen_request request.now) × Gives (S.files shelf.old) (seen_request request.now) (IsAnswer (seen_request request.now) t.items)) }
    ensures refused { IfErr result (RequestCause (seen_request request.now) (S.files shelf.old) (S.faults shelf.old) (S.faults shelf.new) (S.absences shelf.old) (S.absences shelf.new)) }
    ensures files { S.files shelf.new ≡ S.files shelf.old }
    ensures counts { (S.faults shelf.old ≤ S.faults shelf.new) × (S.absences shelf.old ≤ S.absences shelf.new) }
{
    let words = request.tables.as_slice();
    let tables = match query_tables(rt, alloc, shelf, request.workers, words) {
        Ok(tables) => tables,
        Err(outcome) => return Err(outcome),
    };
    match answer_text(rt, alloc, request, statement, tables.as_slice(), gate) {
        Ok(text) => {
            let_go(rt, request.workers, tables);
            Ok(text)
        }
        Err(fault) => Err(ended(fault)),
    }
}

// What a fault of the engine ends in.
fn ended(fault: EngineFault) -> Outcome
    ensures { result ≡ ended_of fault }
{
    match fault {
        EngineFault::Query(fault) => Outcome::Query(fault),
        EngineFault::Limit(fault) => Outcome::Limit(fault),
        EngineFault::Overflow => Outcome::Overflow,
        EngineFault::NoMemory => Outcome::NoMemory,
    }
}
