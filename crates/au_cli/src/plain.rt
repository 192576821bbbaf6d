//! A plan in a file, run over the guess rows of tables.
ghost use Rattle.std.specs.Prelude.{◌≡◌, ◌≤◌, Ok, IfOk, IfErr, map, length, option_map};
ghost use Rattle.au_plain.specs.Plans.{plan_tree};
ghost use Rattle.au_engine.specs.Exchange.{plain_text as plain_text_of};
ghost use Rattle.au_words.specs.CommandLine.{seen_table};
ghost use Rattle.au_cli.specs.Files.{FileFound, greatest_files, greatest_total, size_of};
ghost use Rattle.au_cli.specs.Plain.{file_plan as file_plan_of, line_of as line_of_bytes, line_plan};
ghost use Rattle.au_cli.specs.PlanCauses.{LineCause, OverCause, OverGives, PlanCause, PlanFileCause, PlanGives, ended_plain, ended_text as ended_text_of};

use crate::files::{MAX_FILES, Purpose, file_bytes, read_tables};
use crate::outcome::Outcome;
use au_engine::{LimitFault, PlainFault, plain_answer};
use au_io::Shelf;
use au_par::Gate;
use au_plain::Plan;
use au_sqltext::{PlanFault, read_plan};
use au_words::TableWord;
use std::alloc::Global;
use std::str;
use std::thread::Threads;

// A plan, and the size of its file in bytes.
#[derive(Drop)]
struct FilePlan {
    size: usize,
    plan: Plan,
}

/// The rows of the plan in a file over the guess rows of the tables that the words name, or the outcome that is in their
/// place. The plan's file is file 0.
pub(crate) fn plain_text<R: Threads + Sync, S: Shelf, G: Gate + Sync>(
    rt: &R,
    alloc: Global,
    shelf: &mut S,
    path: &str,
    words: &[TableWord<'_>],
    gate: G,
) -> Result<Vec<u8>, Outcome>
    ensures text { IfOk result (λ text. (length (map seen_table words.now) ≤ greatest_files) × PlanGives (S.files shelf.old) path.now (map seen_table words.now) (λ ts p. text.items ≡ plain_text_of ts p)) }
    ensures refused { IfErr result (PlanCause path.now (map seen_table words.now) (S.files shelf.old) (S.faults shelf.old) (S.faults shelf.new) (S.absences shelf.old) (S.absences shelf.new)) }
    ensures files { S.files shelf.new ≡ S.files shelf.old }
    ensures counts { (S.faults shelf.old ≤ S.faults shelf.new) × (S.absences shelf.old ≤ S.absences shelf.new) }
{
    if words.len() > MAX_FILES {
        return Err(Outcome::Limit(LimitFault::Files(words.len())));
    }
    let file = match file_plan(alloc, shelf, path) {
        Ok(file) => file,
        Err(outcome) => return Err(outcome),
    };
    match over_tables(rt, alloc, shelf, file, words, gate) {
        Ok(text) => Ok(text),
        Err(outcome) => Err(outcome),
    }
}

// The rows of a plan over the guess rows of the tables that the words name.
fn over_tables<R: Threads + Sync, S: Shelf, G: Gate + Sync>(
    rt: &R,
    alloc: Global,
    shelf: &mut S,
    file: FilePlan,
    words: &[TableWord<'_>],
    gate: G,
) -> Result<Vec<u8>, Outcome>
    requires { file.size ≤ greatest_total }
    ensures text { IfOk result (λ text. OverGives (S.files shelf.old) file.size (map seen_table words.now) (plan_tree file.plan) (λ ts p. text.items ≡ plain_text_of ts p)) }
    ensures refused { IfErr result (OverCause (S.files shelf.old) file.size (map seen_table words.now) (plan_tree file.plan) (S.faults shelf.old) (S.faults shelf.new) (S.absences shelf.old) (S.absences shelf.new)) }
    ensures files { S.files shelf.new ≡ S.files shelf.old }
    ensures counts { (S.faults shelf.old ≤ S.faults shelf.new) × (S.absences shelf.old ≤ S.absences shelf.new) }
{
    let tables = match read_tables(alloc, shelf, Purpose::Plan, 1, file.size, words) {
        Ok(tables) => tables,
        Err(outcome) => return Err(outcome),
    };
    match plain_answer(rt, alloc, file.plan, tables.as_slice(), gate) {
        Ok(text) => Ok(text),
        Err(fault) => Err(ended(fault)),
    }
}

// What a plan ends in that is not run.
fn ended(fault: PlainFault) -> Outcome
    ensures { result ≡ ended_plain fault }
{
    match fault {
        PlainFault::Untyped => Outcome::Plan(PlanFault::Untyped),
        PlainFault::Overflow => Outcome::Overflow,
        PlainFault::NoMemory => Outcome::NoMemory,
    }
}

// The plan of the file at a path.
fn file_plan<S: Shelf>(alloc: Global, shelf: &mut S, path: &str) -> Result<FilePlan, Outcome>
    ensures plan { IfOk result (λ f. FileFound (S.files shelf.old) path.now (λ found. (file_plan_of found ≡ Ok (plan_tree f.plan)) × (size_of found ≡ f.size))) }
    ensures small { IfOk result (λ f. f.size ≤ greatest_total) }
    ensures refused { IfErr result (PlanFileCause (S.files shelf.old) path.now (S.faults shelf.old) (S.faults shelf.new) (S.absences shelf.old) (S.absences shelf.new)) }
    ensures files { S.files shelf.new ≡ S.files shelf.old }
    ensures counts { (S.faults shelf.old ≤ S.faults shelf.new) × (S.absences shelf.old ≤ S.absences shelf.new) }
{
    let bytes = match file_bytes(alloc, shelf, 0, 0, path) {
        Ok(bytes) => bytes,
        Err(outcome) => return Err(outcome),
    };
    match plan_of(alloc, line_of(bytes.as_slice())) {
        Ok(plan) => Ok(FilePlan {
            size: bytes.len(),
            plan,
        }),
        Err(outcome) => Err(outcome),
    }
}

// The text before the line feed that ends the bytes, if they are UTF-8 and one does.
fn line_of(bytes: &[u8]) -> Option<&str>
    ensures { option_map (λ line. line.now) result ≡ line_of_bytes bytes.now }
{
    match str::from_utf8(bytes) {
        Ok(text) => text.strip_suffix('\n'),
        Err(_) => None,
    }
}

// The plan of a line.
fn plan_of(alloc: Global, line: Option<&str>) -> Result<Plan, Outcome>
    ensures plan { IfOk result (λ p. line_plan (option_map (λ l. l.now) line.entry) ≡ Ok (plan_tree p)) }
    ensures refused { IfErr result (LineCause (option_map (λ l. l.now) line.entry)) }
{
    let Some(text) = line else {
        return Err(Outcome::Plan(PlanFault::Text));
    };
    match read_plan(alloc, text) {
        Ok(plan) => Ok(plan),
        Err(fault) => Err(ended_text(fault)),
    }
}

// What a text ends in that is no plan.
fn ended_text(fault: PlanFault) -> Outcome
    ensures { result ≡ ended_text_of fault }
{
    match fault {
        PlanFault::NoMemory => Outcome::NoMemory,
        PlanFault::Text | PlanFault::Deep | PlanFault::Untyped => Outcome::Plan(fault),
    }
}
