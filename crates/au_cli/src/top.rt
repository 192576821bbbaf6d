//! All that the program does.
ghost use Rattle.std.specs.Prelude.{◌≡◌, ◌≢◌, ◌⊎◌, ◌<◌, ◌≤◌, ℕ, List, [], Some, None, IfOk, IfErr, IfSome, Ok, Err};
ghost use Rattle.std.specs.Io.KnownBytes.{Appends};
ghost use Rattle.au_io.specs.Counts.{Rose};
ghost use Rattle.au_io.specs.Files.{AppendsFront, File};
ghost use Rattle.au_words.specs.declared.fault.UsageFault.{UsageFault};
ghost use Rattle.au_words.specs.Words.{asked_of, first_usage_fault, greatest_workers};
ghost use Rattle.au_cli.specs.Lines.{fault_text};
ghost use Rattle.au_engine.specs.declared.faults.QueryFault.TheVariants.{NotPositive};
ghost use Rattle.au_cli.specs.Causes.{AskedCause, AskedNotPositive, DemoCause, Ends, IsAskedText, LinePut, PrintsAsked, PrintsAskedFront, TextPut, DemoText, fault_counts};
ghost use Rattle.au_cli.specs.Requests.{IsRefusal, Refusal};
ghost use Rattle.au_cli.specs.Run.{CanAnswer, Yields, file_count, first_refusal, named_file, refused_before};
ghost use Rattle.au_cli.specs.Demo.{Demonstrates};

use crate::demo::demonstration;
use crate::encoding::file_text;
use crate::line::fault_line;
use crate::outcome::Outcome;
use crate::plain::plain_text;
use crate::requests::request_text;
use au_expr::EvalFault;
use au_io::{PutFault, Shelf, Sink};
use au_par::Gate;
use au_value::{NoMemory, Word};
use au_words::{Asked, CommandLine, WordsFault};
use std::alloc::Global;
use std::thread::Threads;

/// Does all that the program does with these words: reads the tables' files from the shelf, puts the answer on `out`,
/// and on an outcome other than `Done` one line on `err`, as far as memory and `err` allow.
///
/// The gate is handed to every run of a plan, and told of each piece of a join or a grouping that its workers begin; the
/// program hands in `NoGate`. All clauses hold for every gate.
pub fn run<R: Threads + Sync, S: Shelf, O: Sink, E: Sink, G: Gate + Sync>(
    rt: &R,
    alloc: Global,
    words: &[Word],
    shelf: &mut S,
    out: &mut O,
    err: &mut E,
    gate: G,
) -> Outcome
    // The words and the query, whatever the shelf holds.
    ensures usage_cause { (f : UsageFault) → result ≡ Outcome.Usage f → first_usage_fault words.now ≡ Some f }
    ensures usage { (f : UsageFault) → first_usage_fault words.now ≡ Some f → Yields result (Outcome.Usage f) }
    ensures query { (r : Refusal) → refused_before (asked_of words.now) ≡ Some r → IsRefusal r result ⊎ (result ≡ Outcome.NoMemory) }

    // Only `ua` refuses a statement that is not positive, and only as the first refusal.
    ensures not_positive { (at : ℕ) → result ≡ Outcome.Query (NotPositive at) → AskedNotPositive (asked_of words.now) at }

    // Each refusal has its cause. The file that it names is one of the words'.
    ensures cause { result ≢ Outcome.Done → result ≢ Outcome.WriteFault → AskedCause (asked_of words.now) (S.files shelf.old) (S.faults shelf.old) (S.faults shelf.new) (S.absences shelf.old) (S.absences shelf.new) result }
    ensures no_file { (i : ℕ) → result ≡ Outcome.NoFile i → Rose (S.absences shelf.old) (S.absences shelf.new) }
    ensures file { IfSome (named_file result) (λ i. i < file_count (asked_of words.now)) }
    ensures read_fault { (i : ℕ) → result ≡ Outcome.ReadFault i → Rose (S.faults shelf.old) (S.faults shelf.new) }

    // The answer, put by one call once its whole text is there. What is printed holds in every possible world.
    ensures headline { result ≡ Outcome.Done → PrintsAsked (asked_of words.now) (S.files shelf.old) (O.written out.old) (O.written out.new) }
    ensures write_fault { result ≡ Outcome.WriteFault → Rose (O.faults out.old) (O.faults out.new) }
    ensures front { result ≡ Outcome.WriteFault → PrintsAskedFront (asked_of words.now) (S.files shelf.old) (O.written out.old) (O.written out.new) }
    ensures nothing_put { result ≢ Outcome.Done → result ≢ Outcome.WriteFault → Appends (O.written out.old) (O.written out.new) [] }

    // The fault line: whole, a front of it where its put failed, or nothing where memory ran out.
    ensures no_line { result ≡ Outcome.Done → Appends (E.written err.old) (E.written err.new) [] }
    ensures line { result ≢ Outcome.Done → LinePut (E.faults err.old) (E.faults err.new) (E.written err.old) (E.written err.new) (fault_text result) }

    // Over told files, and where no read and no put fails, the first refusal comes, and what is given is answered.
    ensures refusal { (files : List File) (r : Refusal) → S.files shelf.old ≡ Some files → ¬ Rose (S.faults shelf.old) (S.faults shelf.new) → first_refusal (asked_of words.now) files ≡ Some r → IsRefusal r result ⊎ (result ≡ Outcome.NoMemory) }
    ensures complete { (files : List File) → S.files shelf.old ≡ Some files → ¬ Rose (S.faults shelf.old) (S.faults shelf.new) → ¬ Rose (O.faults out.old) (O.faults out.new) → CanAnswer (asked_of words.now) files → Yields result Outcome.Done }
    ensures files { S.files shelf.new ≡ S.files shelf.old }
    ensures counts { (S.faults shelf.old ≤ S.faults shelf.new) × (S.absences shelf.old ≤ S.absences shelf.new) × (O.faults out.old ≤ O.faults out.new) × (E.faults err.old ≤ E.faults err.new) }
{
    let outcome = answer(rt, alloc, words, shelf, out, gate);
    report(alloc, err, &outcome);
    outcome
}

// Makes the text that is asked for and puts it.
fn answer<R: Threads + Sync, S: Shelf, O: Sink, G: Gate + Sync>(
    rt: &R,
    alloc: Global,
    words: &[Word],
    shelf: &mut S,
    out: &mut O,
    gate: G,
) -> Outcome
    ensures ends { Ends (asked_of words.now) (S.files shelf.old) (fault_counts (S.faults shelf.old) (S.faults shelf.new) (S.absences shelf.old) (S.absences shelf.new) (O.faults out.old) (O.faults out.new)) (O.written out.old) (O.written out.new) result }
    ensures files { S.files shelf.new ≡ S.files shelf.old }
    ensures counts { (S.faults shelf.old ≤ S.faults shelf.new) × (S.absences shelf.old ≤ S.absences shelf.new) × (O.faults out.old ≤ O.faults out.new) }
{
    match text(rt, alloc, words, shelf, gate) {
        Ok(text) => put(out, text.as_slice()),
        Err(outcome) => outcome,
    }
}

// The text to be put, or the outcome that is in its place.
fn text<R: Threads + Sync, S: Shelf, G: Gate + Sync>(
    rt: &R,
    alloc: Global,
    words: &[Word],
    shelf: &mut S,
    gate: G,
) -> Result<Vec<u8>, Outcome>
    ensures text { IfOk result (λ text. IsAskedText (asked_of words.now) (S.files shelf.old) text.items) }
    ensures refused { IfErr result (AskedCause (asked_of words.now) (S.files shelf.old) (S.faults shelf.old) (S.faults shelf.new) (S.absences shelf.old) (S.absences shelf.new)) }
    ensures files { S.files shelf.new ≡ S.files shelf.old }
    ensures counts { (S.faults shelf.old ≤ S.faults shelf.new) × (S.absences shelf.old ≤ S.absences shelf.new) }
{
    let Ok(line) = CommandLine::of(alloc, words) else {
        return Err(Outcome::NoMemory);
    };
    line_text(rt, alloc, &line, shelf, gate)
}

// The text that a command line asks for.
fn line_text<R: Threads + Sync, S: Shelf, G: Gate + Sync>(
    rt: &R,
    alloc: Global,
    line: &CommandLine<'_>,
    shelf: &mut S,
    gate: G,
) -> Result<Vec<u8>, Outcome>
    ensures text { IfOk result (λ text. IsAskedText (asked_of line.now) (S.files shelf.old) text.items) }
    ensures refused { IfErr result (AskedCause (asked_of line.now) (S.files shelf.old) (S.faults shelf.old) (S.faults shelf.new) (S.absences shelf.old) (S.absences shelf.new)) }
    ensures files { S.files shelf.new ≡ S.files shelf.old }
    ensures counts { (S.faults shelf.old ≤ S.faults shelf.new) × (S.absences shelf.old ≤ S.absences shelf.new) }
{
    match line.read(alloc) {
        Ok(Asked::Query(request)) => request_text(rt, alloc, shelf, &request, gate),
        Ok(
            Asked::Demo {
                start,
                blocks,
                workers,
            },
        ) => demo_text(rt, alloc, start, blocks, workers, gate),
        Ok(Asked::Encode(word)) => file_text(alloc, shelf, &word),
        Ok(Asked::Plain { plan, tables }) => {
            plain_text(rt, alloc, shelf, plan, tables.as_slice(), gate)
        }
        Err(WordsFault::Usage(fault)) => Err(Outcome::Usage(fault)),
        Err(WordsFault::NoMemory) => Err(Outcome::NoMemory),
    }
}

// The text of a demonstration.
fn demo_text<R: Threads + Sync, G: Gate + Sync>(
    rt: &R,
    alloc: Global,
    start: u32,
    blocks: u32,
    workers: usize,
    gate: G,
) -> Result<Vec<u8>, Outcome>
    requires some { 1 ≤ blocks }
    requires few { blocks ≤ 100000 }
    requires workers { (1 ≤ workers) × (workers ≤ greatest_workers) }
    ensures text { IfOk result (λ text. Demonstrates start blocks (λ ts s. text.items ≡ DemoText ts s)) }
    ensures refused { IfErr result (DemoCause start blocks) }
{
    match demonstration(rt, alloc, start, blocks, workers, gate) {
        Ok(text) => Ok(text),
        Err(EvalFault::Overflow) => Err(Outcome::Overflow),
        Err(EvalFault::NoMemory) => Err(Outcome::NoMemory),
    }
}

// Puts the text of the answer by one call.
fn put<O: Sink>(out: &mut O, text: &[u8]) -> Outcome
    ensures text { TextPut (O.faults out.old) (O.faults out.new) (O.written out.old) (O.written out.new) text.now result }
    ensures count { O.faults out.old ≤ O.faults out.new }
{
    match out.put(text) {
        Ok(()) => Outcome::Done,
        Err(PutFault::Failed) => Outcome::WriteFault,
        Err(PutFault::NoMemory) => Outcome::NoMemory,
    }
}

// Puts the line that says how the run ended, if it is not done.
fn report<E: Sink>(alloc: Global, err: &mut E, outcome: &Outcome)
    ensures no_line { outcome.now ≡ Outcome.Done → Appends (E.written err.old) (E.written err.new) [] }
    ensures line { outcome.now ≢ Outcome.Done → LinePut (E.faults err.old) (E.faults err.new) (E.written err.old) (E.written err.new) (fault_text outcome.now) }
    ensures count { E.faults err.old ≤ E.faults err.new }
{
    if *outcome == Outcome::Done {
        return;
    }
    if let Ok(line) = fault_line(alloc, outcome) {
        let _ = err.put(line.as_slice());
    }
}
