//! What a command line asks for.
ghost use Rattle.std.specs.Prelude.{◌≡◌, ◌<◌, None, Some, Ok, Err, codes, drop, length, map, option_and_then, unwrap_or, if◌then◌else◌, IfOk, IfErr, MatchOption};
ghost use Rattle.std.specs.Str.Parse.{digits_value};
ghost use Rattle.clap.specs.Words.{first_of, found_of, rows_of};
ghost use Rattle.au_words.specs.Words.{asked_by, asked_of, first_word, form_asked, greatest_workers, is_number, later_words, positionals, request_of, table_fault, named_path};
ghost use Rattle.au_words.specs.CommandLine.{HasForm, IsUsage, seen, seen_request, seen_table, texts};
ghost use Rattle.au_words.specs.declared.fault.UsageFault.TheVariants.{Words};
ghost use Rattle.au_words.specs.declared.words.form.Verb.TheVariants as verb;

use crate::answer_form::Form;
use crate::fault::UsageFault;
use crate::words::form::{MAX_COMPRESS, MAX_WORKERS, Verb, is_form, verb_of};
use crate::words::numbers::read_number;
use crate::words::reader::{has_flag, matches_of, number_at, text_at, texts_at};
use crate::words::table_words::{read_table, read_tables};
use crate::words::{Asked, Command, Request, TableWord, WordsFault};
use clap::ArgMatches;
use std::alloc::Global;

/// The greatest number of blocks of a demonstration.
const MAX_BLOCKS: u32 = 100_000;

// The number of workers, which is 1 where the option was not given.
fn workers_at(matches: &ArgMatches<'_>) -> usize
    ensures { result ≡ unwrap_or (option_and_then (λ text. if is_number 1 greatest_workers text then Some (digits_value 10 text) else None) (first_of (codes "workers") (rows_of (found_of matches.now)))) 1 }
{
    match number_at(matches, "workers", MAX_WORKERS) {
        Some(workers) => workers as usize,
        None => 1,
    }
}

// The form of an answer, by whether a table is asked for.
fn form_asked(table: bool) -> Form
    ensures { result ≡ form_asked table }
{
    if table { Form::Table } else { Form::Csv }
}

// Reads a query's words, of its form.
fn read_query<'a>(
    alloc: Global,
    command: Command,
    words: &'a [&'a str],
) -> Result<Request<'a>, WordsFault>
    requires { HasForm (verb.Query command) (texts words.now) }
    ensures fine { IfOk result (λ r. table_fault (later_words (drop 1 (texts words.entry.now))) ≡ None) }
    ensures request { IfOk result (λ r. seen_request r ≡ request_of command (drop 1 (texts words.entry.now))) }
    ensures refused { IfErr result (λ e. IsUsage e (λ fault. table_fault (later_words (drop 1 (texts words.entry.now))) ≡ Some fault)) }
{
    let Ok(matches) = matches_of(alloc, Verb::Query(command), words) else {
        return Err(WordsFault::NoMemory);
    };
    let form = form_asked(has_flag(&matches, "table"));
    let combine = has_flag(&matches, "combine");
    let points = has_flag(&matches, "points");
    let workers = workers_at(&matches);
    let compress = number_at(&matches, "compress", MAX_COMPRESS);
    let query = text_at(&matches, "FIRST");
    match read_tables(alloc, texts_at(&matches, "LATER")) {
        Ok(tables) => Ok(Request {
            command,
            form,
            combine,
            points,
            workers,
            compress,
            query,
            tables,
        }),
        Err(fault) => Err(fault),
    }
}

// What a query's words ask for.
fn ask_query<'a>(
    alloc: Global,
    command: Command,
    words: &'a [&'a str],
) -> Result<Asked<'a>, WordsFault>
    requires { HasForm (verb.Query command) (texts words.now) }
    ensures asked { IfOk result (λ asked. asked_by (verb.Query command) (drop 1 (texts words.entry.now)) ≡ Ok (seen asked)) }
    ensures refused { IfErr result (λ e. IsUsage e (λ fault. asked_by (verb.Query command) (drop 1 (texts words.entry.now)) ≡ Err fault)) }
{
    match read_query(alloc, command, words) {
        Ok(request) => Ok(Asked::Query(request)),
        Err(fault) => Err(fault),
    }
}

// What a demonstration's words ask for.
fn ask_demo<'a>(alloc: Global, words: &'a [&'a str]) -> Result<Asked<'a>, WordsFault>
    requires { HasForm verb.Demo (texts words.now) }
    ensures asked { IfOk result (λ asked. asked_by verb.Demo (drop 1 (texts words.entry.now)) ≡ Ok (seen asked)) }
    ensures refused { IfErr result (λ e. IsUsage e (λ fault. asked_by verb.Demo (drop 1 (texts words.entry.now)) ≡ Err fault)) }
{
    let Ok(matches) = matches_of(alloc, Verb::Demo, words) else {
        return Err(WordsFault::NoMemory);
    };
    let workers = workers_at(&matches);
    let Some(start) = read_number(text_at(&matches, "FIRST"), 0, u32::MAX) else {
        return Err(WordsFault::Usage(UsageFault::Words));
    };
    let Some(blocks) = read_number(text_at(&matches, "LATER"), 1, MAX_BLOCKS) else {
        return Err(WordsFault::Usage(UsageFault::Words));
    };
    Ok(Asked::Demo {
        start,
        blocks,
        workers,
    })
}

// The path of a plan's file, and tables.
#[derive(Drop)]
struct Planned<'a> {
    plan: &'a str,
    tables: Vec<TableWord<'a>>,
}

// Reads the words of `plain`, of their form.
fn read_plain<'a>(alloc: Global, words: &'a [&'a str]) -> Result<Planned<'a>, WordsFault>
    requires { HasForm verb.Plain (texts words.now) }
    ensures fine { IfOk result (λ r. table_fault (later_words (drop 1 (texts words.entry.now))) ≡ None) }
    ensures plan { IfOk result (λ r. r.plan.now ≡ first_word (drop 1 (texts words.entry.now))) }
    ensures tables { IfOk result (λ r. map seen_table r.tables.items ≡ map named_path (later_words (drop 1 (texts words.entry.now)))) }
    ensures refused { IfErr result (λ e. IsUsage e (λ fault. table_fault (later_words (drop 1 (texts words.entry.now))) ≡ Some fault)) }
{
    let Ok(matches) = matches_of(alloc, Verb::Plain, words) else {
        return Err(WordsFault::NoMemory);
    };
    let plan = text_at(&matches, "FIRST");
    match read_tables(alloc, texts_at(&matches, "LATER")) {
        Ok(tables) => Ok(Planned { plan, tables }),
        Err(fault) => Err(fault),
    }
}

// What the words of `plain` ask for.
fn ask_plain<'a>(alloc: Global, words: &'a [&'a str]) -> Result<Asked<'a>, WordsFault>
    requires { HasForm verb.Plain (texts words.now) }
    ensures asked { IfOk result (λ asked. asked_by verb.Plain (drop 1 (texts words.entry.now)) ≡ Ok (seen asked)) }
    ensures refused { IfErr result (λ e. IsUsage e (λ fault. asked_by verb.Plain (drop 1 (texts words.entry.now)) ≡ Err fault)) }
{
    match read_plain(alloc, words) {
        Ok(Planned { plan, tables }) => Ok(Asked::Plain { plan, tables }),
        Err(fault) => Err(fault),
    }
}

// What the words of `encode` ask for.
fn ask_encode<'a>(alloc: Global, words: &'a [&'a str]) -> Result<Asked<'a>, WordsFault>
    requires { HasForm verb.Encode (texts words.now) }
    ensures asked { IfOk result (λ asked. asked_by verb.Encode (drop 1 (texts words.entry.now)) ≡ Ok (seen asked)) }
    ensures refused { IfErr result (λ e. IsUsage e (λ fault. asked_by verb.Encode (drop 1 (texts words.entry.now)) ≡ Err fault)) }
{
    let Ok(matches) = matches_of(alloc, Verb::Encode, words) else {
        return Err(WordsFault::NoMemory);
    };
    match read_table(text_at(&matches, "FIRST")) {
        Ok(table) => Ok(Asked::Encode(table)),
        Err(fault) => Err(WordsFault::Usage(fault)),
    }
}

// What the words of a command ask for, where they are of its form.
fn read_form<'a>(alloc: Global, verb: Verb, words: &'a [&'a str]) -> Result<Asked<'a>, WordsFault>
    requires { HasForm verb (texts words.now) }
    ensures asked { IfOk result (λ asked. asked_by verb (drop 1 (texts words.entry.now)) ≡ Ok (seen asked)) }
    ensures refused { IfErr result (λ e. IsUsage e (λ fault. asked_by verb (drop 1 (texts words.entry.now)) ≡ Err fault)) }
{
    match verb {
        Verb::Query(command) => ask_query(alloc, command, words),
        Verb::Demo => ask_demo(alloc, words),
        Verb::Encode => ask_encode(alloc, words),
        Verb::Plain => ask_plain(alloc, words),
    }
}

// The command that words are of the form of.
fn form_of(words: &[&str]) -> Option<Verb>
    ensures { MatchOption result (asked_of (texts words.now) ≡ Err Words) (λ verb. HasForm verb (texts words.now)) }
{
    let Some((word, rest)) = words.split_first() else {
        return None;
    };
    let Some(verb) = verb_of(word) else {
        return None;
    };
    if is_form(verb, rest) {
        Some(verb)
    } else {
        None
    }
}

/// Reads the words of a command line.
pub fn read_words<'a>(alloc: Global, words: &'a [&'a str]) -> Result<Asked<'a>, WordsFault>
    ensures asked { IfOk result (λ asked. asked_of (texts words.entry.now) ≡ Ok (seen asked)) }
    ensures refused { IfErr result (λ e. IsUsage e (λ fault. asked_of (texts words.entry.now) ≡ Err fault)) }
{
    match form_of(words) {
        Some(verb) => read_form(alloc, verb, words),
        None => Err(WordsFault::Usage(UsageFault::Words)),
    }
}
