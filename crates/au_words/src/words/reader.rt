//! The command line as `clap` reads it.
ghost use Rattle.std.specs.Prelude.{◌≡◌, Bool, None, Some, false, true, drop, codes, is_some, option_and_then, option_map, if◌then◌else◌, IfOk};
ghost use Rattle.std.specs.Str.Parse.{digits_value};
ghost use Rattle.clap.specs.Words.{all_of, app_of, first_of, found_of, one_of, rows_of, new_app, new_rule, rule_of, subcommand_of, subcommand_rows_of, takes, with_subcommand};
ghost use Rattle.clap.specs.Simple.{on_top};
ghost use Rattle.au_words.specs.Words.{is_number};
ghost use Rattle.au_words.specs.CommandLine.{HasForm, HasNoGlobals, HasWords, IsFlag, audb, bare, command_line, flag, repeated, texts, valued};

use crate::words::form::Verb;
use crate::words::numbers::read_number;
use au_value::NoMemory;
use clap::error::ErrorKind;
use clap::{Arg, ArgAction, ArgMatches};
use std::alloc::{AllocError, Global};

// An option that stands alone.
fn flag<'a>(alloc: Global, name: &'a str) -> Arg<'a>
    ensures rule { rule_of result ≡ flag name.entry.now }
    ensures local { result.global ≡ false }
{
    Arg::new(alloc, name).long(name).action(ArgAction::SetTrue)
}

// An option with a value.
fn valued<'a>(alloc: Global, name: &'a str) -> Arg<'a>
    ensures rule { rule_of result ≡ valued name.entry.now }
    ensures local { result.global ≡ false }
{
    Arg::new(alloc, name).long(name)
}

// A positional word.
fn positional<'a>(alloc: Global, name: &'a str) -> Arg<'a>
    ensures rule { rule_of result ≡ new_rule name.entry.now }
    ensures local { result.global ≡ false }
{
    Arg::new(alloc, name)
}

// A positional word that may stand several times.
fn repeated<'a>(alloc: Global, name: &'a str) -> Arg<'a>
    ensures rule { rule_of result ≡ repeated name.entry.now }
    ensures local { result.global ≡ false }
{
    Arg::new(alloc, name).action(ArgAction::Append)
}

// The words of a command: each option may be given, and which of them it takes is judged beside.
fn command_line<'a>(alloc: Global, name: &'a str) -> Result<clap::Command<'a>, AllocError>
    ensures app { IfOk result (λ r. app_of r ≡ command_line name.entry.now) }
    ensures local { IfOk result HasNoGlobals }
{
    clap::Command::new(alloc, name)
        .arg(flag(alloc, "table"))?
        .arg(flag(alloc, "combine"))?
        .arg(flag(alloc, "points"))?
        .arg(valued(alloc, "workers"))?
        .arg(valued(alloc, "compress"))?
        .arg(positional(alloc, "FIRST"))?
        .arg(repeated(alloc, "LATER"))
}

// The program, without help and without its name before the words.
fn bare_line<'a>(alloc: Global) -> clap::Command<'a>
    ensures { app_of result ≡ on_top bare (new_app (codes "audb")) }
{
    clap::Command::new(alloc, "audb")
        .no_binary_name(true)
        .disable_help_flag(true)
        .disable_help_subcommand(true)
}

// A line with one more command.
fn with_command<'a>(
    alloc: Global,
    line: clap::Command<'a>,
    name: &'a str,
) -> Result<clap::Command<'a>, AllocError>
    ensures { IfOk result (λ r. app_of r ≡ with_subcommand (app_of line.entry) (command_line name.entry.now).top) }
{
    let command = command_line(alloc, name)?;
    line.subcommand(command)
}

// The command line of the program.
fn program_line<'a>(alloc: Global) -> Result<clap::Command<'a>, AllocError>
    ensures { IfOk result (λ r. app_of r ≡ audb) }
{
    let line = with_command(alloc, bare_line(alloc), "answer")?;
    let line = with_command(alloc, line, "direct")?;
    let line = with_command(alloc, line, "guess")?;
    let line = with_command(alloc, line, "ua")?;
    let line = with_command(alloc, line, "demo")?;
    let line = with_command(alloc, line, "rewrite")?;
    let line = with_command(alloc, line, "explain")?;
    let line = with_command(alloc, line, "encode")?;
    with_command(alloc, line, "plain")
}

// The matches of words that the command line takes.
fn parse<'a>(alloc: Global, words: &'a [&'a str]) -> Result<ArgMatches<'a>, NoMemory>
    requires { takes audb (texts words.now) ≡ true }
    ensures { IfOk result (λ m. subcommand_rows_of m ≡ subcommand_of audb (texts words.entry.now)) }
{
    let line = program_line(alloc)?;
    match line.try_get_matches_from(words) {
        Ok(matches) => Ok(matches),
        Err(error) if error.kind() == ErrorKind::OutOfMemory => Err(NoMemory),
        Err(_) => unreachable!(),
    }
}

// The matches behind the command.
fn below<'a>(mut matches: ArgMatches<'a>) -> ArgMatches<'a>
    requires { is_some (subcommand_rows_of matches) ≡ true }
    ensures { option_map (λ p. p.1) (subcommand_rows_of matches.entry) ≡ Some (rows_of (found_of result)) }
{
    match matches.remove_subcommand() {
        Some((_, below)) => below,
        None => unreachable!(),
    }
}

/// Whether an option was given.
pub fn has_flag(matches: &ArgMatches<'_>, id: &str) -> bool
    ensures { (given : Bool) → IsFlag (one_of id.now (rows_of (found_of matches.now))) given → result ≡ given }
{
    matches.get_flag(id)
}

/// The text of a positional word.
pub fn text_at<'a>(matches: &ArgMatches<'a>, id: &str) -> &'a str
    requires { is_some (first_of id.now (rows_of (found_of matches.now))) ≡ true }
    ensures { first_of id.now (rows_of (found_of matches.now)) ≡ Some result.now }
{
    match matches.get_str(id) {
        Some(text) => text,
        None => unreachable!(),
    }
}

/// The texts of the last positional words.
pub fn texts_at<'m, 'a>(matches: &'m ArgMatches<'a>, id: &str) -> &'m [&'a str]
    requires { is_some (all_of id.now (rows_of (found_of matches.now))) ≡ true }
    ensures { all_of id.now (rows_of (found_of matches.now)) ≡ Some (texts result.now) }
{
    match matches.get_strs(id) {
        Some(texts) => texts,
        None => unreachable!(),
    }
}

/// The number behind an option, if it was given.
pub fn number_at(matches: &ArgMatches<'_>, id: &str, most: u32) -> Option<u32>
    ensures { result ≡ option_and_then (λ text. if is_number 1 most text then Some (digits_value 10 text) else None) (first_of id.now (rows_of (found_of matches.now))) }
{
    match matches.get_str(id) {
        Some(text) => read_number(text, 1, most),
        None => None,
    }
}

/// The matches of the words of a command, of its form.
pub fn matches_of<'a>(
    alloc: Global,
    verb: Verb,
    words: &'a [&'a str],
) -> Result<ArgMatches<'a>, NoMemory>
    requires { HasForm verb (texts words.now) }
    ensures { IfOk result (λ m. HasWords (drop 1 (texts words.entry.now)) (rows_of (found_of m))) }
{
    Ok(below(parse(alloc, words)?))
}
