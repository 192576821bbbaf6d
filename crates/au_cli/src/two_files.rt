//! The tables of two files, which are parsed side by side.
//!
//! The bytes are read one file after the other, as the shelf gives them. Each file's bytes are then made a table in a thread
//! of its own.
ghost use Rattle.std.specs.Prelude.{◌≡◌, ◌≤◌, ◌∷◌, [], Ok, IfErr, IfOk, IfSome, map};
ghost use Rattle.au_words.specs.CommandLine.{seen_table};
ghost use Rattle.au_cli.specs.FileCauses.{FilesCause};
ghost use Rattle.au_cli.specs.Files.{FilesFound, tables_from};
ghost use Rattle.au_cli.specs.TwoFiles.{BothTables, NamesRead, NamesTable};

use crate::files::{Purpose, file_bytes, named_table, read_tables};
use crate::outcome::Outcome;
use au_blocks::Table;
use au_io::Shelf;
use au_value::Word;
use au_words::TableWord;
use std::alloc::Global;
use std::thread::{Threads, join};

/// The tables of a query's files, each under its name, in the order of the words. Two files are parsed side by side where
/// there are several workers. Other files are parsed one after the other.
pub(crate) fn query_tables<R: Threads + Sync, S: Shelf>(
    rt: &R,
    alloc: Global,
    shelf: &mut S,
    workers: usize,
    words: &[TableWord<'_>],
) -> Result<Vec<(Word, Table)>, Outcome>
    ensures tables { IfOk result (λ v. FilesFound (S.files shelf.old) (map seen_table words.now) (λ found. tables_from Purpose.Query 0 0 found ≡ Ok v.items)) }
    ensures refused { IfErr result (FilesCause (S.files shelf.old) Purpose.Query 0 0 (map seen_table words.now) (S.faults shelf.old) (S.faults shelf.new) (S.absences shelf.old) (S.absences shelf.new)) }
    ensures files { S.files shelf.new ≡ S.files shelf.old }
    ensures counts { (S.faults shelf.old ≤ S.faults shelf.new) × (S.absences shelf.old ≤ S.absences shelf.new) }
{
    if workers == 1 {
        return read_tables(alloc, shelf, Purpose::Query, 0, 0, words);
    }
    match two_words(words) {
        Some((first, second)) => two_tables(rt, alloc, shelf, first, second),
        None => read_tables(alloc, shelf, Purpose::Query, 0, 0, words),
    }
}

// The two words, where there are two.
fn two_words<'a, 'w>(words: &'a [TableWord<'w>]) -> Option<(&'a TableWord<'w>, &'a TableWord<'w>)>
    ensures { IfSome result (λ p. words.now ≡ p.0.now ∷ p.1.now ∷ []) }
{
    let (first, others) = words.split_first()?;
    let (second, rest) = others.split_first()?;
    if rest.is_empty() {
        Some((first, second))
    } else {
        None
    }
}

// The tables of two files.
fn two_tables<R: Threads + Sync, S: Shelf>(
    rt: &R,
    alloc: Global,
    shelf: &mut S,
    first: &TableWord<'_>,
    second: &TableWord<'_>,
) -> Result<Vec<(Word, Table)>, Outcome>
    ensures tables { IfOk result (λ v. FilesFound (S.files shelf.old) (seen_table first.now ∷ seen_table second.now ∷ []) (λ found. tables_from Purpose.Query 0 0 found ≡ Ok v.items)) }
    ensures refused { IfErr result (FilesCause (S.files shelf.old) Purpose.Query 0 0 (seen_table first.now ∷ seen_table second.now ∷ []) (S.faults shelf.old) (S.faults shelf.new) (S.absences shelf.old) (S.absences shelf.new)) }
    ensures files { S.files shelf.new ≡ S.files shelf.old }
    ensures counts { (S.faults shelf.old ≤ S.faults shelf.new) × (S.absences shelf.old ≤ S.absences shelf.new) }
{
    let bytes = match file_bytes(alloc, shelf, 0, 0, first.path) {
        Ok(bytes) => bytes,
        Err(outcome) => return Err(outcome),
    };
    let more = file_bytes(alloc, shelf, 1, bytes.len(), second.path);
    let (one, other) = parsed(rt, alloc, first.name, bytes.as_slice(), second.name, &more);
    both_tables(alloc, one, other)
}

// The tables of the bytes of two files, of which the second may be refused.
fn parsed<R: Threads + Sync>(
    rt: &R,
    alloc: Global,
    first: &str,
    bytes: &[u8],
    second: &str,
    more: &Result<Vec<u8>, Outcome>,
) -> (
    Result<(Word, Table), Outcome>,
    Result<(Word, Table), Outcome>,
)
    ensures one { NamesTable Purpose.Query 0 first.now bytes.now result.0 }
    ensures other { NamesRead Purpose.Query 1 second.now more.now result.1 }
{
    join(
        rt,
        || -> Result<(Word, Table), Outcome>
            ensures { NamesTable Purpose.Query 0 first.entry.now bytes.entry.now result }
        { named_table(alloc, Purpose::Query, 0, first, bytes) },
        || -> Result<(Word, Table), Outcome>
            ensures { NamesRead Purpose.Query 1 second.entry.now more.entry.now result }
        { named_read(alloc, 1, second, more) },
    )
}

// The table of a file's bytes, where they were read.
fn named_read(
    alloc: Global,
    file: usize,
    name: &str,
    bytes: &Result<Vec<u8>, Outcome>,
) -> Result<(Word, Table), Outcome>
    ensures { NamesRead Purpose.Query file name.now bytes.now result }
{
    match bytes {
        Ok(bytes) => named_table(alloc, Purpose::Query, file, name, bytes.as_slice()),
        Err(outcome) => Err(*outcome),
    }
}

// Both tables, or the first refusal.
fn both_tables(
    alloc: Global,
    one: Result<(Word, Table), Outcome>,
    other: Result<(Word, Table), Outcome>,
) -> Result<Vec<(Word, Table)>, Outcome>
    ensures { BothTables one other result }
{
    let one = one?;
    let other = other?;
    match vec![in alloc; one, other] {
        Ok(tables) => Ok(tables),
        Err(_) => Err(Outcome::NoMemory),
    }
}
