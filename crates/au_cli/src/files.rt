//! The tables of the files that the words name.
ghost use Rattle.std.specs.Prelude.{◌≡◌, ◌+◌, ◌≤◌, ℕ, map, Ok, Some, IfOk, IfErr, vec_len};
ghost use Rattle.au_blocks.specs.Read.{table_of};
ghost use Rattle.au_words.specs.CommandLine.{seen_table};
ghost use Rattle.au_cli.specs.FileCauses.{BytesCause, FileCause, FilesCause, ReadCause};
ghost use Rattle.au_cli.specs.Files.{FileFound, FilesFound, IsFoundAt, file_bytes as file_bytes_of, file_table as file_table_of, greatest_size, greatest_total, passed_limit as passed_limit_of, size_of, table_or_defect, tables_from};

use crate::outcome::Outcome;
use crate::reading::{ReadingFault, read_file};
use au_blocks::{Table, TableFault, read_table};
use au_engine::{LimitFault, fits_plain};
use au_io::Shelf;
use au_value::{NoMemory, Word};
use au_words::TableWord;
use std::alloc::Global;

/// The greatest number of files that words name.
pub(crate) const MAX_FILES: usize = 8;

// The greatest size of all files, in bytes.
const MAX_TOTAL: usize = 16_777_216;

// The greatest number of columns of a table whose rows are encoded.
const MAX_COLUMNS: usize = 20;

/// What the table of a file is read for.
#[derive(Clone, Copy, Debug, PartialEq, Eq)]
pub(crate) enum Purpose {
    /// A query.
    Query,

    /// Its encoded rows.
    Encode,

    /// A plan that is run over its guess rows.
    Plan,
}

// A table under its name, and the size of its file in bytes.
#[derive(Drop)]
pub(crate) struct FileTable {
    pub(crate) size: usize,
    pub(crate) table: (Word, Table),
}

/// The tables of the files that the words name, each under its name, in the order of the words. The first file has this
/// number, and so many bytes were read of files before it.
pub(crate) fn read_tables<S: Shelf>(
    alloc: Global,
    shelf: &mut S,
    purpose: Purpose,
    first: usize,
    before: usize,
    words: &[TableWord<'_>],
) -> Result<Vec<(Word, Table)>, Outcome>
    requires first { first ≤ 1 }
    requires small { before ≤ greatest_total }
    ensures tables { IfOk result (λ v. FilesFound (S.files shelf.old) (map seen_table words.now) (λ found. tables_from purpose first before found ≡ Ok v.items)) }
    ensures refused { IfErr result (FilesCause (S.files shelf.old) purpose first before (map seen_table words.now) (S.faults shelf.old) (S.faults shelf.new) (S.absences shelf.old) (S.absences shelf.new)) }
    ensures files { S.files shelf.new ≡ S.files shelf.old }
    ensures counts { (S.faults shelf.old ≤ S.faults shelf.new) × (S.absences shelf.old ≤ S.absences shelf.new) }
{
    let mut tables = Vec::new(alloc);
    let mut read = before;
    for word in words {
        let file = first + tables.len();
        match file_table(alloc, shelf, purpose, file, read, word) {
            Ok(file) => {
                read += file.size;
                if tables.push(file.table).is_err() {
                    return Err(Outcome::NoMemory);
                }
            }
            Err(outcome) => return Err(outcome),
        }
    }
    Ok(tables)
}

/// The table of the file of this number, behind so many bytes of the files before it.
pub(crate) fn file_table<S: Shelf>(
    alloc: Global,
    shelf: &mut S,
    purpose: Purpose,
    file: usize,
    before: usize,
    word: &TableWord<'_>,
) -> Result<FileTable, Outcome>
    requires { before ≤ greatest_total }
    ensures name { IfOk result (λ f. f.table.0 ≡ word.now.name.now) }
    ensures table { IfOk result (λ f. FileFound (S.files shelf.old) word.now.path.now (λ found. (file_table_of purpose file before found ≡ Ok f.table.1) × (size_of found ≡ f.size))) }
    ensures small { IfOk result (λ f. before + f.size ≤ greatest_total) }
    ensures refused { IfErr result (FileCause (S.files shelf.old) purpose word.now.path.now file before (S.faults shelf.old) (S.faults shelf.new) (S.absences shelf.old) (S.absences shelf.new)) }
    ensures files { S.files shelf.new ≡ S.files shelf.old }
    ensures counts { (S.faults shelf.old ≤ S.faults shelf.new) × (S.absences shelf.old ≤ S.absences shelf.new) }
{
    let bytes = match file_bytes(alloc, shelf, file, before, word.path) {
        Ok(bytes) => bytes,
        Err(outcome) => return Err(outcome),
    };
    match named_table(alloc, purpose, file, word.name, bytes.as_slice()) {
        Ok(table) => Ok(FileTable {
            size: bytes.len(),
            table,
        }),
        Err(outcome) => Err(outcome),
    }
}

/// The bytes of the file of this number, behind so many bytes of the files before it.
pub(crate) fn file_bytes<S: Shelf>(
    alloc: Global,
    shelf: &mut S,
    file: usize,
    before: usize,
    path: &str,
) -> Result<Vec<u8>, Outcome>
    requires { before ≤ greatest_total }
    ensures read { IfOk result (λ bytes. IsFoundAt (S.files shelf.old) path.now (Some bytes.items)) }
    ensures bytes { IfOk result (λ bytes. file_bytes_of file before (Some bytes.items) ≡ Ok bytes.items) }
    ensures small { IfOk result (λ bytes. before + vec_len bytes ≤ greatest_total) }
    ensures refused { IfErr result (ReadCause (S.files shelf.old) path.now file before (S.faults shelf.old) (S.faults shelf.new) (S.absences shelf.old) (S.absences shelf.new)) }
    ensures files { S.files shelf.new ≡ S.files shelf.old }
    ensures counts { (S.faults shelf.old ≤ S.faults shelf.new) × (S.absences shelf.old ≤ S.absences shelf.new) }
{
    let bytes = match whole_file(alloc, shelf, file, path) {
        Ok(bytes) => bytes,
        Err(outcome) => return Err(outcome),
    };
    if before + bytes.len() > MAX_TOTAL {
        return Err(Outcome::Limit(LimitFault::AllFiles(file)));
    }
    Ok(bytes)
}

// The bytes of the file of this number, whatever was read before.
fn whole_file<S: Shelf>(
    alloc: Global,
    shelf: &mut S,
    file: usize,
    path: &str,
) -> Result<Vec<u8>, Outcome>
    ensures size { IfOk result (λ bytes. vec_len bytes ≤ greatest_size) }
    ensures read { IfOk result (λ bytes. IsFoundAt (S.files shelf.old) path.now (Some bytes.items)) }
    ensures refused { IfErr result (λ o. (before : ℕ) → ReadCause (S.files shelf.old) path.now file before (S.faults shelf.old) (S.faults shelf.new) (S.absences shelf.old) (S.absences shelf.new) o) }
    ensures files { S.files shelf.new ≡ S.files shelf.old }
    ensures counts { (S.faults shelf.old ≤ S.faults shelf.new) × (S.absences shelf.old ≤ S.absences shelf.new) }
{
    match read_file(alloc, shelf, path) {
        Ok(bytes) => Ok(bytes),
        Err(ReadingFault::Absent) => Err(Outcome::NoFile(file)),
        Err(ReadingFault::Failed) => Err(Outcome::ReadFault(file)),
        Err(ReadingFault::TooLarge) => Err(Outcome::Limit(LimitFault::FileSize(file))),
        Err(ReadingFault::NoMemory) => Err(Outcome::NoMemory),
    }
}

// The limit that a file's table passes, if it passes one of what it is read for.
fn passed_limit(purpose: Purpose, file: usize, table: &Table) -> Option<LimitFault>
    ensures { result ≡ passed_limit_of purpose file table.now }
{
    let columns = table.columns().len();
    match purpose {
        Purpose::Encode if columns > MAX_COLUMNS => Some(LimitFault::EncodeColumns(columns)),
        Purpose::Plan if !fits_plain(table) => Some(LimitFault::PlainRows(file)),
        _ => None,
    }
}

// The table of a file's bytes, within its limit.
fn table_within(
    alloc: Global,
    purpose: Purpose,
    file: usize,
    bytes: &[u8],
) -> Result<Table, Outcome>
    ensures table { IfOk result (λ t. table_or_defect purpose file (table_of bytes.now) ≡ Ok t) }
    ensures refused { IfErr result (BytesCause purpose file bytes.now) }
{
    let table = match read_table(alloc, bytes) {
        Ok(table) => table,
        Err(TableFault::NoMemory) => return Err(Outcome::NoMemory),
        Err(fault) => return Err(Outcome::Table(file, fault)),
    };
    match passed_limit(purpose, file, &table) {
        Some(fault) => Err(Outcome::Limit(fault)),
        None => Ok(table),
    }
}

/// The table of a file's bytes, within its limit and under its name.
pub(crate) fn named_table(
    alloc: Global,
    purpose: Purpose,
    file: usize,
    name: &str,
    bytes: &[u8],
) -> Result<(Word, Table), Outcome>
    ensures name { IfOk result (λ t. t.0 ≡ name.now) }
    ensures table { IfOk result (λ t. table_or_defect purpose file (table_of bytes.now) ≡ Ok t.1) }
    ensures refused { IfErr result (BytesCause purpose file bytes.now) }
{
    let table = match table_within(alloc, purpose, file, bytes) {
        Ok(table) => table,
        Err(outcome) => return Err(outcome),
    };
    match Word::of(alloc, name) {
        Ok(name) => Ok((name, table)),
        Err(NoMemory) => Err(Outcome::NoMemory),
    }
}
