//! The bytes of a file, read from a shelf.
ghost use Rattle.std.specs.Prelude.{◌≡◌, ◌≤◌, ◌<◌, ◌+◌, ℕ, List, Option, Some, IfOk, IfSome, IsSomeAnd, IsErrOf, OnOk, drop, length, vec_len};
ghost use Rattle.std.specs.Io.KnownBytes.{Consumes};
ghost use Rattle.au_io.specs.Counts.{Rose};
ghost use Rattle.au_io.specs.Files.{Lacks, Opens, bytes_at};
ghost use Rattle.au_cli.specs.Files.{greatest_size};

use au_io::{Shelf, StartFault};
use std::alloc::Global;
use thiserror::Error;

/// Why a file was not read.
#[derive(Clone, Copy, Debug, PartialEq, Eq, Error)]
pub enum ReadingFault {
    /// The file is not there.
    #[error("the file is not there")]
    Absent,

    /// The shelf refused to start or to read the file.
    #[error("the file cannot be read")]
    Failed,

    /// The file has more than 8,388,608 bytes, of which 8,388,609 were taken.
    #[error("the file has more than 8,388,608 bytes")]
    TooLarge,

    /// Memory for the bytes was refused.
    #[error("out of memory")]
    NoMemory,
}

// The greatest size of a file.
const MAX_SIZE: usize = 8_388_608;

// How many bytes are read at once.
const PIECE: usize = 65_536;

// Reads the next bytes, and appends them. It says how many: none at the end.
fn append_next<S: Shelf>(
    shelf: &mut S,
    piece: &mut [u8],
    bytes: &mut Vec<u8>,
) -> Result<usize, ReadingFault>
    ensures files { S.files shelf.new ≡ S.files shelf.old }
    ensures counts { (S.faults shelf.old ≤ S.faults shelf.new) × (S.absences shelf.old ≤ S.absences shelf.new) }

    ensures grown { IfOk result (λ n. (vec_len bytes.new ≡ vec_len bytes.old + n) × (n ≤ length piece.old)) }
    ensures taken { OnOk result ((whole : Option (List ℕ)) → Consumes whole (S.left shelf.old) bytes.old.items → Consumes whole (S.left shelf.new) bytes.new.items) }
    ensures end { IfOk result (λ n. n ≡ 0 → 0 < length piece.old → (whole : Option (List ℕ)) → Consumes whole (S.left shelf.old) bytes.old.items → IfSome whole (λ all. all ≡ bytes.new.items)) }

    ensures failed { IsErrOf result ReadingFault.Failed → Rose (S.faults shelf.old) (S.faults shelf.new) }
    ensures not_absent { ¬ IsErrOf result ReadingFault.Absent }
    ensures not_large { ¬ IsErrOf result ReadingFault.TooLarge }
{
    let Ok(n) = shelf.next(piece) else {
        return Err(ReadingFault::Failed);
    };
    if bytes.extend_from_slice(&piece[..n]).is_err() {
        return Err(ReadingFault::NoMemory);
    }
    Ok(n)
}

// Reads the started file to its end, in pieces as long as the buffer.
fn read_to_end<S: Shelf>(
    alloc: Global,
    shelf: &mut S,
    buffer: &mut [u8],
) -> Result<Vec<u8>, ReadingFault>
    requires { 0 < length buffer.old }
    ensures files { S.files shelf.new ≡ S.files shelf.old }
    ensures counts { (S.faults shelf.old ≤ S.faults shelf.new) × (S.absences shelf.old ≤ S.absences shelf.new) }

    ensures size { IfOk result (λ bytes. vec_len bytes ≤ greatest_size) }
    ensures read { IfOk result (λ bytes. IfSome (S.left shelf.old) (λ left. left ≡ bytes.items)) }

    ensures failed { IsErrOf result ReadingFault.Failed → Rose (S.faults shelf.old) (S.faults shelf.new) }
    ensures too_large { IsErrOf result ReadingFault.TooLarge → IfSome (S.left shelf.old) (λ left. greatest_size < length left) }
    ensures taken { IsErrOf result ReadingFault.TooLarge → IfSome (S.left shelf.old) (λ left. S.left shelf.new ≡ Some (drop (greatest_size + 1) left)) }
    ensures not_absent { ¬ IsErrOf result ReadingFault.Absent }
{
    let mut bytes = Vec::new(alloc);
    while bytes.len() <= MAX_SIZE {
        let room = buffer.len().min(MAX_SIZE + 1 - bytes.len());
        let n = append_next(shelf, &mut buffer[..room], &mut bytes)?;
        if n == 0 {
            return Ok(bytes);
        }
    }
    Err(ReadingFault::TooLarge)
}

// Reads the started file to its end, through a buffer of its own.
fn read_started<S: Shelf>(alloc: Global, shelf: &mut S) -> Result<Vec<u8>, ReadingFault>
    ensures files { S.files shelf.new ≡ S.files shelf.old }
    ensures counts { (S.faults shelf.old ≤ S.faults shelf.new) × (S.absences shelf.old ≤ S.absences shelf.new) }

    ensures size { IfOk result (λ bytes. vec_len bytes ≤ greatest_size) }
    ensures read { IfOk result (λ bytes. IfSome (S.left shelf.old) (λ left. left ≡ bytes.items)) }

    ensures failed { IsErrOf result ReadingFault.Failed → Rose (S.faults shelf.old) (S.faults shelf.new) }
    ensures too_large { IsErrOf result ReadingFault.TooLarge → IfSome (S.left shelf.old) (λ left. greatest_size < length left) }
    ensures taken { IsErrOf result ReadingFault.TooLarge → IfSome (S.left shelf.old) (λ left. S.left shelf.new ≡ Some (drop (greatest_size + 1) left)) }
    ensures not_absent { ¬ IsErrOf result ReadingFault.Absent }
{
    let Ok(mut buffer) = vec![in alloc; 0u8; PIECE] else {
        return Err(ReadingFault::NoMemory);
    };
    read_to_end(alloc, shelf, &mut buffer)
}

// Starts the file at a path.
fn start_file<S: Shelf>(alloc: Global, shelf: &mut S, path: &str) -> Result<(), ReadingFault>
    ensures files { S.files shelf.new ≡ S.files shelf.old }
    ensures counts { (S.faults shelf.old ≤ S.faults shelf.new) × (S.absences shelf.old ≤ S.absences shelf.new) }

    ensures opened { OnOk result (Opens (S.files shelf.old) path.now (S.left shelf.new)) }

    ensures absent { IsErrOf result ReadingFault.Absent → Rose (S.absences shelf.old) (S.absences shelf.new) × Lacks (S.files shelf.old) path.now }
    ensures failed { IsErrOf result ReadingFault.Failed → Rose (S.faults shelf.old) (S.faults shelf.new) }
    ensures not_large { ¬ IsErrOf result ReadingFault.TooLarge }
{
    match shelf.start(alloc, path) {
        Ok(()) => Ok(()),
        Err(StartFault::Absent) => Err(ReadingFault::Absent),
        Err(StartFault::Failed) => Err(ReadingFault::Failed),
        Err(StartFault::NoMemory) => Err(ReadingFault::NoMemory),
    }
}

/// Reads a whole file, in pieces of 65,536 bytes at most, and stops after 8,388,609 bytes.
pub fn read_file<S: Shelf>(
    alloc: Global,
    shelf: &mut S,
    path: &str,
) -> Result<Vec<u8>, ReadingFault>
    ensures files { S.files shelf.new ≡ S.files shelf.old }
    ensures counts { (S.faults shelf.old ≤ S.faults shelf.new) × (S.absences shelf.old ≤ S.absences shelf.new) }

    ensures size { IfOk result (λ bytes. vec_len bytes ≤ greatest_size) }
    ensures read { IfOk result (λ bytes. IfSome (S.files shelf.old) (λ files. bytes_at files path.now ≡ Some bytes.items)) }

    ensures absent { IsErrOf result ReadingFault.Absent → Rose (S.absences shelf.old) (S.absences shelf.new) × Lacks (S.files shelf.old) path.now }
    ensures failed { IsErrOf result ReadingFault.Failed → Rose (S.faults shelf.old) (S.faults shelf.new) }
    ensures too_large { IsErrOf result ReadingFault.TooLarge → IfSome (S.files shelf.old) (λ files. IsSomeAnd (bytes_at files path.now) (λ bytes. greatest_size < length bytes)) }
    ensures taken { IsErrOf result ReadingFault.TooLarge → IfSome (S.files shelf.old) (λ files. IsSomeAnd (bytes_at files path.now) (λ bytes. S.left shelf.new ≡ Some (drop (greatest_size + 1) bytes))) }
{
    start_file(alloc, shelf, path)?;
    read_started(alloc, shelf)
}
