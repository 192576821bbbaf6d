//! A shelf in memory.
ghost use Rattle.std.specs.Prelude.{◌≡◌, ◌+◌, ◌-◌, ◌^◌, ◌<◌, ◌≤◌, ◌==◌, ◌↔◌, if◌then◌else◌, [], Some, None, true, false, IfSome, IfNone, IfOk, OnOk, OnErr, IsSome, IsErrOf, IsErr, IsTrue, find, option_map, option_copied, bytes_eq, take, drop, length};
ghost use Rattle.std.specs.List.{list_any};
ghost use Rattle.au_io.specs.Counts.{Rose, next_count};
ghost use Rattle.au_io.specs.Files.{Opens, Lacks, TakesNext, EndsWith, is_listed, files_told, bytes_at, left_behind};

use crate::{Failed, Shelf, StartFault};
use au_value::Word;
use std::alloc::{AllocError, Global};

/// Files in memory. Some calls fail, which are listed by their numbers: starts and reads are counted together.
#[derive(Drop)]
pub struct MemShelf {
    files: Vec<(Word, Vec<u8>)>,
    failing: Vec<u64>,
    calls: u64,
    started: bool,
    bytes: Vec<u8>,
    at: usize,
    faults: u64,
    absences: u64,
    ghost within: { at ≤ length bytes.items },
    ghost faults_counted: { faults ≤ 2 ^ 64 - 1 },
    ghost absences_counted: { absences ≤ 2 ^ 64 - 1 },
}

// Whether a number is listed.
fn is_among(failing: &[u64], number: u64) -> bool
    ensures { result ≡ list_any (λ n. n == number) failing.now }
{
    failing.iter().any(|n| *n == number)
}

// Whether the call of this number fails: the last number stands for many calls, and none of them is listed.
fn fails(failing: &[u64], number: u64) -> bool
    ensures { result ≡ is_listed failing.now number }
{
    if number == u64::MAX {
        false
    } else {
        is_among(failing, number)
    }
}

// The first file with a path.
fn kept_at<'a>(files: &'a [(Word, Vec<u8>)], path: &str) -> Option<&'a (Word, Vec<u8>)>
    ensures { option_copied result ≡ find (λ file. bytes_eq file.0 path.now) files.now }
{
    files.iter().find(|file| file.0.as_str() == path)
}

// A copy of the bytes at a path, if it is there.
#[tactic(auto, using(crate::proofs::Finding::told_find))]
fn copy_at(
    alloc: Global,
    files: &[(Word, Vec<u8>)],
    path: &str,
) -> Result<Option<Vec<u8>>, AllocError>
    ensures { IfOk result (λ o. option_map (λ v. v.items) o ≡ bytes_at (files_told files.now) path.now) }
{
    match kept_at(files, path) {
        Some(file) => Ok(Some(file.1.to_vec(alloc)?)),
        None => Ok(None),
    }
}

// Copies the bytes from a place on, as many as there is room for.
fn copy_front(bytes: &[u8], into: &mut [u8]) -> usize
    ensures room { result ≤ length into.new }
    ensures there { result ≤ length bytes.now }
    ensures copied { take result into.new ≡ take result bytes.now }
    ensures none { 0 < length into.old → (result ≡ 0) ↔ (bytes.now ≡ []) }
{
    let n = bytes.len().min(into.len());
    into[..n].copy_from_slice(&bytes[..n]);
    n
}

impl MemShelf {
    ghost use Rattle.au_io.specs.MemShelf.{shelf_files, shelf_failing, shelf_calls, shelf_started, shelf_faults, shelf_absences};

    /// The shelf of these files, of which each call listed in `failing` is refused. Calls are numbered from 0, and from
    /// 2^64-1 on all have that number, which is never listed.
    pub fn new(alloc: Global, files: Vec<(Word, Vec<u8>)>, failing: Vec<u64>) -> Self
        ensures files { shelf_files result ≡ files_told files.items }
        ensures failing { shelf_failing result ≡ failing.items }
        ensures calls { shelf_calls result ≡ 0 }
        ensures started { shelf_started result ≡ false }
        ensures faults { shelf_faults result ≡ 0 }
        ensures absences { shelf_absences result ≡ 0 }
    {
        MemShelf {
            files,
            failing,
            calls: 0,
            started: false,
            bytes: Vec::new(alloc),
            at: 0,
            faults: 0,
            absences: 0,
        }
    }
}

impl Shelf for MemShelf {
    ghost use Rattle.au_io.specs.MemShelf.{shelf_files, shelf_failing, shelf_calls, shelf_started, shelf_left, shelf_faults, shelf_absences};

    ghost files = { λ s. Some (files_told s.files.items) };

    ghost is_started = { λ s. s.started };

    ghost left = { λ s. left_behind s.started s.bytes.items s.at };

    ghost faults = { λ s. s.faults };

    ghost absences = { λ s. s.absences };

    fn start(&mut self, alloc: Global, path: &str) -> Result<(), StartFault>
        ensures files { Some (shelf_files self.new) ≡ Some (shelf_files self.old) }
        ensures counts { (shelf_faults self.old ≤ shelf_faults self.new) × (shelf_absences self.old ≤ shelf_absences self.new) }

        ensures started { OnOk result (shelf_started self.new ≡ true) }
        ensures opened { OnOk result (Opens (Some (shelf_files self.old)) path.now (shelf_left self.new)) }

        ensures absent { IsErrOf result StartFault.Absent → Rose (shelf_absences self.old) (shelf_absences self.new) × Lacks (Some (shelf_files self.old)) path.now }
        ensures failed { IsErrOf result StartFault.Failed → Rose (shelf_faults self.old) (shelf_faults self.new) }
        ensures refused { OnErr result (shelf_started self.new ≡ false) }

        // Which call fails.
        ensures failing { shelf_failing self.new ≡ shelf_failing self.old }
        ensures calls { shelf_calls self.new ≡ next_count (shelf_calls self.old) }
        ensures listed { IsErrOf result StartFault.Failed ↔ IsTrue (is_listed (shelf_failing self.old) (shelf_calls self.old)) }

        // What is counted.
        ensures faults { shelf_faults self.new ≡ (if is_listed (shelf_failing self.old) (shelf_calls self.old) then next_count (shelf_faults self.old) else shelf_faults self.old) }
        ensures absence { IsErrOf result StartFault.Absent → shelf_absences self.new ≡ next_count (shelf_absences self.old) }
        ensures no_absence { ¬ IsErrOf result StartFault.Absent → shelf_absences self.new ≡ shelf_absences self.old }
    {
        let number = self.calls;
        self.calls = number.saturating_add(1);
        self.started = false;
        if fails(&self.failing, number) {
            self.faults = self.faults.saturating_add(1);
            return Err(StartFault::Failed);
        }
        match copy_at(alloc, &self.files, path) {
            Ok(Some(bytes)) => {
                self.at = 0;
                self.bytes = bytes;
                self.started = true;
                Ok(())
            }
            Ok(None) => {
                self.absences = self.absences.saturating_add(1);
                Err(StartFault::Absent)
            }
            Err(_) => Err(StartFault::NoMemory),
        }
    }

    fn next(&mut self, into: &mut [u8]) -> Result<usize, Failed>
        ensures files { Some (shelf_files self.new) ≡ Some (shelf_files self.old) }
        ensures counts { (shelf_faults self.old ≤ shelf_faults self.new) × (shelf_absences self.old ≤ shelf_absences self.new) }
        ensures started { shelf_started self.new ≡ shelf_started self.old }

        ensures bytes { IfOk result (TakesNext (shelf_left self.old) (shelf_left self.new) into.new) }
        ensures end { IfOk result (EndsWith (shelf_left self.old) into.new) }
        ensures idle { shelf_started self.old ≡ false → IfOk result (λ n. n ≡ 0) }

        ensures failed { OnErr result (Rose (shelf_faults self.old) (shelf_faults self.new)) }
        ensures kept { OnErr result (IsSome (shelf_left self.old) → shelf_left self.new ≡ shelf_left self.old) }

        // Which call fails.
        ensures failing { shelf_failing self.new ≡ shelf_failing self.old }
        ensures calls { shelf_calls self.new ≡ next_count (shelf_calls self.old) }
        ensures listed { IsErr result ↔ IsTrue (is_listed (shelf_failing self.old) (shelf_calls self.old)) }

        // What is counted.
        ensures faults { shelf_faults self.new ≡ (if is_listed (shelf_failing self.old) (shelf_calls self.old) then next_count (shelf_faults self.old) else shelf_faults self.old) }
        ensures absences { shelf_absences self.new ≡ shelf_absences self.old }
    {
        let number = self.calls;
        self.calls = number.saturating_add(1);
        if fails(&self.failing, number) {
            self.faults = self.faults.saturating_add(1);
            return Err(Failed);
        }
        if !self.started {
            return Ok(0);
        }
        let (_, left) = self.bytes.split_at(self.at);
        let n = copy_front(left, into);
        self.at += n;
        Ok(n)
    }

    ghost counted = { λ s. (s.faults_counted, s.absences_counted) };

    ghost idle = { λ s stopped. Prim.rw stopped };
}
