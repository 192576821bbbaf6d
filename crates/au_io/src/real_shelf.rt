//! The shelf of the host's file system.
ghost use Rattle.std.specs.Prelude.{◌≡◌, ◌≤◌, ◌-◌, ◌^◌, refl, ◌<◌, false, true, None, IfOk, OnOk, OnErr, IsSome, IsErr, IsErrOf, is_some, length};
ghost use Rattle.au_io.specs.Counts.{Rose};
ghost use Rattle.au_io.specs.Files.{Opens, Lacks, TakesNext, EndsWith};
ghost use Rattle.au_io.specs.HeldFiles.{held_left};

use crate::{Failed, Shelf, StartFault};
use std::alloc::Global;
use std::io::Read;
use std::rt::Files;
use std::{fs, io};

/// The files of the host. It tells which bytes are left of a started file where that file tells them, and no other bytes:
/// what the files of a disk hold is not known.
#[derive(Drop)]
pub struct RealShelf<R: Files + Drop> {
    rt: R,
    file: Option<R::File>,
    faults: u64,
    absences: u64,
    ghost faults_counted: { faults ≤ 2 ^ 64 - 1 },
    ghost absences_counted: { absences ≤ 2 ^ 64 - 1 },
}

// Reads from a file, if there is one.
fn read_some<F: Read>(file: &mut Option<F>, into: &mut [u8]) -> io::Result<usize>
    ensures stays { is_some file.new ≡ is_some file.old }
    ensures room { IfOk result (λ n. n ≤ length into.new) }
    ensures idle { is_some file.old ≡ false → IfOk result (λ n. n ≡ 0) }
    ensures bytes { IfOk result (TakesNext (held_left F.remaining file.old) (held_left F.remaining file.new) into.new) }
    ensures end { IfOk result (EndsWith (held_left F.remaining file.old) into.new) }
    ensures kept { OnErr result (IsSome (held_left F.remaining file.old) → held_left F.remaining file.new ≡ held_left F.remaining file.old) }
{
    match file {
        Some(file) => file.read(into),
        None => Ok(0),
    }
}

impl<R: Files + Drop> RealShelf<R> {
    /// The shelf of a runtime's files, with no file started and both counts at 0.
    pub fn new(rt: R) -> RealShelf<R>
        ensures started { ⟦<RealShelf<R> as Shelf>⟧.is_started result ≡ false }
        ensures faults { ⟦<RealShelf<R> as Shelf>⟧.faults result ≡ 0 }
        ensures absences { ⟦<RealShelf<R> as Shelf>⟧.absences result ≡ 0 }
    {
        RealShelf {
            rt,
            file: None,
            faults: 0,
            absences: 0,
        }
    }
}

impl<R: Files + Drop> Shelf for RealShelf<R> {
    ghost files = { λ _. None };

    ghost is_started = { λ s. is_some s.file };

    ghost left = { λ s. held_left R.File.remaining s.file };

    ghost faults = { λ s. s.faults };

    ghost absences = { λ s. s.absences };

    fn start(&mut self, _alloc: Global, path: &str) -> Result<(), StartFault>
        ensures files { ⟦<RealShelf<R> as Shelf>⟧.files self.new ≡ ⟦<RealShelf<R> as Shelf>⟧.files self.old }
        ensures counts { (⟦<RealShelf<R> as Shelf>⟧.faults self.old ≤ ⟦<RealShelf<R> as Shelf>⟧.faults self.new) × (⟦<RealShelf<R> as Shelf>⟧.absences self.old ≤ ⟦<RealShelf<R> as Shelf>⟧.absences self.new) }

        ensures started { OnOk result (⟦<RealShelf<R> as Shelf>⟧.is_started self.new ≡ true) }
        ensures opened { OnOk result (Opens (⟦<RealShelf<R> as Shelf>⟧.files self.old) path.now (⟦<RealShelf<R> as Shelf>⟧.left self.new)) }

        ensures absent { IsErrOf result StartFault.Absent → Rose (⟦<RealShelf<R> as Shelf>⟧.absences self.old) (⟦<RealShelf<R> as Shelf>⟧.absences self.new) × Lacks (⟦<RealShelf<R> as Shelf>⟧.files self.old) path.now }
        ensures failed { IsErrOf result StartFault.Failed → Rose (⟦<RealShelf<R> as Shelf>⟧.faults self.old) (⟦<RealShelf<R> as Shelf>⟧.faults self.new) }
        ensures refused { OnErr result (⟦<RealShelf<R> as Shelf>⟧.is_started self.new ≡ false) }

        // It takes no memory.
        ensures no_memory { ¬ IsErrOf result StartFault.NoMemory }
    {
        self.file = None;
        match fs::open(&self.rt, path) {
            Ok(file) => {
                self.file = Some(file);
                Ok(())
            }
            Err(error) => {
                if error.kind() == io::ErrorKind::NotFound {
                    self.absences = self.absences.saturating_add(1);
                    Err(StartFault::Absent)
                } else {
                    self.faults = self.faults.saturating_add(1);
                    Err(StartFault::Failed)
                }
            }
        }
    }

    fn next(&mut self, into: &mut [u8]) -> Result<usize, Failed> {
        match read_some(&mut self.file, into) {
            Ok(n) => Ok(n),
            Err(_) => {
                self.faults = self.faults.saturating_add(1);
                Err(Failed)
            }
        }
    }

    ghost counted = { λ s. (s.faults_counted, s.absences_counted) };

    ghost idle = { λ s stopped. Prim.rw stopped };
}
