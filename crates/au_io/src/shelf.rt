//! A place of files.
ghost use Rattle.std.specs.Prelude.{◌≡◌, ◌≤◌, ◌<◌, ◌-◌, ◌^◌, ℕ, Bool, true, false, List, length, Option, None, IfOk, OnOk, OnErr, IsSome, IsErrOf};
ghost use Rattle.au_io.specs.Counts.{Rose};
ghost use Rattle.au_io.specs.Files.{Opens, Lacks, TakesNext, EndsWith};

use std::alloc::Global;
use thiserror::Error;

/// Why a file was not started.
#[derive(Clone, Copy, Debug, PartialEq, Eq, Error)]
pub enum StartFault {
    /// There is no file at the path.
    #[error("there is no file at the path")]
    Absent,

    /// The file is refused for another cause.
    #[error("the file cannot be started")]
    Failed,

    /// Memory for the file's bytes was refused.
    #[error("out of memory")]
    NoMemory,
}

/// A read was refused.
#[derive(Clone, Copy, Debug, PartialEq, Eq, Error)]
#[error("the file cannot be read")]
pub struct Failed;

/// Files, of which one at a time is started and read from its front to its end.
pub trait Shelf {
    /// The files, if it tells them: each path with its bytes. Of two with one path the first counts.
    ghost files: { Self → Option (List (List ℕ × List ℕ)) };

    /// Whether a file is started.
    ghost is_started: { Self → Bool };

    /// The bytes left of the started file, if it tells them.
    ghost left: { Self → Option (List ℕ) };

    /// How many calls were refused, up to 2^64-1. An absent file does not count here.
    ghost faults: { Self → ℕ };

    /// How many files were absent, up to 2^64-1.
    ghost absences: { Self → ℕ };

    /// Starts the file at a path, in place of one that is started.
    fn start(&mut self, alloc: Global, path: &str) -> Result<(), StartFault>
        ensures files { files self.new ≡ files self.old }
        ensures counts { (faults self.old ≤ faults self.new) × (absences self.old ≤ absences self.new) }

        ensures started { OnOk result (is_started self.new ≡ true) }
        ensures opened { OnOk result (Opens (files self.old) path.now (left self.new)) }

        ensures absent { IsErrOf result StartFault.Absent → Rose (absences self.old) (absences self.new) × Lacks (files self.old) path.now }
        ensures failed { IsErrOf result StartFault.Failed → Rose (faults self.old) (faults self.new) }
        ensures refused { OnErr result (is_started self.new ≡ false) };

    /// Reads the next bytes of the started file. It answers how many, 0 at the end and while no file is started.
    fn next(&mut self, into: &mut [u8]) -> Result<usize, Failed>
        ensures files { files self.new ≡ files self.old }
        ensures counts { (faults self.old ≤ faults self.new) × (absences self.old ≤ absences self.new) }
        ensures started { is_started self.new ≡ is_started self.old }

        ensures bytes { IfOk result (TakesNext (left self.old) (left self.new) into.new) }
        ensures end { IfOk result (EndsWith (left self.old) into.new) }
        ensures idle { is_started self.old ≡ false → IfOk result (λ n. n ≡ 0) }

        ensures failed { OnErr result (Rose (faults self.old) (faults self.new)) }
        ensures kept { OnErr result (IsSome (left self.old) → left self.new ≡ left self.old) };

    // The counts stand still at 2^64-1.
    ghost counted: { (s : Self) → (faults s ≤ 2 ^ 64 - 1) × (absences s ≤ 2 ^ 64 - 1) };

    // While no file is started, the bytes left are not told.
    ghost idle: { (s : Self) → is_started s ≡ false → left s ≡ None };
}
