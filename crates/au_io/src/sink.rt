//! A place to put bytes.
ghost use Rattle.std.specs.Prelude.{◌≡◌, ◌≤◌, ◌-◌, ◌^◌, ℕ, List, [], Option, OnOk, IsErrOf};
ghost use Rattle.std.specs.Io.KnownBytes.{Appends};
ghost use Rattle.au_io.specs.Counts.{Rose};
ghost use Rattle.au_io.specs.Files.{AppendsFront};

use thiserror::Error;

/// Why bytes were not put.
#[derive(Clone, Copy, Debug, PartialEq, Eq, Error)]
pub enum PutFault {
    /// The put was refused, maybe after a front of the bytes.
    #[error("not all bytes could be put")]
    Failed,

    /// Memory for the bytes was refused, and none of them was put.
    #[error("out of memory")]
    NoMemory,
}

/// Bytes that are put one piece after the other.
pub trait Sink {
    /// The bytes that were put, if it tells them.
    ghost written: { Self → Option (List ℕ) };

    /// How many puts were refused, up to 2^64-1.
    ghost faults: { Self → ℕ };

    /// Puts all of the bytes, or after a fault a front of them.
    fn put(&mut self, bytes: &[u8]) -> Result<(), PutFault>
        ensures count { faults self.old ≤ faults self.new }
        ensures ok { OnOk result (Appends (written self.old) (written self.new) bytes.now) }
        ensures failed { IsErrOf result PutFault.Failed → Rose (faults self.old) (faults self.new) × AppendsFront (written self.old) (written self.new) bytes.now }
        ensures no_memory { IsErrOf result PutFault.NoMemory → Appends (written self.old) (written self.new) [] };

    // The count stands still at 2^64-1.
    ghost counted: { (s : Self) → faults s ≤ 2 ^ 64 - 1 };
}
