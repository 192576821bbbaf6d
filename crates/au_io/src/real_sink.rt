//! The sink of a writer.
ghost use Rattle.std.specs.Prelude.{◌≡◌, ◌≤◌, ◌-◌, ◌^◌, refl, ◌<◌, false, true, None, OnOk, IsErrOf, IsTrue, length, take, []};
ghost use Rattle.au_io.specs.Counts.{Rose, next_count};
ghost use Rattle.std.specs.Io.KnownBytes.{Appends};
ghost use Rattle.au_io.specs.Files.{AppendsFront};

use crate::{PutFault, Sink};
use std::io::Write;

/// A writer. It tells the bytes that the writer tells.
#[derive(Drop)]
pub struct RealSink<W: Write + Drop> {
    writer: W,
    faults: u64,
    ghost faults_counted: { faults ≤ 2 ^ 64 - 1 },
}

impl<W: Write + Drop> RealSink<W> {
    /// The sink of a writer, with its count at 0.
    pub fn new(writer: W) -> RealSink<W>
        ensures written { ⟦<RealSink<W> as Sink>⟧.written result ≡ W.contents writer }
        ensures faults { ⟦<RealSink<W> as Sink>⟧.faults result ≡ 0 }
    {
        RealSink { writer, faults: 0 }
    }
}

// Writes a front of the bytes, and says how many. A write that fails has written none.
fn write_front<W: Write>(writer: &mut W, bytes: &[u8]) -> usize
    ensures within { result ≤ length bytes.now }
    ensures written { Appends (W.contents writer.old) (W.contents writer.new) (take result bytes.now) }
{
    match writer.write(bytes) {
        Ok(n) => n,
        Err(_) => 0,
    }
}

// Writes all of the bytes, or a front of them if a write fails or takes nothing. It says whether all are written.
fn write_whole<W: Write>(writer: &mut W, bytes: &[u8]) -> bool
    ensures whole { IsTrue result → Appends (W.contents writer.old) (W.contents writer.new) bytes.now }
    ensures front { AppendsFront (W.contents writer.old) (W.contents writer.new) bytes.now }
{
    let mut at = 0;
    while at < bytes.len() {
        let n = write_front(writer, &bytes[at..]);
        if n == 0 {
            return false;
        }
        at += n;
    }
    true
}

impl<W: Write + Drop> Sink for RealSink<W> {
    ghost written = { λ s. W.contents s.writer };

    ghost faults = { λ s. s.faults };

    fn put(&mut self, bytes: &[u8]) -> Result<(), PutFault>
        ensures count { ⟦<RealSink<W> as Sink>⟧.faults self.old ≤ ⟦<RealSink<W> as Sink>⟧.faults self.new }
        ensures ok { OnOk result (Appends (⟦<RealSink<W> as Sink>⟧.written self.old) (⟦<RealSink<W> as Sink>⟧.written self.new) bytes.now) }
        ensures failed { IsErrOf result PutFault.Failed → Rose (⟦<RealSink<W> as Sink>⟧.faults self.old) (⟦<RealSink<W> as Sink>⟧.faults self.new) × AppendsFront (⟦<RealSink<W> as Sink>⟧.written self.old) (⟦<RealSink<W> as Sink>⟧.written self.new) bytes.now }
        ensures no_memory { IsErrOf result PutFault.NoMemory → Appends (⟦<RealSink<W> as Sink>⟧.written self.old) (⟦<RealSink<W> as Sink>⟧.written self.new) [] }

        // It takes no memory.
        ensures takes_no_memory { ¬ IsErrOf result PutFault.NoMemory }
    {
        if write_whole(&mut self.writer, bytes) {
            Ok(())
        } else {
            self.faults = self.faults.saturating_add(1);
            Err(PutFault::Failed)
        }
    }

    ghost counted = { λ s. s.faults_counted };
}
