//! A sink in memory.
ghost use Rattle.std.specs.Prelude.{◌≡◌, ◌≤◌, ◌<◌, ◌+◌, ◌-◌, ◌^◌, [], ◌++◌, take, length, Some, None, OnOk, IsErrOf, IsSomeAnd, option_map, find, ◌==◌};
ghost use Rattle.au_io.specs.Counts.{Rose, next_count};
ghost use Rattle.au_io.specs.Files.{AppendsFront, front_listed, front_put};

use crate::{PutFault, Sink};
use std::alloc::Global;

/// Keeps what is put. Some puts fail, which are listed by their numbers, each with how many bytes it takes.
#[derive(Drop)]
pub struct MemSink {
    bytes: Vec<u8>,
    failing: Vec<(u64, usize)>,
    puts: u64,
    faults: u64,
    ghost faults_counted: { faults ≤ 2 ^ 64 - 1 },
}

impl MemSink {
    ghost use Rattle.au_io.specs.MemSink.{sink_bytes, sink_failing, sink_puts, sink_faults};

    /// The sink with no bytes, of which each put listed in `failing` is refused, after so many bytes. Puts are numbered
    /// from 0, and from 2^64-1 on all have that number, which is never listed.
    pub fn new(alloc: Global, failing: Vec<(u64, usize)>) -> Self
        ensures bytes { sink_bytes result ≡ [] }
        ensures failing { sink_failing result ≡ failing.items }
        ensures puts { sink_puts result ≡ 0 }
        ensures faults { sink_faults result ≡ 0 }
    {
        MemSink {
            bytes: Vec::new(alloc),
            failing,
            puts: 0,
            faults: 0,
        }
    }

    /// What was put so far.
    pub fn bytes(&self) -> &[u8]
        ensures { result.now ≡ sink_bytes self.now }
    {
        &self.bytes
    }
}

// How many bytes the put of this number takes, if it fails: the last number stands for many puts, and none of them is listed.
fn front_taken(failing: &[(u64, usize)], number: u64) -> Option<usize>
    ensures { result ≡ front_listed failing.now number }
{
    if number == u64::MAX {
        None
    } else {
        listed(failing, number)
    }
}

// How many bytes the put of this number takes before it fails, if it is listed.
fn listed(failing: &[(u64, usize)], number: u64) -> Option<usize>
    ensures { result ≡ option_map (λ entry. entry.1) (find (λ entry. entry.0 == number) failing.now) }
{
    failing
        .iter()
        .find(|entry| entry.0 == number)
        .map(|entry| entry.1)
}

impl Sink for MemSink {
    ghost use Rattle.au_io.specs.MemSink.{sink_bytes, sink_failing, sink_puts, sink_faults};

    ghost written = { λ s. Some s.bytes.items };

    ghost faults = { λ s. s.faults };

    fn put(&mut self, bytes: &[u8]) -> Result<(), PutFault>
        ensures count { sink_faults self.old ≤ sink_faults self.new }
        ensures ok { OnOk result (sink_bytes self.new ≡ sink_bytes self.old ++ bytes.now) }
        ensures failed { IsErrOf result PutFault.Failed → Rose (sink_faults self.old) (sink_faults self.new) × AppendsFront (Some (sink_bytes self.old)) (Some (sink_bytes self.new)) bytes.now }
        ensures no_memory { IsErrOf result PutFault.NoMemory → sink_bytes self.new ≡ sink_bytes self.old ++ [] }

        // Which put fails, and what it takes.
        ensures failing { sink_failing self.new ≡ sink_failing self.old }
        ensures puts { sink_puts self.new ≡ next_count (sink_puts self.old) }
        ensures not_listed { OnOk result (front_listed (sink_failing self.old) (sink_puts self.old) ≡ None) }
        ensures listed { IsErrOf result PutFault.Failed → IsSomeAnd (front_listed (sink_failing self.old) (sink_puts self.old)) (λ k. sink_bytes self.new ≡ sink_bytes self.old ++ take k bytes.now) }
        ensures grows { IsErrOf result PutFault.NoMemory → 0 < length (front_put (sink_failing self.old) (sink_puts self.old) bytes.now) }

        // What is counted.
        ensures fault { IsErrOf result PutFault.Failed → sink_faults self.new ≡ next_count (sink_faults self.old) }
        ensures no_fault { ¬ IsErrOf result PutFault.Failed → sink_faults self.new ≡ sink_faults self.old }
    {
        let number = self.puts;
        self.puts = number.saturating_add(1);
        match front_taken(&self.failing, number) {
            Some(taken) => {
                let front = &bytes[..taken.min(bytes.len())];
                if self.bytes.extend_from_slice(front).is_err() {
                    return Err(PutFault::NoMemory);
                }
                self.faults = self.faults.saturating_add(1);
                Err(PutFault::Failed)
            }
            None => {
                if self.bytes.extend_from_slice(bytes).is_err() {
                    return Err(PutFault::NoMemory);
                }
                Ok(())
            }
        }
    }

    ghost counted = { λ s. s.faults_counted };
}
