//! Tests of the program's side: whole runs over shelves and sinks in memory, and shelves and sinks themselves.
//!
//! It has no code of its own. A run is one line: its words, which stand apart by `|`, and after ` -> ` its status, its
//! outcome, what it puts on `out`, and behind ` ! ` what it puts on `err`. In words, files and texts `~` is an LF.
//!
//! ```text
//! const REFUSED: &str = "answer|SELECT 'a|t=t.csv -> 1 Query(OpenText(7)) ! audb: query: quote without an end at byte 7~";
//! judge(&rt, rt.alloc(), REFUSED)
//! ```
//!
//! It belongs to docs/ARCHITECTURE.md.
#![tactic(auto)]

#[cfg(test)]
mod answer_tests;
#[cfg(test)]
mod exchange_tests;
#[cfg(test)]
mod explain_tests;
#[cfg(test)]
mod fault_tests;
#[cfg(test)]
mod files;
#[cfg(test)]
mod gate_tests;
#[cfg(test)]
mod gates;
#[cfg(test)]
mod refusal_tests;
#[cfg(test)]
mod runs;
#[cfg(test)]
mod shelf_tests;
#[cfg(test)]
mod sink_tests;
