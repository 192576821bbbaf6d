//! The command `audb`: SQL over uncertain tables, answered with bounds.
#![tactic(auto)]

use au_cli::{NoGate, Outcome, RealShelf, RealSink, Sink, UsageFault, Word, fault_line, run};
use std::process::ExitCode;
use std::thread::{Builder, Threads};
use std::{env, io};

// The bytes of the stack on which all work is done. The deepest recursion is over the plan of a query of 4,096
// tokens, whose tree makes 8,192 columns. Memory is taken only as far as the stack is touched.
const STACK_SIZE: usize = 0x4000_0000;

// The words of the command line, without the program's name.
fn given_words(rt: &HostRuntime) -> io::Result<Vec<Word>> {
    let mut words = Vec::new(rt.alloc());
    for word in env::args(rt)?.skip(1) {
        words.push(Word::new(word))?;
    }
    Ok(words)
}

// The words, or why there are none: a word that is not UTF-8 is of no form.
fn words(rt: &HostRuntime) -> Result<Vec<Word>, Outcome> {
    match given_words(rt) {
        Ok(words) => Ok(words),
        Err(error) if error.kind() == io::ErrorKind::OutOfMemory => Err(Outcome::NoMemory),
        Err(_) => Err(Outcome::Usage(UsageFault::Words)),
    }
}

// Puts the line of a refusal, where there is memory for it.
fn refuse(rt: &HostRuntime, outcome: Outcome) -> Outcome {
    let mut err = RealSink::new(rt.stderr());
    if let Ok(line) = fault_line(rt.alloc(), &outcome) {
        let _ = err.put(line.as_slice());
    }
    outcome
}

// Does all that the program does, in threads of this kind.
fn work<T: Threads + Sync>(rt: &HostRuntime, threads: &T) -> Outcome {
    let words = match words(rt) {
        Ok(words) => words,
        Err(outcome) => return refuse(rt, outcome),
    };
    let mut shelf = RealShelf::new(rt);
    let mut out = RealSink::new(rt.stdout());
    let mut err = RealSink::new(rt.stderr());
    run(
        threads,
        rt.alloc(),
        words.as_slice(),
        &mut shelf,
        &mut out,
        &mut err,
        NoGate,
    )
}

// Where no thread can be had, the work is done in place.
fn main(rt: HostRuntime) -> ExitCode {
    let thread = Builder::new()
        .stack_size(STACK_SIZE)
        .spawn(&rt, move || work(&rt, &rt));
    let outcome = match thread {
        Ok(thread) => thread.join(&rt),
        Err(_) => work(&rt, &rt),
    };
    ExitCode::from(outcome.code())
}
