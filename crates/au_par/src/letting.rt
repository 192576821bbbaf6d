//! Values that are given back beside other work, or by several workers.
ghost use denote.Param.Send.{IsSync, IsSend};

use std::thread::{Threads, join, spawn};

// Fewer values are given back by one worker: a thread costs more than what it saves on them.
const FEW: usize = 4096;

/// Gives a value back, where there are several workers in a thread of its own. Nobody waits for that thread: what it has
/// not given back when the program ends goes with the program.
pub fn let_go<R: Threads, T: Send + Drop + 'static>(rt: &R, workers: usize, value: T) {
    if 1 < workers {
        let _ = spawn(rt, move || drop(value));
    }
}

/// Gives back all values of a list, which so many workers share, and waits for them.
#[cycle(letting)]
pub fn let_go_of_all<R: Threads + Sync, T: Send + Drop>(rt: &R, workers: usize, values: Vec<T>) {
    if workers < 2 || values.len() < FEW {
        return;
    }
    let mut values = values;
    let Ok(others) = values.split_off(values.len() / workers) else {
        return;
    };
    let left = workers - 1;
    let front = move || -> ()
        requires { IsSend T.row }
    { drop(values) };
    let back = move || -> ()
        requires { IsSync R.row × IsSend T.row }
    { let_go_of_all(rt, left, others) };
    let _ = join(rt, front, back);
}
