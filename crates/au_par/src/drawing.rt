//! Rows that are cut into pieces, which the workers draw.
ghost use Rattle.std.specs.Prelude.{◌≡◌, ℕ, ◌+◌, ◌*◌, ◌^◌, ◌<◌, ◌≤◌, ◌++◌, Bool, true, false, IfOk, IfErr, MatchResult, List, [], ◌∷◌, length, slice_index_or};
ghost use Rattle.std.specs.Fork.{slice_chunk};
ghost use Rattle.std.specs.Int.{div_ceil};
ghost use Rattle.std.specs.List.{All};
ghost use Rattle.au_board.specs.Views.{fresh};
ghost use Rattle.au_expr.specs.declared.fault.EvalFault.TheVariants as fault;
ghost use Rattle.au_par.specs.Joined.{Behind};
ghost use Rattle.au_par.specs.States.{NoneDrew, StandsOrOverflows, Drew, AllDrew, Collects, StandInOrder};
ghost use denote.Param.Send.{IsSync, IsSend};

use crate::gate::Gate;
use crate::merging::{in_order, merged};
use crate::partial::Partial;
use au_board::{Board, Pass};
use au_expr::EvalFault;
use std::alloc::Global;
use std::thread::{Threads, join};

/// A state that stands for all rows.
///
/// The rows are cut into consecutive pieces of `piece` rows, the last one perhaps shorter. A worker that is through
/// with a piece draws the next, until all are drawn. The states of the pieces are merged in their order. The gate is
/// told of each piece as it begins.
///
/// `Overflow` comes exactly where the list of all rows overflows, unless memory is wanting before.
pub fn by_drawing<
    R: Threads + Sync,
    T: Sync,
    S: Send + Drop,
    W: Partial<T, S> + Sync,
    G: Gate + Sync,
>(
    rt: &R,
    alloc: Global,
    rows: &[T],
    workers: usize,
    piece: usize,
    work: &W,
    gate: &G,
) -> Result<S, EvalFault>
    requires workers { (1 ≤ workers) × (workers ≤ 64) }
    requires piece { 1 ≤ piece }
    requires pieces { div_ceil (length rows.now) piece ≤ 2 ^ 32 }
    requires rows { All (W.takes work.now) rows.now }
    ensures stands { IfOk result (λ s. W.stands_for work.now s rows.now) }
    ensures fits { IfOk result (λ _. W.overflows work.now rows.now ≡ false) }
    ensures overflow { IfErr result (λ f. f ≡ fault.Overflow → W.overflows work.now rows.now ≡ true) }
{
    let Ok((board, passes)) = Board::open(alloc, rows.len().div_ceil(piece), workers) else {
        return Err(EvalFault::NoMemory);
    };
    let answers = all_drawn(rt, alloc, &board, passes, rows, piece, work, gate)?;
    let (passes, states) = match collected(alloc, answers) {
        Ok(both) => both,
        Err(fault) => return Err(fault),
    };
    let states = in_order(board, passes, states);
    merged(alloc, rows, piece, states, work)
}

// What each of the workers gives that draw at the same time. They go to threads one after the other, the last excepted.
#[cycle(starting)]
fn all_drawn<R: Threads + Sync, T: Sync, S: Send + Drop, W: Partial<T, S> + Sync, G: Gate + Sync>(
    rt: &R,
    alloc: Global,
    board: &Board,
    passes: Vec<Pass>,
    rows: &[T],
    size: usize,
    work: &W,
    gate: &G,
) -> Result<Vec<Result<(Pass, Vec<(usize, S)>), EvalFault>>, EvalFault>
    requires pieces { (1 ≤ size) × (board.now.pieces ≡ div_ceil (length rows.now) size) }
    requires passes { NoneDrew board.now passes.items }
    requires rows { All (W.takes work.now) rows.now }
    ensures { MatchResult result (λ v. (length v.items ≡ length passes.items) × AllDrew (W.stands_for work.now) (W.overflows work.now) rows.now size board.now 0 v.items) (λ f. f ≡ fault.NoMemory) }
{
    let mut passes = passes;
    let Some(pass) = passes.pop() else {
        return Ok(Vec::new(alloc));
    };
    if passes.is_empty() {
        let answer = drawn(alloc, board, pass, rows, size, work, gate);
        return behind(Ok(Vec::new(alloc)), answer);
    }
    let front = move || -> Result<(Pass, Vec<(usize, S)>), EvalFault>
        requires { IsSync T.row × IsSend S.row × IsSync W.row × IsSync G.row × (pass ≡ fresh board.now pass.number) × (1 ≤ size) × (board.now.pieces ≡ div_ceil (length rows.now) size) × All (W.takes work.now) rows.now }
        ensures { Drew (W.stands_for work.entry.now) (W.overflows work.entry.now) rows.entry.now size board.entry.now pass.number result }
    { drawn(alloc, board, pass, rows, size, work, gate) };
    let back = move || -> Result<Vec<Result<(Pass, Vec<(usize, S)>), EvalFault>>, EvalFault>
        requires { IsSync R.row × IsSync T.row × IsSend S.row × IsSync W.row × IsSync G.row × NoneDrew board.now passes.items × (1 ≤ size) × (board.now.pieces ≡ div_ceil (length rows.now) size) × All (W.takes work.now) rows.now }
        ensures { MatchResult result (λ v. (length v.items ≡ length passes.items) × AllDrew (W.stands_for work.entry.now) (W.overflows work.entry.now) rows.entry.now size board.entry.now 0 v.items) (λ f. f ≡ fault.NoMemory) }
    { all_drawn(rt, alloc, board, passes, rows, size, work, gate) };
    let (answer, answers) = join(rt, front, back);
    behind(answers, answer)
}

// What one worker gives, behind what the others give.
fn behind<X: Drop>(answers: Result<Vec<X>, EvalFault>, answer: X) -> Result<Vec<X>, EvalFault>
    ensures { Behind answers answer result }
{
    let mut answers = answers?;
    match answers.push(answer) {
        Ok(()) => Ok(answers),
        Err(_) => Err(EvalFault::NoMemory),
    }
}

// The states of the pieces that one worker draws.
fn drawn<T, S: Drop, W: Partial<T, S>, G: Gate>(
    alloc: Global,
    board: &Board,
    mut pass: Pass,
    rows: &[T],
    size: usize,
    work: &W,
    gate: &G,
) -> Result<(Pass, Vec<(usize, S)>), EvalFault>
    requires pieces { (1 ≤ size) × (board.now.pieces ≡ div_ceil (length rows.now) size) }
    requires pass { pass ≡ fresh board.now pass.number }
    requires rows { All (W.takes work.now) rows.now }
    ensures { Drew (W.stands_for work.now) (W.overflows work.now) rows.now size board.now pass.number result }
{
    let mut states = Vec::new(alloc);
    while let Some(number) = board.draw(&mut pass) {
        gate.enter(number);
        let state = match work.work(alloc, piece_at(rows, size, number)) {
            Ok(state) => state,
            Err(fault) => return Err(fault),
        };
        put(&mut states, number, state)?;
    }
    Ok((pass, states))
}

// Puts a state behind others, beside the number of its piece.
fn put<S: Drop>(states: &mut Vec<(usize, S)>, number: usize, state: S) -> Result<(), EvalFault>
    ensures { MatchResult result (λ _. states.new.items ≡ states.old.items ++ (number, state) ∷ []) (λ f. f ≡ fault.NoMemory) }
{
    match states.push((number, state)) {
        Ok(()) => Ok(()),
        Err(_) => Err(EvalFault::NoMemory),
    }
}

// The piece of this number.
fn piece_at<T>(rows: &[T], size: usize, number: usize) -> &[T]
    requires { (1 ≤ size) × (number < div_ceil (length rows.now) size) }
    ensures { result.now ≡ slice_chunk rows.now size number }
{
    let (_, rest) = rows.split_at(number * size);
    rest.split_at(size.min(rest.len())).0
}

// All passes and all states, where no worker failed.
fn collected<S: Drop>(
    alloc: Global,
    answers: Vec<Result<(Pass, Vec<(usize, S)>), EvalFault>>,
) -> Result<(Vec<Pass>, Vec<(usize, S)>), EvalFault>
    ensures { Collects answers.items result }
{
    let mut passes = Vec::new(alloc);
    let mut states = Vec::new(alloc);
    for answer in answers {
        let (pass, mut more) = answer?;
        if passes.push(pass).is_err() || states.append(&mut more).is_err() {
            return Err(EvalFault::NoMemory);
        }
    }
    Ok((passes, states))
}
