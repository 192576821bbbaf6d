//! Rows that are cut into pieces, which the workers draw, and whose results are put together in order.
ghost use Rattle.std.specs.Prelude.{◌≡◌, ◌^◌, ◌≤◌, true, false, IfOk, IfErr, MatchResult};
ghost use Rattle.std.specs.Int.{div_ceil};
ghost use Rattle.std.specs.List.{All, flat_map};
ghost use Rattle.std.proofs.Common.{sym, ◌∙◌};
ghost use Rattle.au_expr.specs.declared.fault.EvalFault.TheVariants as fault;
ghost use Rattle.au_par.specs.Listed.{back_over, front_over};

use crate::drawing::by_drawing;
use crate::gate::Gate;
use crate::halving::by_left_rows;
use crate::partial::Partial;
use crate::piece::Piece;
use au_expr::EvalFault;
use au_value::NoMemory;
use std::alloc::Global;
use std::thread::Threads;

// How many pieces there are at most for each worker.
const PIECES: usize = 32;

/// The results of all rows, in order, by pieces that the workers draw.
///
/// One worker takes the rows as one piece. Else they are cut into consecutive pieces, at most 32 for each worker, and a
/// worker that is through with a piece draws the next, so that one whose processor is late doesn't hold up the others.
/// At most 64 workers draw. The gate is told of each piece as it begins.
///
/// `Overflow` comes exactly where the list of all rows overflows, unless memory is wanting before.
pub fn by_drawn_pieces<
    R: Threads + Sync,
    T: Sync,
    U: Send + Drop,
    W: Piece<T, U> + Sync,
    G: Gate + Sync,
>(
    rt: &R,
    alloc: Global,
    rows: &[T],
    workers: usize,
    work: &W,
    gate: &G,
) -> Result<Vec<U>, EvalFault>
    requires workers { 1 ≤ workers }
    requires rows { All (W.takes work.now) rows.now }
    ensures results { IfOk result (λ v. v.items ≡ W.results work.now rows.now) }
    ensures fits { IfOk result (λ _. W.overflows work.now rows.now ≡ false) }
    ensures overflow { IfErr result (λ f. f ≡ fault.Overflow → W.overflows work.now rows.now ≡ true) }
{
    let workers = workers.min(rows.len()).min(64);
    if workers < 2 {
        return by_left_rows(rt, alloc, rows, 1, work, gate);
    }
    let piece = piece_of(rows.len(), workers);
    let lists = by_drawing(rt, alloc, rows, workers, piece, &Listed { work }, gate)?;
    in_one(alloc, lists)
}

// How many rows a piece has, of so many.
fn piece_of(count: usize, workers: usize) -> usize
    requires { (1 ≤ workers) × (workers ≤ 64) }
    ensures some { 1 ≤ result }
    ensures few { div_ceil count result ≤ 2 ^ 32 }
{
    count.div_ceil(PIECES * workers).max(1)
}

// Work whose state is the lists of the results of its pieces, so that merging moves none of these.
#[derive(Clone, Copy)]
struct Listed<'a, W> {
    work: &'a W,
}

impl<'a, T, U: Drop, W: Piece<T, U>> Partial<T, Vec<Vec<U>>> for Listed<'a, W> {
    ghost takes = { λ w row. W.takes w.work.now row };

    ghost stands_for = { λ w lists rows. (flat_map (λ list. list.items) lists.items ≡ W.results w.work.now rows) × (W.overflows w.work.now rows ≡ false) };

    ghost overflows = { λ w rows. W.overflows w.work.now rows };

    fn empty(&self, alloc: Global) -> Result<Vec<Vec<U>>, NoMemory> {
        Ok(Vec::new(alloc))
    }

    fn work(&self, alloc: Global, rows: &[T]) -> Result<Vec<Vec<U>>, EvalFault> {
        let list = self.work.work(alloc, rows)?;
        let mut lists = Vec::new(alloc);
        match lists.push(list) {
            Ok(()) => Ok(lists),
            Err(_) => Err(EvalFault::NoMemory),
        }
    }

    fn merge(
        &self,
        _alloc: Global,
        first: Vec<Vec<U>>,
        second: Vec<Vec<U>>,
    ) -> Result<Vec<Vec<U>>, EvalFault> {
        let (mut all, mut more) = (first, second);
        match all.append(&mut more) {
            Ok(()) => Ok(all),
            Err(_) => Err(EvalFault::NoMemory),
        }
    }

    ghost one_meaning = { λ _ s t xs zs _ _ a b c. (b.0 ∙ (sym a.0 ∙ c.0), c.1) };

    ghost front_overflows = { λ w xs ys left right over. W.overflows_join w.work.now xs ys left right ∙ front_over (W.overflows w.work.now xs) (W.overflows w.work.now ys) over };

    ghost back_overflows = { λ w xs ys left right over. W.overflows_join w.work.now xs ys left right ∙ back_over (W.overflows w.work.now xs) (W.overflows w.work.now ys) over };

    ghost empty_fits = { λ w. W.empty_fits w.work.now };
}

// All items of the lists. The first list takes room for those of the others at once, and they are moved into it.
fn in_one<U: Drop>(alloc: Global, lists: Vec<Vec<U>>) -> Result<Vec<U>, EvalFault>
    ensures { MatchResult result (λ v. v.items ≡ flat_map (λ list. list.items) lists.items) (λ f. f ≡ fault.NoMemory) }
{
    let room = items_behind(&lists);
    let mut others = lists.into_iter();
    let Some(mut all) = others.next() else {
        return Ok(Vec::new(alloc));
    };
    if all.reserve(room).is_err() {
        return Err(EvalFault::NoMemory);
    }
    for mut list in others {
        if all.append(&mut list).is_err() {
            return Err(EvalFault::NoMemory);
        }
    }
    Ok(all)
}

// How many items the lists behind the first hold.
fn items_behind<U>(lists: &[Vec<U>]) -> usize {
    let mut count: usize = 0;
    for list in lists.iter().skip(1) {
        count = count.saturating_add(list.len());
    }
    count
}
