//! One piece for each worker, and pieces that workers draw.
ghost use Rattle.std.specs.Prelude.{◌≡◌, ◌*◌, false, map, nat_eq, refl};
ghost use Rattle.std.specs.List.{list_any};
ghost use Rattle.std.proofs.lemmas.List.Folds.{list_any-append};
ghost use mathlib.Core.List.{map-append};

use crate::gates::{Counts, Meeting};
use au_expr::EvalFault;
use au_par::{NoGate, Piece, by_drawn_pieces, by_left_rows};
use std::alloc::Global;
use std::sync::atomic::Ordering::SeqCst;
use std::test::Fail;

/// Doubles each number.
struct Double;

impl Piece<u8, u64> for Double {
    ghost takes = { λ _ _. Unit {0} };

    ghost results = { λ _ xs. map (λ x. x * 2) xs };

    ghost overflows = { λ _ _. false };

    fn work(&self, alloc: Global, rows: &[u8]) -> Result<Vec<u64>, EvalFault> {
        match rows.iter().map(|x| u64::from(*x) * 2).collect(alloc) {
            Ok(doubled) => Ok(doubled),
            Err(_) => Err(EvalFault::NoMemory),
        }
    }

    ghost results_join = { λ _ xs ys _ _. map-append (λ x. x * 2) xs ys };

    ghost overflows_join = { λ _ _ _ _ _. refl };

    ghost empty_fits = { λ _. refl };
}

/// Lists the rows, which overflow where there is a nine.
struct NoNine;

impl Piece<u8, u8> for NoNine {
    ghost takes = { λ _ _. Unit {0} };

    ghost results = { λ _ xs. xs };

    ghost overflows = { λ _ xs. list_any (λ x. nat_eq x 9) xs };

    fn work(&self, alloc: Global, rows: &[u8]) -> Result<Vec<u8>, EvalFault> {
        if rows.contains(&9) {
            return Err(EvalFault::Overflow);
        }
        match rows.to_vec(alloc) {
            Ok(listed) => Ok(listed),
            Err(_) => Err(EvalFault::NoMemory),
        }
    }

    ghost results_join = { λ _ _ _ _ _. refl };

    ghost overflows_join = { λ _ xs ys _ _. list_any-append (λ x. nat_eq x 9) xs ys };

    ghost empty_fits = { λ _. refl };
}

#[test]
fn doubled_in_order(rt: HostRuntime) -> Result<(), Fail> {
    let rows = [0u8, 1, 2, 3, 4, 5, 6, 7, 8, 9];
    let want = [0u64, 2, 4, 6, 8, 10, 12, 14, 16, 18];
    for (workers, count) in [
        (1, 10),
        (2, 10),
        (3, 10),
        (4, 7),
        (10, 10),
        (64, 10),
        (3, 1),
        (1, 0),
        (5, 0),
    ] {
        let doubled = by_left_rows(&rt, rt.alloc(), &rows[..count], workers, &Double, &NoGate);
        let Ok(doubled) = doubled else {
            panic!(rt; "refused")
        };
        assert_eq!(rt;
            doubled.as_slice(),
            &want[..count],
            "{count} rows, {workers} workers"
        );
    }
    Ok(())
}

#[test]
fn drawn_in_order(rt: HostRuntime) -> Result<(), Fail> {
    let rows = [0u8, 1, 2, 3, 4, 5, 6, 7, 8, 9];
    let want = [0u64, 2, 4, 6, 8, 10, 12, 14, 16, 18];
    for workers in [1, 2, 3, 7, 10, 64, 65] {
        let drawn = by_drawn_pieces(&rt, rt.alloc(), &rows, workers, &Double, &NoGate);
        let Ok(drawn) = drawn else {
            panic!(rt; "refused")
        };
        assert_eq!(rt; drawn.as_slice(), want.as_slice(), "{workers} workers");
    }
    Ok(())
}

#[test]
fn one_piece_overflows(rt: HostRuntime) -> Result<(), Fail> {
    let rows = [0u8, 1, 2, 3, 4, 5, 6, 7, 8, 9];
    for workers in [1, 2, 3, 7, 64, 65] {
        for (count, fits) in [(9, true), (10, false)] {
            let some = &rows[..count];
            let listed = by_left_rows(&rt, rt.alloc(), some, workers, &NoNine, &NoGate);
            let drawn = by_drawn_pieces(&rt, rt.alloc(), some, workers, &NoNine, &NoGate);
            assert_eq!(rt; listed.is_ok(), fits, "{count} rows, {workers} workers");
            assert_eq!(rt;
                drawn.is_ok(),
                fits,
                "{count} rows, drawn by {workers} workers"
            );
        }
    }
    Ok(())
}

#[test]
fn two_pieces_meet(rt: HostRuntime) -> Result<(), Fail> {
    let counts = Counts::new();
    let gate = Meeting { counts: &counts };
    let Ok(doubled) = by_left_rows(&rt, rt.alloc(), &[3u8, 4], 2, &Double, &gate) else {
        panic!(rt; "refused")
    };
    assert_eq!(rt; doubled.as_slice(), [6u64, 8].as_slice());
    assert_eq!(rt;
        counts.met.load(SeqCst),
        2,
        "two pieces are worked at the same time"
    );
    Ok(())
}

#[test]
fn two_drawn_pieces_meet(rt: HostRuntime) -> Result<(), Fail> {
    let counts = Counts::new();
    let gate = Meeting { counts: &counts };
    let Ok(doubled) = by_drawn_pieces(&rt, rt.alloc(), &[3u8, 4], 2, &Double, &gate) else {
        panic!(rt; "refused")
    };
    assert_eq!(rt; doubled.as_slice(), [6u64, 8].as_slice());
    assert_eq!(rt;
        counts.met.load(SeqCst),
        2,
        "two pieces are worked at the same time"
    );
    Ok(())
}
