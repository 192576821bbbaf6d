//! Pieces that workers draw.
ghost use Rattle.std.specs.Prelude.{◌≡◌, false, refl};
ghost use Rattle.std.proofs.Common.{sym, ◌∙◌};

use crate::gates::{Counts, HoldFirst, Meeting};
use au_expr::EvalFault;
use au_par::{NoGate, Partial, by_drawing};
use au_value::NoMemory;
use std::alloc::Global;
use std::sync::atomic::Ordering::SeqCst;
use std::test::Fail;

/// Lists the rows.
struct Listing;

impl Partial<u8, Vec<u8>> for Listing {
    ghost takes = { λ _ _. Unit {0} };

    ghost stands_for = { λ _ state xs. state.items ≡ xs };

    ghost overflows = { λ _ _. false };

    fn empty(&self, alloc: Global) -> Result<Vec<u8>, NoMemory> {
        Ok(Vec::new(alloc))
    }

    fn work(&self, alloc: Global, rows: &[u8]) -> Result<Vec<u8>, EvalFault> {
        match rows.to_vec(alloc) {
            Ok(state) => Ok(state),
            Err(_) => Err(EvalFault::NoMemory),
        }
    }

    fn merge(&self, _alloc: Global, first: Vec<u8>, second: Vec<u8>) -> Result<Vec<u8>, EvalFault> {
        let (mut all, mut more) = (first, second);
        match all.append(&mut more) {
            Ok(()) => Ok(all),
            Err(_) => Err(EvalFault::NoMemory),
        }
    }

    ghost one_meaning = { λ _ s t xs zs _ _ a b c. b ∙ (sym a ∙ c) };

    ghost front_overflows = { λ _ _ _ _ _ over. over };

    ghost back_overflows = { λ _ _ _ _ _ over. over };

    ghost empty_fits = { λ _. refl };
}

#[test]
fn listed_in_order(rt: HostRuntime) -> Result<(), Fail> {
    let rows = [0u8, 1, 2, 3, 4, 5, 6, 7, 8, 9];
    for (workers, piece, count) in [
        (1, 3, 10),
        (3, 3, 10),
        (64, 3, 10),
        (2, 1, 10),
        (4, 100, 10),
        (2, 3, 0),
    ] {
        let listed = by_drawing(
            &rt,
            rt.alloc(),
            &rows[..count],
            workers,
            piece,
            &Listing,
            &NoGate,
        );
        let Ok(listed) = listed else {
            panic!(rt; "refused")
        };
        assert_eq!(rt;
            listed.as_slice(),
            &rows[..count],
            "{count} rows by {piece}, {workers} workers"
        );
    }
    Ok(())
}

#[test]
fn two_partials_meet(rt: HostRuntime) -> Result<(), Fail> {
    let counts = Counts::new();
    let gate = Meeting { counts: &counts };
    let Ok(listed) = by_drawing(&rt, rt.alloc(), &[3u8, 4], 2, 1, &Listing, &gate) else {
        panic!(rt; "refused")
    };
    assert_eq!(rt; listed.as_slice(), [3u8, 4].as_slice());
    assert_eq!(rt;
        counts.met.load(SeqCst),
        2,
        "two pieces are worked at the same time"
    );
    Ok(())
}

#[test]
fn held_piece(rt: HostRuntime) -> Result<(), Fail> {
    let counts = Counts::new();
    let gate = HoldFirst {
        counts: &counts,
        pieces: 4,
    };
    let Ok(listed) = by_drawing(&rt, rt.alloc(), &[1u8, 2, 3, 4], 2, 1, &Listing, &gate) else {
        panic!(rt; "refused")
    };
    assert_eq!(rt; listed.as_slice(), [1u8, 2, 3, 4].as_slice());
    assert_eq!(rt;
        counts.met.load(SeqCst),
        1,
        "three pieces are drawn while the first is held"
    );
    Ok(())
}
