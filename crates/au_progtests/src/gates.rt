//! Gates that see which pieces of a run are worked at the same time.
use au_par::Gate;
use std::sync::atomic::AtomicU64;
use std::sync::atomic::Ordering::SeqCst;

const LOOKS: u64 = 200_000_000;

/// How many pieces were entered, and how many of them met others.
#[derive(Drop)]
pub struct Counts {
    pub entered: AtomicU64,
    pub met: AtomicU64,
}

impl Counts {
    pub fn new() -> Counts {
        Counts {
            entered: AtomicU64::new(0),
            met: AtomicU64::new(0),
        }
    }

    // Looks until so many pieces were entered.
    fn wait_for(&self, pieces: u64) {
        for _ in 0..LOOKS {
            if self.entered.load(SeqCst) >= pieces {
                self.met.fetch_add(1, SeqCst);
                return;
            }
        }
    }
}

/// Holds each piece until two were entered.
#[derive(Clone, Copy)]
pub struct Meeting<'a> {
    pub counts: &'a Counts,
}

impl<'a> Gate for Meeting<'a> {
    fn enter(&self, _piece: usize) {
        self.counts.entered.fetch_add(1, SeqCst);
        self.counts.wait_for(2);
    }
}

/// Holds the piece that is entered first until so many were entered.
#[derive(Clone, Copy)]
pub struct HoldFirst<'a> {
    pub counts: &'a Counts,
    pub pieces: u64,
}

impl<'a> Gate for HoldFirst<'a> {
    fn enter(&self, _piece: usize) {
        if self.counts.entered.fetch_add(1, SeqCst) == 0 {
            self.counts.wait_for(self.pieces);
        }
    }
}
