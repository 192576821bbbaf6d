//! Those who run a plan.
ghost use Rattle.std.specs.Prelude.{◌≡◌, ◌≤◌};

use au_par::Gate;
use std::marker::Model;
use std::thread::Threads;

/// What threads need: so many workers, 1 to 64, and the gate that is told of the pieces in which several of them join or
/// group rows. Contracts see the number of workers.
#[derive(Drop)]
pub struct Crew<'a, R, G: Gate> {
    pub(crate) rt: &'a R,
    pub(crate) workers: usize,
    pub(crate) gate: G,
}

impl<'a, R, G: Gate> Model for Crew<'a, R, G> {
    ghost use Rattle.std.specs.Prelude.{◌≤◌, ℕ};

    ghost Value = { ℕ };

    ghost view = { λ c. c.workers };

    ghost invariant = { λ c. (1 ≤ c.workers) × (c.workers ≤ 64) };
}

impl<'a, R: Threads + Sync, G: Gate + Sync> Crew<'a, R, G> {
    /// A crew of so many workers, 1 to 64.
    pub fn new(rt: &'a R, workers: usize, gate: G) -> Crew<'a, R, G>
        requires { (1 ≤ workers) × (workers ≤ 64) }
        ensures { result ≡ workers }
    {
        Crew { rt, workers, gate }
    }

    /// By what threads are started, and how many workers there are.
    pub fn sharing(&self) -> (&'a R, usize)
        ensures { 1 ≤ result.1 }
    {
        (self.rt, self.workers)
    }
}
