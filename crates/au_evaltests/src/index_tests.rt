//! The entries of an index that a probe meets.
ghost use Rattle.std.specs.Prelude.{◌≡◌, ◌<◌, IfOk};
ghost use Rattle.au_evaltests.specs.Intervals.{intervals as intervals_of};

use crate::cases::{Call, judge};
use crate::relations::number;
use au_overlap::{Index, Steps};
use au_value::{NoMemory, Value};
use std::alloc::Global;
use std::marker::Brand;
use std::process::Abort;
use std::sync::ledger::{Blank, Ledger};
use std::test::Fail;
use std::thread::Threads;

// From 1 to 5, from 3 to 3, and from 7 to 9.
fn intervals(alloc: Global) -> Result<Vec<(Value, Value, usize)>, NoMemory>
    ensures { IfOk result (λ v. v.items ≡ intervals_of) }
{
    let mut entries = Vec::new(alloc);
    entries.push((Value::Int(1), Value::Int(5), 0))?;
    entries.push((Value::Int(3), Value::Int(3), 1))?;
    entries.push((Value::Int(7), Value::Int(9), 2))?;
    Ok(entries)
}

// The places of the intervals that one meets, and the height of the index.
fn places_met<L: Ledger>(
    alloc: Global,
    lo: i128,
    hi: i128,
    blank: Blank,
) -> Result<(Vec<usize>, usize), NoMemory>
    requires name { blank.name ≡ L.name }
    requires parts { blank.parts ≡ L.parts }
    requires some { 0 < L.parts }
{
    let mut steps = Steps::<L>::new(blank);
    let entries = intervals(alloc)?;
    let index = Index::build(alloc, entries, &mut steps)?;
    let height = index.height();
    let low = Value::Int(lo);
    let high = Value::Int(hi);
    let mut into = Vec::new(alloc);
    index.probe(&low, &high, &mut into, &mut steps)?;
    Ok((into, height))
}

// The same, with nothing counted.
fn met(alloc: Global, lo: i128, hi: i128) -> Result<(Vec<usize>, usize), NoMemory> {
    places_met::<Brand>(alloc, lo, hi, Blank::new(1))
}

struct Probed;

impl Call for Probed {
    fn outcome(
        rt: &(impl Abort + Threads + Sync),
        alloc: Global,
        given: &str,
    ) -> Result<String, Fail> {
        let (lo, hi) = given.split_once(' ').ok_or("two ends")?;
        let places = met(alloc, number(rt, lo), number(rt, hi))?;
        Ok(format!(in alloc; "{places:?}")?)
    }
}

// One before and one at an end, the first alone, none above or below or between, all, and a probe whose ends are turned.
const PROBES: &str = "4 7 -> ([0, 2], 2)
2 2 -> ([0], 2)
10 12 -> ([], 2)
-3 0 -> ([], 2)
6 6 -> ([], 2)
0 9 -> ([0, 1, 2], 2)
3 3 -> ([0, 1], 2)
4 2 -> ([0], 2)";

#[test]
fn intervals_that_a_probe_meets(rt: HostRuntime) -> Result<(), Fail> {
    judge::<Probed>(&rt, rt.alloc(), PROBES)
}
