//! Where the blocks of a table lie, one behind the other.
ghost use Rattle.std.specs.Prelude.{◌≡◌, IfOk, sum_by};
ghost use Rattle.au_blocks.specs.Tallies.{extents_from, tallies_defect};

use crate::extent::Extent;
use crate::faults::TableFault;
use crate::tally::Tally;
use au_value::NoMemory;
use std::alloc::Global;

// The first defect of the blocks that these tallies are of.
pub(crate) fn block_fault(tallies: &[Tally]) -> Option<TableFault>
    ensures { result ≡ tallies_defect 0 tallies.now }
{
    for number in 0..tallies.len() {
        if let Some(fault) = tallies[number].defect(number) {
            return Some(fault);
        }
    }
    None
}

// Where they lie, with so many alternatives in all.
pub(crate) fn extents(
    alloc: Global,
    tallies: &[Tally],
    count: usize,
) -> Result<Vec<Extent>, NoMemory>
    requires { sum_by (λ t. t.count) tallies.now ≡ count }
    ensures { IfOk result (λ v. v.items ≡ extents_from 0 tallies.now) }
{
    let mut extents = Vec::with_capacity(alloc, tallies.len())?;
    let mut left = count;
    for number in 0..tallies.len() {
        let tally = tallies[number];
        extents.push(tally.extent(count - left))?;
        left -= tally.count;
    }
    Ok(extents)
}
