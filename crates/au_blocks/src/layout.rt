//! Where the blocks of a table file lie among its alternatives, and which records these are.
ghost use Rattle.std.specs.Prelude.{◌≡◌, ◌⊎◌, true, Some, None, map, IfErr, IfOk};
ghost use Rattle.std.specs.List.{list_all};
ghost use Rattle.au_blocks.specs.Defects.{blocks_defects};
ghost use Rattle.au_blocks.specs.Headers.{has_blocks};
ghost use Rattle.au_blocks.specs.Entries.{entry_blocks, has_role};
ghost use Rattle.au_blocks.specs.Order.{chosen, lent_records};
ghost use Rattle.au_blocks.specs.Read.{first};
ghost use Rattle.au_blocks.specs.Tallies.{extents_from, tally_of};

use crate::extent::Extent;
use crate::extents::{block_fault, extents};
use crate::faults::TableFault;
use crate::format::Format;
use crate::gather::gather;
use crate::tally::Tally;
use au_csv::Rec;
use au_value::NoMemory;
use std::alloc::Global;

// Where the blocks of the records below a header lie, and the records that are alternatives, block behind block; or the
// first defect of a block.
pub(crate) fn layout<'a, 'b>(
    alloc: Global,
    format: Format,
    rows: &'a [Rec<'b>],
) -> Result<(Vec<Extent>, Vec<&'a Rec<'b>>), TableFault>
    requires { has_blocks format ≡ true → list_all has_role rows.now ≡ true }
    ensures sound { IfOk result (λ _. first (blocks_defects (entry_blocks format rows.now)) ≡ None) }
    ensures extents { IfOk result (λ l. l.0.items ≡ extents_from 0 (map tally_of (entry_blocks format rows.now))) }
    ensures records { IfOk result (λ l. lent_records l.1.items ≡ chosen format rows.now) }
    ensures fault { IfErr result (λ e. (e ≡ TableFault.NoMemory) ⊎ (first (blocks_defects (entry_blocks format rows.now)) ≡ Some e)) }
{
    let (tallies, records) = tallied(alloc, format, rows)?;
    if let Some(fault) = block_fault(&tallies) {
        return Err(fault);
    }
    let extents = extents(alloc, &tallies, records.len())?;
    Ok((extents, records))
}

// What the records of each block amount to, and those that are alternatives.
fn tallied<'a, 'b>(
    alloc: Global,
    format: Format,
    rows: &'a [Rec<'b>],
) -> Result<(Vec<Tally>, Vec<&'a Rec<'b>>), NoMemory>
    requires { has_blocks format ≡ true → list_all has_role rows.now ≡ true }
    ensures tallies { IfOk result (λ g. g.0.items ≡ map tally_of (entry_blocks format rows.now)) }
    ensures records { IfOk result (λ g. lent_records g.1.items ≡ chosen format rows.now) }
{
    if format.has_blocks() {
        return gather(alloc, format, rows);
    }
    let tallies = certain(alloc, rows)?;
    Ok((tallies, lent(alloc, rows)?))
}

// What the records of a plain table amount to, each a block.
fn certain(alloc: Global, rows: &[Rec<'_>]) -> Result<Vec<Tally>, NoMemory>
    ensures { IfOk result (λ v. v.items ≡ map tally_of (entry_blocks Format.Plain rows.now)) }
{
    let mut tallies = Vec::with_capacity(alloc, rows.len())?;
    for _ in 0..rows.len() {
        tallies.push(Tally::certain())?;
    }
    Ok(tallies)
}

// Each record, lent.
fn lent<'a, 'b>(alloc: Global, rows: &'a [Rec<'b>]) -> Result<Vec<&'a Rec<'b>>, NoMemory>
    ensures { IfOk result (λ v. lent_records v.items ≡ rows.now) }
{
    let mut records = Vec::with_capacity(alloc, rows.len())?;
    for place in 0..rows.len() {
        records.push(&rows[place])?;
    }
    Ok(records)
}
