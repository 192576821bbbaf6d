//! The bounded relation of a block table.
ghost use Rattle.std.specs.Prelude.{◌≡◌, ◌<◌, ◌++◌, ◌∷◌, [], IsTrue, IfOk, OnOk, List, length};
ghost use Rattle.std.specs.List.{AllByRecursion, list_all};
ghost use Rattle.au_value.specs.declared.kinds.Kind.{Kind};
ghost use Rattle.au_value.specs.Ranges.{IsRange};
ghost use Rattle.au_blocks.specs.Tables.{IsBlockTable, column_kinds, fits_kinds, table};
ghost use Rattle.au_blocks.specs.Worlds.{TableWorld, IsTableWorld, rows_in};
ghost use Rattle.au_algebra.specs.Distribution.{Bounds};
ghost use Rattle.au_algebra.specs.Laws.{Guesses, IsRelation};
ghost use Rattle.au_translate.specs.Translate.{bounded_blocks, bounded_table, candidate_cell, guess_choices, marked_or_first as marked_or_first_of, ranges_of, span_in};

use crate::bounds::{greatest_end, guess, least_end, marked_or_first, triple};
use au_algebra::Rel;
use au_annot::Triple;
use au_blocks::{Alternative, Block, Blocks, Column, Table};
use au_value::{NoMemory, Range};
use std::alloc::Global;

/// A row for each block, in block order: per column the least and the greatest value that an alternative may have there,
/// with the marked alternative's guess, or the first alternative's where absence is marked. The triple's least is 0 where
/// the block is optional, and else the least number of copies of an alternative; its guess is 0 where absence is marked,
/// and else the marked alternative's; its most is the greatest number of copies of an alternative. A block whose most is
/// 0 has no row.
///
/// It takes time linear in the table's cells, and copies three values a cell of a row that it makes.
pub fn bounded(alloc: Global, table: &Table) -> Result<Rel<Range, Triple>, NoMemory>
    ensures rows { IfOk result (λ r. r ≡ bounded_table table.now) }
    ensures relation { IfOk result (λ r. IsRelation (column_kinds table.now) r) }
    ensures bounds { IfOk result (λ r. (w : TableWorld) → IsTableWorld table.now w → Bounds r (rows_in table.now.blocks w)) }
    ensures guesses { IfOk result (λ r. Guesses r (rows_in table.now.blocks (guess_choices table.now))) }
{
    bounded_rows(alloc, table.columns(), &table.blocks())
}

/// The same rows of some blocks of a table of these columns.
pub fn bounded_rows(
    alloc: Global,
    columns: &[Column],
    blocks: &Blocks<'_>,
) -> Result<Rel<Range, Triple>, NoMemory>
    requires { IsBlockTable (table columns.now blocks.now) }
    ensures { IfOk result (λ r. r ≡ bounded_blocks blocks.now) }
{
    let mut rel = Rel {
        rows: Vec::with_capacity(alloc, blocks.len())?,
    };
    for place in 0..blocks.len() {
        push_row(alloc, &mut rel, &blocks.get(place))?;
    }
    Ok(rel)
}

// A block's row behind the others, unless it has no copies in any world.
fn push_row(alloc: Global, rel: &mut Rel<Range, Triple>, block: &Block<'_>) -> Result<(), NoMemory>
    requires { (ks : List Kind) × IsTrue (list_all (λ a. fits_kinds ks a.cells) block.now.alternatives) }
    ensures { OnOk result (rel.new ≡ rel.old ++ bounded_blocks (block.now ∷ [])) }
{
    let triple = triple(block);
    if triple.most().get() == 0 {
        return Ok(());
    }
    rel.push(ranges(alloc, block)?, triple)
}

// The ranges of a block.
fn ranges(alloc: Global, block: &Block<'_>) -> Result<Vec<Range>, NoMemory>
    requires { (ks : List Kind) × IsTrue (list_all (λ a. fits_kinds ks a.cells) block.now.alternatives) }
    ensures { IfOk result (λ v. v.items ≡ ranges_of block.now) }
{
    let shown = marked_or_first(block);
    let mut ranges = Vec::with_capacity(alloc, shown.width())?;
    for at in 0..shown.width() {
        let range = column_range(block, at, &shown)?;
        ranges.push_reserved(range);
    }
    Ok(ranges)
}

// The range of a column of a block, of which this alternative is shown.
fn column_range<'a>(
    block: &Block<'a>,
    at: usize,
    shown: &Alternative<'a>,
) -> Result<Range, NoMemory>
    requires wide { AllByRecursion (λ a. at < length a.cells) block.now.alternatives }
    requires shown { shown.now ≡ marked_or_first_of block.now }
    requires within { at < length shown.now.cells }
    requires range { IsRange (span_in block.now.alternatives at (candidate_cell at shown.now).sg) }
    ensures { IfOk result (λ r. r ≡ span_in block.now.alternatives at (candidate_cell at shown.now).sg) }
{
    let lo = least_end(block, at, shown);
    let sg = guess(shown, at);
    let hi = greatest_end(block, at, shown);
    Ok(Range::of(lo.to_value()?, sg.to_value()?, hi.to_value()?))
}
