//! The values in the places of a block's encoded row, lent, and how many rows some blocks have. No row is made.
ghost use Rattle.std.specs.Prelude.{◌≡◌, ◌≤◌, ◌<◌, ◌∷◌, [], IsTrue, List, Some, length, map, slice_get, unwrap_or};
ghost use Rattle.std.specs.List.{AllByRecursion, list_all};
ghost use Rattle.au_value.specs.declared.kinds.Kind.{Kind};
ghost use Rattle.au_blocks.specs.Scalars.{scalar_value};
ghost use Rattle.au_blocks.specs.Tables.{fits_kinds};
ghost use Rattle.au_algebra.specs.Entries.{entry};
ghost use Rattle.au_algebra.specs.Lists.{value_at};
ghost use Rattle.au_encode.specs.Encode.{encode, encode_cells, encode_counts, encode_row};
ghost use Rattle.au_translate.specs.LentPlaces.{lent_values};
ghost use Rattle.au_translate.specs.Translate.{bounded_blocks, candidate_cell, marked_or_first as marked_or_first_of, ranges_of, span_in, triple_of};

use crate::bounds::{greatest_end, guess, least_end, marked_or_first, most_count, triple};
use au_annot::{Annot, Count, Triple};
use au_blocks::{Alternative, Block, Blocks, Scalar};

/// How many of some blocks have a row: those that have copies in some world.
pub fn row_count(blocks: &Blocks<'_>) -> usize
    ensures { result ≡ length (bounded_blocks blocks.now) }
{
    if blocks.stand_once() {
        blocks.len()
    } else {
        counted_rows(blocks)
    }
}

// The same, block by block.
fn counted_rows(blocks: &Blocks<'_>) -> usize
    ensures { result ≡ length (bounded_blocks blocks.now) }
{
    let mut count = 0;
    for place in 0..blocks.len() {
        count += rows_in(&blocks.get(place));
    }
    count
}

// How many rows a block has: one, or none where it has no copies in any world.
fn rows_in(block: &Block<'_>) -> usize
    ensures rows { result ≡ length (bounded_blocks (block.now ∷ [])) }
    ensures few { result ≤ 1 }
{
    if most_count(block).get() == 0 { 0 } else { 1 }
}

/// The value in a place of a block's encoded row: three for each column, then the counts, and 0 past them. A block without
/// copies in any world has no row, and so none.
pub fn place_value<'a>(block: &Block<'a>, place: usize) -> Option<Scalar<'a>>
    requires { (ks : List Kind) × IsTrue (list_all (λ a. fits_kinds ks a.cells) block.now.alternatives) }
    ensures { lent_values result ≡ map (λ row. value_at row place) (encode (bounded_blocks (block.now ∷ []))) }
{
    if most_count(block).get() == 0 {
        return None;
    }
    let shown = marked_or_first(block);
    Some(value_in(block, &shown, place))
}

// The value in a place of the encoded row of a block's ranges with its triple, of which this alternative is shown.
fn value_in<'a>(block: &Block<'a>, shown: &Alternative<'a>, place: usize) -> Scalar<'a>
    requires kinds { (ks : List Kind) × IsTrue (list_all (λ a. fits_kinds ks a.cells) block.now.alternatives) }
    requires shown { shown.now ≡ marked_or_first_of block.now }
    requires place { slice_get block.now.alternatives (unwrap_or block.now.guess 0) ≡ Some (marked_or_first_of block.now) }
    ensures { scalar_value result ≡ value_at (encode_row (entry (ranges_of block.now) (triple_of block.now))) place }
{
    let at = place / 3;
    let width = shown.width();
    if at < width {
        return part(block, at, shown, place % 3);
    }
    count_at(triple(block), place - 3 * width)
}

// The least value, the guess or the greatest value in a column of a block, of which this alternative is shown.
fn part<'a>(block: &Block<'a>, at: usize, shown: &Alternative<'a>, number: usize) -> Scalar<'a>
    requires wide { AllByRecursion (λ a. at < length a.cells) block.now.alternatives }
    requires shown { shown.now ≡ marked_or_first_of block.now }
    requires within { at < length shown.now.cells }
    requires number { number < 3 }
    ensures { scalar_value result ≡ value_at (encode_cells (span_in block.now.alternatives at (candidate_cell at shown.now).sg ∷ [])) number }
{
    match number {
        0 => least_end(block, at, shown),
        1 => guess(shown, at),
        _ => greatest_end(block, at, shown),
    }
}

// The least count, the guess or the most of a triple, and 0 past them.
fn count_at<'a>(triple: Triple, number: usize) -> Scalar<'a>
    ensures { scalar_value result ≡ value_at (encode_counts triple) number }
{
    let count = match number {
        0 => triple.least(),
        1 => triple.guess(),
        2 => triple.most(),
        _ => Count::zero(),
    };
    Scalar::Int(count.get() as i128)
}
