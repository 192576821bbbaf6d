//! The long texts of a table's blocks, for the book of their codes.
ghost use Rattle.std.specs.Prelude.{◌≡◌, ◌/◌, ◌∷◌, [], IsTrue, List, OnOk};
ghost use Rattle.std.specs.List.{All, AllByRecursion, list_all};
ghost use Rattle.au_value.specs.Order.{data_kind, kind_eq};
ghost use Rattle.au_blocks.specs.Held.{IsWithin, block_at, held};
ghost use Rattle.au_blocks.specs.Tables.{IsBlockTable, column_kinds, fits_kinds, table};
ghost use Rattle.au_plain.specs.PlanKinds.{HaveKinds};
ghost use Rattle.au_encode.specs.Encode.{encode};
ghost use Rattle.au_translate.specs.Translate.{bounded_blocks};
ghost use Rattle.au_codes.specs.Gathering.{with_row, with_rows};
ghost use Rattle.au_codes.specs.TextCodes.{knows_text};
ghost use Rattle.au_translate.specs.LentPlaces.{lent_values};
ghost use Rattle.au_batches.specs.BlockRows.{block_rows, in_place};
ghost use Rattle.au_batches.specs.Listed.{HasShort};
ghost use Rattle.au_batches.specs.TextPlaces.{is_text_at, row_kinds};

use crate::listed::own;
use au_blocks::{Alternatives, Block, Blocks, Column, Extent, Scalar};
use au_codes::LongTexts;
use au_translate::place_value;
use au_value::{Kind, NoMemory, Word};

/// Adds the long texts in these places of the encoded rows of some blocks of a table of these columns. A book that is made
/// of them knows these rows.
pub fn add_texts(
    texts: &mut LongTexts,
    columns: &[Column],
    blocks: &Blocks<'_>,
    places: &[usize],
) -> Result<(), NoMemory>
    requires { IsBlockTable (table columns.now blocks.now) }
    ensures { OnOk result (texts.new ≡ with_rows texts.old (block_rows places.now blocks.now)) }
{
    let (rows, extents) = blocks.parts();
    add_blocks(texts, columns, rows, extents, blocks, places)
}

// The same, with the alternatives of the table, and the places of the blocks among them.
fn add_blocks(
    texts: &mut LongTexts,
    columns: &[Column],
    rows: &Alternatives,
    extents: &[Extent],
    blocks: &Blocks<'_>,
    places: &[usize],
) -> Result<(), NoMemory>
    requires table { IsBlockTable (table columns.now blocks.now) }
    requires held { held rows.now extents.now ≡ blocks.now }
    requires within { All (IsWithin rows.now) extents.now }
    ensures { OnOk result (texts.new ≡ with_rows texts.old (block_rows places.now blocks.now)) }
{
    for at in 0..blocks.len() {
        add_block(texts, columns, rows, &extents[at], &blocks.get(at), places)?;
    }
    Ok(())
}

// Those of one block, which has its place here.
fn add_block(
    texts: &mut LongTexts,
    columns: &[Column],
    rows: &Alternatives,
    extent: &Extent,
    block: &Block<'_>,
    places: &[usize],
) -> Result<(), NoMemory>
    requires fits { (ks : List Kind) × IsTrue (list_all (λ a. fits_kinds ks a.cells) block.now.alternatives) }
    requires kinds { HaveKinds (row_kinds columns.now) (encode (bounded_blocks (block.now ∷ []))) }
    requires held { block.now ≡ block_at rows.now extent.now }
    requires within { IsWithin rows.now extent.now }
    ensures { OnOk result (texts.new ≡ with_rows texts.old (block_rows places.now (block.now ∷ []))) }
{
    for place in places {
        add_place(texts, columns, rows, extent, block, *place)?;
    }
    Ok(())
}

// That in one place. Where no text can stand nothing is read.
fn add_place(
    texts: &mut LongTexts,
    columns: &[Column],
    rows: &Alternatives,
    extent: &Extent,
    block: &Block<'_>,
    place: usize,
) -> Result<(), NoMemory>
    requires fits { (ks : List Kind) × IsTrue (list_all (λ a. fits_kinds ks a.cells) block.now.alternatives) }
    requires kinds { HaveKinds (row_kinds columns.now) (encode (bounded_blocks (block.now ∷ []))) }
    requires held { block.now ≡ block_at rows.now extent.now }
    requires within { IsWithin rows.now extent.now }
    ensures { OnOk result (texts.new ≡ with_row texts.old (in_place place (block.now ∷ []))) }
{
    if is_text(columns, place) {
        add_long(texts, rows, extent, block, place)
    } else {
        Ok(())
    }
}

// That in one place, where texts stand. Of short ones none is read.
fn add_long(
    texts: &mut LongTexts,
    rows: &Alternatives,
    extent: &Extent,
    block: &Block<'_>,
    place: usize,
) -> Result<(), NoMemory>
    requires fits { (ks : List Kind) × IsTrue (list_all (λ a. fits_kinds ks a.cells) block.now.alternatives) }
    requires held { block.now ≡ block_at rows.now extent.now }
    requires within { IsWithin rows.now extent.now }
    ensures { OnOk result (texts.new ≡ with_row texts.old (in_place place (block.now ∷ []))) }
{
    if has_short(rows, extent, place / 3) {
        Ok(())
    } else {
        add_value(texts, place_value(block, place))
    }
}

// Whether the alternatives of a block surely have short texts alone in a column.
fn has_short(rows: &Alternatives, extent: &Extent, at: usize) -> bool
    requires { IsWithin rows.now extent.now }
    ensures { IsTrue result → HasShort (block_at rows.now extent.now).alternatives at }
{
    match rows.texts(at) {
        Some(texts) => are_short(own(extent, texts)),
        None => false,
    }
}

// Whether texts are short.
fn are_short(texts: &[Word]) -> bool
    ensures { IsTrue result → AllByRecursion (λ w. IsTrue (knows_text [] w)) texts.now }
{
    for text in texts {
        if !is_short(text) {
            return false;
        }
    }
    true
}

// Whether a text is short, so that no book is needed for its code.
fn is_short(text: &Word) -> bool
    ensures { IsTrue result → IsTrue (knows_text [] text.now) }
{
    text.as_str().as_bytes().len() <= 12
}

// Whether texts stand in a place.
fn is_text(columns: &[Column], place: usize) -> bool
    ensures { result ≡ is_text_at (column_kinds (table columns.now [])) (place / 3) }
{
    let at = place / 3;
    if at < columns.len() {
        is_text_kind(columns[at].kind)
    } else {
        false
    }
}

// Whether a column of this kind has texts.
fn is_text_kind(kind: Kind) -> bool
    ensures { result ≡ kind_eq Kind.Text (data_kind kind) }
{
    match kind {
        Kind::Text => true,
        _ => false,
    }
}

// The text of a value, if there is one, and it is long.
fn add_value(texts: &mut LongTexts, value: Option<Scalar<'_>>) -> Result<(), NoMemory>
    ensures { OnOk result (texts.new ≡ with_row texts.old (lent_values value.entry)) }
{
    match value {
        Some(Scalar::Text(word)) => texts.add_text(word),
        _ => Ok(()),
    }
}
