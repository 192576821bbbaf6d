//! The kinds of the rows of blocks.
ghost use Rattle.std.specs.Prelude.{◌≡◌, ◌∷◌, [], IfOk, IsTrue, List, map};
ghost use Rattle.std.specs.List.{list_all};
ghost use Rattle.au_algebra.specs.Lists.{value_at};
ghost use Rattle.au_batches.specs.BlockRows.{block_rows};
ghost use Rattle.au_blocks.specs.Scalars.{scalar_value};
ghost use Rattle.au_blocks.specs.Tables.{IsBlockTable, fits_kinds, table};
ghost use Rattle.au_encode.specs.Encode.{encode};
ghost use Rattle.au_translate.specs.Translate.{bounded_blocks};
ghost use Rattle.au_value.specs.declared.kinds.Kind.{Kind as KindOf};
ghost use Rattle.au_value.specs.Order.{kind_of};
ghost use Rattle.au_exec.specs.HeldRows.{first_row};
ghost use Rattle.au_exec.specs.KnownKinds.{first_kinds, held_kinds};

use au_blocks::{Block, Blocks, Column, Scalar};
use au_translate::place_value;
use au_value::{Kind, NoMemory};
use std::alloc::Global;

/// The kinds of the values in these places of the first encoded row of some blocks of a table of these columns, if there is
/// one.
pub(crate) fn kinds_of_blocks(
    alloc: Global,
    columns: &[Column],
    blocks: &Blocks<'_>,
    places: &[usize],
) -> Result<Option<Vec<Kind>>, NoMemory>
    requires { IsBlockTable (table columns.now blocks.now) }
    ensures { IfOk result (λ v. held_kinds v ≡ first_kinds (block_rows places.now blocks.now)) }
{
    let _ = columns;
    for at in 0..blocks.len() {
        let found = kinds_of_block(alloc, &blocks.get(at), places)?;
        if found.is_some() {
            return Ok(found);
        }
    }
    Ok(None)
}

// Those of the row of one block, if it has one.
fn kinds_of_block(
    alloc: Global,
    block: &Block<'_>,
    places: &[usize],
) -> Result<Option<Vec<Kind>>, NoMemory>
    requires { (ks : List KindOf) × IsTrue (list_all (λ a. fits_kinds ks a.cells) block.now.alternatives) }
    ensures { IfOk result (λ v. held_kinds v ≡ first_kinds (block_rows places.now (block.now ∷ []))) }
{
    match place_value(block, 0) {
        Some(_) => Ok(Some(kinds_in(alloc, block, places)?)),
        None => Ok(None),
    }
}

// Those of the row of a block.
fn kinds_in(alloc: Global, block: &Block<'_>, places: &[usize]) -> Result<Vec<Kind>, NoMemory>
    requires { (ks : List KindOf) × IsTrue (list_all (λ a. fits_kinds ks a.cells) block.now.alternatives) }
    ensures { IfOk result (λ v. v.items ≡ map (λ place. kind_of (value_at (first_row (encode (bounded_blocks (block.now ∷ [])))) place)) places.now) }
{
    let mut kinds = Vec::with_capacity(alloc, places.len())?;
    for place in places {
        kinds.push(kind_in(block, *place))?;
    }
    Ok(kinds)
}

// The kind of the value in one place.
fn kind_in(block: &Block<'_>, place: usize) -> Kind
    requires { (ks : List KindOf) × IsTrue (list_all (λ a. fits_kinds ks a.cells) block.now.alternatives) }
    ensures { result ≡ kind_of (value_at (first_row (encode (bounded_blocks (block.now ∷ [])))) place) }
{
    match place_value(block, place) {
        Some(value) => scalar_kind(value),
        None => Kind::Int,
    }
}

// The kind of a value that is lent.
fn scalar_kind(value: Scalar<'_>) -> Kind
    ensures { result ≡ kind_of (scalar_value value.entry) }
{
    match value {
        Scalar::Int(_) => Kind::Int,
        Scalar::Text(_) => Kind::Text,
        Scalar::Flag(_) => Kind::Flag,
    }
}
