//! The places that are read of the encoded rows of a table.
ghost use Rattle.std.specs.Prelude.{◌≡◌, ◌++◌, ◌∷◌, ◌+◌, ◌*◌, ℕ, [], IfOk, OnOk, length};
ghost use Rattle.std.specs.List.{range_with_len};
ghost use Rattle.au_engine.specs.ReadPlaces.{places_in};

use au_blocks::Column;
use au_value::NoMemory;
use std::alloc::Global;

/// The places that are kept of the encoded rows of a table of these columns: all, where none are named.
pub(crate) fn places_read(
    alloc: Global,
    columns: &[Column],
    kept: &Option<Vec<usize>>,
) -> Result<Vec<usize>, NoMemory>
    ensures { IfOk result (λ v. v.items ≡ places_in (length columns.now) kept.now) }
{
    match kept {
        Some(places) => Ok(Vec::from_slice(alloc, places)?),
        None => all_places(alloc, columns),
    }
}

// All places of the encoded rows of a table of these columns.
fn all_places(alloc: Global, columns: &[Column]) -> Result<Vec<usize>, NoMemory>
    ensures { IfOk result (λ v. v.items ≡ range_with_len 0 (3 * length columns.now + 3)) }
{
    let mut places = Vec::new(alloc);
    for _column in columns {
        push_three(&mut places)?;
    }
    push_three(&mut places)?;
    Ok(places)
}

// Three places more.
fn push_three(places: &mut Vec<usize>) -> Result<(), NoMemory>
    ensures { OnOk result ((n : ℕ) → places.old.items ≡ range_with_len 0 n → places.new.items ≡ range_with_len 0 (n + 3)) }
{
    push_next(places)?;
    push_next(places)?;
    push_next(places)?;
    Ok(())
}

// One place more.
fn push_next(places: &mut Vec<usize>) -> Result<(), NoMemory>
    ensures { OnOk result (places.new.items ≡ places.old.items ++ length places.old.items ∷ []) }
{
    let next = places.len();
    places.push(next)?;
    Ok(())
}
