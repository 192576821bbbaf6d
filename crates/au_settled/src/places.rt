//! Lists of places.
ghost use Rattle.std.specs.Prelude.{◌≡◌, ◌+◌, ◌*◌, ◌<◌, ◌^◌, ◌++◌, IfOk};
ghost use Rattle.std.specs.List.{range_with_len};
ghost use Rattle.au_settled.specs.Places.{every_third, key_places};

use au_value::NoMemory;
use std::alloc::Global;

/// So many places, from the first.
pub(crate) fn first_places(alloc: Global, count: usize) -> Result<Vec<usize>, NoMemory>
    ensures { IfOk result (λ v. v.items ≡ range_with_len 0 count) }
{
    let mut places = Vec::with_capacity(alloc, count)?;
    for place in 0..count {
        places.push(place)?;
    }
    Ok(places)
}

/// The places by which rows are ordered: of all columns the guesses, then the lower ends, then the upper ones.
pub(crate) fn order_places(alloc: Global, columns: usize) -> Result<Vec<usize>, NoMemory>
    requires { 3 * columns < 2 ^ 63 }
    ensures { IfOk result (λ v. v.items ≡ key_places columns) }
{
    let guesses = with_thirds(Vec::new(alloc), 1, columns)?;
    let lowers = with_thirds(guesses, 0, columns)?;
    let uppers = with_thirds(lowers, 2, columns)?;
    Ok(uppers)
}

// Places, and behind them every third from one on.
fn with_thirds(places: Vec<usize>, first: usize, columns: usize) -> Result<Vec<usize>, NoMemory>
    requires { first + 3 * columns < 2 ^ 64 }
    ensures { IfOk result (λ v. v.items ≡ places.items ++ every_third first columns) }
{
    let mut places = places;
    let mut place = first;
    let mut left = columns;
    while left > 0 {
        places.push(place)?;
        place += 3;
        left -= 1;
    }
    Ok(places)
}
