//! Lists of places in a row, and of the aggregates over them.
ghost use Rattle.std.specs.Prelude.{◌≡◌, ◌+◌, ◌*◌, ◌<◌, ◌^◌, ◌++◌, ◌∷◌, [], OnOk};
ghost use Rattle.au_plain.specs.declared.plan.PAgg.TheVariants.{Max, Min};
ghost use Rattle.au_rwexpr.specs.Cells.{run};
ghost use Rattle.au_combine.specs.Boxes.{box_aggs, sg_places, weave};

use au_plain::PAgg;
use au_value::NoMemory;

/// Adds so many places from one on.
pub fn push_run(places: &mut Vec<usize>, from: usize, count: usize) -> Result<(), NoMemory>
    requires { from + count < 2 ^ 64 }
    ensures { OnOk result (places.new.items ≡ places.old.items ++ run from count) }
{
    let mut place = from;
    let mut left = count;
    while left > 0 {
        places.push(place)?;
        place += 1;
        left -= 1;
    }
    Ok(())
}

/// Adds the places of the guesses of so many ranges from a place on.
pub(crate) fn push_guesses(
    places: &mut Vec<usize>,
    from: usize,
    columns: usize,
) -> Result<(), NoMemory>
    requires { from + 3 * columns < 2 ^ 64 }
    ensures { OnOk result (places.new.items ≡ places.old.items ++ sg_places from columns) }
{
    let mut place = from;
    let mut left = columns;
    while left > 0 {
        places.push(place + 1)?;
        place += 3;
        left -= 1;
    }
    Ok(())
}

/// Adds the least lower end and the greatest upper end of so many ranges from a place on.
pub(crate) fn push_ends(aggs: &mut Vec<PAgg>, from: usize, columns: usize) -> Result<(), NoMemory>
    requires { from + 3 * columns < 2 ^ 64 }
    ensures { OnOk result (aggs.new.items ≡ aggs.old.items ++ box_aggs from columns) }
{
    let mut place = from;
    let mut left = columns;
    while left > 0 {
        push_two_ends(aggs, place)?;
        place += 3;
        left -= 1;
    }
    Ok(())
}

// Adds the ends of one range.
fn push_two_ends(aggs: &mut Vec<PAgg>, place: usize) -> Result<(), NoMemory>
    requires { place + 2 < 2 ^ 64 }
    ensures { OnOk result (aggs.new.items ≡ aggs.old.items ++ (Min place ∷ Max (place + 2) ∷ [])) }
{
    aggs.push(PAgg::Min(place))?;
    aggs.push(PAgg::Max(place + 2))?;
    Ok(())
}

/// Adds the places of so many ranges whose guesses stand from one place on, and whose ends, two by two, from another.
pub(crate) fn push_woven(
    places: &mut Vec<usize>,
    guesses: usize,
    ends: usize,
    columns: usize,
) -> Result<(), NoMemory>
    requires guess_room { guesses + columns < 2 ^ 64 }
    requires end_room { ends + 2 * columns < 2 ^ 64 }
    ensures { OnOk result (places.new.items ≡ places.old.items ++ weave guesses ends columns) }
{
    let mut guess = guesses;
    let mut end = ends;
    let mut left = columns;
    while left > 0 {
        push_one_woven(places, guess, end)?;
        guess += 1;
        end += 2;
        left -= 1;
    }
    Ok(())
}

// Adds the places of one range.
fn push_one_woven(places: &mut Vec<usize>, guess: usize, end: usize) -> Result<(), NoMemory>
    requires { end + 1 < 2 ^ 64 }
    ensures { OnOk result (places.new.items ≡ places.old.items ++ (end ∷ guess ∷ (end + 1) ∷ [])) }
{
    places.push(end)?;
    places.push(guess)?;
    places.push(end + 1)?;
    Ok(())
}
