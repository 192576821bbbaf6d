//! The aggregates of the three groupings.
ghost use Rattle.std.specs.Prelude.{◌≡◌, ◌+◌, ◌*◌, ◌<◌, ◌^◌, ◌++◌, ◌∷◌, [], IfOk, OnOk, flat_map, length};
ghost use Rattle.au_rwgroup.specs.Folds.{fold_aggs};
ghost use Rattle.au_rwgroup.specs.GroupPlan.{all_member_aggs, kept_for};
ghost use Rattle.au_rwgroup.specs.MemberAggs.{member_aggs};

use au_algebra::Agg;
use au_plain::PAgg;
use au_rwexpr::RangeColumns;
use au_value::NoMemory;
use std::alloc::Global;

/// What is kept of the rows that belong to a box for the aggregates, two columns for each MIN and MAX.
///
/// `NoMemory` comes also where a row cannot have so many columns.
pub fn kept_aggregates(alloc: Global, aggs: &[Agg]) -> Result<Vec<PAgg>, NoMemory>
    ensures { IfOk result (λ v. v.items ≡ flat_map kept_for aggs.now) }
{
    let mut kept = Vec::new(alloc);
    for agg in aggs {
        push_kept(&mut kept, *agg)?;
    }
    Ok(kept)
}

fn push_kept(kept: &mut Vec<PAgg>, agg: Agg) -> Result<(), NoMemory>
    ensures { OnOk result (kept.new.items ≡ kept.old.items ++ kept_for agg) }
{
    match agg {
        Agg::Sum(_) => Ok(()),
        Agg::Min(column) => {
            let cell = RangeColumns::of(column)?;
            push_two(kept, PAgg::Max(cell.first + 2), PAgg::Max(cell.first + 1))
        }
        Agg::Max(column) => {
            let cell = RangeColumns::of(column)?;
            push_two(kept, PAgg::Min(cell.first), PAgg::Min(cell.first + 1))
        }
    }
}

/// The aggregates of the second grouping over the columns from a place on, four for each, and whether a row is surely
/// there.
pub(crate) fn member_aggregates(
    alloc: Global,
    from: usize,
    aggs: &[Agg],
) -> Result<Vec<PAgg>, NoMemory>
    requires { from + 4 * length aggs.now < 2 ^ 64 }
    ensures { IfOk result (λ v. v.items ≡ all_member_aggs from aggs.now) }
{
    let mut all = Vec::new(alloc);
    let mut place = from;
    for agg in aggs {
        push_members(&mut all, place, *agg)?;
        place += 4;
    }
    all.push(PAgg::Max(place))?;
    Ok(all)
}

/// The aggregates of the folds over the columns from a place on, five for each.
///
/// `NoMemory` comes also where a row cannot have so many columns.
pub(crate) fn fold_aggregates(
    alloc: Global,
    from: usize,
    aggs: &[Agg],
) -> Result<Vec<PAgg>, NoMemory>
    ensures { IfOk result (λ v. v.items ≡ fold_aggs from aggs.now) }
{
    let mut all = Vec::new(alloc);
    let mut place = from;
    for agg in aggs {
        let Some(next) = place.checked_add(5) else {
            return Err(NoMemory);
        };
        push_members(&mut all, place, *agg)?;
        all.push(PAgg::Sum(place + 4))?;
        place = next;
    }
    Ok(all)
}

// Adds the aggregates over four columns.
fn push_members(all: &mut Vec<PAgg>, place: usize, agg: Agg) -> Result<(), NoMemory>
    requires { place + 3 < 2 ^ 64 }
    ensures { OnOk result (all.new.items ≡ all.old.items ++ member_aggs place agg) }
{
    match agg {
        Agg::Sum(_) => push_four(
            all,
            PAgg::Sum(place),
            PAgg::Sum(place + 1),
            PAgg::Sum(place + 2),
            PAgg::Sum(place + 3),
        ),
        Agg::Min(_) => push_four(
            all,
            PAgg::Min(place),
            PAgg::Min(place + 1),
            PAgg::Min(place + 2),
            PAgg::Max(place + 3),
        ),
        Agg::Max(_) => push_four(
            all,
            PAgg::Max(place),
            PAgg::Max(place + 1),
            PAgg::Max(place + 2),
            PAgg::Min(place + 3),
        ),
    }
}

fn push_two(all: &mut Vec<PAgg>, a: PAgg, b: PAgg) -> Result<(), NoMemory>
    ensures { OnOk result (all.new.items ≡ all.old.items ++ (a ∷ b ∷ [])) }
{
    all.push(a)?;
    all.push(b)?;
    Ok(())
}

fn push_four(all: &mut Vec<PAgg>, a: PAgg, b: PAgg, c: PAgg, d: PAgg) -> Result<(), NoMemory>
    ensures { OnOk result (all.new.items ≡ all.old.items ++ (a ∷ b ∷ c ∷ d ∷ [])) }
{
    all.push(a)?;
    all.push(b)?;
    all.push(c)?;
    all.push(d)?;
    Ok(())
}
