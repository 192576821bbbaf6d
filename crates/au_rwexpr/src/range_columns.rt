//! The three columns of a range.
ghost use Rattle.std.specs.Prelude.{◌≡◌, ◌+◌, ◌*◌, ◌<◌, ◌^◌, IfOk};
ghost use Rattle.au_plain.specs.PTerms.{pterm};
ghost use Rattle.au_rwexpr.specs.Flatten as columns;

use au_plain::{Layout, PExpr};
use au_value::NoMemory;

/// Three columns that hold the lower end, the guess and the upper end of a range, by the place of the first.
#[derive(Clone, Copy)]
pub struct RangeColumns {
    pub first: usize,
    ghost room: { first + 2 < 2 ^ 64 },
}

impl RangeColumns {
    /// The columns from a place on. `NoMemory` comes where a row cannot have so many.
    pub fn at(place: usize) -> Result<RangeColumns, NoMemory>
        ensures { IfOk result (λ r. r.first ≡ place) }
    {
        match place.checked_add(2) {
            Some(_) => Ok(RangeColumns { first: place }),
            None => Err(NoMemory),
        }
    }

    /// The columns of this number in an encoded row. `NoMemory` comes where a row cannot have so many.
    pub fn of(column: usize) -> Result<RangeColumns, NoMemory>
        ensures { IfOk result (λ r. r.first ≡ 3 * column) }
    {
        match column.checked_mul(3) {
            Some(place) => RangeColumns::at(place),
            None => Err(NoMemory),
        }
    }

    /// The column of the lower bound.
    pub fn lo(self) -> PExpr
        ensures { pterm result ≡ columns.lo self.first }
    {
        PExpr::Column(self.first)
    }

    /// The column of the guess.
    pub fn sg(self) -> PExpr
        ensures { pterm result ≡ columns.sg self.first }
    {
        PExpr::Column(self.first + 1)
    }

    /// The column of the upper bound.
    pub fn hi(self) -> PExpr
        ensures { pterm result ≡ columns.hi self.first }
    {
        PExpr::Column(self.first + 2)
    }
}

/// The width of an encoded row. `NoMemory` comes where a row cannot have so many columns.
pub fn width_of(layout: &Layout) -> Result<usize, NoMemory>
    ensures { IfOk result (λ n. n ≡ 3 * layout.now.columns + 3) }
{
    let Some(cells) = layout.columns.checked_mul(3) else {
        return Err(NoMemory);
    };
    match cells.checked_add(3) {
        Some(width) => Ok(width),
        None => Err(NoMemory),
    }
}
