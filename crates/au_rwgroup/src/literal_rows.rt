//! Plans of one literal row.
ghost use Rattle.std.specs.Prelude.{◌≡◌, ◌∷◌, [], IfOk, replicate};
ghost use Rattle.au_plain.specs.Plans.{plan_tree};
ghost use Rattle.au_plain.specs.Plans as tree;

use au_plain::{PRow, Plan};
use au_value::{NoMemory, Value, copy};
use std::alloc::Global;

/// The row alone, which has this width.
pub(crate) fn one_row(alloc: Global, width: usize, row: PRow) -> Result<Plan, NoMemory>
    ensures { IfOk result (λ p. plan_tree p ≡ tree.Rows width (row.items ∷ [])) }
{
    let mut rows = Vec::with_capacity(alloc, 1)?;
    rows.push(row)?;
    Ok(Plan::Rows(width, rows))
}

/// The value, so often.
pub(crate) fn repeated(alloc: Global, value: &Value, width: usize) -> Result<PRow, NoMemory>
    ensures { IfOk result (λ row. row.items ≡ replicate width value.now) }
{
    let mut row = Vec::new(alloc);
    let mut left = width;
    while left > 0 {
        row.push(copy(value)?)?;
        left -= 1;
    }
    Ok(row)
}
