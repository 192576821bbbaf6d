//! Plain rows in the order of their values, from the first column on.
ghost use Rattle.std.specs.Prelude.{◌≡◌, IfOk};
ghost use Rattle.au_print.specs.GuessTexts.{in_order};
ghost use Rattle.au_exec.specs.HeldRows.{rows_of};

use au_plain::PRow;
use au_print::writing::compare_values;
use au_value::NoMemory;

/// The rows in order. None is copied.
pub(crate) fn ordered(rows: Vec<PRow>) -> Result<Vec<PRow>, NoMemory>
    ensures { IfOk result (λ v. rows_of v ≡ in_order (rows_of rows)) }
{
    let mut rows = rows;
    rows.sort_by(|a, b| compare_values(a, b))?;
    Ok(rows)
}
