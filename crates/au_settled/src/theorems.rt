//! Laws of the normal form of rows of numbers. Each is the contract of a function that does nothing.
ghost use Rattle.au_settled.specs.Laws.{SettledIsNormal};
ghost use Rattle.au_settled.specs.Worked.{RowsWorked};

use au_codes::{cells_keep_normal, cells_stand, text_codes_keep_order};

/// Over codes of an encoded relation the normal form is the codes of the relation's.
pub fn settled_is_normal()
    ensures { SettledIsNormal }
{
    cells_keep_normal();
    cells_stand();
    text_codes_keep_order();
}

/// Worked rows.
pub fn rows_worked()
    ensures { RowsWorked }
{}
