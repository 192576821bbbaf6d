//! Laws of coded plans. Each is the contract of a function that does nothing.
ghost use Rattle.au_exec.specs.KindLaws.{KnownKindsHold};
ghost use Rattle.au_exec.specs.Ready.{ReadyPlansStand};

use au_codes::{
    cells_keep_numbers, cells_keep_rows, cells_stand, rows_stay_known, text_codes_keep_order,
};

/// A typed plan's rows have the kinds that the first rows of its tables tell.
pub fn known_kinds_hold()
    ensures { KnownKindsHold }
{}

/// What a plan that is ready gives over codes decodes to its rows.
pub fn ready_plans_stand()
    ensures { ReadyPlansStand }
{
    text_codes_keep_order();
    cells_keep_rows();
    cells_keep_numbers();
    rows_stay_known();
    cells_stand();
}
