//! A column that is lent, or was made.
ghost use Rattle.std.specs.Prelude.{◌≡◌, IfOk};
ghost use Rattle.au_columns.specs.Operands.{seen};

use crate::column::Column;
use au_value::NoMemory;
use std::alloc::Global;

/// A column of a batch, or one that an evaluation made.
#[derive(Drop)]
pub(crate) enum Operand<'a> {
    Lent(&'a Column),
    Made(Column),
}

/// The column.
pub(crate) fn column<'b>(operand: &'b Operand<'_>) -> &'b Column
    ensures { result.now ≡ seen operand.now }
{
    match operand {
        Operand::Lent(column) => column,
        Operand::Made(column) => column,
    }
}

/// The column, copied where it is lent.
pub(crate) fn owned(alloc: Global, operand: Operand<'_>) -> Result<Column, NoMemory>
    ensures { IfOk result (λ c. c ≡ seen operand.entry) }
{
    match operand {
        Operand::Lent(column) => column.copied(alloc),
        Operand::Made(column) => Ok(column),
    }
}
