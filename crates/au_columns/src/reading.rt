//! The numbers of a batch's columns, for loops over them.
ghost use Rattle.std.specs.Prelude.{◌≡◌, IfOk, map};
ghost use Rattle.au_codes.specs.CellMeaning.{cell_in};

use crate::batch::Batch;
use crate::column::{Column, Numbers, widened};
use crate::operand::column;
use au_value::NoMemory;
use std::alloc::Global;

impl Column {
    /// Its numbers, in 128 bits each.
    pub fn to_vec(&self, alloc: Global) -> Result<Vec<i128>, NoMemory>
        ensures { IfOk result (λ v. v.items ≡ self.now) }
    {
        match &self.numbers {
            Numbers::Narrow(numbers) => widened(alloc, numbers),
            Numbers::Wide(numbers) => Ok(Vec::from_slice(alloc, numbers)?),
        }
    }
}

impl Batch {
    /// The cells of a column, one for each row, in 128 bits. Zeros stand for a column past the last.
    pub fn numbers(&self, alloc: Global, place: usize) -> Result<Vec<i128>, NoMemory>
        ensures { IfOk result (λ v. v.items ≡ map (λ row. cell_in row place) self.now) }
    {
        let found = self.operand(alloc, place)?;
        let numbers = column(&found).to_vec(alloc)?;
        Ok(numbers)
    }
}
