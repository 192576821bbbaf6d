//! Columns of whole numbers, in 64 bits as long as they fit.
ghost use Rattle.std.specs.Prelude.{◌≡◌, ◌≤◌, ◌∷◌, ◌++◌, [], IfOk, IfSome, OnOk, OnErr, length, map, replicate, slice_range};
ghost use Rattle.au_columns.specs.Steps.{AllFit, AreBelow, number_at};

use crate::wide::widen;
use crate::{narrow, wide};
use au_value::NoMemory;
use std::alloc::Global;
use std::marker::Model;

/// Whole numbers of 128 bits. Contracts see their list. They take 64 bits each until one is put in that needs more.
#[derive(Drop)]
pub struct Column {
    pub(crate) numbers: Numbers,
}

// Where the numbers of a column lie.
#[derive(Drop)]
pub(crate) enum Numbers {
    Narrow(Vec<i64>),
    Wide(Vec<i128>),
}

impl Model for Column {
    ghost use Rattle.std.specs.Prelude.{List, ℤ};
    ghost use Rattle.au_columns.specs.Held.{held_numbers};

    ghost Value = { List ℤ };

    ghost view = { λ c. held_numbers c.numbers };
}

impl Column {
    /// A column without numbers.
    pub fn new(alloc: Global) -> Column
        ensures { result ≡ [] }
    {
        Column::narrow(Vec::new(alloc))
    }

    /// A column that has one number at each place.
    pub fn filled(alloc: Global, number: i128, count: usize) -> Result<Column, NoMemory>
        ensures { IfOk result (λ c. c ≡ replicate count number) }
    {
        match i64::try_from(number) {
            Ok(small) => Ok(Column::narrow(vec![in alloc; small; count]?)),
            Err(_) => Ok(Column::wide(vec![in alloc; number; count]?)),
        }
    }

    /// A column of numbers of 64 bits.
    pub fn narrow(numbers: Vec<i64>) -> Column
        ensures { result ≡ numbers.items }
    {
        Column {
            numbers: Numbers::Narrow(numbers),
        }
    }

    /// A column of numbers of 128 bits.
    pub fn wide(numbers: Vec<i128>) -> Column
        ensures { result ≡ numbers.items }
    {
        Column {
            numbers: Numbers::Wide(numbers),
        }
    }

    /// Its numbers, lent, where they are held in 64 bits.
    pub fn as_narrow(&self) -> Option<&[i64]>
        ensures { IfSome result (λ numbers. numbers.now ≡ self.now) }
    {
        match &self.numbers {
            Numbers::Narrow(numbers) => Some(numbers),
            Numbers::Wide(_) => None,
        }
    }

    /// How many numbers it has.
    pub fn len(&self) -> usize
        ensures { result ≡ length self.now }
    {
        match &self.numbers {
            Numbers::Narrow(numbers) => numbers.len(),
            Numbers::Wide(numbers) => numbers.len(),
        }
    }

    /// The number at a place, and 0 past the last.
    pub fn get(&self, place: usize) -> i128
        ensures { result ≡ number_at self.now place }
    {
        match &self.numbers {
            Numbers::Narrow(numbers) => {
                if place < numbers.len() {
                    numbers[place] as i128
                } else {
                    0
                }
            }
            Numbers::Wide(numbers) => {
                if place < numbers.len() {
                    numbers[place]
                } else {
                    0
                }
            }
        }
    }

    /// The numbers of some places, in this order.
    pub fn gather(&self, alloc: Global, places: &[usize]) -> Result<Column, NoMemory>
        requires { AreBelow places.now (length self.now) }
        ensures { IfOk result (λ c. c ≡ map (number_at self.now) places.now) }
    {
        match &self.numbers {
            Numbers::Narrow(numbers) => gather_narrow(alloc, numbers, places),
            Numbers::Wide(numbers) => gather_wide(alloc, numbers, places),
        }
    }

    /// A column of the same numbers.
    pub fn copied(&self, alloc: Global) -> Result<Column, NoMemory>
        ensures { IfOk result (λ c. c ≡ self.now) }
    {
        match &self.numbers {
            Numbers::Narrow(numbers) => Ok(Column::narrow(Vec::from_slice(alloc, numbers)?)),
            Numbers::Wide(numbers) => Ok(Column::wide(Vec::from_slice(alloc, numbers)?)),
        }
    }

    // The numbers from one place to before another.
    pub(crate) fn part(&self, alloc: Global, first: usize, end: usize) -> Result<Column, NoMemory>
        requires { (first ≤ end) × (end ≤ length self.now) }
        ensures { IfOk result (λ c. c ≡ slice_range self.now first end) }
    {
        match &self.numbers {
            Numbers::Narrow(numbers) => {
                let part = Vec::from_slice(alloc, &numbers[first..end])?;
                Ok(Column::narrow(part))
            }
            Numbers::Wide(numbers) => {
                let part = Vec::from_slice(alloc, &numbers[first..end])?;
                Ok(Column::wide(part))
            }
        }
    }

    // Reads each number: what is held fits.
    pub(crate) fn read(&self)
        ensures { AllFit self.now }
    {
        match &self.numbers {
            Numbers::Narrow(numbers) => narrow::read(numbers),
            Numbers::Wide(numbers) => wide::read(numbers),
        }
    }

    /// Puts a number behind the others. Where memory is wanting, the column is what it was.
    pub fn push(&mut self, alloc: Global, number: i128) -> Result<(), NoMemory>
        ensures put { OnOk result (self.new ≡ self.old ++ number ∷ []) }
        ensures kept { OnErr result (self.new ≡ self.old) }
    {
        match &mut self.numbers {
            Numbers::Narrow(numbers) => match i64::try_from(number) {
                Ok(small) => {
                    numbers.push(small)?;
                    Ok(())
                }
                Err(_) => {
                    let mut wide = widened(alloc, numbers)?;
                    wide.push(number)?;
                    self.numbers = Numbers::Wide(wide);
                    Ok(())
                }
            },
            Numbers::Wide(numbers) => {
                numbers.push(number)?;
                Ok(())
            }
        }
    }

    /// Puts the numbers of another column behind the others. Where memory is wanting, the column is what it was.
    pub fn append(&mut self, alloc: Global, other: &Column) -> Result<(), NoMemory>
        ensures put { OnOk result (self.new ≡ self.old ++ other.now) }
        ensures kept { OnErr result (self.new ≡ self.old) }
    {
        match &other.numbers {
            Numbers::Narrow(more) => self.append_narrow(alloc, more),
            Numbers::Wide(more) => self.append_wide(alloc, more),
        }
    }

    // The same of numbers of 64 bits.
    fn append_narrow(&mut self, alloc: Global, more: &[i64]) -> Result<(), NoMemory>
        ensures put { OnOk result (self.new ≡ self.old ++ more.now) }
        ensures kept { OnErr result (self.new ≡ self.old) }
    {
        match &mut self.numbers {
            Numbers::Narrow(numbers) => {
                numbers.extend_from_slice(more)?;
                Ok(())
            }
            Numbers::Wide(numbers) => {
                let wide = widened(alloc, more)?;
                numbers.extend_from_slice(&wide)?;
                Ok(())
            }
        }
    }

    // The same of numbers of 128 bits.
    fn append_wide(&mut self, alloc: Global, more: &[i128]) -> Result<(), NoMemory>
        ensures put { OnOk result (self.new ≡ self.old ++ more.now) }
        ensures kept { OnErr result (self.new ≡ self.old) }
    {
        match &mut self.numbers {
            Numbers::Narrow(numbers) => {
                let mut wide = widened(alloc, numbers)?;
                wide.extend_from_slice(more)?;
                self.numbers = Numbers::Wide(wide);
                Ok(())
            }
            Numbers::Wide(numbers) => {
                numbers.extend_from_slice(more)?;
                Ok(())
            }
        }
    }

    /// Lets all numbers go, and keeps the room for them.
    pub fn clear(&mut self)
        ensures { self.new ≡ [] }
    {
        match &mut self.numbers {
            Numbers::Narrow(numbers) => numbers.clear(),
            Numbers::Wide(numbers) => numbers.clear(),
        }
    }
}

/// The same numbers in 128 bits.
pub(crate) fn widened(alloc: Global, numbers: &[i64]) -> Result<Vec<i128>, NoMemory>
    ensures { IfOk result (λ v. v.items ≡ numbers.now) }
{
    let mut wide = vec![in alloc; 0i128; numbers.len()]?;
    widen(numbers, &mut wide);
    Ok(wide)
}

// The numbers of some places, of numbers of 64 bits.
fn gather_narrow(alloc: Global, numbers: &[i64], places: &[usize]) -> Result<Column, NoMemory>
    requires { AreBelow places.now (length numbers.now) }
    ensures { IfOk result (λ c. c ≡ map (number_at numbers.now) places.now) }
{
    let mut made = vec![in alloc; 0i64; places.len()]?;
    narrow::gather(numbers, places, &mut made);
    Ok(Column::narrow(made))
}

// The numbers of some places, of numbers of 128 bits.
fn gather_wide(alloc: Global, numbers: &[i128], places: &[usize]) -> Result<Column, NoMemory>
    requires { AreBelow places.now (length numbers.now) }
    ensures { IfOk result (λ c. c ≡ map (number_at numbers.now) places.now) }
{
    let mut made = vec![in alloc; 0i128; places.len()]?;
    wide::gather(numbers, places, &mut made);
    Ok(Column::wide(made))
}
