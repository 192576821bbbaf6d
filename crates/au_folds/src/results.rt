//! The rows of groups: their keys, and then their aggregates, column by column.
ghost use Rattle.std.specs.Prelude.{◌≡◌, ◌<◌, IfOk, length, map, take};
ghost use Rattle.std.specs.List.{AllByRecursion};
ghost use Rattle.au_columns.specs.Batches.{beside};
ghost use Rattle.au_columns.specs.Steps.{number_at};
ghost use Rattle.au_folds.specs.Held.{kept_in, kept_in_all};
ghost use Rattle.au_folds.specs.Kept.{kept_values};
ghost use Rattle.au_folds.specs.Keyed.{key_cells, key_lists, key_places, lists, singles};
ghost use Rattle.au_folds.specs.Packed.{unpacked};
ghost use Rattle.au_folds.specs.Tables.{beside_all};

use crate::fold::Fold;
use crate::held::KeyLists;
use crate::keyed::number;
use crate::packed::{number_in, width};
use crate::seen::Seen;
use au_columns::{Batch, Column};
use au_value::{Adder, NoMemory};
use std::alloc::Global;

/// The keys as rows.
pub(crate) fn key_rows(alloc: Global, seen: &Seen) -> Result<Batch, NoMemory>
    requires { AllByRecursion (λ key. length key ≡ length (key_places seen.now)) (key_cells seen.now) }
    ensures { IfOk result (λ b. b ≡ key_cells seen.now) }
{
    match seen {
        Seen::One(_, known) => single_rows(alloc, known.as_slice()),
        Seen::Several(places, known) => held_rows(alloc, places.len(), known),
    }
}

// Rows of one number each.
fn single_rows(alloc: Global, keys: &[i128]) -> Result<Batch, NoMemory>
    ensures { IfOk result (λ b. b ≡ singles keys.now) }
{
    let column = listed(alloc, keys)?;
    let rows = Batch::new(alloc, keys.len()).with_column(alloc, column)?;
    Ok(rows)
}

// Rows of so many numbers each, in either form.
fn held_rows(alloc: Global, count: usize, known: &KeyLists) -> Result<Batch, NoMemory>
    requires { AllByRecursion (λ key. length key ≡ count) (key_lists known.now) }
    ensures { IfOk result (λ b. b ≡ key_lists known.now) }
{
    match known {
        KeyLists::Packed(deep, known) => {
            packed_rows(alloc, count, *deep, width(*deep), known.as_slice())
        }
        KeyLists::Free(known) => list_rows(alloc, count, known.as_slice()),
    }
}

// Rows of so many numbers each that are packed into one.
fn packed_rows(
    alloc: Global,
    count: usize,
    deep: usize,
    width: u32,
    keys: &[i128],
) -> Result<Batch, NoMemory>
    requires long { AllByRecursion (λ key. length key ≡ count) (map (unpacked width deep) keys.now) }
    requires small { width < 127 }
    ensures { IfOk result (λ b. b ≡ map (unpacked width deep) keys.now) }
{
    let mut rows = Batch::new(alloc, keys.len());
    for place in 0..count {
        let column = packed_place(alloc, keys, place, deep, width)?;
        rows = rows.with_column(alloc, column)?;
    }
    Ok(rows)
}

// The numbers of a place of keys that are packed.
fn packed_place(
    alloc: Global,
    keys: &[i128],
    place: usize,
    deep: usize,
    width: u32,
) -> Result<Column, NoMemory>
    requires { width < 127 }
    ensures { IfOk result (λ c. c ≡ map (λ key. number_at key place) (map (unpacked width deep) keys.now)) }
{
    let mut column = Column::new(alloc);
    for key in keys {
        column.push(alloc, number_in(*key, place, deep, width))?;
    }
    Ok(column)
}

// Rows of so many numbers each.
fn list_rows(alloc: Global, width: usize, keys: &[Vec<i128>]) -> Result<Batch, NoMemory>
    requires { AllByRecursion (λ key. length key ≡ width) (lists keys.now) }
    ensures { IfOk result (λ b. b ≡ lists keys.now) }
{
    let mut rows = Batch::new(alloc, keys.len());
    for place in 0..width {
        rows = with_place(alloc, rows, keys, place)?;
    }
    Ok(rows)
}

// Rows with the numbers of a place of keys more.
fn with_place(
    alloc: Global,
    rows: Batch,
    keys: &[Vec<i128>],
    place: usize,
) -> Result<Batch, NoMemory>
    requires { rows ≡ map (take place) (lists keys.now) }
    ensures { IfOk result (λ b. b ≡ beside rows (map (λ key. number_at key place) (lists keys.now))) }
{
    let column = at_place(alloc, keys, place)?;
    let more = rows.with_column(alloc, column)?;
    Ok(more)
}

// The numbers of a place of keys.
fn at_place(alloc: Global, keys: &[Vec<i128>], place: usize) -> Result<Column, NoMemory>
    ensures { IfOk result (λ c. c ≡ map (λ key. number_at key place) (lists keys.now)) }
{
    let mut column = Column::new(alloc);
    for key in keys {
        column.push(alloc, number(key, place))?;
    }
    Ok(column)
}

// A column of some numbers.
fn listed(alloc: Global, numbers: &[i128]) -> Result<Column, NoMemory>
    ensures { IfOk result (λ c. c ≡ numbers.now) }
{
    let mut column = Column::new(alloc);
    for number in numbers {
        column.push(alloc, *number)?;
    }
    Ok(column)
}

// A column of the totals of sums.
fn totals(alloc: Global, sums: &[Adder]) -> Result<Column, NoMemory>
    ensures { IfOk result (λ c. c ≡ map (λ s. s.total) sums.now) }
{
    let mut column = Column::new(alloc);
    for sum in sums {
        column.push(alloc, sum.total())?;
    }
    Ok(column)
}

// A column of the aggregate of each group.
fn values(alloc: Global, fold: &Fold) -> Result<Column, NoMemory>
    ensures { IfOk result (λ c. c ≡ kept_values (kept_in fold.now)) }
{
    match fold {
        Fold::Sum(_, sums) => totals(alloc, sums),
        Fold::Least(_, bests) => listed(alloc, bests),
        Fold::Greatest(_, bests) => listed(alloc, bests),
    }
}

/// Rows with the aggregates of their groups more.
pub(crate) fn with_values(alloc: Global, rows: Batch, folds: &[Fold]) -> Result<Batch, NoMemory>
    requires { AllByRecursion (λ k. length (kept_values k) ≡ length rows) (kept_in_all folds.now) }
    ensures { IfOk result (λ b. b ≡ beside_all rows (map kept_values (kept_in_all folds.now))) }
{
    let mut rows = rows;
    for fold in folds {
        let column = values(alloc, fold)?;
        rows = rows.with_column(alloc, column)?;
    }
    Ok(rows)
}
