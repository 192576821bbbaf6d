//! Block tables as plain tables: the kinds of their values, and their rows in the guess world.
ghost use Rattle.std.specs.Prelude.{◌≡◌, ◌++◌, IfOk, OnOk, map, replicate, true};
ghost use Rattle.std.specs.List.{AllByRecursion};
ghost use Rattle.au_value.specs.Order.{data_kind};
ghost use Rattle.au_value.specs.Ranges.{guesses as guesses_of};
ghost use Rattle.au_blocks.specs.Scalars.{scalar_value};
ghost use Rattle.au_blocks.specs.Tables.{IsBlockTable};
ghost use Rattle.au_blocks.specs.Worlds.{chosen, guess_choice, rows_in};
ghost use Rattle.au_expr.specs.Figures.{fit};
ghost use Rattle.au_expr.specs.Numbers.{number_if_any};
ghost use Rattle.au_plain.specs.PlanKinds.{FitRows, FitTables, row_fits};
ghost use Rattle.au_exec.specs.HeldRows.{rows_of};
ghost use Rattle.au_engine.specs.Answers.{blocks_of, guess_tables as guess_tables_of};
ghost use Rattle.au_engine.specs.Exchange.{value_kinds as value_kinds_of};

use crate::running::held::Held;
use au_blocks::{Alternative, Block, Blocks, Column, Scalar, Table};
use au_plain::PRow;
use au_value::{Kind, NoMemory, Word};
use std::alloc::Global;

/// The kinds of the values of columns.
pub(crate) fn data_kinds(alloc: Global, columns: &[Column]) -> Result<Vec<Kind>, NoMemory>
    ensures { IfOk result (λ v. v.items ≡ map (λ c. data_kind c.kind) columns.now) }
{
    let mut kinds = Vec::with_capacity(alloc, columns.len())?;
    for column in columns {
        kinds.push(column.kind.data())?;
    }
    Ok(kinds)
}

/// The kinds of the values of the tables' columns.
pub(crate) fn value_kinds(
    alloc: Global,
    tables: &[(Word, Table)],
) -> Result<Vec<Vec<Kind>>, NoMemory>
    ensures { IfOk result (λ v. map (λ ks. ks.items) v.items ≡ value_kinds_of tables.now) }
{
    let mut kinds = Vec::new(alloc);
    for table in tables {
        kinds.push(data_kinds(alloc, table.1.columns())?)?;
    }
    Ok(kinds)
}

/// The tables' rows in the guess world, in block order, each as often as it is guessed.
pub(crate) fn guess_tables<'a>(
    alloc: Global,
    tables: &'a [(Word, Table)],
) -> Result<Vec<Held<'a>>, NoMemory>
    ensures rows { IfOk result (λ v. v.items ≡ guess_tables_of tables.now) }
    ensures fit { IfOk result (λ v. FitTables v.items) }
    ensures tables { OnOk result (AllByRecursion IsBlockTable (blocks_of tables.now)) }
{
    let mut rows = Vec::new(alloc);
    for table in tables {
        rows.push(Held::of_rows(guess_rows(alloc, &table.1.blocks())?))?;
    }
    Ok(rows)
}

// The rows of blocks in the guess world.
fn guess_rows(alloc: Global, blocks: &Blocks<'_>) -> Result<Vec<PRow>, NoMemory>
    ensures rows { IfOk result (λ v. rows_of v ≡ rows_in blocks.now (map guess_choice blocks.now)) }
    ensures fit { IfOk result (λ v. FitRows (rows_of v)) }
{
    let mut rows = Vec::new(alloc);
    for place in 0..blocks.len() {
        push_guess(alloc, &mut rows, &blocks.get(place))?;
    }
    Ok(rows)
}

// A block's row in the guess world behind the others, as often as it is guessed.
fn push_guess(alloc: Global, rows: &mut Vec<PRow>, block: &Block<'_>) -> Result<(), NoMemory>
    ensures rows { OnOk result (rows_of rows.new ≡ rows_of rows.old ++ chosen (guess_choice block.now)) }
    ensures fit { OnOk result (FitRows (chosen (guess_choice block.now))) }
{
    let Some(at) = block.guess() else {
        return Ok(());
    };
    push_copies(alloc, rows, &block.alternatives().get(at))
}

// The guesses of an alternative behind other rows, as often as it is guessed.
fn push_copies(
    alloc: Global,
    rows: &mut Vec<PRow>,
    alternative: &Alternative<'_>,
) -> Result<(), NoMemory>
    ensures rows { OnOk result (rows_of rows.new ≡ rows_of rows.old ++ replicate alternative.now.copies.guess (guesses_of alternative.now.cells)) }
    ensures fit { OnOk result (FitRows (replicate alternative.now.copies.guess (guesses_of alternative.now.cells))) }
{
    let count = alternative.times().guess();
    for _ in 0..count {
        rows.push(guesses(alloc, alternative)?)?;
    }
    Ok(())
}

// The guesses of an alternative, whose numbers lie in 128 bits.
fn guesses(alloc: Global, alternative: &Alternative<'_>) -> Result<PRow, NoMemory>
    ensures row { IfOk result (λ v. v.items ≡ guesses_of alternative.now.cells) }
    ensures fits { OnOk result (row_fits (guesses_of alternative.now.cells) ≡ true) }
{
    let width = alternative.width();
    let mut guesses = Vec::with_capacity(alloc, width)?;
    for column in 0..width {
        let value = alternative.sg(column);
        read_value(value);
        guesses.push(value.to_value()?)?;
    }
    Ok(guesses)
}

// Nothing but that the number of a value, if it is one, lies in the range of its type.
fn read_value(value: Scalar<'_>)
    ensures { fit (number_if_any (scalar_value value.entry)) ≡ true }
{
    match value {
        Scalar::Int(n) => {
            let _n = n;
        }
        Scalar::Text(_) | Scalar::Flag(_) => {}
    }
}
