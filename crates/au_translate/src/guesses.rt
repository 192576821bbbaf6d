//! The relation of a block table in the guess world.
ghost use Rattle.std.specs.Prelude.{◌≡◌, ◌++◌, ◌∷◌, [], IfOk, OnOk};
ghost use Rattle.au_value.specs.Ranges.{guesses as guesses_of};
ghost use Rattle.au_algebra.specs.Counted.{occurring};
ghost use Rattle.au_algebra.specs.Entries.{entry};
ghost use Rattle.au_translate.specs.Translate.{guessed_blocks, guessed_table};

use crate::bounds::count;
use au_algebra::Rel;
use au_annot::Count;
use au_blocks::{Alternative, Block, Blocks, Table};
use au_value::{NoMemory, Value};
use std::alloc::Global;

/// The row of each block in the guess world, in block order, with its guessed number of copies. A block that has no copy
/// there has no row.
pub fn guessed(alloc: Global, table: &Table) -> Result<Rel<Value, Count>, NoMemory>
    ensures { IfOk result (λ r. r ≡ guessed_table table.now) }
{
    guessed_rows(alloc, &table.blocks())
}

// The same of some blocks.
fn guessed_rows(alloc: Global, blocks: &Blocks<'_>) -> Result<Rel<Value, Count>, NoMemory>
    ensures { IfOk result (λ r. r ≡ guessed_blocks blocks.now) }
{
    let mut rel = Rel {
        rows: Vec::with_capacity(alloc, blocks.len())?,
    };
    for place in 0..blocks.len() {
        push_guess(alloc, &mut rel, &blocks.get(place))?;
    }
    Ok(rel)
}

// A block's row in the guess world behind the others, if it has a copy there.
fn push_guess(alloc: Global, rel: &mut Rel<Value, Count>, block: &Block<'_>) -> Result<(), NoMemory>
    ensures { OnOk result (rel.new ≡ rel.old ++ guessed_blocks (block.now ∷ [])) }
{
    let Some(at) = block.guess() else {
        return Ok(());
    };
    push_row(alloc, rel, &block.alternatives().get(at))
}

// The guesses of an alternative with its guessed number of copies behind the others, if there is a copy.
fn push_row(
    alloc: Global,
    rel: &mut Rel<Value, Count>,
    alternative: &Alternative<'_>,
) -> Result<(), NoMemory>
    ensures { OnOk result (rel.new ≡ rel.old ++ occurring (entry (guesses_of alternative.now.cells) alternative.now.copies.guess ∷ [])) }
{
    let copies = alternative.times().guess();
    if copies == 0 {
        return Ok(());
    }
    rel.push(guesses(alloc, alternative)?, count(copies))
}

// The guesses of an alternative.
fn guesses(alloc: Global, alternative: &Alternative<'_>) -> Result<Vec<Value>, NoMemory>
    ensures { IfOk result (λ v. v.items ≡ guesses_of alternative.now.cells) }
{
    let mut guesses = Vec::with_capacity(alloc, alternative.width())?;
    for at in 0..alternative.width() {
        let guess = alternative.sg(at).to_value()?;
        guesses.push(guess)?;
    }
    Ok(guesses)
}
