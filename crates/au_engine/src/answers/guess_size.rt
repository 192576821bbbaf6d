//! How many guess rows a table has.
ghost use Rattle.std.specs.Prelude.{◌≡◌, map, nat_le, sum};
ghost use Rattle.au_translate.specs.Translate.{guessed_copies};
ghost use Rattle.au_engine.specs.Exchange.{greatest_plain_size, plain_size};

use au_blocks::{Block, Blocks, Table};

// The greatest size of a table whose guess rows are made.
const MAX_SIZE: u64 = 16_777_216;

/// Whether the guess rows of a table are few enough to be made: g rows of c columns where g * (c + 1) is at most
/// 16,777,216. It takes no memory.
pub fn fits_plain(table: &Table) -> bool
    ensures { result ≡ nat_le (plain_size table.now) greatest_plain_size }
{
    let columns = table.columns().len() as u64;
    has_at_most(&table.blocks(), MAX_SIZE / (columns + 1))
}

// Whether so many rows are guessed in all, or fewer.
fn has_at_most(blocks: &Blocks<'_>, count: u64) -> bool
    ensures { result ≡ nat_le (sum (map guessed_copies blocks.now)) count }
{
    let mut left = count;
    for place in 0..blocks.len() {
        let copies = copies(&blocks.get(place));
        if copies > left {
            return false;
        }
        left -= copies;
    }
    true
}

// How many rows of a block are guessed.
fn copies(block: &Block<'_>) -> u64
    ensures { result ≡ guessed_copies block.now }
{
    match block.guess() {
        Some(at) => block.alternatives().get(at).times().guess(),
        None => 0,
    }
}
