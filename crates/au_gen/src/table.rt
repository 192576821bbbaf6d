//! The text of a block table, block by block.
ghost use Rattle.std.specs.Prelude.{◌≡◌, ◌+◌, ◌*◌, ◌/◌, ◌%◌, ◌^◌, ◌==◌, ◌<◌, ◌≤◌, ◌++◌, [], vec_len, string_bytes, IfOk, OnOk, if◌then◌else◌};
ghost use Rattle.au_gen.specs.Generator.{next, guess_record, alternative_record, absent_record, block_text, text as text_of};

use crate::draws::Draws;
use au_value::NoMemory;
use std::alloc::Global;
use std::fmt::Write;

const HEADER: &str = "_block,_role,id:int,grp:text,amount:int\n";

/// The bytes of a block table with columns `id` (1 to `blocks`), `grp` (`g0` to `g3`) and `amount` (0 to 106).
///
/// Each block has a guess, one in three a second alternative, and one in five may be absent. 100,000 blocks give less
/// than 7,000,000 bytes.
pub fn table_text(alloc: Global, start: u32, blocks: u32) -> Result<Vec<u8>, NoMemory>
    requires some { 1 ≤ blocks }
    requires few { blocks ≤ 100000 }
    ensures value { IfOk result (λ text. text.items ≡ text_of start blocks) }
    ensures short { IfOk result (λ text. vec_len text < 7000000) }
{
    let mut text = String::from_str(alloc, HEADER)?;
    let mut draws = Draws::new(start);
    for block in 0..blocks {
        write_block(&mut text, block + 1, &mut draws)?;
    }
    Ok(text.into_bytes())
}

// Appends the records of a block, of the next three draws.
fn write_block(text: &mut String, block: u32, draws: &mut Draws) -> Result<(), NoMemory>
    ensures ok { OnOk result (string_bytes text.new ≡ string_bytes text.old ++ block_text block (next draws.old / 65536) (next (next draws.old) / 65536) (next (next (next draws.old)) / 65536)) }
    ensures draws { OnOk result (draws.new ≡ next (next (next draws.old))) }
{
    let a = draws.draw();
    let b = draws.draw();
    let c = draws.draw();
    write_guess(text, block, a, b)?;
    write_alternative(text, block, a, b, c)?;
    write_absent(text, block, c)
}

fn write_guess(text: &mut String, block: u32, a: u64, b: u64) -> Result<(), NoMemory>
    ensures { OnOk result (string_bytes text.new ≡ string_bytes text.old ++ guess_record block a b) }
{
    let (group, amount) = (a % 4, b % 100);
    write!(text, "{block},guess,{block},g{group},{amount}\n").map_err(|_| NoMemory)
}

fn write_alternative(text: &mut String, block: u32, a: u64, b: u64, c: u64) -> Result<(), NoMemory>
    requires { a < 2 ^ 15 }
    ensures { OnOk result (string_bytes text.new ≡ string_bytes text.old ++ (if c % 3 == 0 then alternative_record block a b else [])) }
{
    if c % 3 != 0 {
        return Ok(());
    }
    let (group, amount) = ((a + 1) % 4, b % 100 + 7);
    write!(text, "{block},alt,{block},g{group},{amount}\n").map_err(|_| NoMemory)
}

fn write_absent(text: &mut String, block: u32, c: u64) -> Result<(), NoMemory>
    ensures { OnOk result (string_bytes text.new ≡ string_bytes text.old ++ (if c % 5 == 0 then absent_record block else [])) }
{
    if c % 5 != 0 {
        return Ok(());
    }
    write!(text, "{block},absent,,,\n").map_err(|_| NoMemory)
}
