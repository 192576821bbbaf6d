//! The encoded rows of a table in a file.
ghost use Rattle.std.specs.Prelude.{◌≡◌, ◌≤◌, IfOk, IfErr};
ghost use Rattle.au_engine.specs.Exchange.{encoded_text as encoded_text_of};
ghost use Rattle.au_cli.specs.Causes.{GivesTable};
ghost use Rattle.au_cli.specs.FileCauses.{FileCause};
ghost use Rattle.au_cli.specs.declared.files.Purpose.TheVariants as purpose;

use crate::files::{Purpose, file_table};
use crate::outcome::Outcome;
use au_engine::encoded_text;
use au_io::Shelf;
use au_value::NoMemory;
use au_words::TableWord;
use std::alloc::Global;

/// The encoded rows of the table in the file that a word names, or the outcome that is in their place.
pub(crate) fn file_text<S: Shelf>(
    alloc: Global,
    shelf: &mut S,
    word: &TableWord<'_>,
) -> Result<Vec<u8>, Outcome>
    ensures text { IfOk result (λ text. GivesTable (S.files shelf.old) word.now.path.now (λ t. text.items ≡ encoded_text_of t)) }
    ensures refused { IfErr result (FileCause (S.files shelf.old) purpose.Encode word.now.path.now 0 0 (S.faults shelf.old) (S.faults shelf.new) (S.absences shelf.old) (S.absences shelf.new)) }
    ensures files { S.files shelf.new ≡ S.files shelf.old }
    ensures counts { (S.faults shelf.old ≤ S.faults shelf.new) × (S.absences shelf.old ≤ S.absences shelf.new) }
{
    let file = match file_table(alloc, shelf, Purpose::Encode, 0, 0, word) {
        Ok(file) => file,
        Err(outcome) => return Err(outcome),
    };
    match encoded_text(alloc, &file.table.1) {
        Ok(text) => Ok(text),
        Err(NoMemory) => Err(Outcome::NoMemory),
    }
}
