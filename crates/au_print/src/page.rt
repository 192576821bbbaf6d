//! The text that records are written to, by the default writer of the csv crate.
ghost use Rattle.std.specs.Prelude.{◌≡◌, [], ◌++◌, IfOk, OnOk};
ghost use Rattle.csv.specs.Records.{fields_of};
ghost use Rattle.au_print.specs.Records.{IsReady, written};
ghost use Rattle.au_print.specs.Texts.{record_text};

use au_value::NoMemory;
use csv::{ByteRecord, Writer, WriterBuilder};
use std::alloc::Global;

/// No text yet.
pub fn start(alloc: Global) -> Writer<Vec<u8>>
    ensures ready { IsReady result }
    ensures text { written result (λ v. v.items) ≡ [] }
{
    WriterBuilder::new().from_writer(Vec::new(alloc))
}

/// Writes a record behind the text.
///
/// The writer's `Io` is want of memory, since a `Vec` is written to. Its contract doesn't shut out other errors, which are
/// named so, too: none comes where all records have as many fields as the first.
#[tactic(auto, unfolding(crate::specs::Texts::record_text))]
pub fn write(writer: &mut Writer<Vec<u8>>, row: &ByteRecord) -> Result<(), NoMemory>
    requires { IsReady writer.old }
    ensures ready { OnOk result (IsReady writer.new) }
    ensures text { OnOk result (written writer.new (λ v. v.items) ≡ written writer.old (λ v. v.items) ++ record_text (fields_of row.now)) }
{
    match writer.write_byte_record(row) {
        Ok(()) => Ok(()),
        Err(_) => Err(NoMemory),
    }
}

/// The text. What a `Vec` refuses is want of memory, though the contract of `into_inner` doesn't name the error.
pub fn finish(writer: Writer<Vec<u8>>) -> Result<Vec<u8>, NoMemory>
    ensures { IfOk result (λ v. v.items ≡ written writer (λ w. w.items)) }
{
    match writer.into_inner() {
        Ok(text) => Ok(text),
        Err(_) => Err(NoMemory),
    }
}
