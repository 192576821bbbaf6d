//! The header of an answer's text.
ghost use Rattle.std.specs.Prelude.{◌≡◌, IfOk};
ghost use Rattle.au_print.specs.Records.{IsReady, written};
ghost use Rattle.au_print.specs.Texts.{header_fields, record_text};

use crate::fields::push_header;
use crate::page::{start, write};
use au_value::{NoMemory, Word};
use csv::{ByteRecord, Writer};
use std::alloc::Global;

/// A writer that has written the header of columns of these names.
pub fn headed(alloc: Global, names: &[Word]) -> Result<Writer<Vec<u8>>, NoMemory>
    ensures ready { IfOk result (λ w. IsReady w) }
    ensures text { IfOk result (λ w. written w (λ v. v.items) ≡ record_text (header_fields names.now)) }
{
    let mut writer = start(alloc);
    let mut record = ByteRecord::new(alloc);
    push_header(alloc, &mut record, names)?;
    write(&mut writer, &record)?;
    Ok(writer)
}
