//! The answer over the guess world as CSV.
ghost use Rattle.std.specs.Prelude.{◌≡◌, ◌++◌, ◌∷◌, [], IfOk, OnOk, IsTrue, false, length, map, flat_map, codes, decimal};
ghost use Rattle.std.specs.List.{AllByRecursion};
ghost use Rattle.csv.specs.Records.{fields_of, partial_of};
ghost use Rattle.au_algebra.specs.Counted.{StandsFor};
ghost use Rattle.au_algebra.specs.Ordinary.{Rows};
ghost use Rattle.au_print.specs.Records.{IsReady, written};
ghost use Rattle.au_print.specs.Texts.{record_text};
ghost use Rattle.au_print.specs.GuessTexts.{counted_fields, counts_fit, guess_rows as guess_rows_of, guess_text as text_of, world_text};
ghost use Rattle.au_print.specs.Places.{row_at};

use crate::fields::{push_count, push_values};
use crate::guess_rows::{Placed, guess_rows, values_at};
use crate::page::{finish, start, write};
use au_algebra::Rel;
use au_annot::Count;
use au_expr::EvalFault;
use au_value::{Kind, NoMemory, Value, Word};
use csv::{ByteRecord, Writer};
use std::alloc::Global;

/// The text of the answer over the guess world: a header record with `row` and the names, and a record for each row of
/// values, once, with its number of copies first. The records come in the order of their values, from the first column
/// on, and none has the count 0.
///
/// `Overflow` comes exactly where a printed count exceeds 2^127-1.
pub fn guess_text(
    alloc: Global,
    names: &[Word],
    kinds: &[Kind],
    rows: &Rel<Value, Count>,
) -> Result<Vec<u8>, EvalFault>
    requires columns { length kinds.now ≡ length names.now }
    requires rows { AllByRecursion (λ r. length r.cells ≡ length names.now) rows.now }
    ensures text { IfOk result (λ t. t.items ≡ text_of names.now kinds.now rows.now) }
    ensures world { IfOk result (λ t. (world : Rows) → StandsFor rows.now world → t.items ≡ world_text names.now kinds.now world) }
    ensures fit { IfOk result (λ t. IsTrue (counts_fit (guess_rows_of rows.now))) }
    ensures overflow { result ≡ Err EvalFault.Overflow → counts_fit (guess_rows_of rows.now) ≡ false }
{
    match guess_rows(alloc, rows) {
        Ok(places) => match printed(alloc, names, kinds, rows, places.as_slice()) {
            Ok(text) => Ok(text),
            Err(NoMemory) => Err(EvalFault::NoMemory),
        },
        Err(fault) => Err(fault),
    }
}

// The header, and the records of the rows at these places.
fn printed(
    alloc: Global,
    names: &[Word],
    kinds: &[Kind],
    rows: &Rel<Value, Count>,
    places: &[Placed],
) -> Result<Vec<u8>, NoMemory>
    ensures { IfOk result (λ t. t.items ≡ record_text (codes "row" ∷ names.now) ++ flat_map (λ p. record_text (counted_fields kinds.now (row_at rows.now p))) places.now) }
{
    let mut writer = start(alloc);
    let mut record = ByteRecord::new(alloc);
    push_guess_header(&mut record, names)?;
    write(&mut writer, &record)?;
    write_places(alloc, &mut writer, record, kinds, rows, places)?;
    finish(writer)
}

fn push_guess_header(row: &mut ByteRecord, names: &[Word]) -> Result<(), NoMemory>
    requires { partial_of row.old ≡ [] }
    ensures fields { OnOk result (fields_of row.new ≡ fields_of row.old ++ codes "row" ∷ names.now) }
    ensures whole { OnOk result (partial_of row.new ≡ []) }
{
    row.push_field(b"row")?;
    for name in names {
        row.push_field(name.as_str().as_bytes())?;
    }
    Ok(())
}

// The records, made one after the other in the memory of one.
fn write_places(
    alloc: Global,
    writer: &mut Writer<Vec<u8>>,
    mut record: ByteRecord,
    kinds: &[Kind],
    rows: &Rel<Value, Count>,
    places: &[Placed],
) -> Result<(), NoMemory>
    requires { IsReady writer.old }
    ensures { OnOk result (written writer.new (λ v. v.items) ≡ written writer.old (λ v. v.items) ++ flat_map (λ p. record_text (counted_fields kinds.now (row_at rows.now p))) places.now) }
{
    let mut room = Vec::new(alloc);
    for place in places {
        record.clear();
        push_count(&mut record, place.1.get())?;
        push_values(&mut record, &mut room, kinds, values_at(rows, place.0))?;
        write(writer, &record)?;
    }
    Ok(())
}
