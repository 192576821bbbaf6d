//! A record whose fields are written one by one.
ghost use Rattle.std.specs.Prelude.{◌≡◌, ◌∷◌, ◌++◌, [], OnOk};
ghost use Rattle.au_print.specs.Begun.{HasFields, field_behind, first_field};
ghost use Rattle.au_print.specs.Records.{IsReady, written};

use au_value::NoMemory;
use csv::Writer;

/// Writes the first field of a record.
#[tactic(auto, unfolding(crate::specs::Begun::first_field))]
pub fn begin_record(writer: &mut Writer<Vec<u8>>, field: &[u8]) -> Result<(), NoMemory>
    requires { IsReady writer.old }
    ensures begun { OnOk result (HasFields 1 writer.new) }
    ensures text { OnOk result (written writer.new (λ v. v.items) ≡ written writer.old (λ v. v.items) ++ first_field field.now) }
{
    match writer.write_field(field) {
        Ok(()) => Ok(()),
        Err(_) => Err(NoMemory),
    }
}

/// Writes one field more.
#[tactic(auto, unfolding(crate::specs::Begun::field_behind))]
pub fn add_field(writer: &mut Writer<Vec<u8>>, field: &[u8]) -> Result<(), NoMemory>
    requires { HasFields 1 writer.old }
    ensures begun { OnOk result (HasFields 2 writer.new) }
    ensures text { OnOk result (written writer.new (λ v. v.items) ≡ written writer.old (λ v. v.items) ++ field_behind field.now) }
{
    match writer.write_field(field) {
        Ok(()) => Ok(()),
        Err(_) => Err(NoMemory),
    }
}

/// Ends a record that has more than one field.
pub fn end_record(writer: &mut Writer<Vec<u8>>) -> Result<(), NoMemory>
    requires { HasFields 2 writer.old }
    ensures ready { OnOk result (IsReady writer.new) }
    ensures text { OnOk result (written writer.new (λ v. v.items) ≡ written writer.old (λ v. v.items) ++ 10 ∷ []) }
{
    match writer.end_record() {
        Ok(()) => Ok(()),
        Err(_) => Err(NoMemory),
    }
}
