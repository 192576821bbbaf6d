//! The records of a text, which are kept.
ghost use Rattle.std.specs.Prelude.{◌≡◌, ◌++◌, ◌∷◌, [], length, IfErr, IfOk, OnOk};
ghost use Rattle.csv.specs.Records.{Rising, fields_of};
ghost use Rattle.au_csv.specs.Flat.{between};

use crate::faults::CsvFault;
use crate::rec::Rec;
use au_value::NoMemory;
use csv::StringRecord;
use std::alloc::Global;
use std::marker::Model;

/// The records of a text. Contracts see their list.
#[derive(Drop)]
pub struct Records {
    // Their fields, one after the other, and where each record stops among them.
    fields: StringRecord,
    stops: Vec<usize>,
}

impl Model for Records {
    ghost use Rattle.std.specs.Prelude.{List, length};
    ghost use Rattle.csv.specs.Records.{Rising, fields_of};
    ghost use Rattle.au_csv.specs.Flat.{between};
    ghost use Rattle.au_csv.specs.Texts.{Record};

    ghost Value = { List Record };

    ghost view = { λ r. between 0 r.stops.items (fields_of r.fields) };

    ghost invariant = { λ r. Rising 0 r.stops.items (length (fields_of r.fields)) };
}

impl Records {
    // The records that stop at these places.
    pub(crate) fn of(fields: StringRecord, stops: Vec<usize>) -> Records
        requires { Rising 0 stops.items (length (fields_of fields)) }
        ensures { result ≡ between 0 stops.items (fields_of fields) }
    {
        Records { fields, stops }
    }

    /// Each record, lent, in order.
    pub fn rows(&self, alloc: Global) -> Result<Vec<Rec<'_>>, NoMemory>
        ensures { IfOk result (λ rows. rows.items ≡ self.now) }
    {
        let mut rows = Vec::with_capacity(alloc, self.stops.len())?;
        push_lent(&mut rows, &self.fields, &self.stops)?;
        Ok(rows)
    }
}

// Puts the records that stop at these places behind others, lent.
fn push_lent<'a>(
    rows: &mut Vec<Rec<'a>>,
    fields: &'a StringRecord,
    stops: &[usize],
) -> Result<(), NoMemory>
    requires { Rising 0 stops.now (length (fields_of fields.now)) }
    ensures { OnOk result (rows.new.items ≡ rows.old.items ++ between 0 stops.now (fields_of fields.now)) }
{
    let mut start = 0usize;
    for stop in stops {
        rows.push(Rec::of(fields, start, *stop))?;
        start = *stop;
    }
    Ok(())
}

/// Puts a record's fields behind those of others, and the place where it stops behind theirs.
pub(crate) fn push_record(
    fields: &mut StringRecord,
    stops: &mut Vec<usize>,
    record: &StringRecord,
) -> Result<(), CsvFault>
    ensures fields { OnOk result (fields_of fields.new ≡ fields_of fields.old ++ fields_of record.now) }
    ensures stops { OnOk result (stops.new.items ≡ stops.old.items ++ length (fields_of fields.new) ∷ []) }
    ensures fault { IfErr result (λ e. e ≡ CsvFault.NoMemory) }
{
    for field in record {
        fields.push_field(field)?;
    }
    stops.push(fields.len())?;
    Ok(())
}
