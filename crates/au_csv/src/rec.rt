//! A record of a CSV text.
ghost use Rattle.std.specs.Prelude.{◌≡◌, ◌≤◌, ◌-◌, drop, length, option_map, slice_get, take, IfOk};
ghost use Rattle.csv.specs.Records.{fields_of};

use au_value::{NoMemory, Word};
use csv::StringRecord;
use std::alloc::Global;
use std::marker::Model;

/// A record, lent from the records of a text. Contracts see the list of its fields.
#[derive(Drop)]
pub struct Rec<'a> {
    // The fields of some records, one after the other.
    fields: &'a StringRecord,
    // Its first field, and the one behind its last.
    start: usize,
    stop: usize,
}

impl<'a> Model for Rec<'a> {
    ghost use Rattle.std.specs.Prelude.{ℕ, List, ◌≤◌, ◌-◌, drop, length, take};
    ghost use Rattle.csv.specs.Records.{fields_of};

    ghost Value = { List (List ℕ) };

    ghost view = { λ r. take (r.stop - r.start) (drop r.start (fields_of r.fields.now)) };

    ghost invariant = { λ r. (r.start ≤ r.stop) × (r.stop ≤ length (fields_of r.fields.now)) };
}

impl<'a> Rec<'a> {
    // The record of the fields from a place on, up to another one.
    pub(crate) fn of(fields: &'a StringRecord, start: usize, stop: usize) -> Rec<'a>
        requires { (start ≤ stop) × (stop ≤ length (fields_of fields.now)) }
        ensures { result ≡ take (stop - start) (drop start (fields_of fields.now)) }
    {
        Rec {
            fields,
            start,
            stop,
        }
    }

    /// How many fields there are.
    pub fn len(&self) -> usize
        ensures { result ≡ length self.now }
    {
        self.stop - self.start
    }

    /// The field at a place, counted from 0.
    pub fn get(&self, place: usize) -> Option<&'a str>
        ensures { option_map (λ s. s.now) result ≡ slice_get self.now place }
    {
        if place < self.stop - self.start {
            self.fields.get(self.start + place)
        } else {
            None
        }
    }

    /// The fields as words, from the left.
    pub fn words(&self, alloc: Global) -> Result<Vec<Word>, NoMemory>
        ensures { IfOk result (λ words. words.items ≡ self.now) }
    {
        words(alloc, self)
    }
}

// The fields of a record as words.
fn words(alloc: Global, record: &Rec<'_>) -> Result<Vec<Word>, NoMemory>
    ensures { IfOk result (λ words. words.items ≡ record.now) }
{
    let mut words = Vec::with_capacity(alloc, record.len())?;
    for place in 0..record.len() {
        let Some(field) = record.get(place) else {
            unreachable!()
        };
        words.push(Word::new(String::from_str(alloc, field)?))?;
    }
    Ok(words)
}
