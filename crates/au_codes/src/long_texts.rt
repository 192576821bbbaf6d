//! Long texts that are gathered from values, each once.
ghost use Rattle.std.specs.Prelude.{◌≡◌, [], IfOk, OnOk, map};
ghost use Rattle.au_codes.specs.Books.{IsBookOf};
ghost use Rattle.au_codes.specs.Gathering.{with_row, with_rows, with_text, with_value};

use crate::book::Codebook;
use crate::packing::is_short;
use au_plain::PRow;
use au_value::{NoMemory, Value, Word};
use indexmap::IndexSet;
use std::alloc::Global;
use std::marker::Model;

/// Long texts, each once, in the order in which they were first seen.
#[derive(Drop)]
pub struct LongTexts {
    seen: IndexSet<Word>,
}

impl Model for LongTexts {
    ghost use Rattle.std.specs.List.{AllByRecursion};
    ghost use Rattle.std.specs.Str.{IsUtf8};
    ghost use Rattle.au_codes.specs.Books.{Book};

    ghost Value = { Book };

    ghost view = { λ t. t.seen.keys };

    ghost invariant = { λ t. AllByRecursion IsUtf8 t.seen.keys };
}

impl LongTexts {
    /// No text.
    pub fn new(alloc: Global) -> LongTexts
        ensures { result ≡ [] }
    {
        LongTexts {
            seen: IndexSet::new(alloc),
        }
    }

    /// The text of a value, if it is one, and long.
    pub fn add(&mut self, value: &Value) -> Result<(), NoMemory>
        ensures { OnOk result (self.new ≡ with_value self.old value.now) }
    {
        match value {
            Value::Text(word) => self.add_text(word),
            _ => Ok(()),
        }
    }

    /// One more text, if it is long. It is copied only where it is new.
    pub fn add_text(&mut self, word: &Word) -> Result<(), NoMemory>
        ensures { OnOk result (self.new ≡ with_text self.old word.now) }
    {
        if is_short(word) || self.seen.contains(word) {
            return Ok(());
        }
        self.seen.insert(word.copy()?)?;
        Ok(())
    }

    /// The long texts of a row.
    pub fn add_row(&mut self, row: &[Value]) -> Result<(), NoMemory>
        ensures { OnOk result (self.new ≡ with_row self.old row.now) }
    {
        for value in row {
            self.add(value)?;
        }
        Ok(())
    }

    /// The long texts of rows.
    pub fn add_rows(&mut self, rows: &[PRow]) -> Result<(), NoMemory>
        ensures { OnOk result (self.new ≡ with_rows self.old (map (λ row. row.items) rows.now)) }
    {
        for row in rows {
            self.add_row(row)?;
        }
        Ok(())
    }

    /// The book of the texts. More than 2^31 - 14 of them are want of memory.
    pub fn book(self) -> Result<Codebook, NoMemory>
        ensures { IfOk result (λ book. IsBookOf self book) }
    {
        Codebook::of(self.seen)
    }
}
