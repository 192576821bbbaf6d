//! The cells of a column of a table that is read in one pass.
ghost use Rattle.std.specs.Prelude.{◌≡◌, [], ◌∷◌, ◌++◌, true, is_some, map, IfOk};
ghost use Rattle.au_blocks.specs.OnePass.{filled};
ghost use Rattle.au_blocks.specs.Read.{cell as cell_of};
ghost use Rattle.au_blocks.specs.Spans.{spans_of};
ghost use Rattle.au_blocks.specs.Spellings.{value_written};
ghost use Rattle.au_value.specs.declared.value.Value.TheVariants as value;
ghost use Rattle.au_value.specs.Ranges.{certain};

use crate::cells::{Cells, Held};
use crate::filling::narrow_number;
use crate::spellings::flag_written;
use au_value::{Kind, NoMemory, Word};
use std::alloc::Global;
use std::marker::Model;

/// The cells of a column, put behind one another as their texts come. Contracts see its kind and the cells.
#[derive(Drop)]
pub(crate) struct Filler {
    kind: Kind,
    held: Held,
}

impl Model for Filler {
    ghost use Rattle.au_blocks.specs.OnePass.{Filled, filled};
    ghost use Rattle.au_blocks.specs.Spans.{spans_of};

    ghost Value = { Filled };

    ghost view = { λ f. filled f.kind (spans_of f.held) };
}

impl Filler {
    /// No cells of a column of this kind yet, with room for so many.
    pub(crate) fn new(alloc: Global, kind: Kind, room: usize) -> Result<Filler, NoMemory>
        ensures { IfOk result (λ c. c ≡ filled kind []) }
    {
        Ok(Filler {
            kind,
            held: empty(alloc, kind, room)?,
        })
    }

    /// Puts the cell of a text behind the others, unless the text is no value of the kind, or none of 64 bits.
    pub(crate) fn push(&mut self, alloc: Global, text: &str) -> Result<bool, NoMemory>
        ensures cells { IfOk result (λ fits. fits ≡ true → self.new ≡ filled self.old.kind (self.old.cells ++ cell_of (self.old.kind, text.now) ∷ [])) }
        ensures value { IfOk result (λ fits. fits ≡ true → is_some (value_written self.old.kind text.now) ≡ true) }
    {
        match (self.kind, &mut self.held) {
            (kind, Held::Narrow(numbers)) => push_number(numbers, kind, text),
            (Kind::Text, Held::Texts(texts)) => push_text(texts, alloc, text),
            (Kind::Flag, Held::Flags(flags)) => push_flag(flags, text),
            _ => Ok(false),
        }
    }

    /// The cells, as those of a column that is read.
    pub(crate) fn into_cells(self) -> Cells
        ensures { result ≡ self.cells }
    {
        Cells::of(self.held)
    }
}

// No cells yet of a column of this kind.
fn empty(alloc: Global, kind: Kind, room: usize) -> Result<Held, NoMemory>
    ensures { IfOk result (λ h. spans_of h ≡ []) }
{
    match kind {
        Kind::Int | Kind::Dec(_) => Ok(Held::Narrow(Vec::with_capacity(alloc, room)?)),
        Kind::Text => Ok(Held::Texts(Vec::with_capacity(alloc, room)?)),
        Kind::Flag => Ok(Held::Flags(Vec::with_capacity(alloc, room)?)),
    }
}

// Puts the number that a text writes behind the others, if it is one of 64 bits.
fn push_number(numbers: &mut Vec<i64>, kind: Kind, text: &str) -> Result<bool, NoMemory>
    ensures cells { IfOk result (λ fits. fits ≡ true → map (λ n. certain (value.Int n)) numbers.new.items ≡ map (λ n. certain (value.Int n)) numbers.old.items ++ cell_of (kind, text.now) ∷ []) }
    ensures value { IfOk result (λ fits. fits ≡ true → is_some (value_written kind text.now) ≡ true) }
{
    match narrow_number(kind, text) {
        Some(number) => {
            numbers.push(number)?;
            Ok(true)
        }
        None => Ok(false),
    }
}

// Puts a text behind the others.
fn push_text(texts: &mut Vec<Word>, alloc: Global, text: &str) -> Result<bool, NoMemory>
    ensures { IfOk result (λ fits. map (λ t. certain (value.Text t)) texts.new.items ≡ map (λ t. certain (value.Text t)) texts.old.items ++ certain (value.Text text.now) ∷ []) }
{
    texts.push(Word::of(alloc, text)?)?;
    Ok(true)
}

// Puts the flag that a text writes behind the others, if it writes one.
fn push_flag(flags: &mut Vec<bool>, text: &str) -> Result<bool, NoMemory>
    ensures cells { IfOk result (λ fits. fits ≡ true → map (λ b. certain (value.Flag b)) flags.new.items ≡ map (λ b. certain (value.Flag b)) flags.old.items ++ cell_of (Kind.Flag, text.now) ∷ []) }
    ensures value { IfOk result (λ fits. fits ≡ true → is_some (value_written Kind.Flag text.now) ≡ true) }
{
    match flag_written(text) {
        Some(flag) => {
            flags.push(flag)?;
            Ok(true)
        }
        None => Ok(false),
    }
}
