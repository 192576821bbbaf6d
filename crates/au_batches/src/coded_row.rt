//! A row of a batch, read as the values that its numbers stand for.
ghost use Rattle.std.specs.Prelude.{◌≡◌, ◌≤◌, ◌<◌, ◌+◌, ◌*◌, ◌^◌, ℕ, IfOk, [], Some, get_or, length, pos, slice_get};
ghost use Rattle.au_value.specs.declared.value.Value.TheVariants as value;
ghost use Rattle.au_value.specs.Ranges.{IsRange};
ghost use Rattle.au_annot.specs.Triples.{counts};
ghost use Rattle.au_algebra.specs.Lists.{value_at};
ghost use Rattle.au_codes.specs.Decoding.{decoded_row};
ghost use Rattle.au_encode.specs.Encode.{IsEncoded, decode_annot, decode_cells, value_count};
ghost use Rattle.au_batches.specs.Ranges.{range_at};

use au_annot::{Count, Triple};
use au_codes::{Codebook, decode};
use au_columns::Batch;
use au_value::{Kind, NoMemory, Range, Value};
use std::alloc::Global;
use std::marker::Model;

/// A row of a batch, whose numbers stand for values of some kinds. Contracts see the values.
#[derive(Drop)]
pub(crate) struct CodedRow<'a> {
    book: &'a Codebook,
    kinds: &'a [Kind],
    batch: &'a Batch,
    place: usize,
}

impl<'a> Model for CodedRow<'a> {
    ghost use Rattle.std.specs.Prelude.{◌<◌, [], List, get_or, length};
    ghost use Rattle.au_value.specs.declared.value.Value.{Value as Cell};
    ghost use Rattle.au_codes.specs.Decoding.{decoded_row};

    ghost Value = { List Cell };

    ghost view = { λ r. decoded_row r.book.now r.kinds.now (get_or r.batch.now r.place []) };

    ghost invariant = { λ r. r.place < length r.batch.now };
}

impl<'a> CodedRow<'a> {
    /// The row in a place of a batch.
    pub(crate) fn of(
        book: &'a Codebook,
        kinds: &'a [Kind],
        batch: &'a Batch,
        place: usize,
    ) -> CodedRow<'a>
        requires { place < length batch.now }
        ensures is { result ≡ decoded_row book.now kinds.now (get_or batch.now place []) }
        ensures few { length result < 2 ^ 64 }
    {
        // Read for the proof alone: there are no more values than kinds.
        let _most = number_of(kinds);
        CodedRow {
            book,
            kinds,
            batch,
            place,
        }
    }

    /// The ranges that the row encodes, where it has so many columns.
    pub(crate) fn ranges(&self, alloc: Global, columns: usize) -> Result<Vec<Range>, NoMemory>
        requires encoded { IsEncoded columns self.now }
        requires few { length self.now < 2 ^ 64 }
        ensures { IfOk result (λ v. v.items ≡ decode_cells columns self.now) }
    {
        let mut ranges = Vec::with_capacity(alloc, columns)?;
        for at in 0..columns {
            ranges.push(self.range(alloc, 3 * at)?)?;
        }
        Ok(ranges)
    }

    // The range whose ends and guess stand from a place on.
    fn range(&self, alloc: Global, place: usize) -> Result<Range, NoMemory>
        requires within { place + 2 < length self.now }
        requires few { length self.now < 2 ^ 64 }
        requires ordered { IsRange (range_at self.now place) }
        ensures { IfOk result (λ r. r ≡ range_at self.now place) }
    {
        let lo = self.value(alloc, place)?;
        let sg = self.value(alloc, place + 1)?;
        let hi = self.value(alloc, place + 2)?;
        Ok(Range::of(lo, sg, hi))
    }

    // The value in a place.
    fn value(&self, alloc: Global, place: usize) -> Result<Value, NoMemory>
        requires { place < length self.now }
        ensures { IfOk result (λ v. v ≡ value_at self.now place) }
    {
        decode(
            alloc,
            self.book,
            kind_at(self.kinds, place),
            self.batch.cell(self.place, place),
        )
    }

    /// The triple that the row encodes, where it has so many columns.
    pub(crate) fn triple(&self, columns: usize) -> Triple
        requires encoded { IsEncoded columns self.now }
        requires few { length self.now < 2 ^ 64 }
        ensures { result ≡ decode_annot columns self.now }
    {
        let first = 3 * columns;
        ordered(
            self.count(first),
            self.count(first + 1),
            self.count(first + 2),
        )
    }

    // The count in a place.
    fn count(&self, place: usize) -> Count
        requires { (n : ℕ) × (slice_get self.now place ≡ Some (value.Int (pos n))) }
        ensures { result ≡ value_count (value_at self.now place) }
    {
        match Count::of(self.batch.cell(self.place, place).unsigned_abs()) {
            Some(count) => count,
            None => unreachable!(),
        }
    }
}

// How many kinds there are.
fn number_of(kinds: &[Kind]) -> usize
    ensures { result ≡ length kinds.now }
{
    kinds.len()
}

// The kind in a place.
fn kind_at(kinds: &[Kind], place: usize) -> Kind
    requires { place < length kinds.now }
    ensures { result ≡ get_or kinds.now place result }
{
    kinds[place]
}

// The triple of three counts in order.
fn ordered(least: Count, guess: Count, most: Count) -> Triple
    requires low { least ≤ guess }
    requires high { guess ≤ most }
    ensures { result ≡ counts least guess most }
{
    match Triple::of(least, guess, most) {
        Some(triple) => triple,
        None => unreachable!(),
    }
}
