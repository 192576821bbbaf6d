//! Rows that are held as codes.
ghost use Rattle.std.specs.Prelude.{◌≡◌, [], Err, IfErr, IfOk, OnOk, false, map, true};
ghost use Rattle.au_algebra.specs.Bounded.{normal as normal_of};
ghost use Rattle.au_algebra.specs.Fits.{triples_fit};
ghost use Rattle.au_codes.specs.Books.{IsCodebook};
ghost use Rattle.au_codes.specs.Codes.{coded_rows};
ghost use Rattle.au_codes.specs.Decoding.{decoded_row};
ghost use Rattle.au_codes.specs.Gathering.{with_rows};
ghost use Rattle.au_codes.specs.TextCodes.{text_code};
ghost use Rattle.au_encode.specs.Encode.{AreEncoded, decode as decode_of};
ghost use Rattle.au_expr.specs.Figures.{fit};
ghost use Rattle.au_expr.specs.declared.fault.EvalFault.TheVariants as fault;
ghost use Rattle.au_physical.specs.PhysicalKinds.{IsPhysicalFor};
ghost use Rattle.au_physical.specs.PhysicalMeaning.{physical_rows};
ghost use Rattle.au_physical.specs.PhysicalNumbers.{physical_numbers};
ghost use Rattle.au_physical.specs.Physicals.{physical_tree};
ghost use Rattle.au_exec.specs.HeldRows.{rows_of};
ghost use Rattle.au_exec.specs.KnownKinds.{first_kinds, held_kinds};
ghost use Rattle.au_exec.specs.Ready.{IsReady};
ghost use Rattle.au_settled.specs.Coded.{IsCoded};

use crate::decoded_values::decoded_values;
use crate::readying::{Ready, made_ready};
use crate::running::run_codes;
use crate::source::Source;
use crate::theorems::ready_plans_stand;
use crate::value_columns::coded_values;
use au_algebra::Rel;
use au_annot::Triple;
use au_batches::decoded;
use au_codes::{Codebook, LongTexts};
use au_columns::Batch;
use au_expr::EvalFault;
use au_par::Gate;
use au_physical::Physical;
use au_plain::PRow;
use au_settled::{settled, settled_is_normal};
use au_value::{Kind, NoMemory, Range, beside};
use au_vector::Crew;
use std::alloc::Global;
use std::marker::Model;
use std::thread::Threads;

/// Rows that are held as codes. Contracts see the rows.
#[derive(Drop)]
pub struct Coded {
    book: Codebook,
    kinds: Vec<Kind>,
    batch: Batch,
}

impl Model for Coded {
    ghost use Rattle.std.specs.Prelude.{List, map};
    ghost use Rattle.au_value.specs.declared.value.Value.{Value as Cell};
    ghost use Rattle.au_codes.specs.Decoding.{decoded_row};
    ghost use Rattle.au_settled.specs.Coded.{IsCoded};

    ghost Value = { List (List Cell) };

    ghost view = { λ c. map (decoded_row c.book c.kinds.items) c.batch };

    ghost invariant = { λ c. IsCoded c.book c.kinds.items c.batch };
}

impl Coded {
    // The rows for which those of a batch stand.
    fn of(ready: Ready, batch: Batch) -> Coded
        requires { IsCoded ready.book ready.kinds.items batch }
        ensures { result ≡ map (decoded_row ready.book ready.kinds.items) batch }
    {
        Coded {
            book: ready.book,
            kinds: ready.kinds,
            batch,
        }
    }

    /// The relation that the rows encode, each with so many columns, in their order.
    pub fn relation(&self, alloc: Global, columns: usize) -> Result<Rel<Range, Triple>, NoMemory>
        requires { AreEncoded columns self.now }
        ensures { IfOk result (λ rel. rel ≡ decode_of columns self.now) }
    {
        decoded(alloc, &self.book, &self.kinds, &self.batch, columns)
    }

    /// The rows, each with an allocation of its own, and one more for each long text.
    pub fn rows(&self, alloc: Global) -> Result<Vec<PRow>, NoMemory>
        ensures { IfOk result (λ v. rows_of v ≡ self.now) }
    {
        decoded_values(alloc, &self.book, &self.kinds, &self.batch)
    }

    /// The normal form of the relation that the rows encode, each with so many columns: it stays coded.
    ///
    /// `Overflow` comes only where a count of the normal form passes 2^127-1.
    pub fn normal(self, alloc: Global, columns: usize) -> Result<Coded, EvalFault>
        requires { AreEncoded columns self }
        ensures encoded { IfOk result (λ c. AreEncoded columns c) }
        ensures form { IfOk result (λ c. decode_of columns c ≡ normal_of (decode_of columns self)) }
        ensures overflow { result ≡ Err EvalFault.Overflow → triples_fit (normal_of (decode_of columns self)) ≡ false }
    {
        let Coded { book, kinds, batch } = self;
        let told = Ready { book, kinds };
        settle(alloc, told, &batch, columns)
    }

    /// The book of the long texts of the rows, the kinds of their values, and the rows' codes, lent.
    pub fn parts(&self) -> (&Codebook, &[Kind], &Batch)
        ensures book { IsCodebook result.0.now }
        ensures rows { map (decoded_row result.0.now result.1.now) result.2.now ≡ self.now }
    {
        (&self.book, &self.kinds, &self.batch)
    }

    /// The rows as they are held.
    pub(crate) fn batch(&self) -> &Batch {
        &self.batch
    }

    /// The kinds of the first row, if there is one.
    pub(crate) fn first_kinds(&self, alloc: Global) -> Result<Option<Vec<Kind>>, NoMemory>
        ensures { IfOk result (λ v. held_kinds v ≡ first_kinds self.now) }
    {
        if self.batch.len() == 0 {
            return Ok(None);
        }
        Ok(Some(Vec::from_slice(alloc, &self.kinds)?))
    }

    /// Adds the long texts of the rows.
    pub(crate) fn add_texts(&self, alloc: Global, texts: &mut LongTexts) -> Result<(), NoMemory>
        ensures { OnOk result (texts.new ≡ with_rows texts.old self.now) }
    {
        if has_texts(&self.book) {
            let rows = self.rows(alloc)?;
            texts.add_rows(&rows)
        } else {
            Ok(())
        }
    }

    /// The codes of the rows by another book. Where neither has a text they are the same, and are shared.
    pub(crate) fn coded(&self, alloc: Global, book: &Codebook) -> Result<Batch, NoMemory>
        ensures { IfOk result (λ batch. batch ≡ coded_rows (text_code book.now) self.now) }
    {
        if has_texts(book) || has_texts(&self.book) {
            let rows = self.rows(alloc)?;
            coded_values(alloc, book, &rows)
        } else {
            self.batch.share(alloc)
        }
    }
}

// The normal form of the relation that the rows encode for which those of a batch stand.
fn settle(alloc: Global, told: Ready, batch: &Batch, columns: usize) -> Result<Coded, EvalFault>
    requires coded { IsCoded told.book told.kinds.items batch.now }
    requires encoded { AreEncoded columns (map (decoded_row told.book told.kinds.items) batch.now) }
    ensures encoded { IfOk result (λ c. AreEncoded columns c) }
    ensures form { IfOk result (λ c. decode_of columns c ≡ normal_of (decode_of columns (map (decoded_row told.book told.kinds.items) batch.now))) }
    ensures overflow { IfErr result (λ f. f ≡ fault.Overflow → triples_fit (normal_of (decode_of columns (map (decoded_row told.book told.kinds.items) batch.now))) ≡ false) }
{
    settled_is_normal();
    match settled(alloc, batch, columns) {
        Ok(made) => Ok(Coded::of(told, made)),
        Err(fault) => Err(fault),
    }
}

// Whether a book has a text.
fn has_texts(book: &Codebook) -> bool
    ensures { result ≡ false → book.now ≡ [] }
{
    match book.text(0) {
        Some(_) => true,
        None => false,
    }
}

/// The rows of a plan that is typed for the sources, in order. They stay coded.
///
/// `Overflow` comes only where a number of the plan leaves 128 bits.
pub fn run_coded<R: Threads + Sync, G: Gate + Sync>(
    crew: &Crew<'_, R, G>,
    alloc: Global,
    plan: Physical,
    sources: &[Source<'_>],
) -> Result<Coded, EvalFault>
    requires plan { IsPhysicalFor sources.now (physical_tree plan) }
    ensures rows { IfOk result (λ c. c ≡ physical_rows (physical_tree plan) sources.now) }
    ensures fits { IfOk result (λ _. fit (physical_numbers (physical_tree plan) sources.now) ≡ true) }
    ensures overflow { IfErr result (λ f. f ≡ fault.Overflow → fit (physical_numbers (physical_tree plan) sources.now) ≡ false) }
{
    let (ready, plan) = match beside(made_ready(alloc, &plan, sources), plan) {
        Ok(both) => both,
        Err(NoMemory) => return Err(EvalFault::NoMemory),
    };
    run_ready(crew, alloc, ready, plan, sources)
}

// The same of a plan that is ready.
fn run_ready<R: Threads + Sync, G: Gate + Sync>(
    crew: &Crew<'_, R, G>,
    alloc: Global,
    ready: Ready,
    plan: Physical,
    sources: &[Source<'_>],
) -> Result<Coded, EvalFault>
    requires ready { IsReady ready.book ready.kinds.items (physical_tree plan) sources.now }
    ensures rows { IfOk result (λ c. c ≡ physical_rows (physical_tree plan) sources.now) }
    ensures fits { IfOk result (λ _. fit (physical_numbers (physical_tree plan) sources.now) ≡ true) }
    ensures overflow { IfErr result (λ f. f ≡ fault.Overflow → fit (physical_numbers (physical_tree plan) sources.now) ≡ false) }
{
    ready_plans_stand();
    match run_codes(crew, alloc, &ready.book, plan, sources) {
        Ok(batch) => Ok(Coded::of(ready, batch)),
        Err(fault) => Err(fault),
    }
}
