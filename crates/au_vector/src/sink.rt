//! Where the rows of a stream go.
ghost use Rattle.std.specs.Prelude.{◌≡◌, ◌∷◌, ◌++◌, [], ℕ, IfOk, flat_map, true};
ghost use Rattle.au_vector.specs.Sinks.{CanFinish, IsFilled, Joins, Takes, emptied, empty_of, outcome, within};
ghost use Rattle.au_vector.specs.Widths.{HaveWidth};

use au_columns::{Batch, Collected};
use au_expr::EvalFault;
use au_folds::Groups;
use au_plain::PAgg;
use au_value::NoMemory;
use std::alloc::Global;
use std::marker::Model;

/// What is done with rows: they are listed, or put into groups by these keys and with these aggregates.
#[derive(Clone, Copy)]
pub(crate) enum Kind<'a> {
    Rows,
    Groups(&'a [usize], &'a [PAgg]),
}

/// Where rows are put. Contracts see what is in it.
#[derive(Drop)]
pub(crate) struct Sink<'a> {
    held: Held<'a>,
}

// Batches, one behind the other, or the groups of the rows.
#[derive(Drop)]
pub(crate) enum Held<'a> {
    Rows(Vec<Batch>),
    Groups(&'a [usize], &'a [PAgg], Groups),
}

impl<'a> Model for Sink<'a> {
    ghost use Rattle.std.specs.Prelude.{◌≡◌, true};
    ghost use Rattle.au_vector.specs.Sinks.{Contents, IsFilled, contents_of, within};

    ghost Value = { Contents };

    ghost view = { λ s. contents_of s.held };

    ghost invariant = { λ s. IsFilled (contents_of s.held) × (within (contents_of s.held) ≡ true) };
}

impl<'a> Sink<'a> {
    /// A sink without a row.
    pub(crate) fn of(alloc: Global, kind: Kind<'a>) -> Result<Sink<'a>, NoMemory>
        ensures { IfOk result (λ s. s ≡ empty_of kind.entry) }
    {
        match kind {
            Kind::Rows => Ok(Sink {
                held: Held::Rows(Vec::new(alloc)),
            }),
            Kind::Groups(keys, aggs) => {
                let groups = Groups::new(alloc, keys, aggs)?;
                Ok(Sink {
                    held: Held::Groups(keys, aggs, groups),
                })
            }
        }
    }

    /// What it does with rows.
    pub(crate) fn kind(&self) -> Kind<'a>
        ensures { empty_of result ≡ emptied self.now }
    {
        match &self.held {
            Held::Rows(_) => Kind::Rows,
            Held::Groups(keys, aggs, _) => Kind::Groups(keys, aggs),
        }
    }

    /// Puts rows behind the others.
    ///
    /// `Overflow` comes only where the magnitudes of a sum's terms, added, leave 128 bits.
    pub(crate) fn put(self, alloc: Global, rows: Batch) -> Result<Sink<'a>, EvalFault>
        ensures { Takes self.entry rows true result }
    {
        match self.held {
            Held::Rows(batches) => {
                let batches = listed(batches, rows)?;
                Ok(Sink {
                    held: Held::Rows(batches),
                })
            }
            Held::Groups(keys, aggs, groups) => {
                let groups = groups.add(alloc, &rows)?;
                Ok(Sink {
                    held: Held::Groups(keys, aggs, groups),
                })
            }
        }
    }

    /// Puts what is in another sink of its kind behind what is in this one.
    ///
    /// `Overflow` comes only where the magnitudes of a sum's terms, added, leave 128 bits.
    pub(crate) fn join(self, alloc: Global, more: Sink<'a>) -> Result<Sink<'a>, EvalFault>
        requires { emptied more ≡ emptied self }
        ensures { Joins self.entry more.entry result }
    {
        match self.held {
            Held::Rows(batches) => match more.held {
                Held::Rows(others) => {
                    let batches = both(batches, others)?;
                    Ok(Sink {
                        held: Held::Rows(batches),
                    })
                }
                Held::Groups(_, _, _) => unreachable!(),
            },
            Held::Groups(keys, aggs, groups) => match more.held {
                Held::Rows(_) => unreachable!(),
                Held::Groups(_, _, others) => {
                    let groups = groups.merge(alloc, others)?;
                    Ok(Sink {
                        held: Held::Groups(keys, aggs, groups),
                    })
                }
            },
        }
    }

    /// That no magnitude in it leaves 128 bits, and that it was filled from nothing.
    pub(crate) fn read(&self)
        ensures filled { IsFilled self.now }
        ensures within { within self.now ≡ true }
    {
        let _ = &self.held;
    }

    /// The rows that it gives: those that were put in, or one for each group.
    pub(crate) fn finish(self, alloc: Global) -> Result<Batch, NoMemory>
        requires { CanFinish self }
        ensures { IfOk result (λ b. b ≡ outcome self.entry) }
    {
        match self.held {
            Held::Rows(batches) => put_together(alloc, batches),
            Held::Groups(_, _, groups) => groups.finish(alloc),
        }
    }
}

// Batches and one more.
fn listed(batches: Vec<Batch>, rows: Batch) -> Result<Vec<Batch>, NoMemory>
    ensures { IfOk result (λ v. v.items ≡ batches.items ++ rows ∷ []) }
{
    let mut batches = batches;
    batches.push(rows)?;
    Ok(batches)
}

// The batches of both lists.
fn both(batches: Vec<Batch>, others: Vec<Batch>) -> Result<Vec<Batch>, NoMemory>
    ensures { IfOk result (λ v. v.items ≡ batches.items ++ others.items) }
{
    let mut batches = batches;
    let mut others = others;
    batches.append(&mut others)?;
    Ok(batches)
}

// The rows of all batches, as one. A single one stays as it is.
fn put_together(alloc: Global, batches: Vec<Batch>) -> Result<Batch, NoMemory>
    requires { (w : ℕ) × HaveWidth w (flat_map (λ rows. rows) batches.items) }
    ensures { IfOk result (λ b. b ≡ flat_map (λ rows. rows) batches.items) }
{
    let mut batches = batches;
    let Some(last) = batches.pop() else {
        return Ok(Batch::new(alloc, 0));
    };
    if batches.is_empty() {
        return Ok(last);
    }
    let batches = listed(batches, last)?;
    copied(alloc, batches)
}

// The same, in columns of their own.
fn copied(alloc: Global, batches: Vec<Batch>) -> Result<Batch, NoMemory>
    requires { (w : ℕ) × HaveWidth w (flat_map (λ rows. rows) batches.items) }
    ensures { IfOk result (λ b. b ≡ flat_map (λ rows. rows) batches.items) }
{
    let mut all = Collected::new(alloc);
    for batch in batches {
        all = all.put(alloc, &batch)?;
    }
    all.batch(alloc)
}
