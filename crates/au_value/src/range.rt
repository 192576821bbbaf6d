//! Ranges of values of one kind.
ghost use Rattle.std.specs.Prelude.{◌≡◌, IfOk};
ghost use Rattle.au_value.specs.Order.{kind_of};
ghost use Rattle.au_value.specs.Ranges.{IsRange, range, certain, holds, overlap, is_certain, hull, lesser as lesser_of, greater as greater_of};

use crate::faults::NoMemory;
use crate::value::{Value, copy, order};
use std::marker::Model;

/// What is known of a value: a lower bound `lo`, the guess `sg` and an upper bound `hi`, all of one kind and in this order.
/// Contracts see a `Span` of the three.
#[derive(Drop)]
pub struct Range {
    lo: Value,
    sg: Value,
    hi: Value,
}

impl Model for Range {
    ghost use Rattle.au_value.specs.Ranges.{Span, range, IsRange};

    ghost Value = { Span };

    ghost view = { λ r. range r.lo r.sg r.hi };

    ghost invariant = { λ r. IsRange (range r.lo r.sg r.hi) };
}

impl Range {
    /// The range of these three. It takes no memory.
    pub fn of(lo: Value, sg: Value, hi: Value) -> Range
        requires { IsRange (range lo sg hi) }
        ensures { result ≡ range lo sg hi }
    {
        Range { lo, sg, hi }
    }

    /// The lower bound.
    pub fn lo(&self) -> &Value
        ensures of { result.now ≡ self.now.lo }
        ensures ordered { IsRange self.now }
    {
        &self.lo
    }

    /// The guess.
    pub fn sg(&self) -> &Value
        ensures of { result.now ≡ self.now.sg }
        ensures ordered { IsRange self.now }
    {
        &self.sg
    }

    /// The upper bound.
    pub fn hi(&self) -> &Value
        ensures of { result.now ≡ self.now.hi }
        ensures ordered { IsRange self.now }
    {
        &self.hi
    }

    /// The range in which all three are copies of the value.
    pub fn certain(value: &Value) -> Result<Range, NoMemory>
        ensures { IfOk result (λ r. r ≡ certain value.now) }
    {
        Ok(Range {
            lo: copy(value)?,
            sg: copy(value)?,
            hi: copy(value)?,
        })
    }

    /// Whether the value, of the range's kind, lies between the bounds or on one.
    pub fn holds(&self, value: &Value) -> bool
        requires { kind_of value.now ≡ kind_of self.now.sg }
        ensures { result ≡ holds self.now value.now }
    {
        order(&self.lo, value).is_le() && order(value, &self.hi).is_le()
    }

    /// Whether some value could lie in both ranges, which are of one kind.
    pub fn overlaps(&self, other: &Range) -> bool
        requires { kind_of self.now.sg ≡ kind_of other.now.sg }
        ensures { result ≡ overlap self.now other.now }
    {
        order(&self.lo, &other.hi).is_le() && order(&other.lo, &self.hi).is_le()
    }

    /// Whether the bounds are equal, so that the range holds one value alone.
    pub fn is_certain(&self) -> bool
        ensures { result ≡ is_certain self.now }
    {
        order(&self.lo, &self.hi).is_eq()
    }

    /// The least range that holds what either holds, with the guess of `self`. Both are of one kind.
    pub fn hull(&self, other: &Range) -> Result<Range, NoMemory>
        requires { kind_of self.now.sg ≡ kind_of other.now.sg }
        ensures { IfOk result (λ r. r ≡ hull self.now other.now) }
    {
        Ok(Range {
            lo: lesser(&self.lo, &other.lo)?,
            sg: copy(&self.sg)?,
            hi: greater(&self.hi, &other.hi)?,
        })
    }
}

// A copy of the lesser value.
fn lesser(a: &Value, b: &Value) -> Result<Value, NoMemory>
    requires { kind_of a.now ≡ kind_of b.now }
    ensures { IfOk result (λ v. v ≡ lesser_of a.now b.now) }
{
    if order(a, b).is_le() {
        copy(a)
    } else {
        copy(b)
    }
}

// A copy of the greater value.
fn greater(a: &Value, b: &Value) -> Result<Value, NoMemory>
    requires { kind_of a.now ≡ kind_of b.now }
    ensures { IfOk result (λ v. v ≡ greater_of a.now b.now) }
{
    if order(a, b).is_le() {
        copy(b)
    } else {
        copy(a)
    }
}
