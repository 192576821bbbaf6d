//! A value that is lent.
ghost use Rattle.std.specs.Prelude.{◌≡◌, IfOk};
ghost use Rattle.au_value.specs.Order.{order as order_of};
ghost use Rattle.au_blocks.specs.Scalars.{scalar_value};

use au_value::{NoMemory, Value, Word};
use std::cmp::Ordering;

/// A value that lies in a table: a number, a text that is lent, or a flag.
#[derive(Clone, Copy)]
pub enum Scalar<'a> {
    Int(i128),
    Text(&'a Word),
    Flag(bool),
}

impl<'a> Scalar<'a> {
    // The same as a value is lent.
    pub(crate) fn of(value: &'a Value) -> Scalar<'a>
        ensures { scalar_value result ≡ value.now }
    {
        match value {
            Value::Int(n) => Scalar::Int(*n),
            Value::Text(text) => Scalar::Text(text),
            Value::Flag(truth) => Scalar::Flag(*truth),
        }
    }

    /// The value, copied. Only that of a long text takes memory.
    pub fn to_value(&self) -> Result<Value, NoMemory>
        ensures { IfOk result (λ v. v ≡ scalar_value self.now) }
    {
        match self {
            Scalar::Int(n) => Ok(Value::Int(*n)),
            Scalar::Text(text) => Ok(Value::Text(text.copy()?)),
            Scalar::Flag(truth) => Ok(Value::Flag(*truth)),
        }
    }

    /// The order of two values of any kinds: numbers below texts below flags.
    pub fn compare(&self, other: &Scalar<'_>) -> Ordering
        ensures { result ≡ order_of (scalar_value self.now) (scalar_value other.now) }
    {
        match (self, other) {
            (Scalar::Int(m), Scalar::Int(n)) => m.cmp(n),
            (Scalar::Text(s), Scalar::Text(t)) => s.as_str().cmp(t.as_str()),
            (Scalar::Flag(a), Scalar::Flag(b)) => a.cmp(b),
            (Scalar::Int(_), _) | (Scalar::Text(_), Scalar::Flag(_)) => Ordering::Less,
            _ => Ordering::Greater,
        }
    }
}
