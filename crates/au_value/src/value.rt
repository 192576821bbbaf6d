//! Values of three kinds, and their order.
ghost use Rattle.std.specs.Prelude.{◌≡◌, IfOk};
ghost use Rattle.au_value.specs.Order.{kind_of, order as order_of};

use crate::faults::NoMemory;
use crate::kinds::Kind;
use crate::word::Word;
use std::alloc::Global;
use std::cmp::Ordering;

/// A value of a cell.
#[derive(PartialEq, Eq, Hash, Drop)]
pub enum Value {
    /// A whole number of 128 bits.
    Int(i128),
    /// A text, ordered by its bytes.
    Text(Word),
    /// A truth value, false before true.
    Flag(bool),
}

/// The kind of a value.
pub fn kind(value: &Value) -> Kind
    ensures { result ≡ kind_of value.now }
{
    match value {
        Value::Int(_) => Kind::Int,
        Value::Text(_) => Kind::Text,
        Value::Flag(_) => Kind::Flag,
    }
}

/// The order of two values of one kind.
pub fn order(a: &Value, b: &Value) -> Ordering
    requires { kind_of a.now ≡ kind_of b.now }
    ensures { result ≡ order_of a.now b.now }
{
    match (a, b) {
        (Value::Int(m), Value::Int(n)) => m.cmp(n),
        (Value::Text(s), Value::Text(t)) => s.order(t),
        (Value::Flag(p), Value::Flag(q)) => p.cmp(q),
        _ => unreachable!(),
    }
}

/// The order of two values of any kinds: numbers below texts below flags.
pub fn compare(a: &Value, b: &Value) -> Ordering
    ensures { result ≡ order_of a.now b.now }
{
    match (kind(a), kind(b)) {
        (Kind::Int, Kind::Int) | (Kind::Text, Kind::Text) | (Kind::Flag, Kind::Flag) => order(a, b),
        (Kind::Int, _) | (Kind::Text, Kind::Flag) => Ordering::Less,
        _ => Ordering::Greater,
    }
}

/// A copy of a value. Only that of a text takes memory.
pub fn copy(value: &Value) -> Result<Value, NoMemory>
    ensures { IfOk result (λ v. v ≡ value.now) }
{
    match value {
        Value::Int(n) => Ok(Value::Int(*n)),
        Value::Text(s) => Ok(Value::Text(s.copy()?)),
        Value::Flag(b) => Ok(Value::Flag(*b)),
    }
}

/// Copies of some values.
pub fn copies(alloc: Global, values: &[Value]) -> Result<Vec<Value>, NoMemory>
    ensures { IfOk result (λ v. v.items ≡ values.now) }
{
    let mut copied = Vec::with_capacity(alloc, values.len())?;
    for value in values {
        copied.push(copy(value)?)?;
    }
    Ok(copied)
}
