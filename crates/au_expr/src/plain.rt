//! Values as cells.
ghost use Rattle.std.specs.Prelude.{◌≡◌, IfOk};
ghost use Rattle.au_value.specs.Order.{kind_of};
ghost use Rattle.au_value.specs.declared.kinds.Kind.{Kind};
ghost use Rattle.au_value.specs.declared.value.Value.{Value};
ghost use Rattle.au_expr.specs.Ordinary.{ordinary, is_true, compares as compares_of, IsKind};
ghost use Rattle.au_expr.specs.Holding.{ValueIs};
ghost use Rattle.au_expr.specs.Numbers.{of_values};
ghost use Rattle.au_expr.specs.Truths.{IsAnyBool};

use crate::domain::Domain;
use crate::number::{difference, flag, negation, number, product, read, sum};
use au_value::{Comparison, NoMemory, Overflow, Value, copy, order};

/// The ordinary meaning: a cell is a value, and a truth is a bool.
pub struct PlainDomain;

impl Domain for PlainDomain {
    type Cell = Value;

    type Truth = bool;

    ghost operators = { ordinary };

    ghost is_kind = { IsKind };

    ghost figures = { of_values };

    ghost stands_for = { ValueIs };

    ghost truth_of = { is_true };

    ghost is_valid = { IsAnyBool };

    fn literal(value: &Value) -> Result<Value, NoMemory> {
        read(value);
        copy(value)
    }

    fn copy(a: &Value) -> Result<Value, NoMemory> {
        read(a);
        copy(a)
    }

    fn add(a: &Value, b: &Value) -> Result<Value, Overflow> {
        Ok(Value::Int(sum(number(a), number(b))?))
    }

    fn subtract(a: &Value, b: &Value) -> Result<Value, Overflow> {
        Ok(Value::Int(difference(number(a), number(b))?))
    }

    fn multiply(a: &Value, b: &Value) -> Result<Value, Overflow> {
        Ok(Value::Int(product(number(a), number(b))?))
    }

    fn negate(a: &Value) -> Result<Value, Overflow> {
        Ok(Value::Int(negation(number(a))?))
    }

    fn compare(how: Comparison, a: &Value, b: &Value) -> Value {
        read(a);
        read(b);
        Value::Flag(compares(how, a, b))
    }

    fn and(a: &Value, b: &Value) -> Value {
        read(a);
        read(b);
        Value::Flag(flag(a) & flag(b))
    }

    fn or(a: &Value, b: &Value) -> Value {
        read(a);
        read(b);
        Value::Flag(flag(a) | flag(b))
    }

    fn not(a: &Value) -> Value {
        read(a);
        Value::Flag(!flag(a))
    }

    fn choose(condition: &Value, then: &Value, otherwise: &Value) -> Result<Value, NoMemory> {
        read(condition);
        read(then);
        read(otherwise);
        if flag(condition) {
            copy(then)
        } else {
            copy(otherwise)
        }
    }

    fn truth(a: &Value) -> bool {
        flag(a)
    }
}

// Whether the comparison holds of the two values.
fn compares(how: Comparison, a: &Value, b: &Value) -> bool
    requires { kind_of a.now ≡ kind_of b.now }
    ensures { result ≡ compares_of how a.now b.now }
{
    match how {
        Comparison::Equal => order(a, b).is_eq(),
        Comparison::Differs => !order(a, b).is_eq(),
        Comparison::Less => order(a, b).is_lt(),
        Comparison::AtMost => order(a, b).is_le(),
        Comparison::Greater => order(b, a).is_lt(),
        Comparison::AtLeast => order(b, a).is_le(),
    }
}
