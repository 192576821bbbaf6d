//! Expressions, worked on one row after the other, exactly.
ghost use Rattle.std.specs.Prelude.{◌≡◌, ◌<◌, [], IsTrue, MatchResult, SomeIff, Some, get_or, length, not, ◌+ℤ◌, ◌-ℤ◌, ◌*ℤ◌, neg_ℤ};
ghost use Rattle.au_expr.specs.declared.fault.EvalFault.TheVariants as fault;
ghost use Rattle.au_value.specs.Numeral.{is_i128};
ghost use Rattle.au_plain.specs.PTerms.{pterm};
ghost use Rattle.au_codes.specs.Careful.{careful as careful_of, careful_extreme as careful_extreme_of, extreme_number, fitting, from_both, from_one};
ghost use Rattle.au_codes.specs.CellMeaning.{cell, truth};
ghost use Rattle.au_codes.specs.Codes.{flag as flag_of};
ghost use Rattle.au_codes.specs.Gathering.{terms};
ghost use Rattle.au_columns.specs.Evaluated.{Gives, Refuses};
ghost use Rattle.au_columns.specs.Steps.{tested, worked};

use crate::batch::Batch;
use crate::column::Column;
use crate::step::{Arithmetic, Test};
use crate::wide::{self, held};
use au_expr::EvalFault;
use au_plain::PExpr;
use au_value::{Extreme, Value};
use std::alloc::Global;

/// The value of an expression on each row, unless its numbers leave 128 bits on some row.
pub(crate) fn by_rows(alloc: Global, batch: &Batch, tree: &PExpr) -> Result<Column, EvalFault>
    ensures { MatchResult result (λ c. Gives (careful_of (pterm tree.now)) batch.now c) (λ f. f ≡ fault.Overflow → Refuses (careful_of (pterm tree.now)) batch.now) }
{
    let mut column = Column::new(alloc);
    for row in 0..batch.len() {
        match careful(batch, row, tree) {
            Some(number) => column.push(alloc, number)?,
            None => return Err(EvalFault::Overflow),
        }
    }
    Ok(column)
}

// The value of an expression on a row, if all its numbers fit.
#[cycle(rowwise)]
fn careful(batch: &Batch, row: usize, tree: &PExpr) -> Option<i128>
    requires { row < length batch.now }
    ensures { result ≡ careful_of (pterm tree.now) (get_or batch.now row []) }
{
    match tree {
        PExpr::Column(place) => Some(batch.cell(row, *place)),
        PExpr::Literal(value) => Some(literal(value)),
        PExpr::Negate(a) => negated(careful(batch, row, a)),
        PExpr::Not(a) => opposite(careful(batch, row, a)),
        PExpr::Add(a, b) => both(
            Arithmetic::Add,
            careful(batch, row, a),
            careful(batch, row, b),
        ),
        PExpr::Subtract(a, b) => both(
            Arithmetic::Subtract,
            careful(batch, row, a),
            careful(batch, row, b),
        ),
        PExpr::Multiply(a, b) => both(
            Arithmetic::Multiply,
            careful(batch, row, a),
            careful(batch, row, b),
        ),
        PExpr::Compare(how, a, b) => judged(
            Test::Compare(*how),
            careful(batch, row, a),
            careful(batch, row, b),
        ),
        PExpr::And(a, b) => judged(Test::And, careful(batch, row, a), careful(batch, row, b)),
        PExpr::Or(a, b) => judged(Test::Or, careful(batch, row, a), careful(batch, row, b)),
        PExpr::Case(c, a, b) => match careful(batch, row, c) {
            None => None,
            Some(flag) => {
                if is_true(flag) {
                    careful(batch, row, a)
                } else {
                    careful(batch, row, b)
                }
            }
        },
        PExpr::Least(es) => {
            let least = careful_extreme(batch, row, Extreme::Least, es);
            least
        }
        PExpr::Greatest(es) => {
            let greatest = careful_extreme(batch, row, Extreme::Greatest, es);
            greatest
        }
    }
}

// The least or the greatest of the values of some expressions, if all their numbers fit, and 0 of none.
#[cycle(rowwise)]
fn careful_extreme(batch: &Batch, row: usize, how: Extreme, es: &[PExpr]) -> Option<i128>
    requires { row < length batch.now }
    ensures { result ≡ careful_extreme_of how (terms es.now) (get_or batch.now row []) }
{
    if es.is_empty() {
        return Some(0);
    }
    let mut i = es.len() - 1;
    let mut best = careful(batch, row, &es[i]);
    while i > 0 {
        i -= 1;
        let next = careful(batch, row, &es[i]);
        best = preferred(how, next, best);
    }
    best
}

/// The number of a value that a plan over cells has written out; a text is none.
pub(crate) fn literal(value: &Value) -> i128
    ensures { Some result ≡ fitting (cell value.now) }
{
    match value {
        Value::Int(number) => held(*number),
        Value::Text(_) => 0,
        Value::Flag(flag) => { if *flag { 1 } else { 0 } }
    }
}

// Whether a number stands for the true flag.
fn is_true(number: i128) -> bool
    ensures { result ≡ truth number }
{
    !number.cmp(&0).is_eq()
}

// What arithmetic makes of two numbers that are there, if it fits.
fn both(how: Arithmetic, x: Option<i128>, y: Option<i128>) -> Option<i128>
    ensures { result ≡ from_both (λ m n. fitting (worked how m n)) x y }
{
    let (Some(m), Some(n)) = (x, y) else {
        return None;
    };
    made(how, m, n)
}

// The same of two numbers.
fn made(how: Arithmetic, m: i128, n: i128) -> Option<i128>
    ensures { result ≡ fitting (worked how m n) }
{
    match how {
        Arithmetic::Add => sum(m, n),
        Arithmetic::Subtract => difference(m, n),
        Arithmetic::Multiply => product(m, n),
        Arithmetic::Extreme(how) => Some(held(wide::extreme(how, m, n))),
    }
}

fn sum(m: i128, n: i128) -> Option<i128>
    ensures { result ≡ fitting (m +ℤ n) }
{
    checked_sum(m, n)
}

fn checked_sum(m: i128, n: i128) -> Option<i128>
    ensures { SomeIff result (IsTrue (is_i128 (m +ℤ n))) (m +ℤ n) }
{
    m.checked_add(n)
}

fn difference(m: i128, n: i128) -> Option<i128>
    ensures { result ≡ fitting (m -ℤ n) }
{
    checked_difference(m, n)
}

fn checked_difference(m: i128, n: i128) -> Option<i128>
    ensures { SomeIff result (IsTrue (is_i128 (m -ℤ n))) (m -ℤ n) }
{
    m.checked_sub(n)
}

fn product(m: i128, n: i128) -> Option<i128>
    ensures { result ≡ fitting (m *ℤ n) }
{
    checked_product(m, n)
}

fn checked_product(m: i128, n: i128) -> Option<i128>
    ensures { SomeIff result (IsTrue (is_i128 (m *ℤ n))) (m *ℤ n) }
{
    m.checked_mul(n)
}

fn negation(m: i128) -> Option<i128>
    ensures { result ≡ fitting (neg_ℤ m) }
{
    checked_negation(m)
}

fn checked_negation(m: i128) -> Option<i128>
    ensures { SomeIff result (IsTrue (is_i128 (neg_ℤ m))) (neg_ℤ m) }
{
    m.checked_neg()
}

// The opposite of a number that is there, if it fits.
fn negated(x: Option<i128>) -> Option<i128>
    ensures { result ≡ from_one (λ m. fitting (neg_ℤ m)) x }
{
    match x {
        Some(m) => negation(m),
        None => None,
    }
}

// The opposite of a flag that is there.
fn opposite(x: Option<i128>) -> Option<i128>
    ensures { result ≡ from_one (λ m. Some (flag_of (not (truth m)))) x }
{
    match x {
        Some(m) => Some(if is_true(m) { 0 } else { 1 }),
        None => None,
    }
}

// The flag of a test of two numbers that are there.
fn judged(how: Test, x: Option<i128>, y: Option<i128>) -> Option<i128>
    ensures { result ≡ from_both (λ m n. Some (tested how m n)) x y }
{
    let (Some(m), Some(n)) = (x, y) else {
        return None;
    };
    Some(wide::flag(how, m, n) as i128)
}

// The lesser, or the greater, of two numbers that are there.
fn preferred(how: Extreme, x: Option<i128>, y: Option<i128>) -> Option<i128>
    ensures { result ≡ from_both (λ m n. Some (extreme_number how m n)) x y }
{
    let (Some(m), Some(n)) = (x, y) else {
        return None;
    };
    Some(wide::extreme(how, m, n))
}
