//! Arithmetic, tests and choices over whole columns.
ghost use Rattle.std.specs.Prelude.{◌≡◌, IfOk, length};
ghost use Rattle.au_columns.specs.Steps.{Chosen, Tested, Worked};

use crate::column::{Column, Numbers, widened};
use crate::step::{Arithmetic, Test};
use crate::{narrow, wide};
use au_expr::EvalFault;
use au_value::NoMemory;
use std::alloc::Global;

/// Makes one number of two at each place: in 64 bits where none leaves them, and else in 128.
///
/// `Overflow` comes where one leaves 128 bits.
pub(crate) fn arithmetic(
    alloc: Global,
    how: Arithmetic,
    a: &Column,
    b: &Column,
) -> Result<Column, EvalFault>
    requires { length b.now ≡ length a.now }
    ensures { IfOk result (λ c. Worked how a.now b.now c) }
{
    match (&a.numbers, &b.numbers) {
        (Numbers::Narrow(x), Numbers::Narrow(y)) => match in_narrow(alloc, how, x, y) {
            Ok(made) => Ok(made),
            Err(EvalFault::NoMemory) => Err(EvalFault::NoMemory),
            Err(EvalFault::Overflow) => {
                let x = widened(alloc, x)?;
                in_wide(alloc, how, &x, &*widened(alloc, y)?)
            }
        },
        (Numbers::Narrow(x), Numbers::Wide(y)) => in_wide(alloc, how, &*widened(alloc, x)?, y),
        (Numbers::Wide(x), Numbers::Narrow(y)) => in_wide(alloc, how, x, &*widened(alloc, y)?),
        (Numbers::Wide(x), Numbers::Wide(y)) => in_wide(alloc, how, x, y),
    }
}

// The same of numbers of 64 bits.
fn in_narrow(alloc: Global, how: Arithmetic, a: &[i64], b: &[i64]) -> Result<Column, EvalFault>
    requires { length b.now ≡ length a.now }
    ensures { IfOk result (λ c. Worked how a.now b.now c) }
{
    let mut made = zeros(alloc, a.len())?;
    let leaves = narrow::arithmetic(how, a, b, &mut made);
    if leaves {
        return Err(EvalFault::Overflow);
    }
    Ok(Column::narrow(made))
}

// The same of numbers of 128 bits.
fn in_wide(alloc: Global, how: Arithmetic, a: &[i128], b: &[i128]) -> Result<Column, EvalFault>
    requires { length b.now ≡ length a.now }
    ensures { IfOk result (λ c. Worked how a.now b.now c) }
{
    let mut made = wide_zeros(alloc, a.len())?;
    let leaves = wide::arithmetic(how, a, b, &mut made);
    if leaves {
        return Err(EvalFault::Overflow);
    }
    Ok(Column::wide(made))
}

/// Makes the flag of a test at each place.
pub(crate) fn test(alloc: Global, how: Test, a: &Column, b: &Column) -> Result<Column, NoMemory>
    requires { length b.now ≡ length a.now }
    ensures { IfOk result (λ c. Tested how a.now b.now c) }
{
    match (&a.numbers, &b.numbers) {
        (Numbers::Narrow(x), Numbers::Narrow(y)) => test_narrow(alloc, how, x, y),
        (Numbers::Narrow(x), Numbers::Wide(y)) => test_wide(alloc, how, &*widened(alloc, x)?, y),
        (Numbers::Wide(x), Numbers::Narrow(y)) => test_wide(alloc, how, x, &*widened(alloc, y)?),
        (Numbers::Wide(x), Numbers::Wide(y)) => test_wide(alloc, how, x, y),
    }
}

// The same of numbers of 64 bits.
fn test_narrow(alloc: Global, how: Test, a: &[i64], b: &[i64]) -> Result<Column, NoMemory>
    requires { length b.now ≡ length a.now }
    ensures { IfOk result (λ c. Tested how a.now b.now c) }
{
    let mut flags = zeros(alloc, a.len())?;
    narrow::test(how, a, b, &mut flags);
    Ok(Column::narrow(flags))
}

// The same of numbers of 128 bits.
fn test_wide(alloc: Global, how: Test, a: &[i128], b: &[i128]) -> Result<Column, NoMemory>
    requires { length b.now ≡ length a.now }
    ensures { IfOk result (λ c. Tested how a.now b.now c) }
{
    let mut flags = zeros(alloc, a.len())?;
    wide::test(how, a, b, &mut flags);
    Ok(Column::narrow(flags))
}

/// Takes at each place the first number where the flag is true, and else the second.
///
/// `Overflow` comes where the flags are held in 128 bits, which no flag needs.
pub(crate) fn choose(
    alloc: Global,
    flags: &Column,
    a: &Column,
    b: &Column,
) -> Result<Column, EvalFault>
    requires a { length a.now ≡ length flags.now }
    requires b { length b.now ≡ length flags.now }
    ensures { IfOk result (λ c. Chosen flags.now a.now b.now c) }
{
    match &flags.numbers {
        Numbers::Narrow(flags) => Ok(choose_by(alloc, flags, a, b)?),
        Numbers::Wide(_) => Err(EvalFault::Overflow),
    }
}

// The same by flags of 64 bits.
fn choose_by(alloc: Global, flags: &[i64], a: &Column, b: &Column) -> Result<Column, NoMemory>
    requires a { length a.now ≡ length flags.now }
    requires b { length b.now ≡ length flags.now }
    ensures { IfOk result (λ c. Chosen flags.now a.now b.now c) }
{
    match (&a.numbers, &b.numbers) {
        (Numbers::Narrow(x), Numbers::Narrow(y)) => choose_narrow(alloc, flags, x, y),
        (Numbers::Narrow(x), Numbers::Wide(y)) => {
            choose_wide(alloc, flags, &*widened(alloc, x)?, y)
        }
        (Numbers::Wide(x), Numbers::Narrow(y)) => {
            choose_wide(alloc, flags, x, &*widened(alloc, y)?)
        }
        (Numbers::Wide(x), Numbers::Wide(y)) => choose_wide(alloc, flags, x, y),
    }
}

// The same of numbers of 64 bits.
fn choose_narrow(alloc: Global, flags: &[i64], a: &[i64], b: &[i64]) -> Result<Column, NoMemory>
    requires a { length a.now ≡ length flags.now }
    requires b { length b.now ≡ length flags.now }
    ensures { IfOk result (λ c. Chosen flags.now a.now b.now c) }
{
    let mut made = zeros(alloc, flags.len())?;
    narrow::choose(flags, a, b, &mut made);
    Ok(Column::narrow(made))
}

// The same of numbers of 128 bits.
fn choose_wide(alloc: Global, flags: &[i64], a: &[i128], b: &[i128]) -> Result<Column, NoMemory>
    requires a { length a.now ≡ length flags.now }
    requires b { length b.now ≡ length flags.now }
    ensures { IfOk result (λ c. Chosen flags.now a.now b.now c) }
{
    let mut made = wide_zeros(alloc, flags.len())?;
    wide::choose(flags, a, b, &mut made);
    Ok(Column::wide(made))
}

// Room for numbers of 64 bits.
pub(crate) fn zeros(alloc: Global, count: usize) -> Result<Vec<i64>, NoMemory>
    ensures { IfOk result (λ v. length v.items ≡ count) }
{
    Ok(vec![in alloc; 0i64; count]?)
}

// Room for numbers of 128 bits.
pub(crate) fn wide_zeros(alloc: Global, count: usize) -> Result<Vec<i128>, NoMemory>
    ensures { IfOk result (λ v. length v.items ≡ count) }
{
    Ok(vec![in alloc; 0i128; count]?)
}
