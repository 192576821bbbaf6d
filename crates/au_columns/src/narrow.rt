//! Loops over numbers of 64 bits.
ghost use Rattle.std.specs.Prelude.{◌≡◌, ◌≤◌, false, true, length, map, take};
ghost use Rattle.au_value.specs.Numeral.{is_i128};
ghost use Rattle.au_codes.specs.Careful.{extreme_number};
ghost use Rattle.au_codes.specs.Codes.{flag as flag_of};
ghost use Rattle.au_codes.specs.CellMeaning.{truth};
ghost use Rattle.au_columns.specs.Batches.{one_if_true, places_where};
ghost use Rattle.au_columns.specs.Steps.{AllFit, AreBelow, AreChosen, AreTested, AreWorked, number_at, tested, worked};

use crate::step::{Arithmetic, Test};
use au_plain::Comparison2;
use au_value::Extreme;

/// Makes one number of two at each place, and tells whether one leaves 64 bits.
pub(crate) fn arithmetic(how: Arithmetic, a: &[i64], b: &[i64], made: &mut [i64]) -> bool
    requires a { length a.now ≡ length made.old }
    requires b { length b.now ≡ length made.old }
    ensures len { length made.new ≡ length made.old }
    ensures made { result ≡ false → AreWorked how (length made.old) a.now b.now made.new }
{
    match how {
        Arithmetic::Add => work(Arithmetic::Add, a, b, made),
        Arithmetic::Subtract => work(Arithmetic::Subtract, a, b, made),
        Arithmetic::Multiply => work(Arithmetic::Multiply, a, b, made),
        Arithmetic::Extreme(Extreme::Least) => {
            work(Arithmetic::Extreme(Extreme::Least), a, b, made)
        }
        Arithmetic::Extreme(Extreme::Greatest) => {
            work(Arithmetic::Extreme(Extreme::Greatest), a, b, made)
        }
    }
}

// The same, with a loop of its own for each kind of arithmetic that it is called with.
#[inline(always)]
fn work(how: Arithmetic, a: &[i64], b: &[i64], made: &mut [i64]) -> bool
    requires a { length a.now ≡ length made.old }
    requires b { length b.now ≡ length made.old }
    ensures len { length made.new ≡ length made.old }
    ensures made { result ≡ false → AreWorked how (length made.old) a.now b.now made.new }
{
    let mut leaves = false;
    for i in 0..made.len() {
        let (number, over) = number(how, a[i], b[i]);
        made[i] = number;
        leaves = leaves | over;
    }
    leaves
}

// The number that arithmetic makes of two, and whether it leaves 64 bits.
#[inline(always)]
fn number(how: Arithmetic, x: i64, y: i64) -> (i64, bool)
    ensures { result.1 ≡ false → result.0 ≡ worked how x y }
{
    match how {
        Arithmetic::Add => x.overflowing_add(y),
        Arithmetic::Subtract => x.overflowing_sub(y),
        Arithmetic::Multiply => x.overflowing_mul(y),
        Arithmetic::Extreme(how) => (extreme(how, x, y), false),
    }
}

// The lesser, or the greater, of two numbers.
#[inline(always)]
fn extreme(how: Extreme, x: i64, y: i64) -> i64
    ensures { result ≡ extreme_number how x y }
{
    let at_most = x.cmp(&y).is_le();
    match how {
        Extreme::Least => { if at_most { x } else { y } }
        Extreme::Greatest => { if at_most { y } else { x } }
    }
}

/// Makes the flag of a test at each place.
pub(crate) fn test(how: Test, a: &[i64], b: &[i64], flags: &mut [i64])
    requires a { length a.now ≡ length flags.old }
    requires b { length b.now ≡ length flags.old }
    ensures len { length flags.new ≡ length flags.old }
    ensures flags { AreTested how (length flags.old) a.now b.now flags.new }
{
    match how {
        Test::Compare(Comparison2::Equal) => {
            judge(Test::Compare(Comparison2::Equal), a, b, flags)
        }
        Test::Compare(Comparison2::Less) => judge(Test::Compare(Comparison2::Less), a, b, flags),
        Test::Compare(Comparison2::AtMost) => {
            judge(Test::Compare(Comparison2::AtMost), a, b, flags)
        }
        Test::And => judge(Test::And, a, b, flags),
        Test::Or => judge(Test::Or, a, b, flags),
    }
}

// The same, with a loop of its own for each test that it is called with.
#[inline(always)]
fn judge(how: Test, a: &[i64], b: &[i64], flags: &mut [i64])
    requires a { length a.now ≡ length flags.old }
    requires b { length b.now ≡ length flags.old }
    ensures len { length flags.new ≡ length flags.old }
    ensures flags { AreTested how (length flags.old) a.now b.now flags.new }
{
    for i in 0..flags.len() {
        flags[i] = flag(how, a[i], b[i]);
    }
}

// 1 where a test holds of two numbers, and else 0.
#[inline(always)]
fn flag(how: Test, x: i64, y: i64) -> i64
    ensures { result ≡ tested how x y }
{
    if holds(how, x, y) { 1 } else { 0 }
}

// Whether a test holds of two numbers.
#[inline(always)]
fn holds(how: Test, x: i64, y: i64) -> bool
    ensures { flag_of result ≡ tested how x y }
{
    match how {
        Test::Compare(Comparison2::Equal) => x.cmp(&y).is_eq(),
        Test::Compare(Comparison2::Less) => x.cmp(&y).is_lt(),
        Test::Compare(Comparison2::AtMost) => x.cmp(&y).is_le(),
        Test::And => (x != 0) & (y != 0),
        Test::Or => (x != 0) | (y != 0),
    }
}

/// Takes at each place the first number where the flag is true, and else the second.
pub(crate) fn choose(flags: &[i64], a: &[i64], b: &[i64], made: &mut [i64])
    requires flags { length flags.now ≡ length made.old }
    requires a { length a.now ≡ length made.old }
    requires b { length b.now ≡ length made.old }
    ensures len { length made.new ≡ length made.old }
    ensures made { AreChosen (length made.old) flags.now a.now b.now made.new }
{
    for i in 0..made.len() {
        made[i] = if flags[i] != 0 { a[i] } else { b[i] };
    }
}

/// Writes the places of true flags in front, without a branch, and tells how many there are.
pub(crate) fn true_places(flags: &[i64], places: &mut [usize]) -> usize
    requires { length flags.now ≡ length places.old }
    ensures len { length places.new ≡ length places.old }
    ensures places { take result places.new ≡ places_where 0 flags.now }
{
    let mut count = 0;
    for i in 0..places.len() {
        places[count] = i;
        count += one_if(flags[i]);
    }
    count
}

// 1 where a flag is true, and else 0.
#[inline(always)]
fn one_if(flag: i64) -> usize
    ensures is { result ≡ one_if_true (truth flag) }
    ensures small { result ≤ 1 }
{
    if flag != 0 { 1 } else { 0 }
}

/// Takes the numbers of some places.
pub(crate) fn gather(numbers: &[i64], places: &[usize], made: &mut [i64])
    requires places { length places.now ≡ length made.old }
    requires below { AreBelow places.now (length numbers.now) }
    ensures len { length made.new ≡ length made.old }
    ensures made { made.new ≡ map (number_at numbers.now) places.now }
{
    for i in 0..made.len() {
        made[i] = numbers[places[i]];
    }
}

/// Reads each number: what is held fits.
pub(crate) fn read(numbers: &[i64])
    ensures { AllFit numbers.now }
{
    for i in 0..numbers.len() {
        fits(numbers[i]);
    }
}

fn fits(number: i64)
    ensures { is_i128 number ≡ true }
{
    let _number = number;
}
