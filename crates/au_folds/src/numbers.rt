//! Lists that have a number, or a sum, for each group, and the loops that put a column's numbers into them.
ghost use Rattle.std.specs.Prelude.{◌≡◌, ◌∷◌, [], ◌++◌, true, false, MatchResult, OnOk, length};
ghost use Rattle.au_value.specs.Adding.{no_terms, with_term};
ghost use Rattle.au_value.specs.Joining.{joined_sum};
ghost use Rattle.au_expr.specs.Figures.{fit};
ghost use Rattle.au_expr.specs.declared.fault.EvalFault.TheVariants as fault;
ghost use Rattle.au_codes.specs.Careful.{extreme_number};
ghost use Rattle.au_folds.specs.Kept.{magnitudes_of, sums_with};
ghost use Rattle.au_folds.specs.Merged.{sums_joined};
ghost use Rattle.au_folds.specs.Puts.{put_all, put_at};

use au_expr::EvalFault;
use au_value::{Adder, Extreme, NoMemory};

/// Adds numbers to the sums at their places.
pub(crate) fn add_terms(
    sums: &mut Vec<Adder>,
    places: &[usize],
    terms: &[i128],
) -> Result<(), EvalFault>
    requires long { length places.now ≡ length terms.now }
    requires fits { fit (magnitudes_of sums.old.items) ≡ true }
    ensures { MatchResult result (λ _. (sums.new.items ≡ sums_with sums.old.items places.now terms.now) × (fit (magnitudes_of sums.new.items) ≡ true)) (λ f. f ≡ fault.Overflow → fit (magnitudes_of (sums_with sums.old.items places.now terms.now)) ≡ false) }
{
    for i in 0..places.len() {
        add_term(sums, places[i], terms[i])?;
    }
    Ok(())
}

// Adds a number to the sum at a place, which is a new one behind the others.
#[inline(always)]
fn add_term(sums: &mut Vec<Adder>, place: usize, term: i128) -> Result<(), EvalFault>
    requires { fit (magnitudes_of sums.old.items) ≡ true }
    ensures { MatchResult result (λ _. (sums.new.items ≡ put_at (with_term no_terms) with_term sums.old.items place term) × (fit (magnitudes_of sums.new.items) ≡ true)) (λ f. f ≡ fault.Overflow → fit (magnitudes_of (put_at (with_term no_terms) with_term sums.old.items place term)) ≡ false) }
{
    if place < sums.len() {
        sums[place].add(term)?;
        Ok(())
    } else {
        let mut sum = Adder::new();
        sum.add(term)?;
        push_sum(sums, sum)?;
        Ok(())
    }
}

/// Adds other sums to those at their places.
pub(crate) fn join_sums(
    sums: &mut Vec<Adder>,
    places: &[usize],
    others: &[Adder],
) -> Result<(), EvalFault>
    requires long { length places.now ≡ length others.now }
    requires fits { fit (magnitudes_of sums.old.items) ≡ true }
    ensures { MatchResult result (λ _. (sums.new.items ≡ sums_joined sums.old.items places.now others.now) × (fit (magnitudes_of sums.new.items) ≡ true)) (λ f. f ≡ fault.Overflow → fit (magnitudes_of (sums_joined sums.old.items places.now others.now)) ≡ false) }
{
    for i in 0..places.len() {
        join_sum(sums, places[i], &others[i])?;
    }
    Ok(())
}

// Adds another sum to the one at a place, which is a new one behind the others.
fn join_sum(sums: &mut Vec<Adder>, place: usize, other: &Adder) -> Result<(), EvalFault>
    requires { fit (magnitudes_of sums.old.items) ≡ true }
    ensures { MatchResult result (λ _. (sums.new.items ≡ put_at (joined_sum no_terms) joined_sum sums.old.items place other.now) × (fit (magnitudes_of sums.new.items) ≡ true)) (λ f. f ≡ fault.Overflow → fit (magnitudes_of (put_at (joined_sum no_terms) joined_sum sums.old.items place other.now)) ≡ false) }
{
    if place < sums.len() {
        let sum = sums[place].joined(other)?;
        sums[place] = sum;
        Ok(())
    } else {
        let sum = Adder::new().joined(other)?;
        push_sum(sums, sum)?;
        Ok(())
    }
}

// Puts a sum behind the others.
fn push_sum(sums: &mut Vec<Adder>, sum: Adder) -> Result<(), NoMemory>
    ensures { OnOk result (sums.new.items ≡ sums.old.items ++ sum ∷ []) }
{
    sums.push(sum)?;
    Ok(())
}

/// Puts numbers in the place of the best ones at their places, where they are better.
pub(crate) fn improve_all(
    how: Extreme,
    bests: &mut Vec<i128>,
    places: &[usize],
    numbers: &[i128],
) -> Result<(), NoMemory>
    requires { length places.now ≡ length numbers.now }
    ensures { OnOk result (bests.new.items ≡ put_all (λ z. z) (extreme_number how) bests.old.items places.now numbers.now) }
{
    match how {
        Extreme::Least => improve_each(Extreme::Least, bests, places, numbers),
        Extreme::Greatest => improve_each(Extreme::Greatest, bests, places, numbers),
    }
}

// The same, with a loop of its own for each end that it is called with.
#[inline(always)]
fn improve_each(
    how: Extreme,
    bests: &mut Vec<i128>,
    places: &[usize],
    numbers: &[i128],
) -> Result<(), NoMemory>
    requires { length places.now ≡ length numbers.now }
    ensures { OnOk result (bests.new.items ≡ put_all (λ z. z) (extreme_number how) bests.old.items places.now numbers.now) }
{
    for i in 0..places.len() {
        improve(how, bests, places[i], numbers[i])?;
    }
    Ok(())
}

// Puts a number in the place of the best one at a place, where it is better; a new one goes behind the others.
#[inline(always)]
fn improve(how: Extreme, bests: &mut Vec<i128>, place: usize, number: i128) -> Result<(), NoMemory>
    ensures { OnOk result (bests.new.items ≡ put_at (λ z. z) (extreme_number how) bests.old.items place number) }
{
    if place < bests.len() {
        bests[place] = extreme(how, bests[place], number);
        Ok(())
    } else {
        bests.push(number)?;
        Ok(())
    }
}

// The lesser, or the greater, of two numbers.
#[inline(always)]
fn extreme(how: Extreme, x: i128, y: i128) -> i128
    ensures { result ≡ extreme_number how x y }
{
    let at_most = x.cmp(&y).is_le();
    match how {
        Extreme::Least => { if at_most { x } else { y } }
        Extreme::Greatest => { if at_most { y } else { x } }
    }
}
