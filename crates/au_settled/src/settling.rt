//! The normal form of rows of numbers.
ghost use Rattle.std.specs.Prelude.{◌≡◌, ◌*◌, ◌<◌, ◌^◌, [], false, IfOk, IsTrue, get_or, length, map};
ghost use Rattle.std.specs.List.{range_with_len};
ghost use Rattle.std.specs.List.Sorted.{IsSortedBy};
ghost use Rattle.std.specs.Ordering.{is_lt};
ghost use Rattle.au_algebra.specs.Bounded.{normal};
ghost use Rattle.au_algebra.specs.Fits.{triples_fit};
ghost use Rattle.au_columns.specs.Steps.{AreBelow};
ghost use Rattle.au_settled.specs.Places.{Decides, cells_order, row_in};
ghost use Rattle.au_settled.specs.Settled.{HaveCounts, normal_rows, numbers_of, relation_of};

use crate::counts::read;
use crate::gathering::{gathered, taken};
use crate::order::{rise, sorted};
use crate::places::{first_places, order_places};
use crate::runs::merged;
use au_columns::Batch;
use au_expr::EvalFault;
use au_value::NoMemory;
use std::alloc::Global;

// No list of places has room for the ends of more columns.
const MOST_COLUMNS: usize = 1 << 60;

/// The normal form of rows of numbers, each with three for each of so many columns, lower end, guess and upper end, and
/// three counts behind them. Rows that are their own normal form are shared.
///
/// `Overflow` comes only where a count of the normal form passes 2^127-1.
pub fn settled(alloc: Global, rows: &Batch, columns: usize) -> Result<Batch, EvalFault>
    requires { HaveCounts columns rows.now }
    ensures rows { IfOk result (λ b. b ≡ normal_rows columns rows.now) }
    ensures fits { IfOk result (λ _. IsTrue (triples_fit (normal (relation_of columns rows.now)))) }
    ensures overflow { result ≡ Err EvalFault.Overflow → triples_fit (normal (relation_of columns rows.now)) ≡ false }
{
    if columns > MOST_COLUMNS {
        return Err(EvalFault::NoMemory);
    }
    match order_places(alloc, columns) {
        Ok(keys) => by_keys(alloc, rows, columns, &keys),
        Err(NoMemory) => Err(EvalFault::NoMemory),
    }
}

// The same, by the places by which rows are ordered.
fn by_keys(alloc: Global, rows: &Batch, columns: usize, keys: &[usize]) -> Result<Batch, EvalFault>
    requires few { 3 * columns < 2 ^ 63 }
    requires counts { HaveCounts columns rows.now }
    requires keys { Decides columns rows.now keys.now }
    ensures rows { IfOk result (λ b. b ≡ normal_rows columns rows.now) }
    ensures fits { IfOk result (λ _. IsTrue (triples_fit (normal (relation_of columns rows.now)))) }
    ensures overflow { result ≡ Err EvalFault.Overflow → triples_fit (normal (relation_of columns rows.now)) ≡ false }
{
    let places = match first_places(alloc, rows.len()) {
        Ok(places) => places,
        Err(NoMemory) => return Err(EvalFault::NoMemory),
    };
    if rise(rows, keys, &places) {
        return shared(alloc, rows, columns, &places);
    }
    match sorted(rows, keys, places) {
        Ok(places) => in_order(alloc, rows, columns, keys, &places),
        Err(NoMemory) => Err(EvalFault::NoMemory),
    }
}

// The rows themselves, of which all places are given.
fn shared(alloc: Global, rows: &Batch, columns: usize, places: &[usize]) -> Result<Batch, EvalFault>
    requires few { 3 * columns < 2 ^ 63 }
    requires counts { HaveCounts columns rows.now }
    requires all { places.now ≡ range_with_len 0 (length rows.now) }
    requires normal { normal (map (row_in columns rows.now) places.now) ≡ map (row_in columns rows.now) places.now }
    ensures rows { IfOk result (λ b. b ≡ normal_rows columns rows.now) }
    ensures fits { IfOk result (λ _. IsTrue (triples_fit (normal (relation_of columns rows.now)))) }
    ensures overflow { result ≡ Err EvalFault.Overflow → triples_fit (normal (relation_of columns rows.now)) ≡ false }
{
    read(rows, columns, places);
    match rows.share(alloc) {
        Ok(batch) => Ok(batch),
        Err(NoMemory) => Err(EvalFault::NoMemory),
    }
}

// The normal form of the rows of places in order. Where no two of them are equal they are gathered as they are.
fn in_order(
    alloc: Global,
    rows: &Batch,
    columns: usize,
    keys: &[usize],
    places: &[usize],
) -> Result<Batch, EvalFault>
    requires few { 3 * columns < 2 ^ 63 }
    requires counts { HaveCounts columns rows.now }
    requires keys { Decides columns rows.now keys.now }
    requires below { AreBelow places.now (length rows.now) }
    requires sorted { IsSortedBy (λ a b. is_lt (cells_order keys.now (get_or rows.now a []) (get_or rows.now b []))) places.now }
    ensures rows { IfOk result (λ b. b ≡ map numbers_of (normal (map (row_in columns rows.now) places.now))) }
    ensures fits { IfOk result (λ _. IsTrue (triples_fit (normal (map (row_in columns rows.now) places.now)))) }
    ensures overflow { result ≡ Err EvalFault.Overflow → triples_fit (normal (map (row_in columns rows.now) places.now)) ≡ false }
{
    if rise(rows, keys, places) {
        return apart(alloc, rows, columns, places);
    }
    let runs = match merged(alloc, rows, columns, keys, places) {
        Ok(runs) => runs,
        Err(fault) => return Err(fault),
    };
    match gathered(alloc, rows, columns, &runs) {
        Ok(batch) => Ok(batch),
        Err(NoMemory) => Err(EvalFault::NoMemory),
    }
}

// The rows of some places, where they are their own normal form.
fn apart(alloc: Global, rows: &Batch, columns: usize, places: &[usize]) -> Result<Batch, EvalFault>
    requires few { 3 * columns < 2 ^ 63 }
    requires counts { HaveCounts columns rows.now }
    requires below { AreBelow places.now (length rows.now) }
    requires normal { normal (map (row_in columns rows.now) places.now) ≡ map (row_in columns rows.now) places.now }
    ensures rows { IfOk result (λ b. b ≡ map numbers_of (normal (map (row_in columns rows.now) places.now))) }
    ensures fits { IfOk result (λ _. IsTrue (triples_fit (normal (map (row_in columns rows.now) places.now)))) }
    ensures overflow { result ≡ Err EvalFault.Overflow → triples_fit (normal (map (row_in columns rows.now) places.now)) ≡ false }
{
    read(rows, columns, places);
    match taken(alloc, rows, places) {
        Ok(batch) => Ok(batch),
        Err(NoMemory) => Err(EvalFault::NoMemory),
    }
}
