//! The rows with counts that plain rows hold.
ghost use Rattle.std.specs.Prelude.{◌≡◌, ◌≤◌, ℕ, ◌++◌, ◌∷◌, [], IfOk, map, pos};
ghost use Rattle.au_value.specs.declared.value.Value.{Value};
ghost use Rattle.au_annot.specs.Pairs.{pair_of};
ghost use Rattle.au_algebra.specs.Entries.{entry};
ghost use Rattle.au_rwcounted.specs.CountedRows.{HoldCounts, HoldPairs, HoldsCount, HoldsPair, count_value, counts_rows, one_count, two_counts};

use au_algebra::Rel;
use au_annot::{Count, Pair};
use au_plain::PRow;
use au_value::{NoMemory, Value};
use std::alloc::Global;

/// The values and the number of copies that each plain row holds, in their order. The values are moved.
pub fn read_counted(alloc: Global, rows: Vec<PRow>) -> Result<Rel<Value, Count>, NoMemory>
    requires { HoldCounts (map (λ row. row.items) rows.items) }
    ensures { IfOk result (λ rel. counts_rows (map one_count rel) ≡ map (λ row. row.items) rows.items) }
{
    let mut rel = Rel {
        rows: Vec::with_capacity(alloc, rows.len())?,
    };
    for row in rows {
        let (cells, count) = read_row(row);
        rel.push(cells, count)?;
    }
    Ok(rel)
}

/// The values, and the certain and the guessed copies, that each plain row holds, in their order. The values are moved.
pub fn read_pairs(alloc: Global, rows: Vec<PRow>) -> Result<Rel<Value, Pair>, NoMemory>
    requires { HoldPairs (map (λ row. row.items) rows.items) }
    ensures { IfOk result (λ rel. counts_rows (map two_counts rel) ≡ map (λ row. row.items) rows.items) }
{
    let mut rel = Rel {
        rows: Vec::with_capacity(alloc, rows.len())?,
    };
    for row in rows {
        let (cells, pair) = read_pair(row);
        rel.push(cells, pair)?;
    }
    Ok(rel)
}

// The values and the number of copies.
fn read_row(row: PRow) -> (Vec<Value>, Count)
    requires { HoldsCount row.items }
    ensures { result.0.items ++ count_value result.1 ∷ [] ≡ row.items }
{
    let mut cells = row;
    match cells.pop() {
        Some(value) => (cells, count_of(&value)),
        None => unreachable!(),
    }
}

// The values, and the certain and the guessed copies.
fn read_pair(row: PRow) -> (Vec<Value>, Pair)
    requires { HoldsPair row.items }
    ensures { result.0.items ++ (count_value result.1.certain ∷ count_value result.1.guess ∷ []) ≡ row.items }
{
    let (front, guess) = read_row(row);
    let (cells, certain) = read_row(front);
    (cells, ordered(certain, guess))
}

// The pair of two counts in order.
fn ordered(certain: Count, guess: Count) -> Pair
    requires { certain ≤ guess }
    ensures { result ≡ pair_of certain guess }
{
    match Pair::of(certain, guess) {
        Some(pair) => pair,
        None => unreachable!(),
    }
}

// The count of a number that is not negative.
fn count_of(value: &Value) -> Count
    requires { (n : ℕ) × (value.now ≡ Value.Int (pos n)) }
    ensures { value.now ≡ count_value result }
{
    match value {
        Value::Int(n) => match Count::of(n.unsigned_abs()) {
            Some(count) => count,
            None => unreachable!(),
        },
        _ => unreachable!(),
    }
}
