//! A relation as plain rows.
ghost use Rattle.std.specs.Prelude.{◌≡◌, ◌++◌, ◌∷◌, [], IfOk, OnOk, List, ℕ, map, pos, true};
ghost use Rattle.au_value.specs.declared.kinds.Kind.{Kind};
ghost use Rattle.au_expr.specs.Figures.{fit};
ghost use Rattle.au_expr.specs.Numbers.{number_if_any};
ghost use Rattle.au_algebra.specs.Entries.{entry};
ghost use Rattle.au_algebra.specs.Laws.{IsRelation};
ghost use Rattle.au_plain.specs.PlanKinds.{FitRows, HaveKinds, row_fits};
ghost use Rattle.au_encode.specs.Encode.{AreEncoded, HaveColumns, decode as decoded, encode as encoded, encode_counts, encode_row as encoded_row, encoded_kinds};

use au_algebra::Rel;
use au_annot::{Count, Triple};
use au_plain::PRow;
use au_value::{NoMemory, Range, Value, copy};
use std::alloc::Global;

/// The encoded rows of a relation, in its order: `lo`, `sg` and `hi` of each column, then least, guess and most.
///
/// It copies each value once.
pub fn encode(alloc: Global, rel: &Rel<Range, Triple>) -> Result<Vec<PRow>, NoMemory>
    ensures rows { IfOk result (λ rows. map (λ row. row.items) rows.items ≡ encoded rel.now) }
    ensures encodings { IfOk result (λ rows. (ks : List Kind) (c : ℕ) → IsRelation ks rel.now → HaveColumns c rel.now → AreEncoded c (map (λ row. row.items) rows.items)) }
    ensures kinds { IfOk result (λ rows. (ks : List Kind) → IsRelation ks rel.now → HaveKinds (encoded_kinds ks) (map (λ row. row.items) rows.items)) }
    ensures back { IfOk result (λ rows. (c : ℕ) → HaveColumns c rel.now → decoded c (map (λ row. row.items) rows.items) ≡ rel.now) }
    ensures fit { IfOk result (λ rows. FitRows (map (λ row. row.items) rows.items)) }
{
    let mut rows = Vec::with_capacity(alloc, rel.rows().len())?;
    for (cells, triple) in rel.rows() {
        rows.push(encode_row(alloc, cells, *triple)?)?;
    }
    Ok(rows)
}

// The encoded row of some ranges and a triple.
fn encode_row(alloc: Global, cells: &[Range], triple: Triple) -> Result<PRow, NoMemory>
    ensures row { IfOk result (λ row. row.items ≡ encoded_row (entry cells.now triple)) }
    ensures fits { IfOk result (λ row. row_fits row.items ≡ true) }
{
    let mut row = empty_row(alloc, cells.len())?;
    for range in cells {
        push_range(&mut row, range.lo(), range.sg(), range.hi())?;
    }
    push_counts(&mut row, triple)?;
    Ok(row)
}

/// A row without values, with room for those of an encoded row of so many columns.
pub fn empty_row(alloc: Global, columns: usize) -> Result<PRow, NoMemory>
    ensures { IfOk result (λ row. row.items ≡ []) }
{
    let room = columns.saturating_mul(3).saturating_add(3);
    let row = Vec::with_capacity(alloc, room)?;
    Ok(row)
}

/// Copies of the lower end, the guess and the upper end of a range, behind a row.
pub fn push_range(row: &mut PRow, lo: &Value, sg: &Value, hi: &Value) -> Result<(), NoMemory>
    ensures row { OnOk result (row.new.items ≡ row.old.items ++ lo.now ∷ sg.now ∷ hi.now ∷ []) }
    ensures fits { OnOk result (row_fits row.old.items ≡ true → row_fits row.new.items ≡ true) }
{
    row.push(copied(lo)?)?;
    row.push(copied(sg)?)?;
    row.push(copied(hi)?)?;
    Ok(())
}

// A copy of a value. Its number, if it is one, lies in the range of its type.
fn copied(value: &Value) -> Result<Value, NoMemory>
    ensures value { IfOk result (λ v. v ≡ value.now) }
    ensures fits { fit (number_if_any value.now) ≡ true }
{
    match value {
        Value::Int(n) => Ok(Value::Int(*n)),
        Value::Text(_) | Value::Flag(_) => copy(value),
    }
}

/// The three counts of a triple, behind a row.
pub fn push_counts(row: &mut PRow, triple: Triple) -> Result<(), NoMemory>
    ensures row { OnOk result (row.new.items ≡ row.old.items ++ encode_counts triple) }
    ensures fits { OnOk result (row_fits row.old.items ≡ true → row_fits row.new.items ≡ true) }
{
    row.push(number(triple.least()))?;
    row.push(number(triple.guess()))?;
    row.push(number(triple.most()))?;
    Ok(())
}

// A count as a value.
fn number(count: Count) -> Value
    ensures value { result ≡ Value.Int (pos count) }
    ensures fits { fit (number_if_any result) ≡ true }
{
    Value::Int(count.get() as i128)
}
