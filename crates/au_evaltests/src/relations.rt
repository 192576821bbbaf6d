//! Relations of numbers, read from texts.
ghost use Rattle.std.specs.Prelude.{◌≡◌, ◌≤◌, IfOk, replicate};
ghost use Rattle.std.specs.List.{AllByRecursion};
ghost use Rattle.au_annot.specs.Triples.{IsTriple};
ghost use Rattle.au_value.specs.Order.{kind_of};
ghost use Rattle.au_value.specs.Ranges.{IsRangeOf};
ghost use Rattle.au_value.specs.declared.kinds.Kind.{Kind};
ghost use Rattle.au_algebra.specs.Entries.{entry};
ghost use Rattle.au_algebra.specs.Laws.{IsRangeRow, IsRelation};

use au_algebra::Rel;
use au_annot::{Count, Triple};
use au_value::{NoMemory, Range, Value, read_numeral};
use std::alloc::Global;
use std::process::Abort;

/// The number of a text.
pub(crate) fn number(rt: &impl Abort, text: &str) -> i128 {
    read_numeral(text.as_bytes()).expect(rt, "a number")
}

// The numbers of a text such as `1/2/9`, or one number thrice.
fn three(rt: &impl Abort, text: &str) -> (i128, i128, i128) {
    let (first, rest) = text.split_once('/').unwrap_or((text, text));
    let (second, third) = rest.split_once('/').unwrap_or((rest, rest));
    (number(rt, first), number(rt, second), number(rt, third))
}

fn widened(range: &Range, number: i128) -> Result<Range, NoMemory>
    requires { kind_of range.now.sg ≡ Kind.Int }
    ensures { IfOk result (λ r. kind_of r.sg ≡ Kind.Int) }
{
    range.hull(&Range::certain(&Value::Int(number))?)
}

// The range of a text: its lower end, its guess and its upper end.
fn range(rt: &impl Abort, text: &str) -> Result<Range, NoMemory>
    ensures { IfOk result (λ r. IsRangeOf Kind.Int r) }
{
    let ends = three(rt, text);
    let guess = Range::certain(&Value::Int(ends.1))?;
    let low = widened(&guess, ends.0)?;
    let range = widened(&low, ends.2)?;
    let _ordered = range.lo();
    Ok(range)
}

fn cells(rt: &impl Abort, alloc: Global, text: &str) -> Result<Vec<Range>, NoMemory>
    ensures { IfOk result (λ v. AllByRecursion (IsRangeOf Kind.Int) v.items) }
{
    let mut cells = Vec::new(alloc);
    for word in text.split_ascii_whitespace() {
        cells.push(range(rt, word)?)?;
    }
    Ok(cells)
}

fn count(rt: &impl Abort, number: i128) -> Count {
    Count::of(number.unsigned_abs()).expect(rt, "a count")
}

/// The triple of a text: least, guess and most.
pub(crate) fn triple(rt: &impl Abort, text: &str) -> Triple
    ensures ordered { IsTriple result }
    ensures present { 1 ≤ result.most }
{
    let counts = three(rt, text);
    let least = count(rt, counts.0);
    let guess = count(rt, counts.1);
    let most = count(rt, counts.2);
    let triple = Triple::of(least, guess, most).expect(rt, "a triple in order");
    let present = triple.most().get();
    assert!(rt; present >= 1, "a row that may be there");
    triple
}

// The row of a text: so many ranges, and a triple.
fn row(
    rt: &impl Abort,
    alloc: Global,
    columns: usize,
    text: &str,
) -> Result<(Vec<Range>, Triple), NoMemory>
    ensures { IfOk result (λ r. IsRangeRow (replicate columns Kind.Int) (entry r.0.items r.1)) }
{
    let (ranges, counts) = text.rsplit_once(' ').unwrap_or(("", text));
    let cells = cells(rt, alloc, ranges)?;
    let found = cells.len();
    assert!(rt; found == columns, "the columns of {text}");
    Ok((cells, triple(rt, counts)))
}

/// The relation of a text, of so many columns of numbers.
pub(crate) fn relation(
    rt: &impl Abort,
    alloc: Global,
    columns: usize,
    text: &str,
) -> Result<Rel<Range, Triple>, NoMemory>
    ensures { IfOk result (λ r. IsRelation (replicate columns Kind.Int) r) }
{
    let mut rel = Rel::new(alloc);
    for part in text.split(';') {
        let part = part.trim();
        if !part.is_empty() {
            let (cells, triple) = row(rt, alloc, columns, part)?;
            rel.push(cells, triple)?;
        }
    }
    Ok(rel)
}
