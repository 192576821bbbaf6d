//! The four lines of a demonstration.
ghost use Rattle.std.specs.Prelude.{◌≡◌, ◌++◌, IfOk, OnOk, OnErr, IsTrue, false, map, length, codes, decimal};
ghost use Rattle.au_annot.specs.Triples.{plus, in_range};
ghost use Rattle.au_algebra.specs.Entries.{entry};
ghost use Rattle.au_print.specs.DemoTexts.{triple_sum, counted_line, demo_text as text_of};

use au_algebra::Rel;
use au_annot::{Annot, Triple};
use au_expr::EvalFault;
use au_value::{NoMemory, Overflow, Range};
use itoa::Buffer;
use std::alloc::Global;

/// Four lines of a word and a number: `rows` and the number of rows, and `least`, `guess` and `most` with the sums of
/// these counts.
///
/// `Overflow` comes exactly where one of the three sums exceeds 2^127-1.
pub fn demo_text(alloc: Global, rows: &Rel<Range, Triple>) -> Result<Vec<u8>, EvalFault>
    ensures text { IfOk result (λ t. t.items ≡ text_of rows.now) }
    ensures fit { IfOk result (λ t. IsTrue (in_range (triple_sum rows.now))) }
    ensures overflow { result ≡ Err EvalFault.Overflow → in_range (triple_sum rows.now) ≡ false }
{
    match sum(rows.rows()) {
        Ok(triple) => match lines(alloc, rows.rows().len(), triple) {
            Ok(text) => Ok(text),
            Err(NoMemory) => Err(EvalFault::NoMemory),
        },
        Err(Overflow) => Err(EvalFault::Overflow),
    }
}

// The sum of the triples.
fn sum(rows: &[(Vec<Range>, Triple)]) -> Result<Triple, Overflow>
    ensures sum { IfOk result (λ t. t ≡ triple_sum (map (λ r. entry r.0.items r.1) rows.now)) }
    ensures fit { IfOk result (λ t. IsTrue (in_range (triple_sum (map (λ r. entry r.0.items r.1) rows.now)))) }
    ensures overflow { OnErr result (in_range (triple_sum (map (λ r. entry r.0.items r.1) rows.now)) ≡ false) }
{
    let mut sum = Triple::zero();
    for (_, triple) in rows {
        sum = added(sum, *triple)?;
    }
    Ok(sum)
}

fn added(a: Triple, b: Triple) -> Result<Triple, Overflow>
    ensures sum { IfOk result (λ t. t ≡ plus a b) }
    ensures fit { IfOk result (λ t. IsTrue (in_range t)) }
    ensures overflow { OnErr result (in_range (plus a b) ≡ false) }
{
    a.plus(b)
}

fn lines(alloc: Global, rows: usize, triple: Triple) -> Result<Vec<u8>, NoMemory>
    ensures { IfOk result (λ t. t.items ≡ counted_line (codes "rows") rows ++ counted_line (codes "least") triple.least ++ counted_line (codes "guess") triple.guess ++ counted_line (codes "most") triple.most) }
{
    let mut text = Vec::new(alloc);
    push_line(&mut text, b"rows", rows as u128)?;
    push_line(&mut text, b"least", triple.least().get())?;
    push_line(&mut text, b"guess", triple.guess().get())?;
    push_line(&mut text, b"most", triple.most().get())?;
    Ok(text)
}

fn push_line(text: &mut Vec<u8>, word: &[u8], number: u128) -> Result<(), NoMemory>
    ensures { OnOk result (text.new.items ≡ text.old.items ++ counted_line word.now number) }
{
    let mut buffer = Buffer::new();
    text.extend_from_slice(word)?;
    text.push(b' ')?;
    text.extend_from_slice(buffer.format(number).as_bytes())?;
    text.push(b'\n')?;
    Ok(())
}
