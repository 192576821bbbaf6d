//! Answers whose rows are held as codes, as CSV that several workers write.
ghost use Rattle.std.specs.Prelude.{◌≡◌, ◌≤◌, ◌++◌, false, IfOk, OnOk, length};
ghost use Rattle.std.proofs.Common.{refl};
ghost use Rattle.au_encode.specs.Encode.{AreEncoded, decode};
ghost use Rattle.au_print.specs.Lent.{plain_rows, rows_text};
ghost use Rattle.au_print.specs.Spans.{AreJoined, IsWithin, spans_apart, spans_text};
ghost use Rattle.std.specs.List.{All};
ghost use Rattle.au_print.specs.Records.{IsReady, written};
ghost use Rattle.au_print.specs.Texts.{csv_text as text_of};

use crate::coded_form::{coded_csv, write_rows};
use crate::header::headed;
use crate::lent::LentAnswer;
use crate::page::{finish, start};
use au_expr::EvalFault;
use au_par::{NoGate, Piece, by_drawn_pieces};
use au_value::NoMemory;
use csv::Writer;
use std::alloc::Global;
use std::thread::Threads;

// How many rows a span has, but for the last one.
const ROWS: usize = 64;

// The rows of an answer from one place to before another.
#[derive(Clone, Copy)]
pub(crate) struct Span {
    first: usize,
    end: usize,
}

// What is done with spans of an answer's rows.
#[derive(Clone, Copy)]
pub(crate) struct Printing<'a> {
    answer: &'a LentAnswer<'a>,
}

impl<'a> Piece<Span, u8> for Printing<'a> {
    ghost takes = { λ w span. IsWithin w.answer.now span };

    ghost results = { λ w spans. spans_text w.answer.now spans };

    ghost overflows = { λ _ _. false };

    fn work(&self, alloc: Global, spans: &[Span]) -> Result<Vec<u8>, EvalFault> {
        match piece_text(alloc, self.answer, spans) {
            Ok(text) => Ok(text),
            Err(NoMemory) => Err(EvalFault::NoMemory),
        }
    }

    ghost results_join = { λ w xs ys _ _. spans_apart w.answer.now xs ys };

    ghost overflows_join = { λ _ _ _ _ _. refl };

    ghost empty_fits = { λ _. refl };
}

/// The text of [`coded_csv`], whose rows so many workers write.
pub fn coded_csv_by<R: Threads + Sync>(
    rt: &R,
    alloc: Global,
    workers: usize,
    answer: &LentAnswer<'_>,
) -> Result<Vec<u8>, NoMemory>
    requires workers { 1 ≤ workers }
    requires columns { length answer.now.kinds.now ≡ length answer.now.names.now }
    requires rows { AreEncoded (length answer.now.kinds.now) (plain_rows answer.now) }
    ensures { IfOk result (λ t. t.items ≡ text_of answer.now.names.now answer.now.kinds.now (decode (length answer.now.kinds.now) (plain_rows answer.now))) }
{
    if workers == 1 {
        return coded_csv(alloc, answer);
    }
    let spans = cut(alloc, answer.batch.len())?;
    let mut records = records_by(rt, alloc, workers, answer, &spans)?;
    let mut text = finish(headed(alloc, answer.names)?)?;
    text.append(&mut records)?;
    Ok(text)
}

// The text of all rows, which are those of these spans.
fn records_by<R: Threads + Sync>(
    rt: &R,
    alloc: Global,
    workers: usize,
    answer: &LentAnswer<'_>,
    spans: &[Span],
) -> Result<Vec<u8>, NoMemory>
    requires workers { 1 ≤ workers }
    requires rows { AreEncoded (length answer.now.kinds.now) (plain_rows answer.now) }
    requires spans { AreJoined 0 (length answer.now.batch.now) spans.now }
    ensures { IfOk result (λ t. t.items ≡ rows_text answer.now answer.now.batch.now) }
{
    let work = Printing { answer };
    match by_drawn_pieces(rt, alloc, spans, workers, &work, &NoGate) {
        Ok(text) => Ok(text),
        Err(EvalFault::NoMemory) => Err(NoMemory),
        Err(EvalFault::Overflow) => unreachable!(),
    }
}

// The places of so many rows, so many at a time.
fn cut(alloc: Global, count: usize) -> Result<Vec<Span>, NoMemory>
    ensures { IfOk result (λ spans. AreJoined 0 count spans.items) }
{
    let mut spans = Vec::new(alloc);
    let mut first = 0;
    while first < count {
        let end = first + ROWS.min(count - first);
        spans.push(Span { first, end })?;
        first = end;
    }
    Ok(spans)
}

// The text of the rows of some spans.
fn piece_text(alloc: Global, answer: &LentAnswer<'_>, spans: &[Span]) -> Result<Vec<u8>, NoMemory>
    requires { All (IsWithin answer.now) spans.now }
    ensures { IfOk result (λ t. t.items ≡ spans_text answer.now spans.now) }
{
    let mut writer = start(alloc);
    write_spans(alloc, &mut writer, answer, spans)?;
    finish(writer)
}

// Writes the records of the rows of some spans.
fn write_spans(
    alloc: Global,
    writer: &mut Writer<Vec<u8>>,
    answer: &LentAnswer<'_>,
    spans: &[Span],
) -> Result<(), NoMemory>
    requires ready { IsReady writer.old }
    requires spans { All (IsWithin answer.now) spans.now }
    ensures { OnOk result (written writer.new (λ v. v.items) ≡ written writer.old (λ v. v.items) ++ spans_text answer.now spans.now) }
{
    let mut room = Vec::new(alloc);
    for span in spans {
        write_rows(writer, &mut room, answer, span.first, span.end)?;
    }
    Ok(())
}
