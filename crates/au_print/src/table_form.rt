//! Answers as tables.
ghost use Rattle.std.specs.Prelude.{◌≡◌, ◌++◌, ◌-◌, ◌≤◌, IfOk, OnOk, length, drop, flat_map, map, replicate, codes};
ghost use Rattle.std.specs.List.{AllByRecursion};
ghost use Rattle.au_algebra.specs.Entries.{entry};
ghost use Rattle.au_print.specs.Tables.{printable, characters as characters_of, cell_texts, triple_text, filled, barred, line, rule, table_text as text_of};

use crate::answer::Answer;
use crate::cells::{characters, push_cell, push_printable, push_triple};
use crate::repeated::push_repeated;
use crate::widths::{Widths, measure};
use au_annot::Triple;
use au_value::{Kind, NoMemory, Range, Word};
use std::alloc::Global;

/// The text of an answer as an aligned table: a line of the names and `row`, a line of hyphens, and a line for each row
/// in order. A cell is its value where the range is certain, else its three values. Control characters are shown as
/// question marks.
pub fn table_text(alloc: Global, answer: &Answer) -> Result<Vec<u8>, NoMemory>
    requires columns { length answer.now.kinds.items ≡ length answer.now.names.items }
    requires rows { AllByRecursion (λ r. length r.cells ≡ length answer.now.names.items) answer.now.rows }
    ensures { IfOk result (λ t. t.items ≡ text_of answer.now.names.items answer.now.kinds.items answer.now.rows) }
{
    let names = answer.names.as_slice();
    let kinds = answer.kinds.as_slice();
    let rows = answer.rows.rows();
    let widths = measure(alloc, names, kinds, rows)?;
    let mut text = Vec::new(alloc);
    push_header(&mut text, &widths, names)?;
    push_rule(&mut text, &widths)?;
    push_rows(&mut text, &widths, kinds, rows)?;
    Ok(text)
}

// Puts spaces behind what stands from `start` on, up to a width.
fn fill(text: &mut Vec<u8>, start: usize, width: usize) -> Result<(), NoMemory>
    requires { start ≤ length text.old.items }
    ensures { OnOk result (text.new.items ≡ text.old.items ++ replicate (width - characters_of (drop start text.old.items)) 32) }
{
    let used = characters(&text[start..]);
    push_repeated(text, b' ', width.saturating_sub(used))
}

// Fills what stands from `start` on, which another text follows in its line.
fn end_cell(text: &mut Vec<u8>, start: usize, width: usize) -> Result<(), NoMemory>
    requires { start ≤ length text.old.items }
    ensures { OnOk result (text.new.items ≡ text.old.items ++ replicate (width - characters_of (drop start text.old.items)) 32 ++ codes " | ") }
{
    fill(text, start, width)?;
    text.extend_from_slice(b" | ")?;
    Ok(())
}

// Fills what stands from `start` on, the last text of its line.
fn end_line(text: &mut Vec<u8>, start: usize, last: usize) -> Result<(), NoMemory>
    requires { start ≤ length text.old.items }
    ensures { OnOk result (text.new.items ≡ text.old.items ++ replicate (last - characters_of (drop start text.old.items)) 32 ++ codes "\n") }
{
    fill(text, start, last)?;
    text.push(b'\n')?;
    Ok(())
}

fn push_names(text: &mut Vec<u8>, widths: &[usize], names: &[Word]) -> Result<(), NoMemory>
    ensures { OnOk result (text.new.items ≡ text.old.items ++ barred widths.now (map printable names.now)) }
{
    let mut widths = widths;
    let mut names = names;
    while let Some((width, other_widths)) = widths.split_first() {
        let Some((name, other_names)) = names.split_first() else {
            return Ok(());
        };
        let start = text.len();
        push_printable(text, name.as_str().as_bytes())?;
        end_cell(text, start, *width)?;
        widths = other_widths;
        names = other_names;
    }
    Ok(())
}

fn push_cells(
    text: &mut Vec<u8>,
    widths: &[usize],
    kinds: &[Kind],
    ranges: &[Range],
) -> Result<(), NoMemory>
    ensures { OnOk result (text.new.items ≡ text.old.items ++ barred widths.now (cell_texts kinds.now ranges.now)) }
{
    let mut widths = widths;
    let mut kinds = kinds;
    let mut ranges = ranges;
    while let Some((width, other_widths)) = widths.split_first() {
        let Some((kind, other_kinds)) = kinds.split_first() else {
            return Ok(());
        };
        let Some((range, other_ranges)) = ranges.split_first() else {
            return Ok(());
        };
        let start = text.len();
        push_cell(text, *kind, range)?;
        end_cell(text, start, *width)?;
        widths = other_widths;
        kinds = other_kinds;
        ranges = other_ranges;
    }
    Ok(())
}

fn push_header(text: &mut Vec<u8>, widths: &Widths, names: &[Word]) -> Result<(), NoMemory>
    ensures { OnOk result (text.new.items ≡ text.old.items ++ line widths.now.columns.items widths.now.row (map printable names.now) (codes "row")) }
{
    push_names(text, widths.columns.as_slice(), names)?;
    let start = text.len();
    text.extend_from_slice(b"row")?;
    end_line(text, start, widths.row)
}

fn push_rule(text: &mut Vec<u8>, widths: &Widths) -> Result<(), NoMemory>
    ensures { OnOk result (text.new.items ≡ text.old.items ++ rule widths.now.columns.items widths.now.row) }
{
    for width in &widths.columns {
        push_repeated(text, b'-', *width)?;
        text.extend_from_slice(b"-+-")?;
    }
    push_repeated(text, b'-', widths.row)?;
    text.push(b'\n')?;
    Ok(())
}

fn push_row(
    text: &mut Vec<u8>,
    widths: &Widths,
    kinds: &[Kind],
    ranges: &[Range],
    triple: Triple,
) -> Result<(), NoMemory>
    ensures { OnOk result (text.new.items ≡ text.old.items ++ line widths.now.columns.items widths.now.row (cell_texts kinds.now ranges.now) (triple_text triple)) }
{
    push_cells(text, widths.columns.as_slice(), kinds, ranges)?;
    let start = text.len();
    push_triple(text, triple)?;
    end_line(text, start, widths.row)
}

fn push_rows(
    text: &mut Vec<u8>,
    widths: &Widths,
    kinds: &[Kind],
    rows: &[(Vec<Range>, Triple)],
) -> Result<(), NoMemory>
    ensures { OnOk result (text.new.items ≡ text.old.items ++ flat_map (λ r. line widths.now.columns.items widths.now.row (cell_texts kinds.now r.cells) (triple_text r.annot)) (map (λ r. entry r.0.items r.1) rows.now)) }
{
    for (ranges, triple) in rows {
        push_row(text, widths, kinds, ranges.as_slice(), *triple)?;
    }
    Ok(())
}
