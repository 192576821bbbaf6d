//! The encoded rows of a table's blocks as columns of numbers. No row is made.
ghost use Rattle.std.specs.Prelude.{◌≡◌, ◌<◌, ◌+◌, ◌++◌, IfOk, IsTrue, OnOk, length, map, take};
ghost use Rattle.std.specs.List.{list_all};
ghost use Rattle.au_blocks.specs.Scalars.{scalar_value};
ghost use Rattle.au_blocks.specs.Singles.{stands_once};
ghost use Rattle.au_blocks.specs.Tables.{IsBlockTable, table};
ghost use Rattle.au_codes.specs.CellMeaning.{cell_in};
ghost use Rattle.au_codes.specs.Codes.{code as code_in, coded_rows};
ghost use Rattle.au_codes.specs.TextCodes.{text_code};
ghost use Rattle.au_columns.specs.Batches.{beside};
ghost use Rattle.au_translate.specs.LentPlaces.{lent_values};
ghost use Rattle.au_translate.specs.Translate.{bounded_blocks};
ghost use Rattle.au_batches.specs.BlockRows.{block_rows, in_place};

use crate::listed::{listed_counts, listed_numbers, listed_texts};
use au_blocks::{Blocks, Column, Scalar};
use au_codes::{Codebook, code, code_text};
use au_columns::{Batch, Column as Numbers};
use au_translate::{place_value, row_count};
use au_value::{NoMemory, Value};
use std::alloc::Global;

/// The codes of the values in these places of the encoded rows of some blocks of a table of these columns, in block order:
/// a column of numbers for each place.
///
/// Of a long text that the book doesn't have the number says nothing.
pub fn coded_places(
    alloc: Global,
    book: &Codebook,
    columns: &[Column],
    blocks: &Blocks<'_>,
    places: &[usize],
) -> Result<Batch, NoMemory>
    requires { IsBlockTable (table columns.now blocks.now) }
    ensures { IfOk result (λ batch. batch ≡ coded_rows (text_code book.now) (block_rows places.now blocks.now)) }
{
    let count = row_count(blocks);
    let each = count == blocks.len();
    let once = blocks.stand_once();
    let mut batch = Batch::new(alloc, count);
    for number in 0..places.len() {
        batch = with_place(
            alloc, book, columns, blocks, each, once, places, number, batch,
        )?;
    }
    Ok(batch)
}

// The rows with the column of one place more, where it is known whether each block has a row, and whether each stands once.
fn with_place(
    alloc: Global,
    book: &Codebook,
    columns: &[Column],
    blocks: &Blocks<'_>,
    each: bool,
    once: bool,
    places: &[usize],
    number: usize,
    batch: Batch,
) -> Result<Batch, NoMemory>
    requires table { IsBlockTable (table columns.now blocks.now) }
    requires each { IsTrue each → length (bounded_blocks blocks.now) ≡ length blocks.now }
    requires once { once ≡ list_all stands_once blocks.now }
    requires number { number < length places.now }
    requires batch { batch ≡ coded_rows (text_code book.now) (block_rows (take number places.now) blocks.now) }
    ensures { IfOk result (λ b. b ≡ coded_rows (text_code book.now) (block_rows (take (number + 1) places.now) blocks.now)) }
{
    let place = places[number];
    if number > 0 && alike(columns, blocks, once, places[number - 1], place) {
        batch.with_copy(alloc, number - 1)
    } else {
        let column = coded_place(alloc, book, columns, blocks, each, place)?;
        put(alloc, batch, column, number)
    }
}

// Whether two places surely have the same values, where it is known whether all blocks stand once.
fn alike(columns: &[Column], blocks: &Blocks<'_>, once: bool, first: usize, second: usize) -> bool
    requires table { IsBlockTable (table columns.now blocks.now) }
    requires once { once ≡ list_all stands_once blocks.now }
    ensures { IsTrue result → in_place first blocks.now ≡ in_place second blocks.now }
{
    if !once || first / 3 != second / 3 {
        return false;
    }
    let at = first / 3;
    let (rows, _) = blocks.parts();
    if at >= columns.len() {
        return at == columns.len();
    }
    rows.numbers(at).is_some() || rows.texts(at).is_some()
}

// The rows with one column more. Where it is the last one once more, that is shared.
fn put(alloc: Global, batch: Batch, column: Numbers, number: usize) -> Result<Batch, NoMemory>
    requires { length column ≡ length batch }
    ensures { IfOk result (λ b. b ≡ beside batch column) }
{
    if number > 0 && stands_at(&batch, &column, number - 1) {
        batch.with_copy(alloc, number - 1)
    } else {
        batch.with_column(alloc, column)
    }
}

// Whether a batch has this column at a place.
fn stands_at(batch: &Batch, column: &Numbers, place: usize) -> bool
    ensures { IsTrue result → column.now ≡ map (λ row. cell_in row place) batch.now }
{
    match batch.column(place) {
        Some(held) => same(column, held),
        None => false,
    }
}

// Whether two columns have the same numbers.
fn same(first: &Numbers, second: &Numbers) -> bool
    ensures { IsTrue result → first.now ≡ second.now }
{
    if first.len() != second.len() {
        return false;
    }
    for place in 0..first.len() {
        if first.get(place) != second.get(place) {
            return false;
        }
    }
    true
}

// The codes of the values in one place.
fn coded_place(
    alloc: Global,
    book: &Codebook,
    columns: &[Column],
    blocks: &Blocks<'_>,
    each: bool,
    place: usize,
) -> Result<Numbers, NoMemory>
    requires table { IsBlockTable (table columns.now blocks.now) }
    requires each { IsTrue each → length (bounded_blocks blocks.now) ≡ length blocks.now }
    ensures { IfOk result (λ c. c ≡ map (code_in (text_code book.now)) (in_place place blocks.now)) }
{
    if each {
        number_place(alloc, book, columns, blocks, place)
    } else {
        each_value(alloc, book, columns, blocks, place)
    }
}

// The same where each block has a row, from a list of numbers if there is one.
fn number_place(
    alloc: Global,
    book: &Codebook,
    columns: &[Column],
    blocks: &Blocks<'_>,
    place: usize,
) -> Result<Numbers, NoMemory>
    requires table { IsBlockTable (table columns.now blocks.now) }
    requires each { length (bounded_blocks blocks.now) ≡ length blocks.now }
    ensures { IfOk result (λ c. c ≡ map (code_in (text_code book.now)) (in_place place blocks.now)) }
{
    let (rows, extents) = blocks.parts();
    match rows.numbers(place / 3) {
        Some(numbers) => {
            let made = listed_numbers(alloc, extents, numbers, place % 3)?;
            Ok(Numbers::narrow(made))
        }
        None => text_place(alloc, book, columns, blocks, place),
    }
}

// From a list of texts.
fn text_place(
    alloc: Global,
    book: &Codebook,
    columns: &[Column],
    blocks: &Blocks<'_>,
    place: usize,
) -> Result<Numbers, NoMemory>
    requires table { IsBlockTable (table columns.now blocks.now) }
    requires each { length (bounded_blocks blocks.now) ≡ length blocks.now }
    ensures { IfOk result (λ c. c ≡ map (code_in (text_code book.now)) (in_place place blocks.now)) }
{
    let (rows, extents) = blocks.parts();
    match rows.texts(place / 3) {
        Some(texts) => {
            let made = listed_texts(alloc, book, extents, texts, place % 3)?;
            Ok(Numbers::wide(made))
        }
        None => count_place(alloc, book, columns, blocks, place),
    }
}

// From the places of the blocks, where it is one of a count and no numbers of copies are listed.
fn count_place(
    alloc: Global,
    book: &Codebook,
    columns: &[Column],
    blocks: &Blocks<'_>,
    place: usize,
) -> Result<Numbers, NoMemory>
    requires table { IsBlockTable (table columns.now blocks.now) }
    requires each { length (bounded_blocks blocks.now) ≡ length blocks.now }
    ensures { IfOk result (λ c. c ≡ map (code_in (text_code book.now)) (in_place place blocks.now)) }
{
    let (rows, extents) = blocks.parts();
    if place / 3 >= columns.len() && rows.listed_times().is_empty() {
        let made = listed_counts(alloc, extents, place - 3 * columns.len())?;
        Ok(Numbers::narrow(made))
    } else {
        each_value(alloc, book, columns, blocks, place)
    }
}

// The codes of the values in one place, block by block.
fn each_value(
    alloc: Global,
    book: &Codebook,
    columns: &[Column],
    blocks: &Blocks<'_>,
    place: usize,
) -> Result<Numbers, NoMemory>
    requires { IsBlockTable (table columns.now blocks.now) }
    ensures { IfOk result (λ c. c ≡ map (code_in (text_code book.now)) (in_place place blocks.now)) }
{
    let mut numbers = Numbers::new(alloc);
    for at in 0..blocks.len() {
        let value = place_value(&blocks.get(at), place);
        push_code(alloc, &mut numbers, book, value)?;
    }
    Ok(numbers)
}

// The code of a value behind the others, if there is one.
fn push_code(
    alloc: Global,
    numbers: &mut Numbers,
    book: &Codebook,
    value: Option<Scalar<'_>>,
) -> Result<(), NoMemory>
    ensures { OnOk result (numbers.new ≡ numbers.old ++ map (code_in (text_code book.now)) (lent_values value.entry)) }
{
    match value {
        Some(lent) => numbers.push(alloc, code_lent(book, lent)),
        None => Ok(()),
    }
}

// The code of a value that is lent.
fn code_lent(book: &Codebook, value: Scalar<'_>) -> i128
    ensures { result ≡ code_in (text_code book.now) (scalar_value value.entry) }
{
    match value {
        Scalar::Int(number) => number,
        Scalar::Text(word) => code_text(book, word),
        Scalar::Flag(flag) => code(book, &Value::Flag(flag)),
    }
}
