//! Table files, written from rows such as `1,2/3/5 ?`.
use au_blocks::{Table, read_table};
use au_value::Word;
use std::alloc::{AllocError, Global};
use std::test::Fail;

// The lower end, the guess or the upper end of a cell, by its place.
fn end_of(cell: &str, place: usize) -> &str {
    cell.split('/').nth(place).unwrap_or(cell)
}

// Puts a record behind a file: what stands first, and this end of each cell.
fn push_record(
    file: &mut String,
    first: &str,
    cells: &str,
    place: usize,
) -> Result<(), AllocError> {
    file.push_str(first)?;
    for cell in cells.split(',') {
        file.push_str(",")?;
        file.push_str(end_of(cell, place))?;
    }
    file.push_str("\n")
}

// Puts a record without values behind a file.
fn push_absent(file: &mut String, first: &str, cells: &str) -> Result<(), AllocError> {
    file.push_str(first)?;
    for _cell in cells.split(',') {
        file.push_str(",")?;
    }
    file.push_str("\n")
}

// Puts the block of a row behind a file: one that may be absent has a `?` behind it, and `??` where absence is the guess.
fn push_block(
    alloc: Global,
    file: &mut String,
    number: usize,
    row: &str,
) -> Result<(), AllocError> {
    let (cells, mark) = row.split_once(' ').unwrap_or((row, ""));
    let guess = if mark == "??" { "alt" } else { "guess" };
    let absent = if mark == "??" {
        "absent-guess"
    } else {
        "absent"
    };
    let guess = format!(in alloc; "{number},{guess}")?;
    push_record(file, guess.as_str(), cells, 1)?;
    let other = format!(in alloc; "{number},alt")?;
    push_record(file, other.as_str(), cells, 0)?;
    push_record(file, other.as_str(), cells, 2)?;
    if !mark.is_empty() {
        let absent = format!(in alloc; "{number},{absent}")?;
        push_absent(file, absent.as_str(), cells)?;
    }
    Ok(())
}

// The file of some columns and rows.
fn file_of(alloc: Global, columns: &str, rows: &str) -> Result<String, AllocError> {
    let mut file = format!(in alloc; "_block,_role,{columns}\n")?;
    for (number, row) in rows.split(';').enumerate() {
        let row = row.trim();
        if !row.is_empty() {
            push_block(alloc, &mut file, number, row)?;
        }
    }
    Ok(file)
}

// The table of a text such as `t(a,b): 1,2/3/5 ?; 2,7`, under its name.
fn table_of(alloc: Global, text: &str) -> Result<(Word, Table), Fail> {
    let (head, rows) = text.split_once("):").ok_or("a head")?;
    let (name, columns) = head.split_once('(').ok_or("columns")?;
    let file = file_of(alloc, columns, rows)?;
    let table = read_table(alloc, file.as_str().as_bytes())
        .ok()
        .ok_or("a table")?;
    let name = String::from_str(alloc, name.trim())?;
    Ok((Word::new(name), table))
}

/// The tables of a text, which stand apart by `|`.
pub(crate) fn tables_of(alloc: Global, text: &str) -> Result<Vec<(Word, Table)>, Fail> {
    let mut tables = Vec::new(alloc);
    for part in text.split('|') {
        tables.push(table_of(alloc, part)?)?;
    }
    Ok(tables)
}
