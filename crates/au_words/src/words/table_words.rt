//! Table words, NAME=PATH.
ghost use Rattle.std.specs.Prelude.{◌≡◌, ◌<◌, ◌∷◌, [], None, Some, false, true, not, length, map, position, slice_index_or, IfOk, IfErr, MatchOption};
ghost use Rattle.std.specs.List.{list_any};
ghost use Rattle.std.specs.Str.{str_eq_ignore_ascii_case};
ghost use Rattle.au_words.specs.Words.{is_bad_table, is_equal_sign, same_names, table_fault, name_part, value_part, named_path};
ghost use Rattle.au_words.specs.CommandLine.{IsUsage, name_of, seen_table, texts};

use crate::fault::UsageFault;
use crate::words::{TableWord, WordsFault};
use std::alloc::{AllocError, Global};

/// What stands before the first `=` of a word and behind it, if there is one.
pub fn parts(word: &str) -> Option<(&str, &str)>
    ensures { MatchOption result (list_any is_equal_sign word.now ≡ false) (λ parts. (list_any is_equal_sign word.now ≡ true) × (parts.0.now ≡ name_part word.now) × (parts.1.now ≡ value_part word.now)) }
{
    word.split_once('=')
}

fn is_bad_table(word: &str) -> bool
    ensures { result ≡ is_bad_table word.now }
{
    match parts(word) {
        Some((name, path)) => name.is_empty() || path.is_empty(),
        None => true,
    }
}

// The table that a word tells. What has no `=` is a name without a path.
fn cut(word: &str) -> TableWord<'_>
    ensures { seen_table result ≡ named_path word.now }
{
    match parts(word) {
        Some((name, path)) => TableWord { name, path },
        None => TableWord {
            name: word,
            path: "",
        },
    }
}

fn first_bad(words: &[&str]) -> Option<usize>
    ensures { result ≡ position (λ word. is_bad_table word.now) words.now }
{
    words.iter().position(|word| is_bad_table(word))
}

fn cut_all<'a>(alloc: Global, words: &[&'a str]) -> Result<Vec<TableWord<'a>>, AllocError>
    ensures { IfOk result (λ tables. map seen_table tables.items ≡ map named_path (texts words.now)) }
{
    let mut tables = Vec::new(alloc);
    for word in words {
        tables.push(cut(word))?;
    }
    Ok(tables)
}

fn name_of<'a>(table: &TableWord<'a>) -> &'a str
    ensures { result.now ≡ name_of table.now }
{
    table.name
}

fn name_at<'a>(tables: &[TableWord<'a>], place: usize) -> &'a str
    requires { place < length tables.now }
    ensures { result.now ≡ slice_index_or (map name_of tables.now) place [] }
{
    name_of(&tables[place])
}

// The place of the first table whose name is the same, ignoring ASCII case.
fn same_name(tables: &[TableWord<'_>], name: &str) -> Option<usize>
    ensures { result ≡ position (λ table. str_eq_ignore_ascii_case (name_of table) name.now) tables.now }
{
    tables
        .iter()
        .position(|table| table.name.eq_ignore_ascii_case(name))
}

fn same_names(tables: &[TableWord<'_>]) -> Option<(usize, usize)>
    ensures { result ≡ same_names [] (map name_of tables.now) }
{
    for place in 0..tables.len() {
        let name = name_at(tables, place);
        if let Some(other) = same_name(&tables[..place], name) {
            return Some((other, place));
        }
    }
    None
}

/// Reads the only table word.
#[tactic(auto, using(crate::proofs::TableFaults::one_bad, crate::proofs::TableFaults::one_fine))]
pub fn read_table(word: &str) -> Result<TableWord<'_>, UsageFault>
    ensures table { IfOk result (λ table. (table_fault (word.now ∷ []) ≡ None) × (seen_table table ≡ named_path word.now)) }
    ensures refused { IfErr result (λ fault. table_fault (word.now ∷ []) ≡ Some fault) }
{
    if is_bad_table(word) {
        Err(UsageFault::BadTable(0))
    } else {
        Ok(cut(word))
    }
}

/// Reads the table words.
pub fn read_tables<'a>(alloc: Global, words: &[&'a str]) -> Result<Vec<TableWord<'a>>, WordsFault>
    ensures taken { IfOk result (λ tables. table_fault (texts words.now) ≡ None) }
    ensures tables { IfOk result (λ tables. map seen_table tables.items ≡ map named_path (texts words.now)) }
    ensures refused { IfErr result (λ e. IsUsage e (λ fault. table_fault (texts words.now) ≡ Some fault)) }
{
    if let Some(place) = first_bad(words) {
        return Err(WordsFault::Usage(UsageFault::BadTable(place)));
    }
    let Ok(tables) = cut_all(alloc, words) else {
        return Err(WordsFault::NoMemory);
    };
    match same_names(tables.as_slice()) {
        Some((first, second)) => Err(WordsFault::Usage(UsageFault::SameTable(first, second))),
        None => Ok(tables),
    }
}
