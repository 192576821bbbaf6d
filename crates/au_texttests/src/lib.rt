//! Tests of the calls that read and write texts: values, codes, records, table files, tokens, statements, types, words
//! and generated tables; and of columns of codes, with the chains and groups over them.
//!
//! It has no code of its own. A test is a table of cases, `GIVEN -> WANTED` on a line each: what a call is given, and its
//! result as a text. In what is given `~` is an LF, `^` a CR, `#` a byte that begins no character, and `«33 (»` thirty-three
//! opening brackets.
//!
//! ```text
//! const RECORDS: &str = "a,b~1,2~ -> |[a][b]|[1][2]";
//! judge::<Records>(&rt, rt.alloc(), RECORDS)
//! ```
//!
//! It belongs to docs/ARCHITECTURE.md.
#![tactic(auto)]

#[cfg(test)]
mod batch_tests;
#[cfg(test)]
mod cases;
#[cfg(test)]
mod code_tests;
#[cfg(test)]
mod column_tests;
#[cfg(test)]
mod csv_tests;
#[cfg(test)]
mod fold_tests;
#[cfg(test)]
mod gen_tests;
#[cfg(test)]
mod range_tests;
#[cfg(test)]
mod statement_tests;
#[cfg(test)]
mod table_file_tests;
#[cfg(test)]
mod token_tests;
#[cfg(test)]
mod typing_tests;
#[cfg(test)]
mod value_tests;
#[cfg(test)]
mod word_tests;
