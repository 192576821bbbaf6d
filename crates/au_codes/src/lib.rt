//! Values as whole numbers of 128 bits, so that plans can be run over columns of numbers.
//!
//! A number stands for itself, and a flag for 1 or 0. A text of at most 12 bytes is a number by itself: its bytes, zeros
//! behind them, and its length. A longer one is its first 12 bytes and its rank among the long texts of a [`Codebook`],
//! which is gathered from tables and a plan. So numbers are ordered as values are, and each number tells its value.
//!
//! What plans mean over rows of such numbers, over cells, is a definition in specs/. Its laws are stated for every code that
//! keeps the order of texts: the rows of a typed plan over cells are the cells of its rows, its numbers leave 128 bits
//! exactly where the plan's do, and the normal form over cells is the cells of the normal form.
//!
//! ```text
//! let mut texts = LongTexts::new(alloc);
//! texts.add_rows(&rows)?;
//! add_plan(&mut texts, &plan)?;
//! let book = texts.book()?;
//! code_plan(&book, &mut plan);
//! let cells = code_row(alloc, &book, &rows[0])?;      // `a` is 97 * 256^11 * 2^31 + 1
//! let row = decode_row(alloc, &book, &kinds, &cells)?; // the first row again
//! ```
//!
//! It belongs to docs/ARCHITECTURE.md.
#![tactic(auto)]

mod book;
mod cells;
mod coding;
mod gathering;
mod long_texts;
mod packing;
mod text_codes;
mod theorems;

pub use book::Codebook;
pub use cells::{code, code_row, decode, decode_row};
pub use coding::{code_expr, code_plan};
pub use gathering::{add_expr, add_plan};
pub use long_texts::LongTexts;
pub use text_codes::{code_short, code_text, decode_text, push_text};
pub use theorems::{
    careful_is_exact, cells_keep_normal, cells_keep_numbers, cells_keep_rows, cells_keep_values,
    cells_stand, codes_keep_order, gathered_are_known, plans_worked, ranks_are_places,
    rows_stay_known, short_need_no_book, text_codes_keep_order, texts_worked,
};
