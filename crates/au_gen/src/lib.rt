//! Block tables of any size, drawn from a start.
//!
//! `table_text` writes the table that `audb demo` queries: groups and amounts of numbered blocks, some with a second
//! alternative and some that may be absent. The draws are those of a linear congruential generator, so the same start
//! gives the same text everywhere.
//!
//! ```text
//! let text = table_text(alloc, 1, 3)?;
//! // _block,_role,id:int,grp:text,amount:int
//! // 1,guess,1,g2,58
//! // ..
//! ```
#![tactic(auto)]

mod draws;
mod table;

pub use table::table_text;
