//! The four positive operators over rows that a table lends or an operator made, for those who evaluate a tree of more
//! operators.
pub use crate::product::product;
pub use crate::project::project;
pub use crate::row::Row;
pub use crate::rows::{Rows, copied, slice, table};
pub use crate::select::select;
pub use crate::union::union;
