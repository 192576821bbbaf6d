//! The positive operators as plans over encoded rows.
//!
//! Each call puts the plan of one operator over the bounded relations of its inputs on top of their plans: [`select`],
//! [`project`], [`product`] and [`union`]. What the plan gives is said for whatever tables and relations the inputs
//! stand for, so that the calls can be nested at will. The rows are those of the bounded operator, in its order.
//!
//! ```text
//! let layout = Layout { columns: 2 };
//! let table = Plan::Scan(0, 9);
//! let possible = select(alloc, table, &condition, &layout)?;
//! let plan = project(alloc, possible, &items, &layout)?;
//! // over the encoded rows of a relation it gives those of its selected and projected rows
//! ```
//!
//! It belongs to docs/ARCHITECTURE.md.
#![tactic(auto)]

mod pairing;
mod projection;
mod selection;
mod uniting;

pub use pairing::product;
pub use projection::project;
pub use selection::select;
pub use uniting::union;
