//! Where tables are read from and answers are put.
//!
//! A program reads through a `Shelf` and writes through a `Sink`, and says of each refusal that the shelf or the sink
//! counted it. `RealShelf` and `RealSink` stand for the host's files and writers; `MemShelf` and `MemSink` keep
//! everything in memory, tell all of it to contracts, and fail where a test wants them to.
//!
//! ```text
//! let mut shelf = RealShelf::new(rt);
//! shelf.start(alloc, "orders.csv")?;
//! let n = shelf.next(&mut buffer)?;
//! let mut out = RealSink::new(stdout);
//! out.put(&buffer[..n])?;
//! ```
#![tactic(auto)]

mod mem_shelf;
mod mem_sink;
mod real_shelf;
mod real_sink;
mod shelf;
mod sink;

pub use mem_shelf::MemShelf;
pub use mem_sink::MemSink;
pub use real_shelf::RealShelf;
pub use real_sink::RealSink;
pub use shelf::{Failed, Shelf, StartFault};
pub use sink::{PutFault, Sink};
