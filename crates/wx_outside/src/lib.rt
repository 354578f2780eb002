//! The ends of the program: where scenes are read from, and where texts are written to.
#![tactic(auto)]

mod files;
mod memory;
mod shelf;
mod sink;
mod streams;

pub use files::FileShelf;
pub use memory::{MemoryFile, MemoryShelf, MemorySink};
pub use shelf::{Found, LIMIT, Shelf, ShelfFault};
pub use sink::{Failed, Sink};
pub use streams::StreamSink;
