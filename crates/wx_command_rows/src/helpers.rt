//! What the tests of these crates are given: words, a shelf, a sink.

use std::alloc::{AllocError, Global};
use wx_outside::{MemoryFile, MemoryShelf, MemorySink};

/// The words as the program gets them.
pub fn owned(alloc: Global, words: &[&str]) -> Result<Vec<String>, AllocError> {
    let mut owned = Vec::new(alloc);
    for word in words {
        owned.push(String::from_str(alloc, word)?)?;
    }
    Ok(owned)
}

/// A shelf of these files.
pub fn shelf_of(alloc: Global, named: &[(&str, &str)]) -> Result<MemoryShelf, AllocError> {
    let mut files = Vec::new(alloc);
    for (name, text) in named {
        files.push(MemoryFile {
            name: String::from_str(alloc, name)?,
            bytes: Vec::from_slice(alloc, text.as_bytes())?,
        })?;
    }
    Ok(MemoryShelf {
        files,
        fails_at: Vec::new(alloc),
        reads: 0,
        faults: 0,
    })
}

/// An empty sink with room for the texts of these tests.
pub fn sink(alloc: Global) -> MemorySink {
    MemorySink {
        bytes: Vec::new(alloc),
        room: 1000000,
        fails_at: Vec::new(alloc),
        writes: 0,
        faults: 0,
    }
}
