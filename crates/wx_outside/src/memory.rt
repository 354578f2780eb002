//! A shelf and a sink in memory.
ghost use Rattle.std.specs.Prelude.{◌≡◌, Some};
ghost use Rattle.std.specs.Option.{option_map};
ghost use Rattle.wx_outside.specs.Memory.{bytes_at, files_of};

use crate::shelf::{Found, LIMIT, Shelf, ShelfFault};
use crate::sink::{Failed, Sink};
use std::alloc::Global;

/// One file in memory.
#[derive(Debug, Drop)]
pub struct MemoryFile {
    pub name: String,
    pub bytes: Vec<u8>,
}

/// The first file with this name.
fn file_of<'a>(files: &'a [MemoryFile], name: &str) -> Option<&'a MemoryFile>
    ensures { option_map (λ file. file.now.bytes.items) result ≡ bytes_at files.now name.now }
{
    for file in files {
        if name == file.name.as_str() {
            return Some(file);
        }
    }
    None
}

/// A shelf in memory, which tells its files; the first of a name counts. Reads are numbered from 0, and those whose
/// numbers are listed fail.
#[derive(Debug, Drop)]
pub struct MemoryShelf {
    pub files: Vec<MemoryFile>,
    pub fails_at: Vec<u64>,
    pub reads: u64,
    pub faults: u64,
}

impl Shelf for MemoryShelf {
    ghost state = { λ s. record { files = Some (files_of s.files.items); reads = s.reads; faults = s.faults } };

    fn faults(&self) -> u64 {
        self.faults
    }

    #[tactic(auto, using(crate::proofs::MemoryLemmas::finds))]
    fn read(&mut self, alloc: Global, name: &str) -> Result<Found, ShelfFault> {
        let read = self.reads;
        self.reads = read.saturating_add(1);
        if self.fails_at.contains(&read) {
            self.faults = self.faults.saturating_add(1);
            return Err(ShelfFault::Failed);
        }
        let Some(file) = file_of(&self.files, name) else {
            return Ok(Found::Missing);
        };
        if file.bytes.len() > LIMIT {
            return Ok(Found::Large);
        }
        match Vec::from_slice(alloc, &file.bytes) {
            Ok(bytes) => Ok(Found::Bytes(bytes)),
            Err(_) => Err(ShelfFault::NoMemory),
        }
    }
}

/// A sink in memory, which tells what was written. It has room for so many bytes in all. Writes are numbered from 0,
/// and those whose numbers are listed fail with nothing written.
#[derive(Debug, Drop)]
pub struct MemorySink {
    pub bytes: Vec<u8>,
    pub room: usize,
    pub fails_at: Vec<u64>,
    pub writes: u64,
    pub faults: u64,
}

impl Sink for MemorySink {
    ghost state = { λ s. record { written = Some s.bytes.items; faults = s.faults } };

    fn faults(&self) -> u64 {
        self.faults
    }

    fn write(&mut self, bytes: &[u8]) -> Result<(), Failed> {
        let write = self.writes;
        self.writes = write.saturating_add(1);
        let left = self.room.saturating_sub(self.bytes.len());
        let front = &bytes[..bytes.len().min(left)];
        if self.fails_at.contains(&write)
            || self.bytes.extend_from_slice(front).is_err()
            || bytes.len() > left
        {
            self.faults = self.faults.saturating_add(1);
            return Err(Failed);
        }
        Ok(())
    }
}
