//! The files of the system, and standard input.
ghost use Rattle.std.specs.Prelude.{◌≡◌, None, IfOk};
ghost use Rattle.wx_outside.specs.Shelf.{content, IsWithinLimit};

use crate::shelf::{Found, LIMIT, Shelf, ShelfFault};
use std::alloc::Global;
use std::fs::{self, OpenFile};
use std::io::{ErrorKind, Read};
use std::rt::Files;

/// The file system, and standard input under the name `-`. It does not tell what they hold.
#[derive(Drop)]
pub struct FileShelf<'a, R> {
    runtime: &'a R,
    reads: u64,
    faults: u64,
}

impl<'a, R: Files + Input> FileShelf<'a, R> {
    /// The files and the standard input of this runtime; no read has failed.
    pub fn new(runtime: &'a R) -> Self
        ensures { Self.faults result ≡ 0 }
    {
        FileShelf {
            runtime,
            reads: 0,
            faults: 0,
        }
    }
}

/// How many bytes are read at once.
const PIECE: usize = 65_536;

/// All that the source gives, unless it gives more than the limit. A read that a signal interrupted is tried again.
/// Room for the bytes that are expected is taken at once; where it is refused, it is taken as they come.
fn read_whole<S: Read>(alloc: Global, source: &mut S, expected: usize) -> Result<Found, ShelfFault>
    ensures { IfOk result (λ found. IsWithinLimit (content found)) }
{
    let mut bytes: Vec<u8> = Vec::new(alloc);
    let _ = bytes.reserve(expected.min(LIMIT));
    let mut piece = [0u8; PIECE];
    for _ in 0..u64::MAX {
        let room = (LIMIT + 1).saturating_sub(bytes.len()).min(PIECE);
        if room == 0 {
            return Ok(Found::Large);
        }
        match source.read(&mut piece[..room]) {
            Ok(0) => return Ok(Found::Bytes(bytes)),
            Ok(count) => {
                if bytes.extend_from_slice(&piece[..count]).is_err() {
                    return Err(ShelfFault::NoMemory);
                }
            }
            Err(e) if e.kind() == ErrorKind::Interrupted => {}
            Err(_) => return Err(ShelfFault::Failed),
        }
    }
    Err(ShelfFault::Failed)
}

/// What stands under a name; only where the system says that there is no such file it is missing.
fn open_and_read<R: Files + Input>(
    runtime: &R,
    alloc: Global,
    name: &str,
) -> Result<Found, ShelfFault>
    ensures { IfOk result (λ found. IsWithinLimit (content found)) }
{
    if name == "-" {
        return read_whole(alloc, &mut runtime.reader(), 0);
    }
    match fs::open(runtime, name) {
        Ok(mut file) => {
            let expected = match file.metadata() {
                Ok(metadata) => metadata.len() as usize,
                Err(_) => 0,
            };
            read_whole(alloc, &mut file, expected)
        }
        Err(e) if e.kind() == ErrorKind::NotFound => Ok(Found::Missing),
        Err(_) => Err(ShelfFault::Failed),
    }
}

impl<'a, R: Files + Input> Shelf for FileShelf<'a, R> {
    ghost state = { λ s. record { files = None; reads = s.reads; faults = s.faults } };

    fn faults(&self) -> u64 {
        self.faults
    }

    fn read(&mut self, alloc: Global, name: &str) -> Result<Found, ShelfFault> {
        self.reads = self.reads.saturating_add(1);
        let result = open_and_read(self.runtime, alloc, name);
        if let Err(ShelfFault::Failed) = &result {
            self.faults = self.faults.saturating_add(1);
        }
        result
    }
}
