//! What files are read from.
use std::alloc::Global;

/// The most bytes that a shelf hands out of one file.
pub const LIMIT: usize = 67108864;

/// What stands under a name.
#[derive(Debug, Drop)]
pub enum Found {
    /// The bytes of the file, at most 67,108,864.
    Bytes(Vec<u8>),
    /// There is no such file.
    Missing,
    /// The file has more than 67,108,864 bytes.
    Large,
}

/// Why a read answers nothing.
#[derive(Clone, Copy, Debug, PartialEq, Eq)]
pub enum ShelfFault {
    /// The file could not be read.
    Failed,
    /// Memory was refused.
    NoMemory,
}

/// Files under names. Some shelves tell what they hold; what a file system holds is not known.
pub trait Shelf {
    ghost use Rattle.std.specs.Prelude.{◌≡◌, IfOk};
    ghost use Rattle.wx_outside.specs.Causes.{counted};
    ghost use Rattle.wx_outside.specs.Shelf.{ShelfState, content, Reads, IsWithinLimit, HasCause};

    /// The files, where it tells them, how many reads were made, and how many have failed.
    ghost state: { Self → ShelfState };

    /// How many reads have failed. The count never falls.
    fn faults(&self) -> u64
        ensures { result ≡ (state self.now).faults };

    /// What stands under a name.
    fn read(&mut self, alloc: Global, name: &str) -> Result<Found, ShelfFault>
        ensures reads { Reads (state self.old).files name.now result }
        ensures within { IfOk result (λ found. IsWithinLimit (content found)) }
        ensures unchanged { (state self.new).files ≡ (state self.old).files }
        ensures one_more { (state self.new).reads ≡ counted (state self.old).reads }
        ensures cause { HasCause (state self.old).faults (state self.new).faults result };
}
