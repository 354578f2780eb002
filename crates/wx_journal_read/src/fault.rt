//! Why a text is not read.
ghost use Rattle.std.specs.Prelude.{◌≡◌};
ghost use Rattle.wx_journal_read.specs.declared.fault.Fault.TheVariants as faults;

use std::alloc::{AllocError, AllocFailed};
use wx_id::NoMemory;

/// What is wrong with the text of a journal.
#[derive(Clone, Copy, Debug, PartialEq, Eq)]
pub enum JournalKind {
    /// It does not begin with the head line.
    Head,
    /// What follows the head line is no run of entry lines.
    Line,
}

/// Where the text of a journal goes wrong: at 0 where it has no head line; else after the longest run of whole
/// entry lines.
#[derive(Clone, Copy, Debug, PartialEq, Eq)]
pub struct JournalFault {
    pub place: u64,
    pub kind: JournalKind,
}

/// Why a text is not read as a journal.
#[derive(Clone, Copy, Debug, PartialEq, Eq)]
pub enum JournalReadFault {
    /// It is the text of none.
    Bad(JournalFault),
    /// Memory was refused.
    NoMemory,
}

/// Why a part is not read.
#[derive(Clone, Copy, Debug, PartialEq, Eq)]
pub enum Fault {
    /// No such part stands there.
    Bad,
    /// Memory was refused.
    NoMemory,
}

impl From<AllocError> for Fault {
    ghost from_gives = { λ _ e. e ≡ faults.NoMemory };

    fn from(_e: AllocError) -> Fault {
        Fault::NoMemory
    }
}

impl<T: Drop> From<AllocFailed<T>> for Fault {
    ghost from_gives = { λ _ e. e ≡ faults.NoMemory };

    fn from(_e: AllocFailed<T>) -> Fault {
        Fault::NoMemory
    }
}

impl From<NoMemory> for Fault {
    ghost from_gives = { λ _ e. e ≡ faults.NoMemory };

    fn from(_e: NoMemory) -> Fault {
        Fault::NoMemory
    }
}
