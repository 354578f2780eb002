//! The four bytes of a frame's length, as they come.
ghost use Rattle.std.specs.Prelude.{◌≡◌, ℕ, ◌+◌, ◌<◌, ◌≤◌, ◌++◌, [], length, take, slice_index};
ghost use Rattle.wx_native_frame.specs.Frames.{told_length, length_bytes};

use byteorder::{ByteOrder, LittleEndian};
use std::marker::Model;

/// The bytes of a frame's length that were read so far.
#[derive(Drop)]
pub(crate) struct Head {
    bytes: [u8; 4],
    len: usize,
}

impl Model for Head {
    ghost use Rattle.std.specs.Prelude.{ℕ, List, take};

    ghost Value = { List ℕ };

    ghost use Rattle.wx_native_frame.specs.Head.{IsFour};

    ghost view = { λ h. take h.len h.bytes };

    ghost invariant = { IsFour };
}

impl Head {
    pub(crate) fn new() -> Head
        ensures { result ≡ [] }
    {
        Head {
            bytes: [0; 4],
            len: 0,
        }
    }

    pub(crate) fn len(&self) -> usize
        ensures len { result ≡ length self.now }
        ensures most { result ≤ 4 }
    {
        self.len
    }

    /// The same bytes with more after them.
    pub(crate) fn with(&self, more: &[u8]) -> Head
        requires { length self.now + length more.now ≤ 4 }
        ensures { result ≡ self.now ++ more.now }
    {
        let (bytes, len) = more_bytes(self.bytes, self.len, more);
        Head { bytes, len }
    }

    /// The length that all four bytes tell.
    pub(crate) fn length(&self) -> u32
        requires { length self.now ≡ 4 }
        ensures told { result ≡ told_length self.now }
        ensures bytes { length_bytes result ≡ self.now }
    {
        LittleEndian::read_u32(&self.bytes)
    }
}

#[tactic(auto, using(crate::proofs::Small::small_set))]
fn more_bytes(bytes: [u8; 4], len: usize, more: &[u8]) -> ([u8; 4], usize)
    requires room { len + length more.now ≤ 4 }
    requires size { length bytes ≡ 4 }
    requires small { (i : ℕ) → slice_index bytes i < 256 }
    ensures len { result.1 ≡ len + length more.now }
    ensures bytes { take result.1 result.0 ≡ take len bytes ++ more.now }
    ensures size { length result.0 ≡ 4 }
    ensures small { (i : ℕ) → slice_index result.0 i < 256 }
{
    let mut bytes = bytes;
    let mut at = len;
    for byte in more {
        bytes[at] = *byte;
        at += 1;
    }
    (bytes, at)
}
