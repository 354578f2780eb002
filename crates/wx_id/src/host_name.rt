//! Names of native hosts.
ghost use Rattle.std.specs.Prelude.{◌≡◌, ◌↔◌, ℕ, IsTrue, IsNone, IfOk, IfSome, OnOk, Some};
ghost use Rattle.wx_id.specs.HostNames as names;

use crate::texts::NoMemory;
use std::alloc::Global;
use std::marker::Model;

/// The name of a native host: 1 to 250 bytes, each a lower-case letter, a digit, `_` or `.`, with no dot first
/// or last and no two together (Chrome's "Native messaging"). Contracts see its bytes.
#[derive(Debug, Drop)]
pub struct HostName {
    text: String,
}

impl Model for HostName {
    ghost use Rattle.std.specs.Prelude.{List, ℕ, IsTrue, string_bytes};
    ghost use Rattle.wx_id.specs.HostNames.{is_host_name};

    ghost Value = { List ℕ };

    ghost view = { λ name. string_bytes name.text };

    ghost invariant = { λ name. IsTrue (is_host_name (string_bytes name.text)) };
}

/// Why a text was not read as a host name.
#[derive(Clone, Copy, Debug, PartialEq, Eq)]
pub enum HostNameFault {
    /// The first `place + 1` bytes begin no host name, or the text has `place` bytes and ends too soon.
    BadHostName { place: u64 },
    /// Memory was refused.
    NoMemory,
}

/// Whether the byte is a lower-case letter, a digit or `_`.
pub fn is_word_byte(byte: u8) -> bool
    ensures { result ≡ names.is_word_byte byte }
{
    byte.is_ascii_lowercase() || byte.is_ascii_digit() || byte == b'_'
}

fn may_stand(place: usize, edge: bool, byte: u8) -> bool
    ensures { result ≡ names.may_stand place edge byte }
{
    (is_word_byte(byte) && place < 250) || (byte == b'.' && !edge && place < 249)
}

/// The place of the first byte that may not stand, or of the end where a name may not end.
fn scan(text: &[u8]) -> Option<u64>
    ensures { result ≡ names.host_name_fault text.now }
{
    let mut edge = true;
    for (place, byte) in text.iter().enumerate() {
        if !may_stand(place, edge, *byte) {
            return Some(place as u64);
        }
        edge = *byte == b'.';
    }
    if edge { Some(text.len() as u64) } else { None }
}

impl HostName {
    /// The place where a text goes wrong as a host name; none for a host name.
    pub fn fault(text: &[u8]) -> Option<u64>
        ensures value { result ≡ names.host_name_fault text.now }
        ensures exact { IsNone result ↔ IsTrue (names.is_host_name text.now) }
        ensures place { IfSome result (λ p. names.IsHostNameFault text.now p) }
    {
        scan(text)
    }

    /// Reads the host name that these bytes are.
    #[tactic(auto, using(crate::proofs::HostNameLemmas::host_names_are_utf8, crate::proofs::HostNameLemmas::no_fault_from_host_name))]
    pub fn read(alloc: Global, text: &[u8]) -> Result<HostName, HostNameFault>
        ensures ok { IfOk result (λ name. name ≡ text.now) }
        ensures good { OnOk result (IsTrue (names.is_host_name text.now)) }
        ensures bad { (place : ℕ) → result ≡ Err (HostNameFault.BadHostName place)
            → names.host_name_fault text.now ≡ Some place }
        ensures memory { result ≡ Err HostNameFault.NoMemory → IsTrue (names.is_host_name text.now) }
    {
        if let Some(place) = HostName::fault(text) {
            return Err(HostNameFault::BadHostName { place });
        }
        let Ok(text) = str::from_utf8(text) else {
            unreachable!()
        };
        match String::from_str(alloc, text) {
            Ok(text) => Ok(HostName { text }),
            Err(_) => Err(HostNameFault::NoMemory),
        }
    }

    /// Its text.
    pub fn text(&self) -> &str
        ensures value { result.now ≡ self.now }
        ensures sort { IsTrue (names.is_host_name self.now) }
    {
        self.text.as_str()
    }
}
