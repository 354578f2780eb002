//! Extension ids.
ghost use Rattle.std.specs.Prelude.{◌≡◌, ◌↔◌, IsTrue, IsOk, IfOk, IfErr};
ghost use Rattle.std.specs.List.{prefix_len};
ghost use Rattle.std.specs.Str.{bytes_eq};
ghost use Rattle.wx_id.specs.Ids as ids;

use std::marker::Model;

/// The id of an extension: 32 letters from `a` to `p` (Chrome's "Manifest - key"). Contracts see its letters.
#[derive(Clone, Copy, Debug, PartialEq, Eq, Hash)]
pub struct ExtensionId {
    letters: [u8; 32],
}

impl Model for ExtensionId {
    ghost use Rattle.std.specs.Prelude.{List, ℕ, IsTrue};
    ghost use Rattle.wx_id.specs.Ids.{is_extension_id};

    ghost Value = { List ℕ };

    ghost view = { λ id. id.letters };

    ghost inverse = { λ v. record { letters = v } };

    ghost invariant = { λ id. IsTrue (is_extension_id id.letters) };
}

/// The place of the byte by which a text is no extension id: the first that is no letter from `a` to `p` or
/// stands at 32; the length of a shorter text of such letters.
#[derive(Clone, Copy, Debug, PartialEq, Eq)]
pub struct BadId {
    pub place: u64,
}

fn is_id_letter(byte: u8) -> bool
    ensures { result ≡ ids.is_id_letter byte }
{
    b'a' <= byte && byte <= b'p'
}

/// How many letters of an id stand in front.
fn letters_in_front(text: &[u8]) -> usize
    ensures { result ≡ prefix_len ids.is_id_letter text.now }
{
    for (i, byte) in text.iter().enumerate() {
        if !is_id_letter(*byte) {
            return i;
        }
    }
    text.len()
}

impl ExtensionId {
    /// Reads the id that these bytes are.
    #[tactic(auto, using(crate::proofs::IdLemmas::is_extension_id_from_letters, crate::proofs::IdLemmas::letters_from_is_extension_id))]
    pub fn read(text: &[u8]) -> Result<ExtensionId, BadId>
        ensures exact { IsOk result ↔ IsTrue (ids.is_extension_id text.now) }
        ensures ok { IfOk result (λ id. id ≡ text.now) }
        ensures place { IfErr result (λ bad. bad.place ≡ ids.bad_place text.now) }
    {
        let letters_in_front = letters_in_front(text);
        if letters_in_front < 32 || text.len() != 32 {
            return Err(BadId {
                place: letters_in_front.min(32) as u64,
            });
        }
        let mut letters = [0u8; 32];
        letters.copy_from_slice(text);
        Ok(ExtensionId { letters })
    }

    /// Whether the two are one id.
    pub fn is(&self, other: &ExtensionId) -> bool
        ensures { result ≡ bytes_eq self.now other.now }
    {
        self.letters == other.letters
    }

    /// Its 32 letters.
    #[tactic(auto, using(crate::proofs::IdLemmas::ids_are_utf8))]
    pub fn text(&self) -> &str
        ensures value { result.now ≡ self.now }
        ensures sort { IsTrue (ids.is_extension_id self.now) }
    {
        match str::from_utf8(&self.letters) {
            Ok(text) => text,
            Err(_) => unreachable!(),
        }
    }
}
