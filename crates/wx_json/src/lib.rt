//! JSON texts of RFC 8259, checked piece by piece and carried as they are.
#![tactic(auto)]

ghost use Rattle.std.specs.Prelude.{◌≡◌, ◌↔◌, ℕ, ◌++◌, List, IsTrue, MatchResult};
ghost use Rattle.wx_json.specs.Test.{is_json_text};
ghost use Rattle.wx_json.specs.declared.JsonFault.{JsonFault};
ghost use Rattle.wx_json.specs.Text.{IsJsonText, IsFault, IsEndFault};

mod json_check;
mod json_text;
mod levels;
mod runs;
mod transitions;

pub use json_check::JsonCheck;
pub use json_text::JsonText;

/// Why bytes are no JSON text, or not the start of one.
#[derive(Clone, Copy, Debug, PartialEq, Eq)]
pub enum JsonKind {
    /// The byte stands where RFC 8259's grammar has none like it.
    Syntax,
    /// The byte stands where UTF-8 has none like it (RFC 3629).
    Utf8,
    /// The byte opens a container below 1,024 others.
    TooDeep,
    /// The bytes end before the text does.
    Ends,
}

/// Where bytes stop being the start of a JSON text: the place of the byte by which they do, from 0; for
/// `JsonKind::Ends` their length.
#[derive(Clone, Copy, Debug, PartialEq, Eq)]
pub struct JsonFault {
    pub place: u64,
    pub kind: JsonKind,
}

/// Whether the bytes are a JSON text: RFC 8259 in UTF-8, at most 1,024 containers deep, with no byte order mark.
pub fn check(bytes: &[u8]) -> Result<(), JsonFault>
    ensures { MatchResult result (λ _. IsJsonText bytes.now) (IsEndFault bytes.now) }
{
    let mut all = JsonCheck::new();
    let _ = all.step(bytes);
    all.finish()
}

/// A fault is the only one of its bytes, and stays the fault whatever follows.
pub fn one_fault()
    ensures one { (b : List ℕ) (f g : JsonFault) → IsFault b f → IsFault b g → f ≡ g }
    ensures kept { (b t : List ℕ) (f : JsonFault) → IsFault b f → IsFault (b ++ t) f }
{}

/// The test that computes is true exactly of the JSON texts.
pub fn json_test()
    ensures { (text : List ℕ) → IsTrue (is_json_text text) ↔ IsJsonText text }
{}
