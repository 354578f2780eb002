//! A JSON text as its bytes.
ghost use Rattle.std.specs.Prelude.{◌≡◌, ◌↔◌, length, IsTrue, IsOk, IfOk, IfErr};
ghost use Rattle.wx_json.specs.Test.{is_json_text};
ghost use Rattle.wx_json.specs.Text.{IsJsonText, IsEndFault};
ghost use Rattle.wx_json.specs.Check.{Stands};

use crate::{JsonCheck, JsonFault, check};
use std::marker::Model;
use wx_id::NoMemory;

/// A JSON text, carried as the bytes that were given. Contracts see those bytes.
#[derive(Debug, Drop)]
pub struct JsonText {
    items: Vec<u8>,
}

impl Model for JsonText {
    ghost use Rattle.std.specs.Prelude.{ℕ, List};
    ghost use Rattle.wx_json.specs.Text.{IsJsonText};

    ghost Value = { List ℕ };

    ghost view = { λ a. a.items.items };

    ghost invariant = { λ a. IsJsonText a.items.items };
}

impl JsonText {
    /// The bytes as a text, or the fault and the bytes.
    #[tactic(auto, using(crate::proofs::TestLaws::is_json_text_by))]
    pub fn new(bytes: Vec<u8>) -> Result<JsonText, (JsonFault, Vec<u8>)>
        ensures exact { IsOk result ↔ IsTrue (is_json_text bytes.items) }
        ensures ok { IfOk result (λ text. (text ≡ bytes.items) × IsJsonText bytes.items) }
        ensures err { IfErr result (λ refused. IsEndFault bytes.items refused.0 × (refused.1.items ≡ bytes.items)) }
    {
        match check(&bytes) {
            Ok(()) => Ok(JsonText { items: bytes }),
            Err(fault) => Err((fault, bytes)),
        }
    }

    /// The bytes that the check was given, as a text, with no second look at them.
    pub fn from_check(check: &JsonCheck, bytes: Vec<u8>) -> Result<JsonText, (JsonFault, Vec<u8>)>
        requires { Stands check.now bytes.items }
        ensures ok { IfOk result (λ text. (text ≡ bytes.items) × IsJsonText bytes.items) }
        ensures err { IfErr result (λ refused. IsEndFault bytes.items refused.0 × (refused.1.items ≡ bytes.items)) }
    {
        match check.finish() {
            Ok(()) => Ok(JsonText { items: bytes }),
            Err(fault) => Err((fault, bytes)),
        }
    }

    /// The bytes, as they were given.
    pub fn bytes(&self) -> &[u8]
        ensures given { result.now ≡ self.now }
        ensures json { IsJsonText self.now }
    {
        &self.items
    }

    /// The bytes, as they were given, with their memory.
    pub fn into_bytes(self) -> Vec<u8>
        ensures { result.items ≡ self }
    {
        self.items
    }

    /// How many bytes.
    pub fn len(&self) -> u64
        ensures { result ≡ length self.now }
    {
        self.items.len() as u64
    }

    /// The same bytes once more.
    pub fn try_clone(&self) -> Result<JsonText, NoMemory>
        ensures { IfOk result (λ text. text ≡ self.now) }
    {
        let items = self.items.clone()?;
        Ok(JsonText { items })
    }
}
