//! What a host is started with.
ghost use Rattle.std.specs.Prelude.{◌≡◌, length, option_map, slice_get, IfOk};

use crate::origin::write_origin;
use std::alloc::Global;
use std::marker::Model;
use wx_id::{ExtensionId, NoMemory};

/// The words that a host is started with after its path. Contracts see the list of their texts.
#[derive(Debug, Drop)]
pub struct Arguments {
    texts: Vec<String>,
}

impl Model for Arguments {
    ghost use Rattle.std.specs.Prelude.{List, ℕ, map, string_bytes};

    ghost Value = { List (List ℕ) };

    ghost view = { λ arguments. map string_bytes arguments.texts.items };
}

impl Arguments {
    ghost use Rattle.wx_host_manifest.specs.HostManifests.{arguments_of};

    pub(crate) fn for_caller(alloc: Global, caller: &ExtensionId) -> Result<Arguments, NoMemory>
        ensures { IfOk result (λ arguments. arguments ≡ arguments_of caller.now) }
    {
        let origin = write_origin(alloc, caller)?;
        let mut texts = Vec::new(alloc);
        texts.push(origin)?;
        Ok(Arguments { texts })
    }

    /// How many there are.
    pub fn count(&self) -> usize
        ensures { result ≡ length self.now }
    {
        self.texts.len()
    }

    /// The text at a place, from 0.
    pub fn get(&self, i: usize) -> Option<&str>
        ensures { option_map (λ text. text.now) result ≡ slice_get self.now i }
    {
        if i < self.texts.len() {
            Some(self.texts[i].as_str())
        } else {
            None
        }
    }
}
