//! Names that are found by their hash.
ghost use Rattle.std.specs.Prelude.{◌≡◌, ◌<◌, [], length, IfSome, OnOk, OnErr};
ghost use Rattle.wx_script.specs.Names.{place_in, is_among, binding};
ghost use Rattle.wx_script.specs.Draft.{no_variables};

use indexmap::IndexSet;
use std::alloc::{AllocError, Global};
use std::marker::Model;

/// Names in the order in which they were first added. A name is found by its hash, whatever the others are.
#[derive(Drop)]
pub(crate) struct Names {
    names: IndexSet<String>,
}

impl Model for Names {
    ghost use Rattle.std.specs.Prelude.{List, ℕ, map, string_bytes};

    ghost Value = { List (List ℕ) };

    ghost view = { λ names. map string_bytes names.names.keys };
}

impl Names {
    /// No names.
    pub(crate) fn new(alloc: Global) -> Names
        ensures { result ≡ [] }
    {
        Names {
            names: IndexSet::new(alloc),
        }
    }

    /// The place of a name, from 0.
    #[tactic(auto, using(crate::proofs::NameLemmas::names))]
    pub(crate) fn place(&self, name: &str) -> Option<usize>
        ensures exact { result ≡ place_in name.now self.now }
        ensures within { IfSome result (λ place. place < length self.now) }
    {
        self.names.get_index_of(name)
    }

    /// Whether a name was added.
    pub(crate) fn contains(&self, name: &str) -> bool
        ensures { result ≡ is_among name.now self.now }
    {
        self.place(name).is_some()
    }

    /// How many names there are.
    pub(crate) fn len(&self) -> usize
        ensures { result ≡ length self.now }
    {
        self.names.len()
    }

    /// Adds a name after the others, where it is not among them.
    pub(crate) fn add(&mut self, alloc: Global, name: &str) -> Result<(), AllocError>
        ensures ok { OnOk result (self.new ≡ binding name.now self.old) }
        ensures err { OnErr result (self.new ≡ self.old) }
    {
        let name = String::from_str(alloc, name)?;
        self.names.insert(name)?;
        Ok(())
    }

    /// Takes all names out.
    pub(crate) fn clear(&mut self)
        ensures { self.new ≡ [] }
    {
        self.names.clear();
    }
}

/// The names of the variables that a script binds, each sort in the order of first binding.
#[derive(Drop)]
pub(crate) struct VariableNames {
    /// Bound by `connect`, `native` and `await connect`.
    pub(crate) channels: Names,
    /// Bound by `send` and `ask`.
    pub(crate) asked: Names,
    /// Bound by `await request`.
    pub(crate) received: Names,
}

impl VariableNames {
    /// No variables.
    pub(crate) fn new(alloc: Global) -> VariableNames
        ensures { result ≡ no_variables }
    {
        VariableNames {
            channels: Names::new(alloc),
            asked: Names::new(alloc),
            received: Names::new(alloc),
        }
    }

    /// Takes all variables out.
    pub(crate) fn clear(&mut self)
        ensures { self.new ≡ no_variables }
    {
        self.channels.clear();
        self.asked.clear();
        self.received.clear();
    }
}
