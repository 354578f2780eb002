//! The extensions and native hosts that the broker knows.
ghost use Rattle.wx_external.specs.World as spec;
ghost use Rattle.std.specs.Prelude.{◌≡◌, ◌↔◌, ◌++◌, ◌∷◌, [], IsTrue, IfErr, OnOk};
ghost use Rattle.std.specs.Prelude.{OnErr, IsErrAnd, option_copied, slice_get};

use std::alloc::Global;
use std::marker::Model;
use wx_host_manifest::HostManifest;
use wx_id::ExtensionId;
use wx_manifest::Extension;

/// An extension that has a manifest.
#[derive(Debug, Drop)]
pub struct Installed {
    pub id: ExtensionId,
    pub manifest: Extension,
}

/// What the broker knows of extensions and native hosts: no id and no name twice. Contracts see its two lists. An
/// extension whose id it does not hold has no permissions and no `externally_connectable`.
#[derive(Debug, Drop)]
pub struct World {
    extensions: Vec<Installed>,
    hosts: Vec<HostManifest>,
}

impl Model for World {
    ghost use Rattle.std.specs.Prelude.{IsTrue};
    ghost use Rattle.wx_external.specs.World.{WorldLists, ids_are_apart, names_are_apart};

    ghost Value = { WorldLists };

    ghost view = { λ w. record { extensions = w.extensions.items; hosts = w.hosts.items } };

    ghost invariant = { λ w. IsTrue (ids_are_apart w.extensions.items) × IsTrue (names_are_apart w.hosts.items) };
}

/// Why an extension or a host was not added.
#[derive(Clone, Copy, Debug, PartialEq, Eq)]
pub enum AddFault {
    /// An extension with that id, or a host with that name, is there.
    Repeated,
    /// Memory was refused.
    NoMemory,
}

/// Whether the extension has this id.
fn has_id(extension: &Installed, id: &ExtensionId) -> bool
    ensures { result ≡ spec.has_id id.now extension.now }
{
    extension.id == *id
}

/// Whether the host has this name.
fn has_name(host: &HostManifest, name: &str) -> bool
    ensures { result ≡ spec.has_name name.now host.now }
{
    host.name().text() == name
}

impl World {
    /// The world that holds nothing.
    pub fn new(alloc: Global) -> World
        ensures { result ≡ spec.empty_world }
    {
        World {
            extensions: Vec::new(alloc),
            hosts: Vec::new(alloc),
        }
    }

    /// The extensions, in the order of adding.
    pub fn extensions(&self) -> &[Installed]
        ensures value { result.now ≡ self.now.extensions }
        ensures apart { IsTrue (spec.ids_are_apart self.now.extensions) }
    {
        &self.extensions
    }

    /// The hosts, in the order of adding.
    pub fn hosts(&self) -> &[HostManifest]
        ensures value { result.now ≡ self.now.hosts }
        ensures apart { IsTrue (spec.names_are_apart self.now.hosts) }
    {
        &self.hosts
    }

    /// The manifest of the extension with this id.
    pub fn extension(&self, id: &ExtensionId) -> Option<&Extension>
        ensures { option_copied result ≡ spec.manifest_of self.now id.now }
    {
        self.extensions
            .iter()
            .find(|extension| has_id(extension, id))
            .map(|extension| &extension.manifest)
    }

    /// The host at that place among the hosts.
    pub fn host(&self, place: usize) -> Option<&HostManifest>
        ensures { option_copied result ≡ slice_get self.now.hosts place }
    {
        self.hosts.get(place)
    }

    /// The place of the host with this name among the hosts.
    pub fn host_place(&self, name: &str) -> Option<usize>
        ensures { result ≡ spec.host_place self.now name.now }
    {
        self.hosts.iter().position(|host| has_name(host, name))
    }

    fn holds_id(&self, id: &ExtensionId) -> bool
        ensures { result ≡ spec.holds_id self.now id.now }
    {
        self.extensions
            .iter()
            .any(|extension| has_id(extension, id))
    }

    fn holds_name(&self, name: &str) -> bool
        ensures { result ≡ spec.holds_name self.now name.now }
    {
        self.hosts.iter().any(|host| has_name(host, name))
    }

    /// Adds an extension with its manifest. After a refusal the world is as before, and the manifest comes back.
    #[tactic(auto, using(crate::proofs::WorldLemmas::one_more_id))]
    pub fn add_extension(
        &mut self,
        id: ExtensionId,
        manifest: Extension,
    ) -> Result<(), (AddFault, Extension)>
        ensures ok { OnOk result (self.new ≡ record self.old {
          extensions = self.old.extensions ++ record { id = id; manifest = manifest } ∷ [];
        }) }
        ensures repeated { IsErrAnd result (λ back. back.0 ≡ AddFault.Repeated)
            ↔ IsTrue (spec.holds_id self.old id) }
        ensures err { OnErr result (self.new ≡ self.old) }
        ensures returned { IfErr result (λ back. back.1 ≡ manifest) }
    {
        if self.holds_id(&id) {
            return Err((AddFault::Repeated, manifest));
        }
        match self.extensions.push(Installed { id, manifest }) {
            Ok(()) => Ok(()),
            Err(refused) => Err((AddFault::NoMemory, refused.value.manifest)),
        }
    }

    /// Adds a host. After a refusal the world is as before, and the host comes back.
    #[tactic(auto, using(crate::proofs::WorldLemmas::one_more_name))]
    pub fn add_host(&mut self, host: HostManifest) -> Result<(), (AddFault, HostManifest)>
        ensures ok { OnOk result (self.new ≡ record self.old { hosts = self.old.hosts ++ host ∷ [] }) }
        ensures repeated { IsErrAnd result (λ back. back.0 ≡ AddFault.Repeated)
            ↔ IsTrue (spec.holds_name self.old host.name) }
        ensures err { OnErr result (self.new ≡ self.old) }
        ensures returned { IfErr result (λ back. back.1 ≡ host) }
    {
        if self.holds_name(host.name().text()) {
            return Err((AddFault::Repeated, host));
        }
        match self.hosts.push(host) {
            Ok(()) => Ok(()),
            Err(refused) => Err((AddFault::NoMemory, refused.value)),
        }
    }
}
