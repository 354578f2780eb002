//! The manifest of a native host.
ghost use Rattle.std.specs.Prelude.{◌≡◌, ◌≢◌, map, IfOk, IfErr, IsTrue};
ghost use Rattle.std.specs.List.{list_all};
ghost use Rattle.wx_host_manifest.specs.Origins.{origin_of, is_origin};

use crate::arguments::Arguments;
use crate::faults::HostFault;
use crate::origin::read_origin;
use crate::parts::Parts;
use std::alloc::Global;
use std::marker::Model;
use wx_id::{ExtensionId, HostName, HostNameFault, NoMemory, Utf8Text};
use wx_manifest_tree::{ReadFault, Texts, read_object};

/// The manifest of a native messaging host in Chrome's form. Contracts see what it holds: the host's name, its
/// program's path and the origins of the extensions that may start it.
#[derive(Debug, Drop)]
pub struct HostManifest {
    name: HostName,
    path: Utf8Text,
    callers: Vec<ExtensionId>,
}

impl Model for HostManifest {
    ghost use Rattle.std.specs.Prelude.{map};
    ghost use Rattle.wx_host_manifest.specs.Origins.{origin_of};
    ghost use Rattle.wx_host_manifest.specs.HostManifests.{Host};

    ghost Value = { Host };

    ghost view = { λ m. record { name = m.name; path = m.path; origins = map origin_of m.callers.items } };
}

/// The extensions whose origins these are.
#[tactic(auto, using(crate::proofs::KeyLemmas::never_other, crate::proofs::KeyLemmas::callers_more))]
fn callers_of(alloc: Global, origins: &Texts<'_>) -> Result<Vec<ExtensionId>, NoMemory>
    requires { IsTrue (list_all is_origin origins.now) }
    ensures { IfOk result (λ callers. map origin_of callers.items ≡ origins.now) }
{
    let mut callers = Vec::new(alloc);
    for place in 0..origins.len() {
        let Some(caller) = read_origin(origins.at(place)) else {
            unreachable!()
        };
        callers.push(caller)?;
    }
    Ok(callers)
}

impl HostManifest {
    ghost use Rattle.wx_host_manifest.specs.HostManifests.{host_of, admits, arguments_of};

    /// Reads the manifest that stands in the file of this name: Chrome's "Native messaging", with the tests in the
    /// order name, description, path, type, allowed origins. Only want of memory is answered without its cause.
    #[tactic(auto, unfolding(crate::specs::HostManifests::host_of))]
    pub fn read(alloc: Global, file_name: &str, bytes: &[u8]) -> Result<HostManifest, HostFault>
        ensures ok { IfOk result (λ m. host_of file_name.now bytes.now ≡ Ok m) }
        ensures err { IfErr result (λ fault. fault ≢ HostFault.NoMemory
            → host_of file_name.now bytes.now ≡ Err fault) }
    {
        let tree = match read_object(alloc, bytes) {
            Ok(tree) => tree,
            Err(ReadFault::NotJson) => return Err(HostFault::NotJson),
            Err(ReadFault::NoMemory) => return Err(HostFault::NoMemory),
        };
        let parts = match Parts::of(&tree, file_name) {
            Ok(parts) => parts,
            Err(fault) => return Err(fault),
        };
        match HostManifest::keep(alloc, &parts) {
            Ok(manifest) => Ok(manifest),
            Err(NoMemory) => Err(HostFault::NoMemory),
        }
    }

    fn keep(alloc: Global, parts: &Parts<'_>) -> Result<HostManifest, NoMemory>
        ensures { IfOk result (λ m. m ≡ parts.now) }
    {
        let name = match HostName::read(alloc, parts.name.as_bytes()) {
            Ok(name) => name,
            Err(HostNameFault::BadHostName { .. }) => unreachable!(),
            Err(HostNameFault::NoMemory) => return Err(NoMemory),
        };
        let path = Utf8Text::new(alloc, parts.path)?;
        let callers = callers_of(alloc, &parts.origins)?;
        Ok(HostManifest {
            name,
            path,
            callers,
        })
    }

    /// The host's name.
    pub fn name(&self) -> &HostName
        ensures { result.now ≡ self.now.name }
    {
        &self.name
    }

    /// The path of its program, which begins with `/`.
    pub fn path(&self) -> &str
        ensures { result.now ≡ self.now.path }
    {
        self.path.as_str()
    }

    /// Whether this extension may start the host.
    pub fn admits(&self, id: &ExtensionId) -> bool
        ensures { result ≡ admits self.now id.now }
    {
        self.callers.contains(id)
    }

    /// The words that the host is started with after its path, for this caller.
    pub fn arguments(&self, alloc: Global, caller: &ExtensionId) -> Result<Arguments, NoMemory>
        ensures { IfOk result (λ arguments. arguments ≡ arguments_of caller.now) }
    {
        Arguments::for_caller(alloc, caller)
    }
}
