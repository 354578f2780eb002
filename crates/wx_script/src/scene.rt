//! A scene: extensions, hosts, files and endpoints.
ghost use Rattle.std.specs.Prelude.{◌≡◌};
ghost use Rattle.wx_script.specs.Sound.{AreSound};

use crate::script::Script;
use std::marker::Model;
use wx_context::Context;
use wx_id::{ExtensionId, HostNo, Utf8Text};

/// An extension that a scene declares.
#[derive(Debug, Drop)]
pub struct SceneExtension {
    /// The name that scene lines use.
    pub name: Utf8Text,
    /// Its id.
    pub id: ExtensionId,
    /// The file of its manifest, where it has one.
    pub file: Option<Utf8Text>,
}

/// A file that a line of a scene names.
#[derive(Clone, Copy, Debug, PartialEq, Eq)]
pub enum SceneFile {
    /// The manifest of the extension at this place among the scene's extensions, from 0.
    Extension(u64),
    /// The host manifest at this place among the scene's hosts, from 0.
    Host(u64),
}

/// A context that a scene declares, with its script.
#[derive(Debug, Drop)]
pub struct SceneEndpoint {
    /// Its name in the scene.
    pub name: Utf8Text,
    /// The context that enters.
    pub context: Context,
    /// The calls that it makes.
    pub script: Script,
}

/// What is wrong with a scene.
#[derive(Clone, Copy, Debug, PartialEq, Eq)]
pub enum SceneKind {
    /// There is no such file.
    Missing,
    /// The file has more than 67,108,864 bytes.
    Large,
    /// The first line is not the head line.
    Head,
    /// The line has none of the forms.
    Form,
    /// A script line stands above every endpoint.
    Order,
    /// An extension's id is none.
    Id,
    /// A name, an id or the name of a host's file stood in an earlier line.
    Repeated,
    /// The extension is not declared above.
    Unknown,
    /// The address of a document is no http or https URL, or is too long.
    Url,
    /// No earlier command of the script binds the variable in the sort that is used.
    Unbound,
    /// The message is no JSON text.
    Json,
    /// This is the 1,025th endpoint.
    Many,
}

/// The first faulty line, from 1, and what is wrong with it.
#[derive(Clone, Copy, Debug, PartialEq, Eq)]
pub struct SceneFault {
    pub line: u64,
    pub kind: SceneKind,
}

/// How a scene is run.
#[derive(Clone, Copy, Debug, PartialEq, Eq)]
pub enum How {
    /// In rounds, on one thread.
    Rounds,
    /// With threads of its endpoints and hosts.
    Threads,
}

/// Who has made as many entries as a run allows, and has not ended.
#[derive(Clone, Copy, Debug, PartialEq, Eq)]
pub enum SpentWho {
    /// The endpoint at this place of the scene, from 0.
    Endpoint(u64),
    /// The native host of this number.
    Host(HostNo),
}

/// Why bytes are not read as a scene.
#[derive(Clone, Copy, Debug, PartialEq, Eq)]
pub enum SceneReadFault {
    /// The bytes are no scene.
    Bad(SceneFault),
    /// Memory was refused.
    NoMemory,
}

/// A scene that was read: its extensions, the files of its host manifests, the files that its lines name, and its
/// endpoints, each in order.
#[derive(Debug, Drop)]
pub struct Scene {
    extensions: Vec<SceneExtension>,
    hosts: Vec<Utf8Text>,
    files: Vec<SceneFile>,
    endpoints: Vec<SceneEndpoint>,
}

impl Model for Scene {
    ghost use Rattle.wx_script.specs.SceneValue.{SceneValue};
    ghost use Rattle.wx_script.specs.Sound.{AreSound};

    ghost Value = { SceneValue };

    ghost view = { λ scene. record {
      extensions = scene.extensions.items;
      hosts = scene.hosts.items;
      files = scene.files.items;
      endpoints = scene.endpoints.items;
    } };

    ghost invariant = { λ scene. AreSound scene.endpoints.items };
}

impl Scene {
    /// The scene of these parts.
    pub(crate) fn new(
        extensions: Vec<SceneExtension>,
        hosts: Vec<Utf8Text>,
        files: Vec<SceneFile>,
        endpoints: Vec<SceneEndpoint>,
    ) -> Scene
        requires { AreSound endpoints.items }
        ensures { result ≡ record {
          extensions = extensions.items;
          hosts = hosts.items;
          files = files.items;
          endpoints = endpoints.items;
        } }
    {
        Scene {
            extensions,
            hosts,
            files,
            endpoints,
        }
    }

    /// Its extensions in order.
    pub fn extensions(&self) -> &[SceneExtension]
        ensures { result.now ≡ self.now.extensions }
    {
        self.extensions.as_slice()
    }

    /// The files of its host manifests in order.
    pub fn hosts(&self) -> &[Utf8Text]
        ensures { result.now ≡ self.now.hosts }
    {
        self.hosts.as_slice()
    }

    /// The files that its lines name: one for each line that names a file, in order.
    pub fn files(&self) -> &[SceneFile]
        ensures { result.now ≡ self.now.files }
    {
        self.files.as_slice()
    }

    /// Its endpoints in order.
    pub fn endpoints(&self) -> &[SceneEndpoint]
        ensures value { result.now ≡ self.now.endpoints }
        ensures sound { AreSound self.now.endpoints }
    {
        self.endpoints.as_slice()
    }
}
