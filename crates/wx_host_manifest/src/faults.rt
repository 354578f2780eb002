//! The keys of a host's manifest, and why it is refused.
ghost use Rattle.std.specs.Prelude.{◌≡◌};

/// A key of a host's manifest.
#[derive(Clone, Copy, Debug, PartialEq, Eq)]
pub enum HostKey {
    /// `name`
    Name,
    /// `description`
    Description,
    /// `path`
    Path,
    /// `type`
    Kind,
    /// `allowed_origins`
    Origins,
}

/// Why a host's manifest is refused: the first test that fails.
#[derive(Clone, Copy, Debug, PartialEq, Eq)]
pub enum HostFault {
    /// The bytes are no JSON object.
    NotJson,
    /// A key is not there.
    Missing(HostKey),
    /// A key's value is of another kind.
    WrongKind(HostKey),
    /// The name is no host name; `place` is where it goes wrong.
    BadName { place: u64 },
    /// The file is not called by the name and `.json`.
    NameDiffers,
    /// The path does not begin with `/`.
    NotAbsolute,
    /// The type is not `stdio`.
    NotStdio,
    /// The member at this place, from 0, is no origin of an extension.
    BadOrigin(u64),
    /// Memory was refused.
    NoMemory,
}

impl HostKey {
    ghost use Rattle.wx_host_manifest.specs.HostManifests.{key_name};

    /// The key as it stands in the manifest.
    pub(crate) fn text(self) -> &'static str
        ensures { result.now ≡ key_name self }
    {
        match self {
            HostKey::Name => "name",
            HostKey::Description => "description",
            HostKey::Path => "path",
            HostKey::Kind => "type",
            HostKey::Origins => "allowed_origins",
        }
    }
}
