//! The keys of a manifest, and why it is refused.
ghost use Rattle.std.specs.Prelude.{◌≡◌};

use wx_id::NoMemory;
use wx_match_pattern::PatternFault;

/// A key of an extension's manifest.
#[derive(Clone, Copy, Debug, PartialEq, Eq)]
pub enum Key {
    /// `manifest_version`
    ManifestVersion,
    /// `name`
    Name,
    /// `version`
    Version,
    /// `permissions`
    Permissions,
    /// `externally_connectable`
    External,
    /// `ids` of `externally_connectable`
    Ids,
    /// `matches` of `externally_connectable`
    Matches,
}

/// Why an extension's manifest is refused: the first test that fails.
#[derive(Clone, Copy, Debug, PartialEq, Eq)]
pub enum ManifestFault {
    /// The bytes are no JSON object.
    NotJson,
    /// A key is not there.
    Missing(Key),
    /// A key's value is of another kind.
    WrongKind(Key),
    /// The member of `ids` at this place, from 0, is neither `*` nor an extension's id.
    BadId(u64),
    /// The member of `matches` at this place, from 0, is no match pattern.
    BadPattern(u64, PatternFault),
    /// The member of `matches` at this place, from 0, covers a whole top-level domain or more.
    TooBroad(u64),
    /// Memory was refused.
    NoMemory,
}

impl From<NoMemory> for ManifestFault {
    ghost use Rattle.wx_manifest.specs.declared.faults.ManifestFault.TheVariants.{NoMemory};

    ghost from_gives = { λ _ fault. fault ≡ NoMemory };

    fn from(_e: NoMemory) -> ManifestFault {
        ManifestFault::NoMemory
    }
}

impl Key {
    ghost use Rattle.wx_manifest.specs.Keys.{key_name};

    /// The key as it stands in the manifest.
    pub(crate) fn text(self) -> &'static str
        ensures { result.now ≡ key_name self }
    {
        match self {
            Key::ManifestVersion => "manifest_version",
            Key::Name => "name",
            Key::Version => "version",
            Key::Permissions => "permissions",
            Key::External => "externally_connectable",
            Key::Ids => "ids",
            Key::Matches => "matches",
        }
    }
}
