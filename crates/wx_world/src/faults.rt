//! Why the files of a scene make no world.
use wx_host_manifest::HostFault;
use wx_manifest::ManifestFault;

/// Why a manifest's file is refused.
#[derive(Clone, Copy, Debug, PartialEq, Eq)]
pub enum FileKind {
    /// There is no such file.
    Missing,
    /// The file has more than 67,108,864 bytes.
    Large,
    /// The manifest of an extension is refused; never for want of memory.
    Extension(ManifestFault),
    /// The manifest of a host is refused; never for want of memory.
    Host(HostFault),
}

/// A refused file of a scene.
#[derive(Clone, Copy, Debug, PartialEq, Eq)]
pub struct FileRefusal {
    /// Its place among the files that the scene names, from 0.
    pub file: u64,
    /// Why it is refused.
    pub kind: FileKind,
}

/// Why the files of a scene make no world.
#[derive(Clone, Copy, Debug, PartialEq, Eq)]
pub enum WorldFault {
    /// A file is refused, and none before it.
    Refused(FileRefusal),
    /// The file at this place among those that the scene names, from 0, could not be read; none before it is refused.
    ReadFailed(u64),
    /// Memory was refused.
    NoMemory,
}

/// Why a file adds nothing to the world.
#[derive(Clone, Copy)]
pub(crate) enum FileFault {
    /// It is refused.
    Refused(FileKind),
    /// Memory was refused.
    NoMemory,
}
