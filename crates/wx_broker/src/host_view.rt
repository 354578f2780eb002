//! What is told of a native host.

use wx_id::ExtensionId;

/// A native host that was started.
#[derive(Clone, Copy, Debug, PartialEq, Eq)]
pub struct HostView {
    /// The place of its manifest among the world's hosts.
    pub manifest: usize,
    /// The extension that started it.
    pub caller: ExtensionId,
}
