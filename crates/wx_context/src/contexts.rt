//! Contexts, what they listen to, and whom they call.
ghost use Rattle.std.specs.Prelude.{◌≡◌, IfOk};

use crate::paths::PagePath;
use crate::urls::WebUrl;
use wx_id::{ExtensionId, FrameId, NoMemory, TabId};

/// A context that makes calls.
#[derive(Debug, Drop)]
pub enum Context {
    /// A page of an extension, as its popup, or its service worker.
    Page {
        ext: ExtensionId,
        path: PagePath,
    },
    /// A content script of an extension, in the document at that address in a frame of a tab.
    Content {
        ext: ExtensionId,
        tab: TabId,
        frame: FrameId,
        url: WebUrl,
    },
    /// A web page at that address in a frame of a tab.
    Web {
        tab: TabId,
        frame: FrameId,
        url: WebUrl,
    },
}

impl Context {
    /// An equal context.
    pub fn try_clone(&self) -> Result<Context, NoMemory>
        ensures { IfOk result (λ copy. copy ≡ self.now) }
    {
        match self {
            Context::Page { ext, path } => Ok(Context::Page {
                ext: *ext,
                path: path.try_clone()?,
            }),
            Context::Content {
                ext,
                tab,
                frame,
                url,
            } => Ok(Context::Content {
                ext: *ext,
                tab: *tab,
                frame: *frame,
                url: url.try_clone()?,
            }),
            Context::Web { tab, frame, url } => Ok(Context::Web {
                tab: *tab,
                frame: *frame,
                url: url.try_clone()?,
            }),
        }
    }
}

/// What a context listens to: `runtime.onConnect`, `onMessage`, `onConnectExternal` and
/// `onMessageExternal`.
#[derive(Clone, Copy, Debug, PartialEq, Eq)]
pub struct Listens {
    /// To connections from its own extension.
    pub connect: bool,
    /// To messages from its own extension.
    pub message: bool,
    /// To connections from elsewhere.
    pub external_connect: bool,
    /// To messages from elsewhere.
    pub external_message: bool,
}

/// Whom a call is for.
#[derive(Clone, Copy, Debug, PartialEq, Eq)]
pub enum Target {
    /// The pages of the caller's own extension (`runtime.connect` and `runtime.sendMessage` without an id).
    Own,
    /// The pages of the extension with this id (the same with an id).
    Other(ExtensionId),
    /// The caller's content scripts in a tab, or in one frame of it (`tabs.connect`, `tabs.sendMessage`).
    Tab(TabId, Option<FrameId>),
}
