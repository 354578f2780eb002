//! What a receiver is told of its caller.
ghost use Rattle.std.specs.Prelude.{◌≡◌, IfOk};
ghost use Rattle.wx_context.specs.Senders.{page_url, sender_of};

use crate::contexts::Context;
use crate::paths::PagePath;
use std::alloc::Global;
use wx_id::{ExtensionId, FrameId, NoMemory, TabId, Utf8Text};

/// What the receiver of a call is told of its caller (`runtime.MessageSender`).
#[derive(Debug, Drop)]
pub struct Sender {
    /// The caller's extension; none for a web page.
    pub ext: Option<ExtensionId>,
    /// The tab and the frame that the caller stands in; none for a page of an extension.
    pub tab: Option<(TabId, FrameId)>,
    /// The caller's address.
    pub url: Utf8Text,
}

/// The address of an extension's page: `chrome-extension://`, the id and the path.
fn page_url(alloc: Global, ext: &ExtensionId, path: &PagePath) -> Result<Utf8Text, NoMemory>
    ensures { IfOk result (λ url. url ≡ page_url ext.now path.now) }
{
    let mut text = String::from_str(alloc, "chrome-extension://")?;
    text.push_str(ext.text())?;
    text.push_str(path.text())?;
    Utf8Text::new(alloc, text.as_str())
}

impl Context {
    /// What a receiver is told of this context.
    pub fn sender(&self, alloc: Global) -> Result<Sender, NoMemory>
        ensures { IfOk result (λ sender. sender ≡ sender_of self.now) }
    {
        match self {
            Context::Page { ext, path } => Ok(Sender {
                ext: Some(*ext),
                tab: None,
                url: page_url(alloc, ext, path)?,
            }),
            Context::Content {
                ext,
                tab,
                frame,
                url,
            } => Ok(Sender {
                ext: Some(*ext),
                tab: Some((*tab, *frame)),
                url: Utf8Text::new(alloc, url.url().as_str())?,
            }),
            Context::Web { tab, frame, url } => Ok(Sender {
                ext: None,
                tab: Some((*tab, *frame)),
                url: Utf8Text::new(alloc, url.url().as_str())?,
            }),
        }
    }
}
