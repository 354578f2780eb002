//! Contexts: their paths and URLs, and what others are told of them.

use crate::answers::Answer;
use crate::ids::id_of;
use crate::words::no_question;
use std::alloc::Global;
use wx_context::{Context, PagePath, PathFault, Sender, UrlFault, WebUrl};
use wx_id::{FrameId, NoMemory, TabId};

/// Whether a text is the path of a page.
pub fn page_path(alloc: Global, text: &str) -> Answer {
    let answer = match PagePath::read(alloc, text) {
        Ok(path) if path.text() == text => String::from_str(alloc, "read")?,
        Ok(path) => format!(in alloc; "read as {}", path.text())?,
        Err(PathFault::BadPath) => String::from_str(alloc, "refused")?,
        Err(PathFault::NoMemory) => return Err(NoMemory),
    };
    Ok(answer)
}

/// The own text of the web URL that a text is.
pub fn web_url(alloc: Global, text: &str) -> Answer {
    match WebUrl::read(alloc, text) {
        Ok(url) => Ok(String::from_str(alloc, url.url().as_str())?),
        Err(UrlFault::BadUrl) => Ok(String::from_str(alloc, "refused")?),
        Err(UrlFault::NoMemory) => Err(NoMemory),
    }
}

/// The page of an extension with this id and this path.
fn page(alloc: Global, id: &str, path: &str) -> Result<Option<Context>, NoMemory> {
    let Some(ext) = id_of(alloc, id)? else {
        return Ok(None);
    };
    match PagePath::read(alloc, path) {
        Ok(path) => Ok(Some(Context::Page { ext, path })),
        Err(PathFault::BadPath) => Ok(None),
        Err(PathFault::NoMemory) => Err(NoMemory),
    }
}

/// Where a document stands: `TAB FRAME URL`.
fn document(alloc: Global, text: &str) -> Option<(TabId, FrameId, WebUrl)> {
    let (tab, text) = text.split_once(' ')?;
    let (frame, url) = text.split_once(' ')?;
    let tab = TabId(tab.parse::<u32>().ok()?);
    let frame = FrameId(frame.parse::<u32>().ok()?);
    let url = WebUrl::read(alloc, url).ok()?;
    Some((tab, frame, url))
}

/// The content script of an extension: `ID TAB FRAME URL`.
fn content(alloc: Global, text: &str) -> Result<Option<Context>, NoMemory> {
    let Some((id, text)) = text.split_once(' ') else {
        return Ok(None);
    };
    let Some(ext) = id_of(alloc, id)? else {
        return Ok(None);
    };
    match document(alloc, text) {
        Some((tab, frame, url)) => Ok(Some(Context::Content {
            ext,
            tab,
            frame,
            url,
        })),
        None => Ok(None),
    }
}

/// The context of a text: `page ID PATH`, `content ID TAB FRAME URL` or `web TAB FRAME URL`.
pub fn context_of(alloc: Global, text: &str) -> Result<Option<Context>, NoMemory> {
    match text.split_once(' ') {
        Some(("page", rest)) => match rest.split_once(' ') {
            Some((id, path)) => page(alloc, id, path),
            None => Ok(None),
        },
        Some(("content", rest)) => content(alloc, rest),
        Some(("web", rest)) => match document(alloc, rest) {
            Some((tab, frame, url)) => Ok(Some(Context::Web { tab, frame, url })),
            None => Ok(None),
        },
        _ => Ok(None),
    }
}

/// What a sender tells: the extension, the tab, the frame, or a stroke for each, and the URL.
fn told(alloc: Global, sender: &Sender) -> Answer {
    let ext = match &sender.ext {
        Some(ext) => ext.text(),
        None => "-",
    };
    let told = match &sender.tab {
        Some((tab, frame)) => {
            format!(in alloc; "{ext} {} {} {}", tab.0, frame.0, sender.url.as_str())?
        }
        None => format!(in alloc; "{ext} - - {}", sender.url.as_str())?,
    };
    Ok(told)
}

/// What the sender of a context tells, and that of its copy.
pub fn sender(alloc: Global, text: &str) -> Answer {
    let Some(context) = context_of(alloc, text)? else {
        return no_question(alloc);
    };
    let own = told(alloc, &context.sender(alloc)?)?;
    let copied = told(alloc, &context.try_clone()?.sender(alloc)?)?;
    if own.as_str() == copied.as_str() {
        Ok(own)
    } else {
        Ok(format!(in alloc; "{own}, and its copy otherwise: {copied}")?)
    }
}
