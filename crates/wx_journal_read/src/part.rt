//! Who makes a call, targets and contexts.
ghost use Rattle.std.specs.Prelude.{◌≡◌, ◌^◌, codes};
ghost use Rattle.wx_journal_read.specs.Gives.{Gives};
ghost use Rattle.wx_journal_read.specs.Grammar as grammar;
ghost use Rattle.wx_journal_read.specs.Reading as reading;

use crate::fault::Fault;
use crate::field::{behind, number, number32, skip};
use crate::sort::{extension_id, path, url};
use std::alloc::Global;
use wx_context::{Context, Listens, Target};
use wx_id::{ContextNo, FrameId, HostNo, TabId};
use wx_machine::Who;

/// Who makes a call.
#[tactic(auto, unfolding(crate::specs::Grammar::who_at))]
pub fn who(bytes: &[u8]) -> Result<(Who, &[u8]), Fault>
    ensures { Gives (λ x. (x.0, x.1.now)) result (grammar.who_at bytes.now) }
{
    if let Some(rest) = behind(b"c", bytes) {
        let (n, rest) = number(rest)?;
        return Ok((Who::Context(ContextNo(n)), rest));
    }
    if let Some(rest) = behind(b"h", bytes) {
        let (n, rest) = number(rest)?;
        return Ok((Who::Host(HostNo(n)), rest));
    }
    Err(Fault::Bad)
}

/// A frame, or any.
#[tactic(auto, unfolding(crate::specs::Grammar::frame_at, crate::specs::Reading::behind))]
fn frame(bytes: &[u8]) -> Result<(Option<FrameId>, &[u8]), Fault>
    ensures { Gives (λ x. (x.0, x.1.now)) result (grammar.frame_at bytes.now) }
{
    if let Some(rest) = behind(b"*", bytes) {
        return Ok((None, rest));
    }
    let (n, rest) = number32(bytes)?;
    Ok((Some(FrameId(n)), rest))
}

/// A target.
#[tactic(auto, unfolding(crate::specs::Grammar::target_at))]
pub fn target(bytes: &[u8]) -> Result<(Target, &[u8]), Fault>
    ensures { Gives (λ x. (x.0, x.1.now)) result (grammar.target_at bytes.now) }
{
    if let Some(rest) = behind(b"own", bytes) {
        return Ok((Target::Own, rest));
    }
    if let Some(rest) = behind(b"ext ", bytes) {
        return match extension_id(rest) {
            Ok((id, rest)) => Ok((Target::Other(id), rest)),
            Err(e) => Err(e),
        };
    }
    if let Some(rest) = behind(b"tab ", bytes) {
        let (tab, rest) = number32(rest)?;
        let rest = skip(b" ", rest)?;
        let (frame, rest) = frame(rest)?;
        return Ok((Target::Tab(TabId(tab), frame), rest));
    }
    Err(Fault::Bad)
}

/// A page, after its word.
#[tactic(auto, unfolding(crate::specs::Grammar::page_at))]
fn page(alloc: Global, bytes: &[u8]) -> Result<(Context, &[u8]), Fault>
    ensures { Gives (λ x. (x.0, x.1.now)) result (grammar.page_at bytes.now) }
{
    let (ext, rest) = match extension_id(bytes) {
        Ok(found) => found,
        Err(e) => return Err(e),
    };
    let rest = skip(b" ", rest)?;
    let (path, rest) = path(alloc, rest)?;
    Ok((Context::Page { ext, path }, rest))
}

/// A content script, after its word.
#[tactic(auto, unfolding(crate::specs::Grammar::content_at))]
fn content(alloc: Global, bytes: &[u8]) -> Result<(Context, &[u8]), Fault>
    ensures { Gives (λ x. (x.0, x.1.now)) result (grammar.content_at bytes.now) }
{
    let (ext, rest) = match extension_id(bytes) {
        Ok(found) => found,
        Err(e) => return Err(e),
    };
    let rest = skip(b" ", rest)?;
    let (tab, rest) = number32(rest)?;
    let rest = skip(b" ", rest)?;
    let (frame, rest) = number32(rest)?;
    let rest = skip(b" ", rest)?;
    let (url, rest) = url(alloc, rest)?;
    Ok((
        Context::Content {
            ext,
            tab: TabId(tab),
            frame: FrameId(frame),
            url,
        },
        rest,
    ))
}

/// A web page, after its word.
#[tactic(auto, unfolding(crate::specs::Grammar::web_at))]
fn web(alloc: Global, bytes: &[u8]) -> Result<(Context, &[u8]), Fault>
    ensures { Gives (λ x. (x.0, x.1.now)) result (grammar.web_at bytes.now) }
{
    let (tab, rest) = number32(bytes)?;
    let rest = skip(b" ", rest)?;
    let (frame, rest) = number32(rest)?;
    let rest = skip(b" ", rest)?;
    let (url, rest) = url(alloc, rest)?;
    Ok((
        Context::Web {
            tab: TabId(tab),
            frame: FrameId(frame),
            url,
        },
        rest,
    ))
}

/// A context.
#[tactic(auto, unfolding(crate::specs::Grammar::context_at))]
pub fn context(alloc: Global, bytes: &[u8]) -> Result<(Context, &[u8]), Fault>
    ensures { Gives (λ x. (x.0, x.1.now)) result (grammar.context_at bytes.now) }
{
    if let Some(rest) = behind(b"page ", bytes) {
        return page(alloc, rest);
    }
    if let Some(rest) = behind(b"content ", bytes) {
        return content(alloc, rest);
    }
    if let Some(rest) = behind(b"web ", bytes) {
        return web(alloc, rest);
    }
    Err(Fault::Bad)
}

/// Whether the letter stands there, or a dash.
#[tactic(auto, unfolding(crate::specs::Grammar::flag_at))]
fn flag<'a>(letter: &[u8], bytes: &'a [u8]) -> Result<(bool, &'a [u8]), Fault>
    ensures { Gives (λ x. (x.0, x.1.now)) result (grammar.flag_at letter.now bytes.now) }
{
    if let Some(rest) = behind(letter, bytes) {
        return Ok((true, rest));
    }
    if let Some(rest) = behind(b"-", bytes) {
        return Ok((false, rest));
    }
    Err(Fault::Bad)
}

/// What is listened to.
#[tactic(auto, unfolding(crate::specs::Grammar::listens_at, crate::specs::Reading::behind))]
pub fn listens(bytes: &[u8]) -> Result<(Listens, &[u8]), Fault>
    ensures { Gives (λ x. (x.0, x.1.now)) result (grammar.listens_at bytes.now) }
{
    let (connect, rest) = flag(b"c", bytes)?;
    let (message, rest) = flag(b"m", rest)?;
    let (external_connect, rest) = flag(b"C", rest)?;
    let (external_message, rest) = flag(b"M", rest)?;
    Ok((
        Listens {
            connect,
            message,
            external_connect,
            external_message,
        },
        rest,
    ))
}
