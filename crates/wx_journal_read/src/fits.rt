//! Values in memory have a text: numbers are within their types, and texts of their sorts.
ghost use Rattle.std.specs.Prelude.{◌<◌, ◌^◌, IsTrue};
ghost use Rattle.wx_journal_read.specs.Fits.{is_url, WhoFits, FrameFits, TargetFits, ContextFits, ReasonFits};
ghost use Rattle.wx_journal_read.specs.Fits.{CallFits, KindFits, AnswerFits, EntryFits, JournalFits};

use wx_context::{Context, Target, WebUrl};
use wx_id::{EventKind, FrameId};
use wx_machine::{Answer, Call, Entry, Reason, Who};

fn number(n: u64)
    ensures { n < 2 ^ 64 }
{
    let _ = n;
}

fn narrow(n: u32)
    ensures { n < 2 ^ 32 }
{
    let _ = n;
}

fn who(who: Who)
    ensures { WhoFits who }
{
    match who {
        Who::Context(c) => number(c.0),
        Who::Host(h) => number(h.0),
    }
}

fn frame(frame: Option<FrameId>)
    ensures { FrameFits frame }
{
    match frame {
        Some(f) => narrow(f.0),
        None => {}
    }
}

fn target(target: &Target)
    ensures { TargetFits target.now }
{
    match target {
        Target::Own => {}
        Target::Other(id) => {
            let _ = id.text();
        }
        Target::Tab(tab, f) => {
            narrow(tab.0);
            frame(*f)
        }
    }
}

fn url_text(url: &WebUrl)
    ensures { IsTrue (is_url url.now) }
{
    let _ = url.url().as_str();
}

fn context(x: &Context)
    ensures { ContextFits x.now }
{
    match x {
        Context::Page { ext, path } => {
            let _ = ext.text();
            let _ = path.text();
        }
        Context::Content {
            ext,
            tab,
            frame,
            url,
        } => {
            let _ = ext.text();
            narrow(tab.0);
            narrow(frame.0);
            url_text(url);
        }
        Context::Web { tab, frame, url } => {
            narrow(tab.0);
            narrow(frame.0);
            url_text(url);
        }
    }
}

fn reason(reason: Reason)
    ensures { ReasonFits reason }
{
    match reason {
        Reason::TooLong { len } => narrow(len),
        Reason::BadJson { place, .. } => number(place),
        Reason::Cut { have } => number(have),
        _ => {}
    }
}

fn call(call: &Call)
    ensures { CallFits call.now }
{
    match call {
        Call::Enter(x) => context(x),
        Call::Connect(to, name) => {
            target(to);
            let _ = name.as_str();
        }
        Call::Post(k, text) => {
            number(k.0);
            let _ = text.bytes();
        }
        Call::Disconnect(k) => number(k.0),
        Call::Send(to, text) => {
            target(to);
            let _ = text.bytes();
        }
        Call::Reply(r, text) => {
            number(r.0);
            let _ = text.bytes();
        }
        Call::Decline(r) => number(r.0),
        Call::ConnectNative(name) => {
            let _ = name.as_str();
        }
        Call::SendNative(name, text) => {
            let _ = name.as_str();
            let _ = text.bytes();
        }
        Call::HostSaid(text) => {
            let _ = text.bytes();
        }
        Call::HostEnded(r) => reason(*r),
        _ => {}
    }
}

fn kind(kind: EventKind)
    ensures { KindFits kind }
{
    match kind {
        EventKind::Connected(k) => number(k.0),
        EventKind::Message(k) => number(k.0),
        EventKind::Disconnected(k) => number(k.0),
        EventKind::Asked(r) => number(r.0),
        EventKind::Replied(r) => number(r.0),
        EventKind::Closed(r) => number(r.0),
    }
}

fn answer(answer: Answer)
    ensures { AnswerFits answer }
{
    match answer {
        Answer::Entered(c) => number(c.0),
        Answer::Channel(k) => number(k.0),
        Answer::Request(r) => number(r.0),
        Answer::Text(e) => number(e.0),
        Answer::Event(event) => {
            kind(event.kind);
            number(event.entry.0)
        }
        _ => {}
    }
}

/// An entry in memory fits.
pub fn entry(e: &Entry)
    ensures { EntryFits e.now }
{
    who(e.who);
    call(&e.call);
    answer(e.answer)
}

/// Entries in memory fit.
pub fn journal(entries: &[Entry])
    ensures { JournalFits entries.now }
{
    let mut rest = entries;
    while let Some((first, others)) = rest.split_first() {
        entry(first);
        rest = others;
    }
}
