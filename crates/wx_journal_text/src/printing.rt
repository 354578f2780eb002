//! The journal's text: a head line, and a line for each entry.
ghost use Rattle.std.specs.Prelude.{◌≡◌, ◌++◌, IsTrue, OnOk, IfOk, decimal, codes};
ghost use Rattle.wx_journal_text.specs.Text.{◌␣◌, event_text, sized, numbered, who_text, rule_text, answer_text};
ghost use Rattle.wx_journal_text.specs.Text.{listens_text, frame_text, target_text, context_text, flag};
ghost use Rattle.wx_journal_text.specs.Text.{json_kind_text, reason_text, is_native, call_text, entry_text};
ghost use Rattle.wx_journal_text.specs.Text.{journal_text};

use itoa::Buffer;
use std::alloc::{AllocError, Global};
use wx_context::{Context, Listens, Target, WebUrl};
use wx_external::Rule;
use wx_id::{Event, EventKind, FrameId, TabId};
use wx_machine::{Answer, Call, Entry, JsonKind, Reason, Who};

fn put(out: &mut Vec<u8>, bytes: &[u8]) -> Result<(), AllocError>
    ensures { OnOk result (out.new.items ≡ out.old.items ++ bytes.now) }
{
    out.extend_from_slice(bytes)
}

fn put_number(out: &mut Vec<u8>, n: u64) -> Result<(), AllocError>
    ensures { OnOk result (out.new.items ≡ out.old.items ++ decimal n) }
{
    let mut buffer = Buffer::new();
    put(out, buffer.format(n).as_bytes())
}

/// A word and a number.
fn put_numbered(out: &mut Vec<u8>, word: &[u8], n: u64) -> Result<(), AllocError>
    ensures { OnOk result (out.new.items ≡ out.old.items ++ numbered word.now n) }
{
    put(out, word)?;
    put(out, b" ")?;
    put_number(out, n)
}

/// A text after its length.
fn put_sized(out: &mut Vec<u8>, text: &[u8]) -> Result<(), AllocError>
    ensures { OnOk result (out.new.items ≡ out.old.items ++ sized text.now) }
{
    put_number(out, text.len() as u64)?;
    put(out, b":")?;
    put(out, text)
}

/// A space, and a text after its length.
fn put_spaced(out: &mut Vec<u8>, text: &[u8]) -> Result<(), AllocError>
    ensures { OnOk result (out.new.items ≡ out.old.items ++ (codes " " ++ sized text.now)) }
{
    put(out, b" ")?;
    put_sized(out, text)
}

/// A space and a number.
fn put_next(out: &mut Vec<u8>, n: u64) -> Result<(), AllocError>
    ensures { OnOk result (out.new.items ≡ out.old.items ++ (codes " " ++ decimal n)) }
{
    put(out, b" ")?;
    put_number(out, n)
}

fn put_who(out: &mut Vec<u8>, who: Who) -> Result<(), AllocError>
    ensures { OnOk result (out.new.items ≡ out.old.items ++ who_text who) }
{
    match who {
        Who::Context(c) => {
            put(out, b"c")?;
            put_number(out, c.0)
        }
        Who::Host(h) => {
            put(out, b"h")?;
            put_number(out, h.0)
        }
    }
}

/// A word and two numbers.
fn put_numbers(out: &mut Vec<u8>, word: &[u8], n: u64, e: u64) -> Result<(), AllocError>
    ensures { OnOk result (out.new.items ≡ out.old.items ++ (word.now ␣ decimal n ␣ decimal e)) }
{
    put_numbered(out, word, n)?;
    put_next(out, e)
}

fn put_event(out: &mut Vec<u8>, event: Event) -> Result<(), AllocError>
    ensures { OnOk result (out.new.items ≡ out.old.items ++ event_text event.kind event.entry.0) }
{
    match event.kind {
        EventKind::Connected(k) => put_numbers(out, b"connected", k.0, event.entry.0),
        EventKind::Message(k) => put_numbers(out, b"message", k.0, event.entry.0),
        EventKind::Disconnected(k) => put_numbers(out, b"disconnected", k.0, event.entry.0),
        EventKind::Asked(r) => put_numbers(out, b"asked", r.0, event.entry.0),
        EventKind::Replied(r) => put_numbers(out, b"replied", r.0, event.entry.0),
        EventKind::Closed(r) => put_numbers(out, b"closed", r.0, event.entry.0),
    }
}

fn put_forbidden(out: &mut Vec<u8>, rule: Rule) -> Result<(), AllocError>
    ensures { OnOk result (out.new.items ≡ out.old.items ++ (codes "forbidden" ␣ rule_text rule)) }
{
    match rule {
        Rule::Id => put(out, b"forbidden id"),
        Rule::Url => put(out, b"forbidden url"),
    }
}

fn put_answer(out: &mut Vec<u8>, answer: Answer) -> Result<(), AllocError>
    ensures { OnOk result (out.new.items ≡ out.old.items ++ answer_text answer) }
{
    match answer {
        Answer::Entered(c) => put_numbered(out, b"context", c.0),
        Answer::Channel(k) => put_numbered(out, b"channel", k.0),
        Answer::Request(r) => put_numbered(out, b"request", r.0),
        Answer::Event(event) => put_event(out, event),
        Answer::Done => put(out, b"done"),
        Answer::Gone => put(out, b"gone"),
        Answer::BadTarget => put(out, b"bad_target"),
        Answer::Forbidden(rule) => put_forbidden(out, rule),
        Answer::NoReceiver => put(out, b"no_receiver"),
        Answer::Posted => put(out, b"posted"),
        Answer::NoPort => put(out, b"no_port"),
        Answer::PortClosed => put(out, b"port_closed"),
        Answer::TooLong => put(out, b"too_long"),
        Answer::NoEffect => put(out, b"no_effect"),
        Answer::First => put(out, b"first"),
        Answer::Late => put(out, b"late"),
        Answer::NotYours => put(out, b"not_yours"),
        Answer::Empty => put(out, b"empty"),
        Answer::Text(e) => put_numbered(out, b"text", e.0),
        Answer::NoPermission => put(out, b"no_permission"),
        Answer::BadHostName => put(out, b"bad_host_name"),
        Answer::HostNotFound => put(out, b"host_not_found"),
        Answer::HostForbidden => put(out, b"host_forbidden"),
        Answer::End => put(out, b"end"),
        Answer::Passed => put(out, b"passed"),
        Answer::Ignored => put(out, b"ignored"),
        Answer::Already => put(out, b"already"),
    }
}

fn put_flag(out: &mut Vec<u8>, on: bool, letter: &[u8]) -> Result<(), AllocError>
    ensures { OnOk result (out.new.items ≡ out.old.items ++ flag on letter.now) }
{
    put(out, if on { letter } else { b"-" })
}

fn put_listens(out: &mut Vec<u8>, l: Listens) -> Result<(), AllocError>
    ensures { OnOk result (out.new.items ≡ out.old.items ++ listens_text l) }
{
    put_flag(out, l.connect, b"c")?;
    put_flag(out, l.message, b"m")?;
    put_flag(out, l.external_connect, b"C")?;
    put_flag(out, l.external_message, b"M")
}

/// A space, and a frame or any.
fn put_frame(out: &mut Vec<u8>, frame: Option<FrameId>) -> Result<(), AllocError>
    ensures { OnOk result (out.new.items ≡ out.old.items ++ (codes " " ++ frame_text frame)) }
{
    match frame {
        Some(frame) => put_next(out, frame.0 as u64),
        None => put(out, b" *"),
    }
}

fn put_target(out: &mut Vec<u8>, target: Target) -> Result<(), AllocError>
    ensures { OnOk result (out.new.items ≡ out.old.items ++ target_text target) }
{
    match target {
        Target::Own => put(out, b"own"),
        Target::Other(id) => {
            put(out, b"ext ")?;
            put(out, id.text().as_bytes())
        }
        Target::Tab(tab, frame) => {
            put_numbered(out, b"tab", tab.0 as u64)?;
            put_frame(out, frame)
        }
    }
}

/// A space, a tab and a frame, and an address after its length.
fn put_document(
    out: &mut Vec<u8>,
    tab: TabId,
    frame: FrameId,
    url: &WebUrl,
) -> Result<(), AllocError>
    ensures { OnOk result (out.new.items
        ≡ out.old.items ++ (codes " " ++ (decimal tab.0 ␣ decimal frame.0 ␣ sized url.now))) }
{
    put_next(out, tab.0 as u64)?;
    put_next(out, frame.0 as u64)?;
    put_spaced(out, url.url().as_str().as_bytes())
}

fn put_context(out: &mut Vec<u8>, x: &Context) -> Result<(), AllocError>
    ensures { OnOk result (out.new.items ≡ out.old.items ++ context_text x.now) }
{
    match x {
        Context::Page { ext, path } => {
            put(out, b"page ")?;
            put(out, ext.text().as_bytes())?;
            put_spaced(out, path.text().as_bytes())
        }
        Context::Content {
            ext,
            tab,
            frame,
            url,
        } => {
            put(out, b"content ")?;
            put(out, ext.text().as_bytes())?;
            put_document(out, *tab, *frame, url)
        }
        Context::Web { tab, frame, url } => {
            put(out, b"web")?;
            put_document(out, *tab, *frame, url)
        }
    }
}

/// A word, a target and a text.
fn put_to_target(
    out: &mut Vec<u8>,
    word: &[u8],
    target: Target,
    text: &[u8],
) -> Result<(), AllocError>
    ensures { OnOk result (out.new.items ≡ out.old.items ++ (word.now ␣ target_text target ␣ sized text.now)) }
{
    put(out, word)?;
    put(out, b" ")?;
    put_target(out, target)?;
    put_spaced(out, text)
}

/// A word, a number and a text.
fn put_on(out: &mut Vec<u8>, word: &[u8], n: u64, text: &[u8]) -> Result<(), AllocError>
    ensures { OnOk result (out.new.items ≡ out.old.items ++ (word.now ␣ decimal n ␣ sized text.now)) }
{
    put_numbered(out, word, n)?;
    put_spaced(out, text)
}

/// A word and a text.
fn put_word(out: &mut Vec<u8>, word: &[u8], text: &[u8]) -> Result<(), AllocError>
    ensures { OnOk result (out.new.items ≡ out.old.items ++ (word.now ␣ sized text.now)) }
{
    put(out, word)?;
    put_spaced(out, text)
}

/// The word for a JSON fault's kind.
pub fn json_kind_text(kind: JsonKind) -> &'static [u8]
    ensures { result.now ≡ json_kind_text kind }
{
    match kind {
        JsonKind::Syntax => b"syntax",
        JsonKind::Utf8 => b"utf8",
        JsonKind::TooDeep => b"too_deep",
        JsonKind::Ends => b"ends",
    }
}

/// Why a host ended.
fn put_reason(out: &mut Vec<u8>, reason: Reason) -> Result<(), AllocError>
    ensures { OnOk result (out.new.items ≡ out.old.items ++ reason_text reason) }
{
    match reason {
        Reason::StartFailed => put(out, b"start_failed"),
        Reason::ReadFailed => put(out, b"read_failed"),
        Reason::WriteFailed => put(out, b"write_failed"),
        Reason::TooLong { len } => put_numbered(out, b"too_long", len as u64),
        Reason::BadJson { place, kind } => {
            put_numbered(out, b"bad_json", place)?;
            put(out, b" ")?;
            put(out, json_kind_text(kind))
        }
        Reason::Cut { have } => put_numbered(out, b"cut", have),
        Reason::Exited => put(out, b"exited"),
        Reason::Closed => put(out, b"closed"),
    }
}

/// A call of a context for a native host, or of the host.
fn put_native(out: &mut Vec<u8>, call: &Call) -> Result<(), AllocError>
    requires { IsTrue (is_native call.now) }
    ensures { OnOk result (out.new.items ≡ out.old.items ++ call_text call.now) }
{
    match call {
        Call::ConnectNative(name) => { put_word(out, b"connect_native", name.as_str().as_bytes()) }
        Call::SendNative(name, text) => {
            put_word(out, b"send_native", name.as_str().as_bytes())?;
            put_spaced(out, text.bytes())
        }
        Call::HostTake => put(out, b"host_take"),
        Call::HostSaid(text) => put_word(out, b"host_said", text.bytes()),
        Call::HostEnded(reason) => {
            put(out, b"host_ended ")?;
            put_reason(out, *reason)
        }
        _ => unreachable!(),
    }
}

fn put_call(out: &mut Vec<u8>, call: &Call) -> Result<(), AllocError>
    ensures { OnOk result (out.new.items ≡ out.old.items ++ call_text call.now) }
{
    match call {
        Call::Enter(x) => {
            put(out, b"enter ")?;
            put_context(out, x)
        }
        Call::Listen(l) => {
            put(out, b"listen ")?;
            put_listens(out, *l)
        }
        Call::Leave => put(out, b"leave"),
        Call::Connect(target, name) => {
            put_to_target(out, b"connect", *target, name.as_str().as_bytes())
        }
        Call::Post(k, text) => put_on(out, b"post", k.0, text.bytes()),
        Call::Disconnect(k) => put_numbered(out, b"disconnect", k.0),
        Call::Send(target, text) => put_to_target(out, b"send", *target, text.bytes()),
        Call::Reply(r, text) => put_on(out, b"reply", r.0, text.bytes()),
        Call::Decline(r) => put_numbered(out, b"decline", r.0),
        Call::Take => put(out, b"take"),
        Call::ConnectNative(_)
        | Call::SendNative(_, _)
        | Call::HostTake
        | Call::HostSaid(_)
        | Call::HostEnded(_) => put_native(out, call),
    }
}

fn put_entry(out: &mut Vec<u8>, e: &Entry) -> Result<(), AllocError>
    ensures { OnOk result (out.new.items ≡ out.old.items ++ entry_text e.now) }
{
    put_who(out, e.who)?;
    put(out, b" ")?;
    put_call(out, &e.call)?;
    put(out, b" -> ")?;
    put_answer(out, e.answer)?;
    put(out, b"\n")
}

/// The room that an entry's line is likely to need: that of the texts that its call carries, and 48 bytes for the rest.
fn usual_room(call: &Call) -> usize {
    let texts = match call {
        Call::Post(_, text) | Call::Send(_, text) | Call::Reply(_, text) | Call::HostSaid(text) =>
            text.bytes().len(),
        Call::Connect(_, name) | Call::ConnectNative(name) => name.as_str().len(),
        Call::SendNative(name, text) => name.as_str().len().saturating_add(text.bytes().len()),
        _ => 0,
    };
    texts.saturating_add(48)
}

/// The room that the lines of these entries are likely to need. Room that a text never fills costs no memory, and one
/// that needs more grows.
fn room_for(entries: &[Entry]) -> usize {
    let mut room: usize = 0;
    for e in entries {
        room = room.saturating_add(usual_room(&e.call));
    }
    room
}

/// The text of these entries, oldest first.
pub fn print(alloc: Global, entries: &[Entry]) -> Result<Vec<u8>, AllocError>
    ensures { IfOk result (λ text. text.items ≡ journal_text entries.now) }
{
    let mut out = Vec::new(alloc);
    out.reserve(room_for(entries))?;
    put(&mut out, b"wx journal 1 chrome\n")?;
    for e in entries {
        put_entry(&mut out, e)?;
    }
    Ok(out)
}
