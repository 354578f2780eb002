//! Answers.
ghost use Rattle.std.specs.Prelude.{◌≡◌};
ghost use Rattle.wx_journal_read.specs.Gives.{Gives};
ghost use Rattle.wx_journal_read.specs.Grammar as grammar;
ghost use Rattle.wx_journal_read.specs.Reading as reading;

use crate::fault::Fault;
use crate::field::{behind, number, skip};
use wx_external::Rule;
use wx_id::{ChannelNo, ContextNo, EntryNo, Event, EventKind, RequestNo};
use wx_machine::Answer;

/// Two numbers: a channel or a request, and the entry that delivered the event.
fn two_numbers(bytes: &[u8]) -> Result<((u64, u64), &[u8]), Fault>
    ensures { Gives (λ x. (x.0, x.1.now)) result (reading.both_at grammar.sp grammar.n64 grammar.n64 bytes.now) }
{
    let (n, rest) = number(bytes)?;
    let rest = skip(b" ", rest)?;
    let (e, rest) = number(rest)?;
    Ok(((n, e), rest))
}

/// The event that this entry delivered.
fn event(e: u64, kind: EventKind) -> Answer
    ensures { result ≡ Answer.Event (record { entry = record { 0 = e }; kind = kind }) }
{
    Answer::Event(Event {
        entry: EntryNo(e),
        kind,
    })
}

/// The rule by which a call from outside is forbidden.
#[tactic(auto, unfolding(crate::specs::Grammar::rule_at))]
fn rule(bytes: &[u8]) -> Result<(Rule, &[u8]), Fault>
    ensures { Gives (λ x. (x.0, x.1.now)) result (grammar.rule_at bytes.now) }
{
    if let Some(rest) = behind(b"id", bytes) {
        return Ok((Rule::Id, rest));
    }
    if let Some(rest) = behind(b"url", bytes) {
        return Ok((Rule::Url, rest));
    }
    Err(Fault::Bad)
}

/// An answer.
#[tactic(auto, unfolding(crate::specs::Grammar::answer_at))]
pub fn answer(bytes: &[u8]) -> Result<(Answer, &[u8]), Fault>
    ensures { Gives (λ x. (x.0, x.1.now)) result (grammar.answer_at bytes.now) }
{
    if let Some(rest) = behind(b"context ", bytes) {
        let (n, rest) = number(rest)?;
        return Ok((Answer::Entered(ContextNo(n)), rest));
    }
    if let Some(rest) = behind(b"channel ", bytes) {
        let (n, rest) = number(rest)?;
        return Ok((Answer::Channel(ChannelNo(n)), rest));
    }
    if let Some(rest) = behind(b"request ", bytes) {
        let (n, rest) = number(rest)?;
        return Ok((Answer::Request(RequestNo(n)), rest));
    }
    if let Some(rest) = behind(b"text ", bytes) {
        let (n, rest) = number(rest)?;
        return Ok((Answer::Text(EntryNo(n)), rest));
    }
    channel_event(bytes)
}

/// An event of a channel.
#[tactic(auto, unfolding(crate::specs::Grammar::channel_event_at))]
fn channel_event(bytes: &[u8]) -> Result<(Answer, &[u8]), Fault>
    ensures { Gives (λ x. (x.0, x.1.now)) result (grammar.channel_event_at bytes.now) }
{
    if let Some(rest) = behind(b"connected ", bytes) {
        let ((n, e), rest) = two_numbers(rest)?;
        return Ok((event(e, EventKind::Connected(ChannelNo(n))), rest));
    }
    if let Some(rest) = behind(b"message ", bytes) {
        let ((n, e), rest) = two_numbers(rest)?;
        return Ok((event(e, EventKind::Message(ChannelNo(n))), rest));
    }
    if let Some(rest) = behind(b"disconnected ", bytes) {
        let ((n, e), rest) = two_numbers(rest)?;
        return Ok((event(e, EventKind::Disconnected(ChannelNo(n))), rest));
    }
    request_event(bytes)
}

/// An event of a request.
#[tactic(auto, unfolding(crate::specs::Grammar::request_event_at))]
fn request_event(bytes: &[u8]) -> Result<(Answer, &[u8]), Fault>
    ensures { Gives (λ x. (x.0, x.1.now)) result (grammar.request_event_at bytes.now) }
{
    if let Some(rest) = behind(b"asked ", bytes) {
        let ((n, e), rest) = two_numbers(rest)?;
        return Ok((event(e, EventKind::Asked(RequestNo(n))), rest));
    }
    if let Some(rest) = behind(b"replied ", bytes) {
        let ((n, e), rest) = two_numbers(rest)?;
        return Ok((event(e, EventKind::Replied(RequestNo(n))), rest));
    }
    if let Some(rest) = behind(b"closed ", bytes) {
        let ((n, e), rest) = two_numbers(rest)?;
        return Ok((event(e, EventKind::Closed(RequestNo(n))), rest));
    }
    target_answer(bytes)
}

/// An answer about a target.
#[tactic(auto, unfolding(crate::specs::Grammar::target_answer_at))]
fn target_answer(bytes: &[u8]) -> Result<(Answer, &[u8]), Fault>
    ensures { Gives (λ x. (x.0, x.1.now)) result (grammar.target_answer_at bytes.now) }
{
    if let Some(rest) = behind(b"bad_target", bytes) {
        return Ok((Answer::BadTarget, rest));
    }
    if let Some(rest) = behind(b"forbidden ", bytes) {
        let (rule, rest) = rule(rest)?;
        return Ok((Answer::Forbidden(rule), rest));
    }
    if let Some(rest) = behind(b"no_receiver", bytes) {
        return Ok((Answer::NoReceiver, rest));
    }
    post_answer(bytes)
}

/// An answer to a post.
#[tactic(auto, unfolding(crate::specs::Grammar::post_answer_at))]
fn post_answer(bytes: &[u8]) -> Result<(Answer, &[u8]), Fault>
    ensures { Gives (λ x. (x.0, x.1.now)) result (grammar.post_answer_at bytes.now) }
{
    if let Some(rest) = behind(b"posted", bytes) {
        return Ok((Answer::Posted, rest));
    }
    if let Some(rest) = behind(b"no_port", bytes) {
        return Ok((Answer::NoPort, rest));
    }
    if let Some(rest) = behind(b"port_closed", bytes) {
        return Ok((Answer::PortClosed, rest));
    }
    common_answer(bytes)
}

/// An answer to calls of several sorts.
#[tactic(auto, unfolding(crate::specs::Grammar::common_answer_at))]
fn common_answer(bytes: &[u8]) -> Result<(Answer, &[u8]), Fault>
    ensures { Gives (λ x. (x.0, x.1.now)) result (grammar.common_answer_at bytes.now) }
{
    if let Some(rest) = behind(b"done", bytes) {
        return Ok((Answer::Done, rest));
    }
    if let Some(rest) = behind(b"gone", bytes) {
        return Ok((Answer::Gone, rest));
    }
    if let Some(rest) = behind(b"empty", bytes) {
        return Ok((Answer::Empty, rest));
    }
    if let Some(rest) = behind(b"too_long", bytes) {
        return Ok((Answer::TooLong, rest));
    }
    if let Some(rest) = behind(b"no_effect", bytes) {
        return Ok((Answer::NoEffect, rest));
    }
    reply_answer(bytes)
}

/// An answer to a reply.
#[tactic(auto, unfolding(crate::specs::Grammar::reply_answer_at))]
fn reply_answer(bytes: &[u8]) -> Result<(Answer, &[u8]), Fault>
    ensures { Gives (λ x. (x.0, x.1.now)) result (grammar.reply_answer_at bytes.now) }
{
    if let Some(rest) = behind(b"first", bytes) {
        return Ok((Answer::First, rest));
    }
    if let Some(rest) = behind(b"late", bytes) {
        return Ok((Answer::Late, rest));
    }
    if let Some(rest) = behind(b"not_yours", bytes) {
        return Ok((Answer::NotYours, rest));
    }
    native_answer(bytes)
}

/// A refusal of a call for a native host, before the host is looked up.
#[tactic(auto, unfolding(crate::specs::Grammar::native_answer_at))]
fn native_answer(bytes: &[u8]) -> Result<(Answer, &[u8]), Fault>
    ensures { Gives (λ x. (x.0, x.1.now)) result (grammar.native_answer_at bytes.now) }
{
    if let Some(rest) = behind(b"no_permission", bytes) {
        return Ok((Answer::NoPermission, rest));
    }
    if let Some(rest) = behind(b"bad_host_name", bytes) {
        return Ok((Answer::BadHostName, rest));
    }
    installed_answer(bytes)
}

/// A refusal of a call for a native host, by the hosts that are installed.
#[tactic(auto, unfolding(crate::specs::Grammar::installed_answer_at))]
fn installed_answer(bytes: &[u8]) -> Result<(Answer, &[u8]), Fault>
    ensures { Gives (λ x. (x.0, x.1.now)) result (grammar.installed_answer_at bytes.now) }
{
    if let Some(rest) = behind(b"host_not_found", bytes) {
        return Ok((Answer::HostNotFound, rest));
    }
    if let Some(rest) = behind(b"host_forbidden", bytes) {
        return Ok((Answer::HostForbidden, rest));
    }
    host_answer(bytes)
}

/// An answer to a host.
#[tactic(auto, unfolding(crate::specs::Grammar::host_answer_at))]
fn host_answer(bytes: &[u8]) -> Result<(Answer, &[u8]), Fault>
    ensures { Gives (λ x. (x.0, x.1.now)) result (grammar.host_answer_at bytes.now) }
{
    if let Some(rest) = behind(b"end", bytes) {
        return Ok((Answer::End, rest));
    }
    if let Some(rest) = behind(b"passed", bytes) {
        return Ok((Answer::Passed, rest));
    }
    if let Some(rest) = behind(b"ignored", bytes) {
        return Ok((Answer::Ignored, rest));
    }
    if let Some(rest) = behind(b"already", bytes) {
        return Ok((Answer::Already, rest));
    }
    Err(Fault::Bad)
}
