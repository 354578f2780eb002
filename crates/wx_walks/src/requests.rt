//! The requests of a journal, whom each was sent to, and the entry that settles one.
ghost use Rattle.std.specs.Prelude.{◌≡◌, ◌&&◌, ◌==◌, ◌∷◌, cond, is_some, filter, length, reverse};
ghost use Rattle.std.specs.List.{list_any};
ghost use Rattle.wx_machine.specs.Contexts.{is_by, is_live, is_receiver, receivers_of, numbers_of, enters};
ghost use Rattle.wx_machine.specs.Requests.{asks, requests, request, is_asker, is_asked};
ghost use Rattle.wx_machine.specs.Settling.{is_decline, has_declined, is_open_to, has_open};
ghost use Rattle.wx_machine.specs.Settling.{ends_request};

use crate::closing::is_live_after;
use crate::contexts::{is_by, is_live, is_receiver};
use crate::hosts::{is_for_request, work_of};
use wx_context::Target;
use wx_id::{ContextNo, RequestNo};
use wx_machine::{Answer, Call, Entry, LONGEST, Sort, Who};

/// Whether the entry makes a request.
pub fn asks(before: &[Entry], e: &Entry) -> bool
    ensures { result ≡ is_some (asks (reverse before.now) e.now) }
{
    match (&e.who, &e.call, &e.answer) {
        (Who::Context(_), Call::Send(_, _), Answer::Request(_)) => true,
        (Who::Context(_), Call::SendNative(_, _), Answer::Request(_)) => true,
        _ => false,
    }
}

/// How many requests were made.
#[tactic(auto, using(wx_laws::proofs::Newest::past_at_read, wx_laws::proofs::RequestsLater::requests_more))]
pub fn count(entries: &[Entry]) -> u64
    ensures { result ≡ length (requests (reverse entries.now)) }
{
    let mut count: u64 = 0;
    for (i, e) in entries.iter().enumerate() {
        if asks(&entries[..i], e) {
            count += 1;
        }
    }
    count
}

/// Whether context c makes a request by the entry.
fn is_asker_at(before: &[Entry], e: &Entry, c: ContextNo) -> bool
    ensures { result ≡ is_asker (asks (reverse before.now) e.now) c }
{
    match (&e.who, &e.call, &e.answer) {
        (Who::Context(asker), Call::Send(_, _), Answer::Request(_)) => *asker == c,
        (Who::Context(asker), Call::SendNative(_, _), Answer::Request(_)) => *asker == c,
        _ => false,
    }
}

/// Whether the entry sends a request to context c.
#[tactic(auto, using(wx_laws::proofs::ChannelsLater::is_among_receivers))]
fn is_asked_at(before: &[Entry], e: &Entry, c: ContextNo) -> bool
    ensures { result ≡ is_asked (asks (reverse before.now) e.now) c }
{
    match (&e.who, &e.call, &e.answer) {
        (Who::Context(asker), Call::Send(target, _), Answer::Request(_)) => {
            is_receiver(before, *asker, target, Sort::Message, c)
        }
        _ => false,
    }
}

/// Whether context c made request r, after the entry, which may make the request `next`, given what was so before.
fn is_asker_after(
    before: &[Entry],
    e: &Entry,
    next: u64,
    r: RequestNo,
    c: ContextNo,
    was: bool,
) -> bool
    ensures { result ≡ cond ((next == r.0) && is_some (asks (reverse before.now) e.now))
        (is_asker (asks (reverse before.now) e.now) c) was }
{
    if next == r.0 && asks(before, e) {
        is_asker_at(before, e, c)
    } else {
        was
    }
}

/// Whether context c made request r.
#[tactic(auto, using(wx_laws::proofs::Newest::past_at_read, wx_laws::proofs::RequestsLater::requests_more, wx_laws::proofs::RequestsLater::asker_more))]
pub fn is_asker(entries: &[Entry], r: RequestNo, c: ContextNo) -> bool
    ensures { result ≡ is_asker (request (reverse entries.now) r.0) c }
{
    let mut count: u64 = 0;
    let mut is = false;
    for (i, e) in entries.iter().enumerate() {
        is = is_asker_after(&entries[..i], e, count, r, c, is);
        if asks(&entries[..i], e) {
            count += 1;
        }
    }
    is
}

/// Whether request r was sent to context c, after the entry, which may make the request `next`, given what was so
/// before.
fn is_asked_after(
    before: &[Entry],
    e: &Entry,
    next: u64,
    r: RequestNo,
    c: ContextNo,
    was: bool,
) -> bool
    ensures { result ≡ cond ((next == r.0) && is_some (asks (reverse before.now) e.now))
        (is_asked (asks (reverse before.now) e.now) c) was }
{
    if next == r.0 && asks(before, e) {
        is_asked_at(before, e, c)
    } else {
        was
    }
}

/// Whether request r was sent to context c.
#[tactic(auto, using(wx_laws::proofs::Newest::past_at_read, wx_laws::proofs::RequestsLater::requests_more, wx_laws::proofs::RequestsLater::asked_more))]
pub fn is_asked(entries: &[Entry], r: RequestNo, c: ContextNo) -> bool
    ensures { result ≡ is_asked (request (reverse entries.now) r.0) c }
{
    let mut count: u64 = 0;
    let mut is = false;
    for (i, e) in entries.iter().enumerate() {
        is = is_asked_after(&entries[..i], e, count, r, c, is);
        if asks(&entries[..i], e) {
            count += 1;
        }
    }
    is
}

/// Whether context c, a live receiver of request r, declines it by the entry. The call is tested before any walk.
fn declines(before: &[Entry], e: &Entry, r: RequestNo, c: ContextNo) -> bool
    ensures { result ≡ (is_decline r.0 e.now.call && is_by e.now.who c && is_live (reverse before.now) c
        && is_asked (request (reverse before.now) r.0) c) }
{
    match &e.call {
        Call::Decline(j) => {
            *j == r && is_by(e.who, c) && is_live(before, c) && is_asked(before, r, c)
        }
        _ => false,
    }
}

/// Whether context c, as a live receiver of request r, declined it.
#[tactic(auto, using(wx_laws::proofs::Newest::past_at_read))]
pub fn has_declined(entries: &[Entry], r: RequestNo, c: ContextNo) -> bool
    ensures { result ≡ has_declined (reverse entries.now) r.0 c }
{
    let mut declined = false;
    for (i, e) in entries.iter().enumerate() {
        declined = declined || declines(&entries[..i], e, r, c);
    }
    declined
}

/// Whether context c lives after the entry and has not declined request r.
fn is_open_after(before: &[Entry], e: &Entry, r: RequestNo, c: ContextNo) -> bool
    ensures { result ≡ is_open_to (e.now ∷ reverse before.now) r.0 c }
{
    is_live_after(before, e, c) && !(has_declined(before, r, c) || declines(before, e, r, c))
}

/// Whether the entry f brings in a context that is a receiver and may still reply to request r after the entry e.
fn receives_and_is_open(
    at: &[Entry],
    asker: ContextNo,
    target: &Target,
    f: &Entry,
    before: &[Entry],
    e: &Entry,
    r: RequestNo,
) -> bool
    ensures { result ≡ list_any (is_open_to (e.now ∷ reverse before.now) r.0)
        (filter (is_receiver (reverse at.now) asker target.now Sort.Message) (numbers_of (enters f.now))) }
{
    match (&f.who, &f.call, &f.answer) {
        (Who::Context(_), Call::Enter(_), Answer::Entered(n)) => {
            is_receiver(at, asker, target, Sort::Message, *n) && is_open_after(before, e, r, *n)
        }
        _ => false,
    }
}

/// Some receiver may still reply to request r after the entry e.
#[tactic(auto, using(wx_laws::proofs::Newest::past_at_read, crate::proofs::ClosingLater::some_more))]
fn some_receiver_is_open(
    at: &[Entry],
    asker: ContextNo,
    target: &Target,
    before: &[Entry],
    e: &Entry,
    r: RequestNo,
) -> bool
    ensures { result ≡ list_any (is_open_to (e.now ∷ reverse before.now) r.0)
        (receivers_of (reverse at.now) asker target.now Sort.Message) }
{
    let mut any = false;
    for f in at {
        any = any || receives_and_is_open(at, asker, target, f, before, e, r);
    }
    any
}

/// Some receiver of the request that the entry f makes may still reply to request r after the entry e.
fn has_open_at(at: &[Entry], f: &Entry, before: &[Entry], e: &Entry, r: RequestNo) -> bool
    ensures { result ≡ has_open (e.now ∷ reverse before.now) r.0 (asks (reverse at.now) f.now) }
{
    match (&f.who, &f.call, &f.answer) {
        (Who::Context(asker), Call::Send(target, _), Answer::Request(_)) => {
            some_receiver_is_open(at, *asker, target, before, e, r)
        }
        _ => false,
    }
}

/// The same of request r after the entry f, which may make the request `next`, given what was so before.
fn has_open_after(
    at: &[Entry],
    f: &Entry,
    next: u64,
    before: &[Entry],
    e: &Entry,
    r: RequestNo,
    was: bool,
) -> bool
    ensures { result ≡ cond ((next == r.0) && is_some (asks (reverse at.now) f.now))
        (has_open (e.now ∷ reverse before.now) r.0 (asks (reverse at.now) f.now)) was }
{
    if next == r.0 && asks(at, f) {
        has_open_at(at, f, before, e, r)
    } else {
        was
    }
}

/// Some receiver of request r may still reply to it after the entry e.
#[tactic(auto, using(wx_laws::proofs::Newest::past_at_read, wx_laws::proofs::RequestsLater::requests_more, wx_laws::proofs::RequestsLater::has_open_more))]
pub fn has_open_receiver(before: &[Entry], e: &Entry, r: RequestNo) -> bool
    ensures { result ≡ has_open (e.now ∷ reverse before.now) r.0 (request (reverse before.now) r.0) }
{
    let mut count: u64 = 0;
    let mut open = false;
    for (i, f) in before.iter().enumerate() {
        open = has_open_after(&before[..i], f, count, before, e, r, open);
        if asks(&before[..i], f) {
            count += 1;
        }
    }
    open
}

/// The entry e ends request r, if nothing did before. The call is tested before any walk.
pub fn ends_request(before: &[Entry], e: &Entry, r: RequestNo) -> bool
    ensures { result ≡ ends_request (reverse before.now) e.now r.0 }
{
    match (&e.who, &e.call) {
        (Who::Context(c), Call::Reply(j, text)) => {
            *j == r
                && text.len() <= LONGEST
                && is_asked(before, r, *c)
                && is_live(before, *c)
                && !has_declined(before, r, *c)
        }
        (Who::Context(c), Call::Decline(j)) => {
            *j == r
                && is_asked(before, r, *c)
                && is_live(before, *c)
                && !has_open_receiver(before, e, r)
        }
        (Who::Context(c), Call::Leave) => {
            is_asker(before, r, *c) || (is_asked(before, r, *c) && !has_open_receiver(before, e, r))
        }
        (Who::Host(h), Call::HostSaid(_)) => is_for_request(work_of(before, *h), r),
        (Who::Host(h), Call::HostEnded(_)) => is_for_request(work_of(before, *h), r),
        _ => false,
    }
}
