//! The entry that closes a channel.
ghost use Rattle.std.specs.Prelude.{◌≡◌, ◌&&◌, ◌==◌, ◌∷◌, cond, is_some, filter, length, reverse, Some, None};
ghost use Rattle.std.specs.Option.{option_or};
ghost use Rattle.std.specs.List.{list_any};
ghost use Rattle.wx_machine.specs.Contexts.{is_live, is_receiver, receivers_of, numbers_of, enters};
ghost use Rattle.wx_machine.specs.Channels.{opens, channel};
ghost use Rattle.wx_machine.specs.Closing.{has_live, ends_channel, closed_at};

use crate::channels::{end_of, opens};
use crate::contexts::{brings, came, has_left, is_live, is_receiver, leaves};
use crate::hosts::{is_for_channel, work_of};
use wx_context::Target;
use wx_id::{ChannelNo, ContextNo, End};
use wx_machine::{Answer, Call, Entry, Sort, Who};

/// Context c lives after the entry.
#[tactic(auto, using(wx_laws::proofs::Newest::came_more))]
pub fn is_live_after(before: &[Entry], e: &Entry, c: ContextNo) -> bool
    ensures { result ≡ is_live (e.now ∷ reverse before.now) c }
{
    let there = came(before, c);
    let left = has_left(before, c) || (there && leaves(e, c));
    (there || brings(e, c)) && !left
}

/// Whether the entry f brings in a context that is a receiver and lives after the entry e.
fn receives_and_lives(
    at: &[Entry],
    opener: ContextNo,
    target: &Target,
    f: &Entry,
    before: &[Entry],
    e: &Entry,
) -> bool
    ensures { result ≡ list_any (is_live (e.now ∷ reverse before.now))
        (filter (is_receiver (reverse at.now) opener target.now Sort.Connection) (numbers_of (enters f.now))) }
{
    match (&f.who, &f.call, &f.answer) {
        (Who::Context(_), Call::Enter(_), Answer::Entered(n)) => {
            is_receiver(at, opener, target, Sort::Connection, *n) && is_live_after(before, e, *n)
        }
        _ => false,
    }
}

/// Some receiver lives after the entry e.
#[tactic(auto, using(wx_laws::proofs::Newest::past_at_read, crate::proofs::ClosingLater::some_more))]
fn some_receiver_lives(
    at: &[Entry],
    opener: ContextNo,
    target: &Target,
    before: &[Entry],
    e: &Entry,
) -> bool
    ensures { result ≡ list_any (is_live (e.now ∷ reverse before.now))
        (receivers_of (reverse at.now) opener target.now Sort.Connection) }
{
    let mut any = false;
    for f in at {
        any = any || receives_and_lives(at, opener, target, f, before, e);
    }
    any
}

/// Some receiver of the channel that the entry f opens lives after the entry e.
fn has_live_at_opening(at: &[Entry], f: &Entry, before: &[Entry], e: &Entry) -> bool
    ensures { result ≡ has_live (e.now ∷ reverse before.now) (opens (reverse at.now) f.now) }
{
    match (&f.who, &f.call, &f.answer) {
        (Who::Context(opener), Call::Connect(target, _), Answer::Channel(_)) => {
            some_receiver_lives(at, *opener, target, before, e)
        }
        _ => false,
    }
}

/// The same of channel k after the entry f, which may open the channel `next`, given what was so before.
fn has_live_after(
    at: &[Entry],
    f: &Entry,
    next: u64,
    k: ChannelNo,
    before: &[Entry],
    e: &Entry,
    was: bool,
) -> bool
    ensures { result ≡ cond ((next == k.0) && is_some (opens (reverse at.now) f.now))
        (has_live (e.now ∷ reverse before.now) (opens (reverse at.now) f.now)) was }
{
    if next == k.0 && opens(at, f) {
        has_live_at_opening(at, f, before, e)
    } else {
        was
    }
}

/// Some receiver of channel k lives after the entry e.
#[tactic(auto, using(wx_laws::proofs::Newest::past_at_read, wx_laws::proofs::ChannelsLater::channels_more, crate::proofs::ClosingLater::has_live_more))]
pub fn has_live_receiver(before: &[Entry], e: &Entry, k: ChannelNo) -> bool
    ensures { result ≡ has_live (e.now ∷ reverse before.now) (channel (reverse before.now) k.0) }
{
    let mut count: u64 = 0;
    let mut live = false;
    for (i, f) in before.iter().enumerate() {
        live = has_live_after(&before[..i], f, count, k, before, e, live);
        if opens(&before[..i], f) {
            count += 1;
        }
    }
    live
}

/// The entry e ends channel k, if nothing did before. The call is tested before any walk.
pub fn ends_channel(before: &[Entry], e: &Entry, k: ChannelNo) -> bool
    ensures { result ≡ ends_channel (reverse before.now) e.now k.0 }
{
    match (&e.who, &e.call) {
        (Who::Context(c), Call::Disconnect(j)) => {
            *j == k && end_of(before, k, *c) != End::Neither && is_live(before, *c)
        }
        (Who::Context(c), Call::Leave) => {
            let end = end_of(before, k, *c);
            end == End::Opener || (end == End::Receiver && !has_live_receiver(before, e, k))
        }
        (Who::Host(h), Call::HostEnded(_)) => is_for_channel(work_of(before, *h), k),
        _ => false,
    }
}

/// The number of the entry e where it ends channel k, unless an entry before did.
fn closed_after(before: &[Entry], e: &Entry, k: ChannelNo, was: Option<u64>) -> Option<u64>
    ensures { result ≡ option_or was (cond (ends_channel (reverse before.now) e.now k.0) (Some (length before.now))
        None) }
{
    match was {
        Some(n) => Some(n),
        None => {
            if ends_channel(before, e, k) {
                Some(before.len() as u64)
            } else {
                None
            }
        }
    }
}

/// The number of the entry that closed channel k.
#[tactic(auto, using(wx_laws::proofs::Newest::past_at_read, wx_laws::proofs::Newest::length_past))]
pub fn closed_at(entries: &[Entry], k: ChannelNo) -> Option<u64>
    ensures { result ≡ closed_at (reverse entries.now) k.0 }
{
    let mut closed = None;
    for (i, e) in entries.iter().enumerate() {
        closed = closed_after(&entries[..i], e, k, closed);
    }
    closed
}
