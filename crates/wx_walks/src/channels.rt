//! The channels of a journal and their ends.
ghost use Rattle.std.specs.Prelude.{◌≡◌, ◌&&◌, ◌==◌, cond, is_some, length, reverse};
ghost use Rattle.wx_machine.specs.Channels.{opens, channels, channel, end_in};

use crate::contexts::is_receiver;
use wx_id::{ChannelNo, ContextNo, End};
use wx_machine::{Answer, Call, Entry, Sort, Who};

/// Whether the entry opens a channel.
pub fn opens(before: &[Entry], e: &Entry) -> bool
    ensures { result ≡ is_some (opens (reverse before.now) e.now) }
{
    match (&e.who, &e.call, &e.answer) {
        (Who::Context(_), Call::Connect(_, _), Answer::Channel(_)) => true,
        (Who::Context(_), Call::ConnectNative(_), Answer::Channel(_)) => true,
        _ => false,
    }
}

/// How many channels were opened.
#[tactic(auto, using(wx_laws::proofs::Newest::past_at_read, wx_laws::proofs::ChannelsLater::channels_more))]
pub fn count(entries: &[Entry]) -> u64
    ensures { result ≡ length (channels (reverse entries.now)) }
{
    let mut count: u64 = 0;
    for (i, e) in entries.iter().enumerate() {
        if opens(&entries[..i], e) {
            count += 1;
        }
    }
    count
}

/// What a context is to the channel that the entry opens.
#[tactic(auto, using(wx_laws::proofs::ChannelsLater::is_among_receivers))]
fn end_at_opening(before: &[Entry], e: &Entry, c: ContextNo) -> End
    ensures { result ≡ end_in (opens (reverse before.now) e.now) c }
{
    match (&e.who, &e.call, &e.answer) {
        (Who::Context(opener), Call::Connect(target, _), Answer::Channel(_)) => {
            if *opener == c {
                End::Opener
            } else if is_receiver(before, *opener, target, Sort::Connection, c) {
                End::Receiver
            } else {
                End::Neither
            }
        }
        (Who::Context(opener), Call::ConnectNative(_), Answer::Channel(_)) if *opener == c => {
            End::Opener
        }
        _ => End::Neither,
    }
}

/// What a context is to channel k after the entry, which may open the channel `next`, given what it was before.
fn end_after(before: &[Entry], e: &Entry, next: u64, k: ChannelNo, c: ContextNo, was: End) -> End
    ensures { result ≡ cond ((next == k.0) && is_some (opens (reverse before.now) e.now))
        (end_in (opens (reverse before.now) e.now) c) was }
{
    if next == k.0 && opens(before, e) {
        end_at_opening(before, e, c)
    } else {
        was
    }
}

/// What a context is to channel k.
#[tactic(auto, using(wx_laws::proofs::Newest::past_at_read, wx_laws::proofs::ChannelsLater::channels_more, wx_laws::proofs::ChannelsLater::end_more))]
pub fn end_of(entries: &[Entry], k: ChannelNo, c: ContextNo) -> End
    ensures { result ≡ end_in (channel (reverse entries.now) k.0) c }
{
    let mut count: u64 = 0;
    let mut end = End::Neither;
    for (i, e) in entries.iter().enumerate() {
        end = end_after(&entries[..i], e, count, k, c, end);
        if opens(&entries[..i], e) {
            count += 1;
        }
    }
    end
}
