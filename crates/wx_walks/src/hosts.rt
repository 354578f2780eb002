//! The native hosts of a journal, and what each was started for.
ghost use Rattle.std.specs.Prelude.{◌≡◌, ◌&&◌, ◌==◌, cond, is_some, reverse};
ghost use Rattle.wx_machine.specs.Hosts.{starts, work_in, work_of, is_for_channel, is_for_request};

use crate::{channels, requests};
use wx_id::{ChannelNo, HostNo, RequestNo};
use wx_machine::{Answer, Call, Entry, Who, Work};

/// Whether the entry starts a host.
pub fn starts(before: &[Entry], e: &Entry) -> bool
    ensures { result ≡ is_some (starts (reverse before.now) e.now) }
{
    match (&e.who, &e.call, &e.answer) {
        (Who::Context(_), Call::ConnectNative(_), Answer::Channel(_)) => true,
        (Who::Context(_), Call::SendNative(_, _), Answer::Request(_)) => true,
        _ => false,
    }
}

/// What the host that the entry starts works for.
fn work_at_start(before: &[Entry], e: &Entry) -> Option<Work>
    ensures { result ≡ work_in (starts (reverse before.now) e.now) }
{
    match (&e.who, &e.call, &e.answer) {
        (Who::Context(_), Call::ConnectNative(_), Answer::Channel(_)) => {
            Some(Work::Channel(ChannelNo(channels::count(before))))
        }
        (Who::Context(_), Call::SendNative(_, _), Answer::Request(_)) => {
            Some(Work::Request(RequestNo(requests::count(before))))
        }
        _ => None,
    }
}

/// What host h works for after the entry, which may start the host `next`, given what was so before.
fn work_after(before: &[Entry], e: &Entry, next: u64, h: HostNo, was: Option<Work>) -> Option<Work>
    ensures { result ≡ cond ((next == h.0) && is_some (starts (reverse before.now) e.now))
        (work_in (starts (reverse before.now) e.now)) was }
{
    if next == h.0 && starts(before, e) {
        work_at_start(before, e)
    } else {
        was
    }
}

/// What host h works for.
#[tactic(auto, using(wx_laws::proofs::Newest::past_at_read, wx_laws::proofs::HostsLater::hosts_more, wx_laws::proofs::HostsLater::work_more))]
pub fn work_of(entries: &[Entry], h: HostNo) -> Option<Work>
    ensures { result ≡ work_of (reverse entries.now) h }
{
    let mut count: u64 = 0;
    let mut work = None;
    for (i, e) in entries.iter().enumerate() {
        work = work_after(&entries[..i], e, count, h, work);
        if starts(&entries[..i], e) {
            count += 1;
        }
    }
    work
}

/// Whether that is channel k.
pub fn is_for_channel(work: Option<Work>, k: ChannelNo) -> bool
    ensures { result ≡ is_for_channel k.0 work }
{
    match work {
        Some(Work::Channel(j)) => j == k,
        _ => false,
    }
}

/// Whether that is request r.
pub fn is_for_request(work: Option<Work>, r: RequestNo) -> bool
    ensures { result ≡ is_for_request r.0 work }
{
    match work {
        Some(Work::Request(j)) => j == r,
        _ => false,
    }
}
