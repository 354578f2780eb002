//! What a journal tells of one channel.
ghost use Rattle.std.specs.Prelude.{◌≡◌, Some, None, cond, is_some, reverse};
ghost use Rattle.std.specs.Option.{option_or, option_map, IfSome};
ghost use Rattle.wx_external.specs.World.{WorldLists};
ghost use Rattle.wx_machine.specs.Answers.{IsLegal};
ghost use Rattle.wx_machine.specs.Channels.{channel};
ghost use Rattle.wx_machine.specs.Closing.{closed_at};
ghost use Rattle.wx_laws.specs.Keeping.{KeepsChannel};
ghost use Rattle.wx_reports.specs.Counts.{given_on, taken_on};
ghost use Rattle.wx_reports.specs.Places.{IsOpening, IsClosing};
ghost use Rattle.wx_id.specs.Numbers.{entry_no};
ghost use Rattle.wx_reports.specs.Reports.{opened_at, is_posting, posted, is_taking, taken, port_report};

use wx_id::{ChannelNo, EntryNo, EventKind};
use wx_machine::{Answer, Call, Entry, Who};
use wx_walks::channels::opens;
use wx_walks::closing;
use wx_walks::hosts::{is_for_channel, work_of};

/// What a journal tells of a channel.
#[derive(Clone, Copy, Debug, PartialEq, Eq)]
pub struct PortReport {
    /// The entry that opened it.
    pub opened: EntryNo,
    /// The entry that closed it.
    pub closed: Option<EntryNo>,
    /// How many messages were posted on it, or said by its host and passed on.
    pub posted: u64,
    /// How many of its messages were taken, by contexts and by its host.
    pub taken: u64,
}

/// The entry at that place where it is the one sought, unless one was found.
pub fn found_at(found: Option<EntryNo>, is_here: bool, place: usize) -> Option<EntryNo>
    ensures { result ≡ option_or found (cond is_here (Some (entry_no place)) None) }
{
    match found {
        Some(entry) => Some(entry),
        None => {
            if is_here {
                Some(EntryNo(place as u64))
            } else {
                None
            }
        }
    }
}

/// The entry that opened channel k.
#[tactic(auto, using(wx_laws::proofs::Newest::past_at_read, wx_laws::proofs::Newest::length_past, wx_laws::proofs::ChannelsLater::channels_more))]
fn opened_at(entries: &[Entry], k: ChannelNo) -> Option<EntryNo>
    ensures { result ≡ opened_at (reverse entries.now) k.0 }
{
    let mut count: u64 = 0;
    let mut opened = None;
    for (i, e) in entries.iter().enumerate() {
        let opens = opens(&entries[..i], e);
        opened = found_at(opened, count == k.0 && opens, i);
        if opens {
            count += 1;
        }
    }
    opened
}

/// The entry that closed channel k.
fn closed_at(entries: &[Entry], k: ChannelNo) -> Option<EntryNo>
    ensures { result ≡ option_map entry_no (closed_at (reverse entries.now) k.0) }
{
    match closing::closed_at(entries, k) {
        Some(n) => Some(EntryNo(n)),
        None => None,
    }
}

/// Whether the entry posts a message on channel k, or its host says one that is passed on.
fn is_posting(before: &[Entry], e: &Entry, k: ChannelNo) -> bool
    ensures { result ≡ is_posting (reverse before.now) k.0 e.now.who e.now.call e.now.answer }
{
    match (&e.who, &e.call, &e.answer) {
        (Who::Context(_), Call::Post(j, _), Answer::Posted) => *j == k,
        (Who::Host(h), Call::HostSaid(_), Answer::Passed) => is_for_channel(work_of(before, *h), k),
        _ => false,
    }
}

/// How many messages were posted on channel k, or said by its host and passed on.
#[tactic(auto, using(wx_laws::proofs::Newest::past_at_read))]
fn posted(entries: &[Entry], k: ChannelNo) -> u64
    ensures { result ≡ posted (reverse entries.now) k.0 }
{
    let mut count: u64 = 0;
    for (i, e) in entries.iter().enumerate() {
        if is_posting(&entries[..i], e, k) {
            count += 1;
        }
    }
    count
}

/// Whether the entry takes a message of channel k, or its host takes a text.
fn is_taking(before: &[Entry], e: &Entry, k: ChannelNo) -> bool
    ensures { result ≡ is_taking (reverse before.now) k.0 e.now.who e.now.call e.now.answer }
{
    match (&e.who, &e.call, &e.answer) {
        (Who::Context(_), Call::Take, Answer::Event(event)) => match event.kind {
            EventKind::Message(j) => j == k,
            _ => false,
        },
        (Who::Host(h), Call::HostTake, Answer::Text(_)) => is_for_channel(work_of(before, *h), k),
        _ => false,
    }
}

/// How many messages of channel k were taken, by contexts and by its host.
#[tactic(auto, using(wx_laws::proofs::Newest::past_at_read))]
fn taken(entries: &[Entry], k: ChannelNo) -> u64
    ensures { result ≡ taken (reverse entries.now) k.0 }
{
    let mut count: u64 = 0;
    for (i, e) in entries.iter().enumerate() {
        if is_taking(&entries[..i], e, k) {
            count += 1;
        }
    }
    count
}

/// What the entries tell of channel k, none where there is no such channel. Where they are legal the laws of messaging
/// hold of the channel, with the entry that the report says closed it.
#[tactic(auto, using(crate::proofs::ReportsLater::is_opened))]
pub fn port_report(entries: &[Entry], k: ChannelNo) -> Option<PortReport>
    ensures tells { result ≡ port_report (reverse entries.now) k.0 }
    ensures there { is_some result ≡ is_some (channel (reverse entries.now) k.0) }
    ensures opened { IfSome result (λ report. IsOpening (reverse entries.now) k.0 report.opened) }
    ensures closed { IfSome result (λ report. IfSome report.closed (IsClosing (reverse entries.now) k.0)) }
    ensures laws { (world : WorldLists) → IsLegal world entries.now
        → IfSome result (λ report. KeepsChannel entries.now k.0 (option_map (λ n. n.0) report.closed)) }
    ensures given { (world : WorldLists) → IsLegal world entries.now
        → IfSome result (λ report. report.posted ≡ given_on (reverse entries.now) k.0) }
    ensures taken { (world : WorldLists) → IsLegal world entries.now
        → IfSome result (λ report. report.taken ≡ taken_on (reverse entries.now) k.0) }
{
    match opened_at(entries, k) {
        None => None,
        Some(opened) => Some(PortReport {
            opened,
            closed: closed_at(entries, k),
            posted: posted(entries, k),
            taken: taken(entries, k),
        }),
    }
}
