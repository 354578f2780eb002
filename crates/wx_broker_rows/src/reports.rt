//! Reports on channels and requests, of lists of entries.
use crate::values::{json, name, push};
use std::alloc::Global;
use std::process::Abort;
use wx_id::{ChannelNo, ContextNo, EntryNo, Event, EventKind, HostNo, RequestNo};
use wx_machine::{Answer, Call, Entry, Reason, Who};
use wx_reports::{PortReport, RequestReport, Settled, port_report, request_report};

const CALLER: Who = Who::Context(ContextNo(0));

fn host(h: u64) -> Who {
    Who::Host(HostNo(h))
}

/// The channel of host 0: two posts, of which one is refused, a text that the host takes, a message that it says and
/// that the caller takes, and its end.
fn push_channel(entries: &mut Vec<Entry>, alloc: Global) -> Option<()> {
    let k = ChannelNo(0);
    let connect = Call::ConnectNative(name(alloc, "e")?);
    push(entries, CALLER, connect, Answer::Channel(k))?;
    push(
        entries,
        CALLER,
        Call::Post(k, json(alloc, "1")?),
        Answer::Posted,
    )?;
    push(
        entries,
        CALLER,
        Call::Post(k, json(alloc, "1")?),
        Answer::TooLong,
    )?;
    push(entries, host(0), Call::HostTake, Answer::Text(EntryNo(1)))?;
    push(
        entries,
        host(0),
        Call::HostSaid(json(alloc, "1")?),
        Answer::Passed,
    )?;
    let (entry, kind) = (EntryNo(4), EventKind::Message(k));
    let told = Answer::Event(Event { entry, kind });
    push(entries, CALLER, Call::Take, told)?;
    let end = Call::HostEnded(Reason::Exited);
    push(entries, host(0), end, Answer::Done)
}

fn push_request(entries: &mut Vec<Entry>, alloc: Global, r: u64) -> Option<()> {
    let send = Call::SendNative(name(alloc, "e")?, json(alloc, "1")?);
    push(entries, CALLER, send, Answer::Request(RequestNo(r)))
}

/// Host 0 on a channel, and hosts 1 to 3 on requests: the first replies, the second does not start, and the asker
/// leaves the third. The list is not legal, since the caller never comes in.
fn push_all(entries: &mut Vec<Entry>, alloc: Global) -> Option<()> {
    push_channel(entries, alloc)?;
    push_request(entries, alloc, 0)?;
    let said = Call::HostSaid(json(alloc, "1")?);
    push(entries, host(1), said, Answer::Passed)?;
    push_request(entries, alloc, 1)?;
    let end = Call::HostEnded(Reason::StartFailed);
    push(entries, host(2), end, Answer::Done)?;
    push_request(entries, alloc, 2)?;
    push(entries, CALLER, Call::Leave, Answer::Done)
}

/// The request, the entry that made it, and the entry that settled it, with how; none where there is no such request.
type Row = (u64, Option<(u64, u64, Settled)>);

const REQUESTS: [Row; 4] = [
    (0, Some((7, 8, Settled::First))),
    (1, Some((9, 10, Settled::Closed))),
    (2, Some((11, 12, Settled::Left))),
    (3, None),
];

/// The report of a settled request.
fn settled(opened: u64, entry: u64, way: Settled) -> RequestReport {
    RequestReport {
        opened: EntryNo(opened),
        settled: Some((EntryNo(entry), way)),
    }
}

#[test]
fn reports(rt: HostRuntime) {
    let mut entries = Vec::new(rt.alloc());
    assert!(rt; push_all(&mut entries, rt.alloc()).is_some());
    let port = PortReport {
        opened: EntryNo(0),
        closed: Some(EntryNo(6)),
        posted: 2,
        taken: 2,
    };
    assert_eq!(rt; port_report(&entries, ChannelNo(0)), Some(port));
    assert_eq!(rt; port_report(&entries, ChannelNo(1)), None);
    for (r, want) in REQUESTS {
        let want = match want {
            Some((opened, entry, way)) => Some(settled(opened, entry, way)),
            None => None,
        };
        assert_eq!(rt; request_report(&entries, RequestNo(r)), want);
    }
}
