//! Journals that are made entry by entry: their texts and reports.
use crate::values::{A, json, name, page};
use std::alloc::Global;
use std::process::Abort;
use wx_context::Target;
use wx_id::{ChannelNo, ContextNo, EntryNo, Event, EventKind, HostNo, RequestNo};
use wx_journal::{Journal, PortReport, RequestReport};
use wx_machine::{Answer, Call, Entry, JsonKind, Reason, Who};

/// Appends an entry of context 0.
fn add(journal: &mut Journal, call: Call, answer: Answer) -> Option<()> {
    let who = Who::Context(ContextNo(0));
    journal.push(Entry { who, call, answer }).ok()
}

/// Ends the journal: the drops of its parts are proved once, here.
fn end(_journal: Journal) {}

fn closed(r: u64, entry: u64) -> Answer {
    let (entry, kind) = (EntryNo(entry), EventKind::Closed(RequestNo(r)));
    Answer::Event(Event { entry, kind })
}

fn add_seven(journal: &mut Journal, alloc: Global) -> Option<()> {
    journal.reserve(7).ok()?;
    let enter = Call::Enter(page(alloc, A, "/q")?);
    add(journal, enter, Answer::Entered(ContextNo(0)))?;
    let port = name(alloc, "a\nb")?;
    let connect = Call::Connect(Target::Own, port);
    add(journal, connect, Answer::NoReceiver)?;
    let post = Call::Post(ChannelNo(7), json(alloc, "10")?);
    add(journal, post, Answer::NoPort)?;
    let send = Call::Send(Target::Own, json(alloc, "[1]")?);
    add(journal, send, Answer::Request(RequestNo(0)))?;
    let reply = Call::Reply(RequestNo(3), json(alloc, "10.5")?);
    add(journal, reply, Answer::NotYours)?;
    add(journal, Call::Decline(RequestNo(3)), Answer::Late)?;
    add(journal, Call::Take, closed(2, 9))
}

const SEVEN_TEXT: &[u8] =
    b"wx journal 1 chrome\nc0 enter page aaaaaaaaaaaaaaaaaaaaaaaaaaaaaaaa 2:/q -> context 0\nc0 connect own 3:a\nb -> no_receiver\nc0 post 7 2:10 -> no_port\nc0 send own 3:[1] -> request 0\nc0 reply 3 4:10.5 -> not_yours\nc0 decline 3 -> late\nc0 take -> closed 2 9\n";

/// Whether that is the text of the journal.
fn prints(alloc: Global, journal: &Journal, want: &[u8]) -> bool {
    match journal.print(alloc) {
        Ok(text) => text.as_slice() == want,
        Err(_) => false,
    }
}

#[test]
fn journal_and_text(rt: HostRuntime) {
    let mut journal = Journal::new(rt.alloc());
    assert!(rt; add_seven(&mut journal, rt.alloc()).is_some());
    assert_eq!(rt; journal.len(), 7);
    assert_eq!(rt; journal.text_of(EntryNo(2)).map(|text| text.len()), Some(2));
    assert_eq!(rt; journal.text_of(EntryNo(3)).map(|text| text.len()), Some(3));
    assert_eq!(rt; journal.text_of(EntryNo(4)).map(|text| text.len()), Some(4));
    assert!(rt; journal.text_of(EntryNo(5)).is_none());
    assert!(rt; journal.entry(EntryNo(7)).is_none());
    assert!(rt; prints(rt.alloc(), &journal, SEVEN_TEXT));
    end(journal);
}

fn add_channel(journal: &mut Journal, alloc: Global) -> Option<()> {
    let enter = Call::Enter(page(alloc, A, "/q")?);
    add(journal, enter, Answer::Entered(ContextNo(0)))?;
    let connect = Call::Connect(Target::Own, name(alloc, "a")?);
    let (channel, opened) = (ChannelNo(0), Answer::Channel(ChannelNo(0)));
    add(journal, connect, opened)?;
    let post = Call::Post(channel, json(alloc, "1")?);
    add(journal, post, Answer::Posted)?;
    add(journal, Call::Disconnect(channel), Answer::Done)
}

#[test]
fn reports(rt: HostRuntime) {
    let (mut seven, mut one) = (Journal::new(rt.alloc()), Journal::new(rt.alloc()));
    assert!(rt; add_seven(&mut seven, rt.alloc()).is_some());
    assert!(rt; add_channel(&mut one, rt.alloc()).is_some());
    assert_eq!(rt; seven.port_report(ChannelNo(0)), None);
    assert_eq!(rt; seven.request_report(RequestNo(3)), None);
    assert_eq!(rt;
        seven.request_report(RequestNo(0)),
        Some(RequestReport {
            opened: EntryNo(3),
            settled: None
        })
    );
    let report = PortReport {
        opened: EntryNo(1),
        closed: Some(EntryNo(3)),
        posted: 1,
        taken: 0,
    };
    assert_eq!(rt; one.port_report(ChannelNo(0)), Some(report));
    end(seven);
    end(one);
}

/// Each reason of a host's end.
const REASONS: [Reason; 11] = [
    Reason::StartFailed,
    Reason::ReadFailed,
    Reason::WriteFailed,
    Reason::TooLong { len: 1_048_577 },
    Reason::BadJson {
        place: 2,
        kind: JsonKind::Syntax,
    },
    Reason::BadJson {
        place: 0,
        kind: JsonKind::Utf8,
    },
    Reason::BadJson {
        place: 1_024,
        kind: JsonKind::TooDeep,
    },
    Reason::BadJson {
        place: 0,
        kind: JsonKind::Ends,
    },
    Reason::Cut { have: 5 },
    Reason::Exited,
    Reason::Closed,
];

/// A native call that is refused, and each reason of a host's end.
fn add_native_calls(journal: &mut Journal, alloc: Global) -> Option<()> {
    let (who, host) = (Who::Context(ContextNo(2)), Who::Host(HostNo(7)));
    let call = Call::SendNative(name(alloc, "a b")?, json(alloc, "[]")?);
    let answer = Answer::BadHostName;
    journal.push(Entry { who, call, answer }).ok()?;
    for reason in REASONS {
        let (call, answer) = (Call::HostEnded(reason), Answer::Already);
        journal
            .push(Entry {
                who: host,
                call,
                answer,
            })
            .ok()?;
    }
    Some(())
}

const NATIVE_TEXT: &[u8] =
    b"wx journal 1 chrome\nc2 send_native 3:a b 2:[] -> bad_host_name\nh7 host_ended start_failed -> already\nh7 host_ended read_failed -> already\nh7 host_ended write_failed -> already\nh7 host_ended too_long 1048577 -> already\nh7 host_ended bad_json 2 syntax -> already\nh7 host_ended bad_json 0 utf8 -> already\nh7 host_ended bad_json 1024 too_deep -> already\nh7 host_ended bad_json 0 ends -> already\nh7 host_ended cut 5 -> already\nh7 host_ended exited -> already\nh7 host_ended closed -> already\n";

#[test]
fn native_text(rt: HostRuntime) {
    let mut journal = Journal::new(rt.alloc());
    assert!(rt; add_native_calls(&mut journal, rt.alloc()).is_some());
    assert!(rt; prints(rt.alloc(), &journal, NATIVE_TEXT));
    end(journal);
}
