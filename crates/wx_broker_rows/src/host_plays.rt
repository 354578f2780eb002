//! Plays of native hosts: worked examples of the machine, each made by the broker.
use crate::calls::Step::{
    ConnectNative, Disconnect, Enter, EnterOther, EnterWeb, HostEnded, HostSaid, HostTake, Leave,
    Post, SendNative, Take,
};
use crate::calls::Want::{Is, Told};
use crate::calls::{CHANNEL, REQUEST, Row, Step, end, make, play, world_of_hosts};
use crate::values::A;
use std::process::Abort;
use std::test::Fail;
use wx_broker::HostView;
use wx_id::{ChannelNo, ContextNo, EntryNo, EventKind, ExtensionId, HostNo};
use wx_machine::{Answer, Reason};

const DISCONNECTED: EventKind = EventKind::Disconnected(CHANNEL);

const REPLIED: EventKind = EventKind::Replied(REQUEST);

const CLOSED: EventKind = EventKind::Closed(REQUEST);

const TOO_LONG: Reason = Reason::TooLong { len: 1_869_768_803 };

const HOST_ENDS_TOO_LONG: &[Row] = &[
    (0, Enter("/p"), Is(Answer::Entered(ContextNo(0)))),
    (0, ConnectNative("e"), Is(Answer::Channel(ChannelNo(0)))),
    (0, HostEnded(TOO_LONG), Is(Answer::Done)),
    (0, Take, Told(2, DISCONNECTED)),
    (0, Leave, Is(Answer::Done)),
];

const HOST_ENDS_EXITED: &[Row] = &[
    (0, Enter("/p"), Is(Answer::Entered(ContextNo(0)))),
    (0, ConnectNative("e"), Is(Answer::Channel(ChannelNo(0)))),
    (0, HostEnded(Reason::Exited), Is(Answer::Done)),
    (0, Take, Told(2, DISCONNECTED)),
    (0, Leave, Is(Answer::Done)),
];

const ENDED_HOST: &[Row] = &[
    (0, Enter("/p"), Is(Answer::Entered(ContextNo(0)))),
    (0, ConnectNative("e"), Is(Answer::Channel(ChannelNo(0)))),
    (0, HostTake, Is(Answer::Empty)),
    (0, HostEnded(TOO_LONG), Is(Answer::Done)),
    (0, Take, Told(3, DISCONNECTED)),
    (0, Post(0, "1"), Is(Answer::PortClosed)),
    (0, HostTake, Is(Answer::End)),
    (0, HostEnded(Reason::Exited), Is(Answer::Already)),
    (0, HostSaid("2"), Is(Answer::PortClosed)),
    (0, Take, Is(Answer::Empty)),
    (0, Leave, Is(Answer::Done)),
];

const HOST_REPLIES: &[Row] = &[
    (0, Enter("/p"), Is(Answer::Entered(ContextNo(0)))),
    (0, SendNative("e", "0"), Is(Answer::Request(REQUEST))),
    (0, HostTake, Is(Answer::Text(EntryNo(1)))),
    (0, HostSaid("1"), Is(Answer::Passed)),
    (0, Take, Told(3, REPLIED)),
    (0, HostTake, Is(Answer::End)),
    (0, Leave, Is(Answer::Done)),
    (0, HostSaid("2"), Is(Answer::Ignored)),
    (0, HostEnded(Reason::Exited), Is(Answer::Done)),
];

const HOST_FAILS_TO_START: &[Row] = &[
    (0, Enter("/p"), Is(Answer::Entered(ContextNo(0)))),
    (0, SendNative("e", "0"), Is(Answer::Request(REQUEST))),
    (0, HostEnded(Reason::StartFailed), Is(Answer::Done)),
    (0, Take, Told(2, CLOSED)),
    (0, Leave, Is(Answer::Done)),
];

const HOSTS_TAKE_THEIR_OWN: &[Row] = &[
    (0, Enter("/p"), Is(Answer::Entered(ContextNo(0)))),
    (0, ConnectNative("e"), Is(Answer::Channel(ChannelNo(0)))),
    (0, ConnectNative("e"), Is(Answer::Channel(ChannelNo(1)))),
    (0, Post(0, "1"), Is(Answer::Posted)),
    (0, Post(1, "2"), Is(Answer::Posted)),
    (0, Post(0, "3"), Is(Answer::Posted)),
    (1, HostTake, Is(Answer::Text(EntryNo(4)))),
    (1, HostTake, Is(Answer::Empty)),
    (1, HostSaid("4"), Is(Answer::Passed)),
    (0, Take, Told(8, EventKind::Message(ChannelNo(1)))),
    (0, Disconnect(0), Is(Answer::Done)),
    (0, HostTake, Is(Answer::Text(EntryNo(3)))),
    (0, HostSaid("5"), Is(Answer::PortClosed)),
    (0, HostTake, Is(Answer::Text(EntryNo(5)))),
];

const NATIVE_GATE: &[Row] = &[
    (0, EnterWeb, Is(Answer::Entered(ContextNo(0)))),
    (0, ConnectNative("e"), Is(Answer::BadTarget)),
    (1, EnterOther("/p"), Is(Answer::Entered(ContextNo(1)))),
    (1, ConnectNative(".e"), Is(Answer::NoPermission)),
    (1, SendNative(".e", "1"), Is(Answer::NoPermission)),
    (2, Enter("/p"), Is(Answer::Entered(ContextNo(2)))),
    (2, ConnectNative(".e"), Is(Answer::BadHostName)),
    (2, ConnectNative("g"), Is(Answer::HostNotFound)),
    (2, SendNative("f", "1"), Is(Answer::HostForbidden)),
    (2, ConnectNative("f"), Is(Answer::HostForbidden)),
    (2, ConnectNative("e"), Is(Answer::Channel(ChannelNo(0)))),
    (2, Leave, Is(Answer::Done)),
    (2, ConnectNative("e"), Is(Answer::Gone)),
    (2, SendNative("e", "1"), Is(Answer::Gone)),
];

/// The play; which of hosts 0 and 1 were answered that their channel is closed; and whether host 0 is ready at the end.
const PLAYS: &[(&str, &[Row], [bool; 2], bool)] = &[
    ("too long", HOST_ENDS_TOO_LONG, [false, false], false),
    ("exited", HOST_ENDS_EXITED, [false, false], false),
    (
        "a host that ended takes nothing more",
        ENDED_HOST,
        [true, false],
        false,
    ),
    (
        "the first message is the reply",
        HOST_REPLIES,
        [false, false],
        false,
    ),
    (
        "a host that does not start",
        HOST_FAILS_TO_START,
        [false, false],
        false,
    ),
    ("the native gate", NATIVE_GATE, [false, false], true),
];

#[test]
fn worked_examples(rt: HostRuntime) {
    for (name, rows, said_closed, ready) in PLAYS {
        let broker = play(&rt, rt.alloc(), world_of_hosts(&rt, rt.alloc()), name, rows);
        let told = [broker.said_closed(HostNo(0)), broker.said_closed(HostNo(1))];
        assert_eq!(rt; told, *said_closed, "{name}");
        assert_eq!(rt; broker.host_ready(HostNo(0)), *ready, "{name}");
        end(broker);
    }
}

/// Whether host 0 is ready, and then its call and the answer.
const READY: [(bool, Step, Answer); 3] = [
    (true, HostTake, Answer::End),
    (false, HostTake, Answer::End),
    (false, HostEnded(Reason::Closed), Answer::Done),
];

/// Two hosts of one name have channels and texts of their own, and what was posted on a closed channel is taken before
/// the end.
#[test]
fn hosts_take_their_own(rt: HostRuntime) -> Result<(), Fail> {
    let view = HostView {
        manifest: 1,
        caller: ExtensionId::read(A)?,
    };
    let world = world_of_hosts(&rt, rt.alloc());
    let name = "hosts take their own";
    let mut broker = play(&rt, rt.alloc(), world, name, HOSTS_TAKE_THEIR_OWN);
    let h = HostNo(0);
    assert!(rt; broker.host_ready(h) && broker.said_closed(h));
    for (ready, step, answer) in READY {
        assert_eq!(rt; broker.host_ready(h), ready);
        assert_eq!(rt; make(&mut broker, rt.alloc(), 0, &step), Some(answer));
    }
    for (h, told) in [(0, Some(view)), (1, Some(view)), (2, None)] {
        assert_eq!(rt; broker.host(HostNo(h)), told, "host {h}");
    }
    assert_eq!(rt; broker.hosts(), 2);
    assert!(rt; broker.reserve(7).is_ok() && broker.spare() >= 7);
    end(broker);
    Ok(())
}
