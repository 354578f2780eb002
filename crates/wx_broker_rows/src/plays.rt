//! Plays of contexts: worked examples of the machine, each made by the broker.
use crate::calls::Step::{
    Connect, Decline, Disconnect, Enter, Leave, Listen, ListenToMessages, Post, Reply, Send, Take,
};
use crate::calls::Want::{Is, Told};
use crate::calls::{CHANNEL, REQUEST, Row, Step, end, make, play};
use crate::values::{A, page};
use std::alloc::Global;
use std::process::Abort;
use std::test::Fail;
use wx_broker::Broker;
use wx_context::{Context, Listens, Target};
use wx_external::World;
use wx_id::{ContextNo, EventKind, Utf8Text};
use wx_machine::{Answer, JsonText};

const CONNECTED: EventKind = EventKind::Connected(CHANNEL);

const MESSAGE: EventKind = EventKind::Message(CHANNEL);

const DISCONNECTED: EventKind = EventKind::Disconnected(CHANNEL);

const ASKED: EventKind = EventKind::Asked(REQUEST);

const REPLIED: EventKind = EventKind::Replied(REQUEST);

const CLOSED: EventKind = EventKind::Closed(REQUEST);

const ONE_CONNECTION_ONE_POST: &[Row] = &[
    (0, Enter("/q"), Is(Answer::Entered(ContextNo(0)))),
    (1, Enter("/p"), Is(Answer::Entered(ContextNo(1)))),
    (1, Listen, Is(Answer::Done)),
    (0, Connect, Is(Answer::Channel(CHANNEL))),
    (1, Take, Told(3, CONNECTED)),
    (0, Post(0, "1"), Is(Answer::Posted)),
    (1, Take, Told(5, MESSAGE)),
    (0, Disconnect(0), Is(Answer::Done)),
    (1, Take, Told(7, DISCONNECTED)),
    (0, Leave, Is(Answer::Done)),
    (1, Leave, Is(Answer::Done)),
];

const CONNECT_REACHES_NOBODY: &[Row] = &[
    (0, Enter("/p"), Is(Answer::Entered(ContextNo(0)))),
    (0, Listen, Is(Answer::Done)),
    (0, Connect, Is(Answer::NoReceiver)),
    (0, Leave, Is(Answer::Done)),
];

const RECEIVER_DISCONNECTS: &[Row] = &[
    (0, Enter("/s"), Is(Answer::Entered(ContextNo(0)))),
    (1, Enter("/p"), Is(Answer::Entered(ContextNo(1)))),
    (1, Listen, Is(Answer::Done)),
    (2, Enter("/q"), Is(Answer::Entered(ContextNo(2)))),
    (2, Listen, Is(Answer::Done)),
    (0, Connect, Is(Answer::Channel(CHANNEL))),
    (1, Take, Told(5, CONNECTED)),
    (2, Take, Told(5, CONNECTED)),
    (1, Disconnect(0), Is(Answer::Done)),
    (2, Post(0, "7"), Is(Answer::PortClosed)),
    (0, Take, Told(8, DISCONNECTED)),
    (1, Disconnect(0), Is(Answer::NoEffect)),
    (2, Take, Is(Answer::Empty)),
    (0, Leave, Is(Answer::Done)),
    (1, Leave, Is(Answer::Done)),
    (2, Leave, Is(Answer::Done)),
];

const RECEIVER_LEAVES: &[Row] = &[
    (0, Enter("/s"), Is(Answer::Entered(ContextNo(0)))),
    (1, Enter("/p"), Is(Answer::Entered(ContextNo(1)))),
    (1, Listen, Is(Answer::Done)),
    (2, Enter("/q"), Is(Answer::Entered(ContextNo(2)))),
    (2, Listen, Is(Answer::Done)),
    (0, Connect, Is(Answer::Channel(CHANNEL))),
    (1, Take, Told(5, CONNECTED)),
    (2, Take, Told(5, CONNECTED)),
    (1, Leave, Is(Answer::Done)),
    (2, Post(0, "7"), Is(Answer::Posted)),
    (0, Take, Told(9, MESSAGE)),
    (2, Leave, Is(Answer::Done)),
    (0, Leave, Is(Answer::Done)),
];

const POSTS_OUTLIVE_THE_OPENER: &[Row] = &[
    (0, Enter("/q"), Is(Answer::Entered(ContextNo(0)))),
    (1, Enter("/p"), Is(Answer::Entered(ContextNo(1)))),
    (1, Listen, Is(Answer::Done)),
    (0, Connect, Is(Answer::Channel(CHANNEL))),
    (1, Listen, Is(Answer::Done)),
    (0, Post(0, "1"), Is(Answer::Posted)),
    (1, Listen, Is(Answer::Done)),
    (0, Post(0, "2"), Is(Answer::Posted)),
    (1, Listen, Is(Answer::Done)),
    (0, Post(0, "3"), Is(Answer::Posted)),
    (1, Listen, Is(Answer::Done)),
    (0, Leave, Is(Answer::Done)),
    (1, Listen, Is(Answer::Done)),
    (1, Take, Told(3, CONNECTED)),
    (1, Take, Told(5, MESSAGE)),
    (1, Take, Told(7, MESSAGE)),
    (1, Take, Told(9, MESSAGE)),
    (1, Take, Told(11, DISCONNECTED)),
    (1, Take, Is(Answer::Empty)),
    (1, Leave, Is(Answer::Done)),
];

const DISCONNECT_DROPS_WHAT_WAITS: &[Row] = &[
    (0, Enter("/q"), Is(Answer::Entered(ContextNo(0)))),
    (1, Enter("/p"), Is(Answer::Entered(ContextNo(1)))),
    (1, Listen, Is(Answer::Done)),
    (0, Connect, Is(Answer::Channel(CHANNEL))),
    (1, Listen, Is(Answer::Done)),
    (0, Post(0, "1"), Is(Answer::Posted)),
    (1, Listen, Is(Answer::Done)),
    (0, Post(0, "2"), Is(Answer::Posted)),
    (1, Take, Told(3, CONNECTED)),
    (0, Post(0, "3"), Is(Answer::Posted)),
    (1, Disconnect(0), Is(Answer::Done)),
    (0, Leave, Is(Answer::Done)),
    (1, Take, Is(Answer::Empty)),
    (1, Leave, Is(Answer::Done)),
];

const FIRST_REPLY_WINS: &[Row] = &[
    (0, Enter("/s"), Is(Answer::Entered(ContextNo(0)))),
    (1, Enter("/p"), Is(Answer::Entered(ContextNo(1)))),
    (1, ListenToMessages, Is(Answer::Done)),
    (2, Enter("/q"), Is(Answer::Entered(ContextNo(2)))),
    (2, ListenToMessages, Is(Answer::Done)),
    (0, Send("\"hi\""), Is(Answer::Request(REQUEST))),
    (1, Take, Told(5, ASKED)),
    (2, Take, Told(5, ASKED)),
    (1, Reply(0, "1"), Is(Answer::First)),
    (2, Reply(0, "2"), Is(Answer::Late)),
    (0, Take, Told(8, REPLIED)),
    (1, Leave, Is(Answer::Done)),
    (2, Decline, Is(Answer::Late)),
    (0, Leave, Is(Answer::Done)),
    (2, Leave, Is(Answer::Done)),
];

const CLOSED_WITHOUT_REPLY: &[Row] = &[
    (0, Enter("/s"), Is(Answer::Entered(ContextNo(0)))),
    (1, Enter("/p"), Is(Answer::Entered(ContextNo(1)))),
    (1, ListenToMessages, Is(Answer::Done)),
    (2, Enter("/q"), Is(Answer::Entered(ContextNo(2)))),
    (2, ListenToMessages, Is(Answer::Done)),
    (0, Send("\"hi\""), Is(Answer::Request(REQUEST))),
    (1, Take, Told(5, ASKED)),
    (2, Take, Told(5, ASKED)),
    (1, Decline, Is(Answer::Done)),
    (2, Leave, Is(Answer::Done)),
    (0, Take, Told(9, CLOSED)),
    (1, Leave, Is(Answer::Done)),
    (0, Leave, Is(Answer::Done)),
];

const ASKER_LEAVES: &[Row] = &[
    (0, Enter("/s"), Is(Answer::Entered(ContextNo(0)))),
    (1, Enter("/p"), Is(Answer::Entered(ContextNo(1)))),
    (1, ListenToMessages, Is(Answer::Done)),
    (2, Enter("/q"), Is(Answer::Entered(ContextNo(2)))),
    (2, ListenToMessages, Is(Answer::Done)),
    (0, Send("\"hi\""), Is(Answer::Request(REQUEST))),
    (1, Take, Told(5, ASKED)),
    (2, Take, Told(5, ASKED)),
    (0, Leave, Is(Answer::Done)),
    (1, Reply(0, "1"), Is(Answer::Late)),
    (2, Decline, Is(Answer::Late)),
    (1, Take, Is(Answer::Empty)),
    (0, Take, Is(Answer::Gone)),
    (0, Send("1"), Is(Answer::Gone)),
    (0, Decline, Is(Answer::Gone)),
];

const DECLINED_TWICE: &[Row] = &[
    (0, Enter("/s"), Is(Answer::Entered(ContextNo(0)))),
    (1, Enter("/p"), Is(Answer::Entered(ContextNo(1)))),
    (1, ListenToMessages, Is(Answer::Done)),
    (2, Enter("/q"), Is(Answer::Entered(ContextNo(2)))),
    (2, ListenToMessages, Is(Answer::Done)),
    (0, Send("\"hi\""), Is(Answer::Request(REQUEST))),
    (1, Take, Told(5, ASKED)),
    (2, Take, Told(5, ASKED)),
    (1, Decline, Is(Answer::Done)),
    (1, Decline, Is(Answer::Late)),
    (1, Reply(0, "1"), Is(Answer::Late)),
    (0, Take, Is(Answer::Empty)),
    (2, Reply(0, "2"), Is(Answer::First)),
    (0, Take, Told(12, REPLIED)),
];

const EARLY_DECLINE: &[Row] = &[
    (0, Enter("/s"), Is(Answer::Entered(ContextNo(0)))),
    (1, Enter("/p"), Is(Answer::Entered(ContextNo(1)))),
    (0, Send("1"), Is(Answer::NoReceiver)),
    (1, ListenToMessages, Is(Answer::Done)),
    (1, Decline, Is(Answer::NotYours)),
    (0, Send("1"), Is(Answer::Request(REQUEST))),
    (0, Reply(0, "2"), Is(Answer::NotYours)),
    (1, Reply(0, "3"), Is(Answer::First)),
    (0, Take, Told(7, REPLIED)),
    (1, Take, Told(5, ASKED)),
];

const CHANNELS_BEFORE_REQUESTS: &[Row] = &[
    (0, Enter("/s"), Is(Answer::Entered(ContextNo(0)))),
    (1, Enter("/p"), Is(Answer::Entered(ContextNo(1)))),
    (1, ListenToMessages, Is(Answer::Done)),
    (0, Send("1"), Is(Answer::Request(REQUEST))),
    (1, Listen, Is(Answer::Done)),
    (0, Connect, Is(Answer::Channel(CHANNEL))),
    (1, Leave, Is(Answer::Done)),
    (0, Take, Told(6, DISCONNECTED)),
    (0, Take, Told(6, CLOSED)),
    (0, Take, Is(Answer::Empty)),
];

/// Plays of channels.
const CHANNELS: &[(&str, &[Row])] = &[
    ("connect reaches nobody", CONNECT_REACHES_NOBODY),
    ("receiver disconnects", RECEIVER_DISCONNECTS),
    ("receiver leaves", RECEIVER_LEAVES),
    ("posts outlive the opener", POSTS_OUTLIVE_THE_OPENER),
    ("disconnect drops what waits", DISCONNECT_DROPS_WHAT_WAITS),
];

#[test]
fn channels(rt: HostRuntime) -> Result<(), Fail> {
    for (name, rows) in CHANNELS {
        end(play(&rt, rt.alloc(), World::new(rt.alloc()), name, rows));
    }
    Ok(())
}

/// Plays of requests.
const REQUESTS: &[(&str, &[Row])] = &[
    ("first reply wins", FIRST_REPLY_WINS),
    ("closed without reply", CLOSED_WITHOUT_REPLY),
    ("asker leaves", ASKER_LEAVES),
    ("declined twice", DECLINED_TWICE),
    ("early decline", EARLY_DECLINE),
    ("channels before requests", CHANNELS_BEFORE_REQUESTS),
];

#[test]
fn requests(rt: HostRuntime) -> Result<(), Fail> {
    for (name, rows) in REQUESTS {
        end(play(&rt, rt.alloc(), World::new(rt.alloc()), name, rows));
    }
    Ok(())
}

#[test]
fn one_connection_one_post(rt: HostRuntime) -> Result<(), Fail> {
    let world = World::new(rt.alloc());
    let name = "one connection, one post";
    let broker = play(&rt, rt.alloc(), world, name, ONE_CONNECTION_ONE_POST);
    assert!(rt; broker.world().extensions().is_empty() && broker.world().hosts().is_empty());
    assert_eq!(rt; broker.journal().len(), 11);
    assert_eq!(rt; broker.into_journal().len(), 11);
    Ok(())
}

const TWO_ENDS: &[Row] = &[
    (0, Enter("/q"), Is(Answer::Entered(ContextNo(0)))),
    (1, Enter("/p"), Is(Answer::Entered(ContextNo(1)))),
    (1, Listen, Is(Answer::Done)),
    (0, Connect, Is(Answer::Channel(CHANNEL))),
];

/// Context 0 posts a number with so many digits on the first channel.
fn post_digits(broker: &mut Broker, alloc: Global, count: usize) -> Option<Answer> {
    let text = JsonText::new(vec![in alloc; b'1'; count].ok()?).ok()?;
    if broker.contexts() == 0 {
        return None;
    }
    broker.post(ContextNo(0), CHANNEL, text).ok()
}

/// How many digits are posted, and what that is answered: the longest text that is passed on has 67,108,864 bytes.
const LENGTHS: [(usize, Answer); 2] = [(67_108_864, Answer::Posted), (67_108_865, Answer::TooLong)];

/// A longer text is kept and refused.
#[test]
fn longest_post(rt: HostRuntime) -> Result<(), Fail> {
    let mut broker = play(
        &rt,
        rt.alloc(),
        World::new(rt.alloc()),
        "two ends",
        TWO_ENDS,
    );
    for (count, answer) in LENGTHS {
        let made = post_digits(&mut broker, rt.alloc(), count);
        assert_eq!(rt; made, Some(answer), "{count} digits");
    }
    end(broker);
    Ok(())
}

const TWO_PAGES: &[Row] = &[
    (0, Enter("/s"), Is(Answer::Entered(ContextNo(0)))),
    (1, Enter("/p"), Is(Answer::Entered(ContextNo(1)))),
];

/// The caller, its call, whether it passes a text of 67,108,865 bytes, and the answer.
const TOO_LONG: &[(u64, Step, bool, Answer)] = &[
    (0, Send("1"), true, Answer::NoReceiver),
    (1, ListenToMessages, false, Answer::Done),
    (0, Send("1"), true, Answer::TooLong),
    (1, Reply(0, "1"), true, Answer::NotYours),
    (0, Send("1"), false, Answer::Request(REQUEST)),
    (1, Reply(0, "1"), true, Answer::TooLong),
    (1, Reply(0, "1"), false, Answer::First),
    (1, Reply(0, "1"), true, Answer::Late),
];

/// Context c sends or replies a copy of that text.
fn make_with(broker: &mut Broker, c: u64, step: &Step, text: &JsonText) -> Option<Answer> {
    let text = text.try_clone().ok()?;
    if c >= broker.contexts() {
        return None;
    }
    let c = ContextNo(c);
    match step {
        Send(_) => broker.send(c, Target::Own, text).ok(),
        Reply(_, _) => broker.reply(c, REQUEST, text).ok(),
        _ => None,
    }
}

/// A text of 67,108,865 bytes is refused as too long only where no other refusal comes first. A refused send
/// makes no request.
#[test]
fn too_long_comes_last(rt: HostRuntime) -> Result<(), Fail> {
    let digits = vec![in rt.alloc(); b'1'; 67_108_865]?;
    let long = JsonText::new(digits).ok().ok_or("a number is a JSON text")?;
    let mut broker = play(
        &rt,
        rt.alloc(),
        World::new(rt.alloc()),
        "two pages",
        TWO_PAGES,
    );
    for (c, step, is_long, answer) in TOO_LONG {
        let made = if *is_long {
            make_with(&mut broker, *c, step, &long)
        } else {
            make(&mut broker, rt.alloc(), *c, step)
        };
        assert_eq!(rt; made, Some(*answer));
    }
    end(broker);
    Ok(())
}

/// One who brought a context in may make each call for it: its number stays given.
fn visit(broker: &mut Broker, x: Context, l: Listens, name: Utf8Text) -> Option<Answer> {
    match broker.enter(x) {
        Ok(c) => {
            broker.listen(c, l).ok()?;
            broker.connect(c, Target::Own, name).ok()?;
            broker.take(c).ok()?;
            broker.leave(c).ok()?;
            broker.take(c).ok()
        }
        Err(_) => None,
    }
}

#[test]
fn gone_after_a_leave(rt: HostRuntime) -> Result<(), Fail> {
    let x = page(rt.alloc(), A, "/p").ok_or("a page's path")?;
    let listens = Listens {
        connect: true,
        message: false,
        external_connect: false,
        external_message: false,
    };
    let name = Utf8Text::new(rt.alloc(), "")?;
    let mut broker = Broker::new(rt.alloc(), World::new(rt.alloc()));
    assert_eq!(rt; visit(&mut broker, x, listens, name), Some(Answer::Gone));
    end(broker);
    Ok(())
}
