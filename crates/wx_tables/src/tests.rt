//! The calls of the tables, and what waits after them.
ghost use Rattle.std.specs.Prelude.{◌≡◌, true, IsTrue, slice_get};
ghost use Rattle.wx_port.specs.Port.{is_live_end};
ghost use Rattle.wx_one_shot.specs.Requests.{is_unsettled_at};

use crate::Tables;
use std::test::Fail;
use wx_id::{ChannelNo, ContextNo, End, EntryNo, EventKind, RequestNo};

/// A call, in the entry of its place in the list.
#[derive(Clone, Copy)]
enum Row {
    /// One more context comes in.
    Enter,
    /// A context opens a channel to a native host.
    ConnectNative(u64),
    /// A context asks a native host.
    AskNative(u64),
    /// On this channel this context posts.
    Post(u64, u64),
    /// A native host's message comes on this channel.
    Hear(u64),
    /// This channel is disconnected by its opener.
    Disconnect(u64, u64),
    /// The native host of this channel ended.
    EndNative(u64),
    /// This request has its first reply.
    Reply(u64),
    /// The native host of this request ended.
    FailNative(u64),
    /// A context leaves.
    Leave(u64),
    /// A context takes its first event, of this entry and kind.
    Take(u64, u64, EventKind),
    /// Nothing waits for this context.
    Nothing(u64),
}

/// Whether c opened channel k, which is open.
fn is_opener(tables: &Tables, k: ChannelNo, c: ContextNo) -> bool
    ensures { result ≡ true → IsTrue (is_live_end (slice_get tables.now.ports k.0) c) }
{
    tables.is_open(k) && tables.end(k, c) == End::Opener
}

/// Whether request r was asked and is not settled.
fn is_unsettled(tables: &Tables, r: RequestNo) -> bool
    ensures { result ≡ true → IsTrue (is_unsettled_at (slice_get tables.now.requests r.0)) }
{
    r.0 < tables.requests() && !tables.is_settled(r)
}

/// Whether an end may be told, and is.
fn ends(tables: &mut Tables, row: Row, n: EntryNo) -> bool {
    match row {
        Row::Disconnect(k, c) => {
            let may = is_opener(tables, ChannelNo(k), ContextNo(c));
            if may {
                tables.disconnect(ChannelNo(k), ContextNo(c), n);
            }
            may
        }
        Row::EndNative(k) => {
            let may = tables.is_open(ChannelNo(k));
            if may {
                tables.end_native(ChannelNo(k), n);
            }
            may
        }
        Row::Reply(r) => {
            let may = is_unsettled(tables, RequestNo(r));
            if may {
                tables.reply(RequestNo(r), n);
            }
            may
        }
        Row::FailNative(r) => {
            let may = is_unsettled(tables, RequestNo(r));
            if may {
                tables.fail_native(RequestNo(r), n);
            }
            may
        }
        _ => false,
    }
}

/// Whether context c takes an event of this entry and kind.
fn takes(tables: &mut Tables, c: ContextNo, entry: u64, kind: EventKind) -> bool {
    if c.0 >= tables.contexts() {
        return false;
    }
    match tables.take(c) {
        Some(event) => event.entry.0 == entry && event.kind == kind,
        None => false,
    }
}

/// Whether the call may be made and answers what the row says.
fn holds(tables: &mut Tables, row: Row, n: EntryNo) -> bool {
    match row {
        Row::Enter => tables.enter().is_ok(),
        Row::ConnectNative(c) => {
            c < tables.contexts() && tables.connect_native(ContextNo(c)).is_ok()
        }
        Row::AskNative(c) => c < tables.contexts() && tables.ask_native(ContextNo(c)).is_ok(),
        Row::Post(k, c) => {
            tables.is_open(ChannelNo(k)) && tables.post(ChannelNo(k), ContextNo(c), n).is_ok()
        }
        Row::Hear(k) => tables.is_open(ChannelNo(k)) && tables.hear(ChannelNo(k), n).is_ok(),
        Row::Leave(c) => {
            tables.leave(ContextNo(c), n);
            true
        }
        Row::Take(c, entry, kind) => takes(tables, ContextNo(c), entry, kind),
        Row::Nothing(c) => tables.first(ContextNo(c)).is_none(),
        _ => ends(tables, row, n),
    }
}

const CALLS: [Row; 24] = [
    Row::Enter,
    Row::Enter,
    Row::ConnectNative(0),
    Row::ConnectNative(0),
    Row::AskNative(1),
    Row::AskNative(1),
    Row::Hear(0),
    Row::Hear(1),
    Row::Post(0, 0),
    Row::Nothing(1),
    // What waits of channel 0 is dropped, and what waits of channel 1 stays.
    Row::Disconnect(0, 0),
    Row::EndNative(1),
    Row::Take(0, 7, EventKind::Message(ChannelNo(1))),
    Row::Take(0, 11, EventKind::Disconnected(ChannelNo(1))),
    Row::Nothing(0),
    Row::Reply(0),
    Row::FailNative(1),
    Row::Take(1, 15, EventKind::Replied(RequestNo(0))),
    Row::Take(1, 16, EventKind::Closed(RequestNo(1))),
    // It is settled.
    Row::Reply(0),
    Row::ConnectNative(1),
    Row::Leave(1),
    Row::EndNative(2),
    Row::Nothing(1),
];

#[test]
fn calls_and_what_waits(rt: HostRuntime) -> Result<(), Fail> {
    let mut tables = Tables::new(rt.alloc());
    for (i, row) in CALLS.iter().enumerate() {
        // A settled request has no second reply, and a channel that was left has no end.
        let may = i != 19 && i != 22;
        assert!(rt;
            holds(&mut tables, *row, EntryNo(i as u64)) == may,
            "row {i}"
        );
    }
    Ok(())
}
