//! Channels: calls of the list of channels and what they answer.
ghost use Rattle.std.specs.Prelude.{◌≡◌, IsTrue, true, slice_get};
ghost use Rattle.wx_port.specs.Port as spec;

use std::alloc::Global;
use std::process::Abort;
use wx_id::{ChannelNo, ContextNo, End};
use wx_port::Ports;

/// A call by its numbers of channel and context, and after them what it answers.
#[derive(Clone, Copy)]
enum Row<'a> {
    End(u64, u64, End),
    IsOpen(u64, bool),
    Opener(u64, u64),
    Live(u64, &'a [u64]),
    Close(u64),
    DropEnd(u64, u64, bool),
    Leave(u64),
    Count(u64),
    NextOf(u64, u64, Option<u64>),
}

/// Whether c is a live end of channel k, by what a caller can ask.
fn is_live_end(ports: &Ports, k: ChannelNo, c: ContextNo) -> bool
    ensures { IsTrue result → spec.is_live_end (slice_get ports.now k.0) c ≡ true }
{
    ports.next_of(c, k) == Some(k)
}

fn are_numbered(contexts: &[ContextNo], numbers: &[u64]) -> bool {
    contexts.len() == numbers.len() && contexts.iter().zip(numbers).all(|(c, n)| c.0 == *n)
}

/// Whether the call may be made and answers what the row says.
fn holds(ports: &mut Ports, row: Row) -> bool {
    match row {
        Row::End(k, c, end) => ports.end(ChannelNo(k), ContextNo(c)) == end,
        Row::IsOpen(k, is_open) => ports.is_open(ChannelNo(k)) == is_open,
        Row::Opener(k, c) => {
            ports.end(ChannelNo(k), ContextNo(c)) == End::Opener
                && ports.opener(ChannelNo(k)) == ContextNo(c)
        }
        Row::Live(k, numbers) => are_numbered(ports.live(ChannelNo(k)), numbers),
        Row::Close(k) => {
            let is_open = ports.is_open(ChannelNo(k));
            if is_open {
                ports.close(ChannelNo(k));
            }
            is_open
        }
        Row::DropEnd(k, c, closes) => {
            is_live_end(ports, ChannelNo(k), ContextNo(c))
                && ports.drop_end(ChannelNo(k), ContextNo(c)) == closes
        }
        Row::Leave(c) => {
            ports.leave(ContextNo(c));
            ports.next_of(ContextNo(c), ChannelNo(0)).is_none()
        }
        Row::Count(count) => ports.count() == count,
        Row::NextOf(c, from, next) => {
            ports.next_of(ContextNo(c), ChannelNo(from)) == next.map(|k| ChannelNo(k))
        }
    }
}

/// Who leaves, and what is left of the channels.
const LEAVES: &[Row<'static>] = &[
    Row::Count(4),
    // It opened the one, and is a receiver of two others that have another live one.
    Row::Leave(1),
    Row::IsOpen(1, false),
    Row::End(1, 1, End::Opener),
    Row::Live(0, &[2]),
    Row::Live(2, &[7]),
    Row::Live(3, &[2, 3]),
    // The last live receiver of one, and the opener of another.
    Row::Leave(2),
    Row::IsOpen(0, false),
    Row::IsOpen(2, false),
    Row::Live(3, &[3]),
    // One who left, and one who never came.
    Row::Leave(2),
    Row::Leave(9),
    Row::Live(3, &[3]),
    Row::Leave(7),
    Row::IsOpen(3, false),
    Row::Count(4),
];

/// Opens a channel to these two receivers, and gives its number.
fn open(ports: &mut Ports, alloc: Global, opener: u64, one: u64, other: u64) -> Option<u64> {
    if opener == one || opener == other || one == other {
        return None;
    }
    let receivers = vec![in alloc; ContextNo(one), ContextNo(other)].ok()?;
    Some(ports.open(ContextNo(opener), receivers).ok()?.0)
}

/// Makes these calls, one after another, and ends the channels.
fn play(rt: &impl Abort, mut ports: Ports, rows: &[Row]) {
    for (i, row) in rows.iter().enumerate() {
        assert!(rt; holds(&mut ports, *row), "row {i}");
    }
}

#[test]
fn leaves(rt: HostRuntime) {
    let mut ports = Ports::new(rt.alloc());
    for (opener, one, other) in [(7, 1, 2), (1, 2, 7), (2, 1, 7), (7, 2, 3)] {
        assert!(rt; open(&mut ports, rt.alloc(), opener, one, other).is_some());
    }
    play(&rt, ports, LEAVES);
}

/// Each call at least once, in order.
const CALLS: &[Row<'static>] = &[
    Row::End(0, 7, End::Opener),
    Row::End(0, 1, End::Receiver),
    Row::End(0, 3, End::Neither),
    Row::Live(0, &[1, 2]),
    Row::NextOf(1, 0, Some(0)),
    Row::NextOf(1, 1, Some(1)),
    Row::NextOf(2, 1, Some(2)),
    Row::NextOf(7, 3, None),
    Row::NextOf(3, 0, None),
    // A receiver drops it, and the other too: that closes it, and its ends stay.
    Row::DropEnd(0, 1, false),
    Row::IsOpen(0, true),
    Row::End(0, 1, End::Receiver),
    Row::Live(0, &[2]),
    Row::NextOf(1, 0, Some(1)),
    Row::DropEnd(0, 2, true),
    Row::IsOpen(0, false),
    Row::Live(0, &[]),
    Row::Opener(0, 7),
    Row::End(0, 2, End::Receiver),
    Row::NextOf(7, 0, Some(2)),
    // The opener drops it.
    Row::Opener(2, 2),
    Row::Live(2, &[7, 1]),
    Row::DropEnd(2, 2, true),
    Row::IsOpen(2, false),
    Row::Live(2, &[]),
    Row::End(2, 1, End::Receiver),
    Row::NextOf(7, 0, None),
    // A channel without receivers.
    Row::IsOpen(1, true),
    Row::Live(1, &[]),
    Row::Close(1),
    Row::IsOpen(1, false),
    Row::Opener(1, 1),
    Row::NextOf(1, 0, None),
    // A number that has not been given out.
    Row::End(3, 7, End::Neither),
    Row::IsOpen(3, false),
    Row::Live(3, &[]),
    Row::NextOf(1, 18_446_744_073_709_551_615, None),
];

/// Opens three channels, the second without receivers, and gives their numbers.
fn open_three(ports: &mut Ports, alloc: Global) -> Option<(u64, u64, u64)> {
    let first = open(ports, alloc, 7, 1, 2)?;
    let second = ports.open(ContextNo(1), Vec::new(alloc)).ok()?;
    let third = open(ports, alloc, 2, 7, 1)?;
    Some((first, second.0, third))
}

#[test]
fn calls_and_their_answers(rt: HostRuntime) {
    let mut ports = Ports::new(rt.alloc());
    assert_eq!(rt; open_three(&mut ports, rt.alloc()), Some((0, 1, 2)));
    play(&rt, ports, CALLS);
}
