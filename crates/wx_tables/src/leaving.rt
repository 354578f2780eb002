//! What the leave of a context makes of its channels.
ghost use Rattle.std.specs.Prelude.{◌≡◌, ◌<◌, ◌∷◌, [], length, map, IsTrue, IfSome, not, true, slice_get, slice_set};
ghost use Rattle.wx_port.specs.Port.{is_live_end, without};
ghost use Rattle.wx_tables.specs.State.{AreOwed, queues_in};
ghost use Rattle.wx_tables.specs.Ending.{EachQueue};
ghost use Rattle.wx_tables.specs.Leaving.{closes_by, left_at, told_leave, told_ends};

use crate::ending::end_channel;
use wx_id::{ChannelNo, ContextNo, EntryNo, Event, EventKind};
use wx_mailbox::{Mailbox, mailboxes};
use wx_one_shot::Requests;
use wx_port::Ports;

/// Whether the leave of a live end closes the channel.
fn closes(ports: &Ports, k: ChannelNo, c: ContextNo) -> bool
    requires there { k.0 < length ports.now }
    requires live { IsTrue (is_live_end (slice_get ports.now k.0) c) }
    ensures { IfSome (slice_get ports.now k.0) (λ port. result ≡ closes_by port c) }
{
    let opener = ports.opener(k);
    let live = ports.live(k);
    opener.0 == c.0 || live.len() == 1
}

/// Context c, a live end of channel k, leaves it, and it stays open.
fn leave_open(
    ports: &mut Ports,
    requests: &Requests,
    boxes: &mut Vec<Mailbox>,
    k: ChannelNo,
    c: ContextNo,
)
    requires owed { AreOwed ports.old requests.now boxes.old.items }
    requires live { IsTrue (is_live_end (slice_get ports.old k.0) c) }
    requires stays { IfSome (slice_get ports.old k.0) (λ port. not (closes_by port c) ≡ true) }
    ensures owed { AreOwed ports.new requests.now boxes.new.items }
    ensures ports { IfSome (slice_get ports.old k.0) (λ port. ports.new ≡ slice_set ports.old k.0 (without c port)) }
    ensures queues { queues_in boxes.new.items ≡ queues_in boxes.old.items }
{
    let _ = requests;
    mailboxes::forgive(boxes, &[c]);
    let _ = ports.drop_end(k, c);
}

/// Context c, a live end of channel k, leaves it.
fn leave_channel(
    ports: &mut Ports,
    requests: &Requests,
    boxes: &mut Vec<Mailbox>,
    k: ChannelNo,
    c: ContextNo,
    e: Event,
)
    requires owed { AreOwed ports.old requests.now boxes.old.items }
    requires live { IsTrue (is_live_end (slice_get ports.old k.0) c) }
    ensures owed { AreOwed ports.new requests.now boxes.new.items }
    ensures ports { IfSome (slice_get ports.old k.0) (λ port. ports.new ≡ slice_set ports.old k.0 (without c port)) }
    ensures queues { IfSome (slice_get ports.old k.0)
        (λ port. EachQueue (told_leave port c e) (queues_in boxes.old.items) (queues_in boxes.new.items)) }
{
    if closes(ports, k, c) {
        end_channel(ports, requests, boxes, k, c, e)
    } else {
        leave_open(ports, requests, boxes, k, c)
    }
}

/// Context c leaves each open channel of which it is a live end, in entry n.
pub fn leave_channels(
    ports: &mut Ports,
    requests: &Requests,
    boxes: &mut Vec<Mailbox>,
    c: ContextNo,
    n: EntryNo,
)
    requires owed { AreOwed ports.old requests.now boxes.old.items }
    ensures owed { AreOwed ports.new requests.now boxes.new.items }
    ensures ports { ports.new ≡ map (left_at c) ports.old }
    ensures queues { EachQueue (told_ends ports.old c n (length ports.old))
        (queues_in boxes.old.items) (queues_in boxes.new.items) }
{
    let count = ports.count();
    let mut from: u64 = 0;
    while let Some(k) = ports.next_of(c, ChannelNo(from)) {
        let e = Event {
            entry: n,
            kind: EventKind::Disconnected(k),
        };
        leave_channel(ports, requests, boxes, k, c, e);
        from = k.0 + 1;
    }
}
