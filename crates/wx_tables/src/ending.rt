//! The end of a channel: those on the other side are told in the place that they kept, and the others give theirs up.
ghost use Rattle.std.specs.Prelude.{◌≡◌, ℕ, ◌<◌, [], ◌∷◌, length, IsTrue, IfSome, slice_get, slice_set};
ghost use Rattle.wx_port.specs.Port.{closed, is_open_port, is_live_end};
ghost use Rattle.wx_id.specs.Contexts.{same_context};
ghost use Rattle.wx_tables.specs.State.{AreOwed, queues_in};
ghost use Rattle.wx_tables.specs.Ending.{EachQueue, Ended, EndsOwed, SameOwed};
ghost use Rattle.wx_tables.specs.Ending.{dropped, other_side, parted, told_end, told_opener};

use wx_id::{ChannelNo, ContextNo, Event};
use wx_mailbox::{Mailbox, mailboxes};
use wx_one_shot::Requests;
use wx_port::Ports;

/// The opener of an open channel ends it: its live receivers are told.
fn end_by_opener(ports: &Ports, boxes: &mut Vec<Mailbox>, k: ChannelNo, opener: ContextNo, e: Event)
    requires is_open { IsTrue (is_open_port (slice_get ports.now k.0)) }
    requires opener { IfSome (slice_get ports.now k.0) (λ port. opener ≡ port.opener) }
    requires owed { IfSome (slice_get ports.now k.0) (λ port. EndsOwed port boxes.old.items) }
    ensures { IfSome (slice_get ports.now k.0) (λ port. Ended port port.live e boxes.old.items boxes.new.items) }
{
    let live = ports.live(k);
    mailboxes::pay(boxes, live, e);
    mailboxes::forgive(boxes, &[opener]);
}

/// The receivers' side of an open channel ends it: its opener is told.
fn end_by_receiver(
    ports: &Ports,
    boxes: &mut Vec<Mailbox>,
    k: ChannelNo,
    opener: ContextNo,
    e: Event,
)
    requires is_open { IsTrue (is_open_port (slice_get ports.now k.0)) }
    requires opener { IfSome (slice_get ports.now k.0) (λ port. opener ≡ port.opener) }
    requires owed { IfSome (slice_get ports.now k.0) (λ port. EndsOwed port boxes.old.items) }
    ensures { IfSome (slice_get ports.now k.0)
        (λ port. Ended port (port.opener ∷ []) e boxes.old.items boxes.new.items) }
{
    let live = ports.live(k);
    mailboxes::pay(boxes, &[opener], e);
    mailboxes::forgive(boxes, live);
}

/// Context c ends an open channel: those on the other side are told.
fn tell_end(ports: &Ports, boxes: &mut Vec<Mailbox>, k: ChannelNo, c: ContextNo, e: Event)
    requires there { k.0 < length ports.now }
    requires is_open { IsTrue (is_open_port (slice_get ports.now k.0)) }
    requires owed { IfSome (slice_get ports.now k.0) (λ port. EndsOwed port boxes.old.items) }
    ensures { IfSome (slice_get ports.now k.0)
        (λ port. Ended port (other_side port c) e boxes.old.items boxes.new.items) }
{
    let opener = ports.opener(k);
    if opener.0 == c.0 {
        end_by_opener(ports, boxes, k, opener, e)
    } else {
        end_by_receiver(ports, boxes, k, opener, e)
    }
}

/// Context c ends an open channel, which is closed.
pub fn end_channel(
    ports: &mut Ports,
    requests: &Requests,
    boxes: &mut Vec<Mailbox>,
    k: ChannelNo,
    c: ContextNo,
    e: Event,
)
    requires owed { AreOwed ports.old requests.now boxes.old.items }
    requires is_open { IsTrue (is_open_port (slice_get ports.old k.0)) }
    ensures owed { AreOwed ports.new requests.now boxes.new.items }
    ensures ports { IfSome (slice_get ports.old k.0) (λ port. ports.new ≡ slice_set ports.old k.0 (closed port)) }
    ensures queues { IfSome (slice_get ports.old k.0)
        (λ port. EachQueue (told_end port c e) (queues_in boxes.old.items) (queues_in boxes.new.items)) }
{
    let _ = requests;
    tell_end(ports, boxes, k, c, e);
    ports.close(k);
}

/// The host of an open channel ends it: its opener is told, and it is closed.
pub fn end_by_host(
    ports: &mut Ports,
    requests: &Requests,
    boxes: &mut Vec<Mailbox>,
    k: ChannelNo,
    e: Event,
)
    requires owed { AreOwed ports.old requests.now boxes.old.items }
    requires is_open { IsTrue (is_open_port (slice_get ports.old k.0)) }
    ensures owed { AreOwed ports.new requests.now boxes.new.items }
    ensures ports { IfSome (slice_get ports.old k.0) (λ port. ports.new ≡ slice_set ports.old k.0 (closed port)) }
    ensures queues { IfSome (slice_get ports.old k.0)
        (λ port. EachQueue (told_opener port e) (queues_in boxes.old.items) (queues_in boxes.new.items)) }
{
    let _ = requests;
    let opener = ports.opener(k);
    end_by_receiver(ports, boxes, k, opener, e);
    ports.close(k);
}

/// Context c drops what waits of channel k.
fn drop_at(boxes: &mut Vec<Mailbox>, c: ContextNo, k: ChannelNo)
    requires { c.0 < length boxes.old.items }
    ensures owed { SameOwed boxes.old.items boxes.new.items }
    ensures queues { EachQueue (dropped c k.0) (queues_in boxes.old.items) (queues_in boxes.new.items) }
{
    boxes[c.0 as usize].drop_channel(k);
}

/// Context c, a live end of an open channel, disconnects it.
pub fn part(
    ports: &mut Ports,
    requests: &Requests,
    boxes: &mut Vec<Mailbox>,
    k: ChannelNo,
    c: ContextNo,
    e: Event,
)
    requires owed { AreOwed ports.old requests.now boxes.old.items }
    requires live { IsTrue (is_live_end (slice_get ports.old k.0) c) }
    ensures owed { AreOwed ports.new requests.now boxes.new.items }
    ensures ports { IfSome (slice_get ports.old k.0) (λ port. ports.new ≡ slice_set ports.old k.0 (closed port)) }
    ensures queues { IfSome (slice_get ports.old k.0)
        (λ port. EachQueue (parted port c k.0 e) (queues_in boxes.old.items) (queues_in boxes.new.items)) }
{
    end_channel(ports, requests, boxes, k, c, e);
    drop_at(boxes, c, k);
}
