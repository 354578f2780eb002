//! A message on a channel. Room is taken first, so that it reaches all or none.
ghost use Rattle.std.specs.Prelude.{◌≡◌, ◌<◌, ◌∷◌, [], length, IsTrue, IfSome, OnOk, OnErr, slice_get};
ghost use Rattle.wx_id.specs.Contexts.{are_distinct};
ghost use Rattle.wx_port.specs.Port.{is_live_end, is_open_port};
ghost use Rattle.wx_tables.specs.State.{AreOwed, queues_in};
ghost use Rattle.wx_tables.specs.Ending.{told_end, EachQueue, told_each, told_opener};
ghost use Rattle.wx_tables.specs.Opening.{AreThere};

use wx_id::{ChannelNo, ContextNo, Event, NoMemory};
use wx_mailbox::{Mailbox, mailboxes};
use wx_one_shot::Requests;
use wx_port::Ports;

/// Tells each of these an event. Where memory is refused nothing changes but room.
fn tell_all(
    ports: &Ports,
    requests: &Requests,
    boxes: &mut Vec<Mailbox>,
    to: &[ContextNo],
    e: Event,
) -> Result<(), NoMemory>
    requires owed { AreOwed ports.now requests.now boxes.old.items }
    requires distinct { IsTrue (are_distinct to.now) }
    requires there { AreThere to.now (queues_in boxes.old.items) }
    ensures owed { AreOwed ports.now requests.now boxes.new.items }
    ensures queues { OnOk result (EachQueue (told_each to.now e)
        (queues_in boxes.old.items) (queues_in boxes.new.items)) }
    ensures same { OnErr result (queues_in boxes.new.items ≡ queues_in boxes.old.items) }
{
    let _ = ports;
    let _ = requests;
    if mailboxes::make_room(boxes, to, 1).is_err() {
        return Err(NoMemory);
    }
    mailboxes::tell(boxes, to, e);
    Ok(())
}

/// Tells the opener of an open channel.
pub fn hear(
    ports: &Ports,
    requests: &Requests,
    boxes: &mut Vec<Mailbox>,
    k: ChannelNo,
    e: Event,
) -> Result<(), NoMemory>
    requires owed { AreOwed ports.now requests.now boxes.old.items }
    requires is_open { IsTrue (is_open_port (slice_get ports.now k.0)) }
    ensures owed { AreOwed ports.now requests.now boxes.new.items }
    ensures queues { OnOk result (IfSome (slice_get ports.now k.0)
        (λ port. EachQueue (told_opener port e) (queues_in boxes.old.items) (queues_in boxes.new.items))) }
    ensures same { OnErr result (queues_in boxes.new.items ≡ queues_in boxes.old.items) }
{
    let opener = ports.opener(k);
    tell_all(ports, requests, boxes, &[opener], e)
}

/// Tells the live receivers of an open channel.
fn tell_live(
    ports: &Ports,
    requests: &Requests,
    boxes: &mut Vec<Mailbox>,
    k: ChannelNo,
    e: Event,
) -> Result<(), NoMemory>
    requires owed { AreOwed ports.now requests.now boxes.old.items }
    requires is_open { IsTrue (is_open_port (slice_get ports.now k.0)) }
    ensures owed { AreOwed ports.now requests.now boxes.new.items }
    ensures queues { OnOk result (IfSome (slice_get ports.now k.0)
        (λ port. EachQueue (told_each port.live e) (queues_in boxes.old.items) (queues_in boxes.new.items))) }
    ensures same { OnErr result (queues_in boxes.new.items ≡ queues_in boxes.old.items) }
{
    let live = ports.live(k);
    tell_all(ports, requests, boxes, live, e)
}

/// Context c posts on an open channel: the other side is told.
pub fn post(
    ports: &Ports,
    requests: &Requests,
    boxes: &mut Vec<Mailbox>,
    k: ChannelNo,
    c: ContextNo,
    e: Event,
) -> Result<(), NoMemory>
    requires owed { AreOwed ports.now requests.now boxes.old.items }
    requires is_open { IsTrue (is_open_port (slice_get ports.now k.0)) }
    ensures owed { AreOwed ports.now requests.now boxes.new.items }
    ensures queues { OnOk result (IfSome (slice_get ports.now k.0)
        (λ port. EachQueue (told_end port c e) (queues_in boxes.old.items) (queues_in boxes.new.items))) }
    ensures same { OnErr result (queues_in boxes.new.items ≡ queues_in boxes.old.items) }
{
    let opener = ports.opener(k);
    if opener.0 == c.0 {
        tell_live(ports, requests, boxes, k, e)
    } else {
        hear(ports, requests, boxes, k, e)
    }
}
