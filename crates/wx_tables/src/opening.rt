//! The opening of a channel, and the asking of a request. Room is taken first, so that nothing is undone.
ghost use Rattle.std.specs.Prelude.{◌≡◌, ◌<◌, ◌≤◌, [], ◌∷◌, ◌++◌, length, false, IsTrue, IfOk, OnOk, OnErr, slice_get};
ghost use Rattle.wx_id.specs.declared.events.EventKind.TheVariants as kind;
ghost use Rattle.wx_id.specs.Contexts.{are_distinct, is_among};
ghost use Rattle.wx_id.specs.ByContext.{EachHas};
ghost use Rattle.wx_port.specs.Port.{opened, live_of};
ghost use Rattle.wx_one_shot.specs.Requests.{asked, still_open_at};
ghost use Rattle.wx_mailbox.specs.Mailbox.{connected, told};
ghost use Rattle.wx_mailbox.specs.Mailboxes.{AreRoomier};
ghost use Rattle.wx_tables.specs.State.{AreOwed, queues_in, in_entry};
ghost use Rattle.wx_tables.specs.Ending.{EachQueue, told_each};
ghost use Rattle.wx_tables.specs.Opening.{AreThere, Begun};

use wx_id::{ChannelNo, ContextNo, EntryNo, Event, EventKind, NoMemory, RequestNo};
use wx_mailbox::{Mailbox, mailboxes};
use wx_one_shot::Requests;
use wx_port::Ports;

/// Makes room for n places at each receiver, and for the outcome at the opener.
fn make_room(
    boxes: &mut Vec<Mailbox>,
    opener: ContextNo,
    receivers: &[ContextNo],
    n: usize,
) -> Result<(), NoMemory>
    requires { AreThere (opener ∷ receivers.now) (queues_in boxes.old.items) }
    ensures kept { AreRoomier boxes.old.items boxes.new.items }
    ensures receivers { OnOk result (EachHas (λ b. n ≤ b.room) receivers.now boxes.new.items) }
    ensures opener { OnOk result (EachHas (λ b. 0 < b.room) (opener ∷ []) boxes.new.items) }
{
    if mailboxes::make_room(boxes, receivers, n).is_err() {
        return Err(NoMemory);
    }
    mailboxes::make_room(boxes, &[opener], 1)
}

/// Tells the receivers of a channel that it was opened.
fn tell_opening(ports: &Ports, boxes: &mut Vec<Mailbox>, k: ChannelNo, opener: ContextNo, e: Event)
    requires distinct { IsTrue (are_distinct (live_of (slice_get ports.now k.0))) }
    requires other { is_among (live_of (slice_get ports.now k.0)) opener ≡ false }
    requires receivers { EachHas (λ b. 1 < b.room) (live_of (slice_get ports.now k.0)) boxes.old.items }
    requires opener { EachHas (λ b. 0 < b.room) (opener ∷ []) boxes.old.items }
    ensures { Begun (connected e) opener (live_of (slice_get ports.now k.0)) boxes.old.items boxes.new.items }
{
    let live = ports.live(k);
    mailboxes::connect(boxes, live, e);
    mailboxes::keep(boxes, &[opener]);
}

/// Opens a channel in entry n. Where memory is refused nothing changes but room.
pub fn open_channel(
    ports: &mut Ports,
    requests: &Requests,
    boxes: &mut Vec<Mailbox>,
    opener: ContextNo,
    receivers: Vec<ContextNo>,
    n: EntryNo,
) -> Result<ChannelNo, NoMemory>
    requires owed { AreOwed ports.old requests.now boxes.old.items }
    requires distinct { IsTrue (are_distinct receivers.items) }
    requires other { is_among receivers.items opener ≡ false }
    requires there { AreThere (opener ∷ receivers.items) (queues_in boxes.old.items) }
    ensures owed { AreOwed ports.new requests.now boxes.new.items }
    ensures number { IfOk result (λ k. k.0 ≡ length ports.old) }
    ensures ports { OnOk result (ports.new ≡ ports.old ++ opened opener receivers.items ∷ []) }
    ensures queues { IfOk result (λ k. EachQueue (told_each receivers.items (in_entry n (kind.Connected k)))
        (queues_in boxes.old.items) (queues_in boxes.new.items)) }
    ensures same_ports { OnErr result (ports.new ≡ ports.old) }
    ensures same_queues { OnErr result (queues_in boxes.new.items ≡ queues_in boxes.old.items) }
{
    let _ = requests;
    // A receiver is told at once, and keeps a place for the channel's end.
    if make_room(boxes, opener, &receivers, 2).is_err() {
        return Err(NoMemory);
    }
    let Ok(k) = ports.open(opener, receivers) else {
        return Err(NoMemory);
    };
    let e = Event {
        entry: n,
        kind: EventKind::Connected(k),
    };
    tell_opening(ports, boxes, k, opener, e);
    Ok(k)
}

/// Tells the receivers of a request that it was asked.
fn tell_asked(
    requests: &Requests,
    boxes: &mut Vec<Mailbox>,
    r: RequestNo,
    asker: ContextNo,
    e: Event,
)
    requires distinct { IsTrue (are_distinct (still_open_at (slice_get requests.now r.0))) }
    requires other { is_among (still_open_at (slice_get requests.now r.0)) asker ≡ false }
    requires receivers { EachHas (λ b. 0 < b.room) (still_open_at (slice_get requests.now r.0)) boxes.old.items }
    requires asker { EachHas (λ b. 0 < b.room) (asker ∷ []) boxes.old.items }
    ensures { Begun (told e) asker (still_open_at (slice_get requests.now r.0)) boxes.old.items boxes.new.items }
{
    let receivers = requests.still_open(r);
    mailboxes::tell(boxes, receivers, e);
    mailboxes::keep(boxes, &[asker]);
}

/// Asks a request in entry n. Where memory is refused nothing changes but room.
pub fn ask(
    ports: &Ports,
    requests: &mut Requests,
    boxes: &mut Vec<Mailbox>,
    asker: ContextNo,
    receivers: Vec<ContextNo>,
    n: EntryNo,
) -> Result<RequestNo, NoMemory>
    requires owed { AreOwed ports.now requests.old boxes.old.items }
    requires distinct { IsTrue (are_distinct receivers.items) }
    requires other { is_among receivers.items asker ≡ false }
    requires there { AreThere (asker ∷ receivers.items) (queues_in boxes.old.items) }
    ensures owed { AreOwed ports.now requests.new boxes.new.items }
    ensures number { IfOk result (λ r. r.0 ≡ length requests.old) }
    ensures requests { OnOk result (requests.new ≡ requests.old ++ asked asker receivers.items ∷ []) }
    ensures queues { IfOk result (λ r. EachQueue (told_each receivers.items (in_entry n (kind.Asked r)))
        (queues_in boxes.old.items) (queues_in boxes.new.items)) }
    ensures same_requests { OnErr result (requests.new ≡ requests.old) }
    ensures same_queues { OnErr result (queues_in boxes.new.items ≡ queues_in boxes.old.items) }
{
    let _ = ports;
    if make_room(boxes, asker, &receivers, 1).is_err() {
        return Err(NoMemory);
    }
    let Ok(r) = requests.ask(asker, receivers) else {
        return Err(NoMemory);
    };
    let e = Event {
        entry: n,
        kind: EventKind::Asked(r),
    };
    tell_asked(requests, boxes, r, asker, e);
    Ok(r)
}
