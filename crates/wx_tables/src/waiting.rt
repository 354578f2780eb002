//! What waits for one context, and the mailbox of a new one.
ghost use Rattle.std.specs.Prelude.{◌≡◌, ◌<◌, [], ◌∷◌, ◌++◌, length, OnOk, OnErr, slice_get};
ghost use Rattle.wx_tables.specs.State.{AreOwed, queues_in};
ghost use Rattle.wx_tables.specs.Ending.{EachQueue};
ghost use Rattle.wx_tables.specs.Waiting.{first_in, taken};

use std::alloc::Global;
use wx_id::{ContextNo, Event, NoMemory};
use wx_mailbox::Mailbox;
use wx_one_shot::Requests;
use wx_port::Ports;

/// One more context has a mailbox.
pub fn enter(
    ports: &Ports,
    requests: &Requests,
    boxes: &mut Vec<Mailbox>,
    alloc: Global,
) -> Result<(), NoMemory>
    requires owed { AreOwed ports.now requests.now boxes.old.items }
    ensures owed { AreOwed ports.now requests.now boxes.new.items }
    ensures ok { OnOk result (queues_in boxes.new.items ≡ queues_in boxes.old.items ++ [] ∷ []) }
    ensures err { OnErr result (queues_in boxes.new.items ≡ queues_in boxes.old.items) }
{
    let _ = ports;
    let _ = requests;
    if boxes.reserve(1).is_err() {
        return Err(NoMemory);
    }
    boxes.push_reserved(Mailbox::new(alloc));
    Ok(())
}

/// The first event that waits for context c.
pub fn first(boxes: &[Mailbox], c: ContextNo) -> Option<Event>
    ensures { result ≡ first_in (slice_get (queues_in boxes.now) c.0) }
{
    match boxes.get(c.0 as usize) {
        Some(mailbox) => mailbox.first(),
        None => None,
    }
}

/// Takes the first event of context c out.
pub fn take(
    ports: &Ports,
    requests: &Requests,
    boxes: &mut Vec<Mailbox>,
    c: ContextNo,
) -> Option<Event>
    requires owed { AreOwed ports.now requests.now boxes.old.items }
    requires there { c.0 < length (queues_in boxes.old.items) }
    ensures owed { AreOwed ports.now requests.now boxes.new.items }
    ensures event { result ≡ first_in (slice_get (queues_in boxes.old.items) c.0) }
    ensures queues { EachQueue (taken c) (queues_in boxes.old.items) (queues_in boxes.new.items) }
{
    let _ = ports;
    let _ = requests;
    boxes[c.0 as usize].take()
}
