//! Many mailboxes at once, each at the place of its context's number. Those that can fail change nothing but room; the
//! others need room or an owed place, and take no memory.
ghost use Rattle.std.specs.Prelude.{◌≡◌, ℕ, ◌<◌, ◌≤◌, length, IsTrue, OnOk, slice_get};
ghost use Rattle.std.specs.Option.{IsSomeAnd};
ghost use Rattle.wx_mailbox.specs.Mailbox.{told, owing, connected, paid, forgiven};
ghost use Rattle.wx_id.specs.Contexts.{are_distinct};
ghost use Rattle.wx_id.specs.ByContext.{EachHas, Changed};
ghost use Rattle.wx_mailbox.specs.Mailboxes.{AreRoomier};

use crate::mailbox::Mailbox;
use wx_id::{ContextNo, Event, NoMemory};

/// Makes at least n places free in the mailbox of c.
#[tactic(auto, using(crate::proofs::MailboxesLater::roomier_at))]
fn make_room_at(boxes: &mut Vec<Mailbox>, c: ContextNo, n: usize) -> Result<(), NoMemory>
    requires { c.0 < length boxes.old.items }
    ensures kept { AreRoomier boxes.old.items boxes.new.items }
    ensures ok { OnOk result (IsSomeAnd (slice_get boxes.new.items c.0) (λ b. n ≤ b.room)) }
{
    boxes[c.0 as usize].make_room(n)
}

/// Makes at least n places free in the mailbox of each of these.
pub fn make_room(boxes: &mut Vec<Mailbox>, to: &[ContextNo], n: usize) -> Result<(), NoMemory>
    requires { EachHas (λ b. 0 ≤ b.room) to.now boxes.old.items }
    ensures kept { AreRoomier boxes.old.items boxes.new.items }
    ensures ok { OnOk result (EachHas (λ b. n ≤ b.room) to.now boxes.new.items) }
{
    for c in to {
        make_room_at(boxes, *c, n)?;
    }
    Ok(())
}

/// Tells each of these an event, for which there is a free place.
pub fn tell(boxes: &mut Vec<Mailbox>, to: &[ContextNo], e: Event)
    requires distinct { IsTrue (are_distinct to.now) }
    requires room { EachHas (λ b. 0 < b.room) to.now boxes.old.items }
    ensures { Changed (told e) to.now boxes.old.items boxes.new.items }
{
    for c in to {
        boxes[c.0 as usize].tell(e);
    }
}

/// Tells each of these of a channel and keeps a place for its end; there are two free places.
pub fn connect(boxes: &mut Vec<Mailbox>, to: &[ContextNo], e: Event)
    requires distinct { IsTrue (are_distinct to.now) }
    requires room { EachHas (λ b. 1 < b.room) to.now boxes.old.items }
    ensures { Changed (connected e) to.now boxes.old.items boxes.new.items }
{
    for c in to {
        let mailbox = &mut boxes[c.0 as usize];
        mailbox.tell(e);
        mailbox.keep();
    }
}

/// Tells each of these an event, for which it kept a place.
pub fn pay(boxes: &mut Vec<Mailbox>, to: &[ContextNo], e: Event)
    requires distinct { IsTrue (are_distinct to.now) }
    requires owed { EachHas (λ b. 0 < b.owed) to.now boxes.old.items }
    ensures { Changed (paid e) to.now boxes.old.items boxes.new.items }
{
    for c in to {
        boxes[c.0 as usize].put_owed(e);
    }
}

/// Each of these gives up a place that it kept.
pub fn forgive(boxes: &mut Vec<Mailbox>, to: &[ContextNo])
    requires distinct { IsTrue (are_distinct to.now) }
    requires owed { EachHas (λ b. 0 < b.owed) to.now boxes.old.items }
    ensures { Changed forgiven to.now boxes.old.items boxes.new.items }
{
    for c in to {
        boxes[c.0 as usize].forgive();
    }
}

/// Each of these keeps a free place for an event that is owed.
pub fn keep(boxes: &mut Vec<Mailbox>, to: &[ContextNo])
    requires distinct { IsTrue (are_distinct to.now) }
    requires room { EachHas (λ b. 0 < b.room) to.now boxes.old.items }
    ensures { Changed owing to.now boxes.old.items boxes.new.items }
{
    for c in to {
        boxes[c.0 as usize].keep();
    }
}
