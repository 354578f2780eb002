//! One mailbox: its events, the places that are spare and those that are owed.
ghost use Rattle.std.specs.Prelude.{◌≡◌, ℕ, ◌+◌, ◌<◌, ◌≤◌, [], ◌∷◌, ◌++◌, drop, filter, slice_get, OnOk, OnErr, IsOk};
ghost use Rattle.wx_mailbox.specs.Mailbox as spec;

use std::alloc::Global;
use std::collections::VecDeque;
use std::marker::Model;
use wx_id::{ChannelNo, Event, EventKind, NoMemory};

/// The events of one context, in the order in which they came. Contracts see them as a list, with the number of places
/// that are spare (a `put` is sure of them), owed (a `put_owed` is sure of them) and there beyond these.
#[derive(Drop)]
pub struct Mailbox {
    queue: VecDeque<Event>,
    spare: usize,
    owed: usize,
}

impl Model for Mailbox {
    ghost use Rattle.std.specs.Prelude.{◌+◌, ◌-◌};
    ghost use Rattle.std.specs.VecDeque.{deque_len, deque_capacity};
    ghost use Rattle.wx_mailbox.specs.Mailbox.{MailboxState, HasPlaces};

    ghost Value = { MailboxState };

    ghost view = { λ a. record {
      events = a.queue.items;
      spare = a.spare;
      owed = a.owed;
      room = deque_capacity a.queue - (deque_len a.queue + a.spare + a.owed);
    } };

    ghost invariant = { λ a. HasPlaces (deque_len a.queue) a.spare a.owed (deque_capacity a.queue) };
}

/// Whether an event is of channel k.
fn is_of(kind: EventKind, k: ChannelNo) -> bool
    ensures { result ≡ spec.is_of k.0 kind }
{
    match kind {
        EventKind::Connected(j) => j.0 == k.0,
        EventKind::Message(j) => j.0 == k.0,
        EventKind::Disconnected(j) => j.0 == k.0,
        _ => false,
    }
}

impl Mailbox {
    /// An empty mailbox. Takes no memory.
    pub fn new(alloc: Global) -> Mailbox
        ensures events { result.events ≡ [] }
        ensures spare { result.spare ≡ 0 }
        ensures owed { result.owed ≡ 0 }
    {
        Mailbox {
            queue: VecDeque::new(alloc),
            spare: 0,
            owed: 0,
        }
    }

    /// How many more events `put` is sure to take.
    pub fn spare(&self) -> u64
        ensures { result ≡ self.now.spare }
    {
        self.spare as u64
    }

    /// How many places are kept for events that are owed.
    pub fn owed(&self) -> u64
        ensures { result ≡ self.now.owed }
    {
        self.owed as u64
    }

    /// Makes at least n places spare.
    pub fn reserve(&mut self, n: u64) -> Result<(), NoMemory>
        ensures events { self.new.events ≡ self.old.events }
        ensures owed { self.new.owed ≡ self.old.owed }
        ensures ok { OnOk result (n ≤ self.new.spare) }
        ensures spare { self.old.spare ≤ self.new.spare }
        ensures room { n ≤ self.old.spare + self.old.room → IsOk result }
    {
        let n = n as usize;
        if n <= self.spare {
            return Ok(());
        }
        let Some(wanted) = n.checked_add(self.owed) else {
            return Err(NoMemory);
        };
        self.queue.reserve(wanted)?;
        self.spare = n;
        Ok(())
    }

    /// Keeps one more place for an event that is owed.
    pub fn owe(&mut self) -> Result<(), NoMemory>
        ensures events { self.new.events ≡ self.old.events }
        ensures spare { self.new.spare ≡ self.old.spare }
        ensures ok { OnOk result (self.new.owed ≡ self.old.owed + 1) }
        ensures err { OnErr result (self.new.owed ≡ self.old.owed) }
        ensures room { 0 < self.old.room → IsOk result }
    {
        self.make_room(1)?;
        self.owed += 1;
        Ok(())
    }

    /// Puts an event after the others, and uses a spare place if there is one.
    pub fn put(&mut self, e: Event) -> Result<(), NoMemory>
        ensures ok { OnOk result (self.new.events ≡ self.old.events ++ e ∷ []) }
        ensures err { OnErr result (self.new.events ≡ self.old.events) }
        ensures owed { self.new.owed ≡ self.old.owed }
        ensures spare { self.old.spare ≤ self.new.spare + 1 }
        ensures room { 0 < self.old.spare + self.old.room → IsOk result }
    {
        if self.spare > 0 {
            self.spare -= 1;
        } else {
            self.make_room(1)?;
        }
        self.queue.push_back_reserved(e);
        Ok(())
    }

    /// Puts an event after the others, into a place that was kept for it. Takes no memory.
    pub fn put_owed(&mut self, e: Event)
        requires { 0 < self.old.owed }
        ensures { self.new ≡ spec.paid e self.old }
    {
        self.forgive();
        self.queue.push_back_reserved(e);
    }

    /// Gives up a place that was kept. Takes no memory.
    pub fn forgive(&mut self)
        requires { 0 < self.old.owed }
        ensures { self.new ≡ spec.forgiven self.old }
    {
        self.owed -= 1;
    }

    /// Makes at least n places free beyond the spare and the owed ones; nothing else is changed.
    pub fn make_room(&mut self, n: usize) -> Result<(), NoMemory>
        ensures same { spec.IsRoomier self.old self.new }
        ensures ok { OnOk result (n ≤ self.new.room) }
        ensures room { n ≤ self.old.room → IsOk result }
    {
        let Some(wanted) = n.checked_add(self.spare + self.owed) else {
            return Err(NoMemory);
        };
        let capacity = self.queue.capacity();
        if wanted <= capacity - self.queue.len() {
            return Ok(());
        }
        // A queue grows by its length, and the places that are kept are no part of that: so they are doubled here.
        if self.queue.reserve(capacity.saturating_add(wanted)).is_ok() {
            return Ok(());
        }
        self.queue.reserve(wanted)?;
        Ok(())
    }

    /// Puts an event after the others, into a free place. Takes no memory.
    pub fn tell(&mut self, e: Event)
        requires { 0 < self.old.room }
        ensures { self.new ≡ spec.told e self.old }
    {
        self.queue.push_back_reserved(e);
    }

    /// Keeps a free place for an event that is owed. Takes no memory.
    pub fn keep(&mut self)
        requires { 0 < self.old.room }
        ensures { self.new ≡ spec.owing self.old }
    {
        self.owed += 1;
    }

    /// The first event, if there is one.
    pub fn first(&self) -> Option<Event>
        ensures { result ≡ slice_get self.now.events 0 }
    {
        self.queue.front().copied()
    }

    /// Takes the first event out, if there is one. Takes no memory.
    pub fn take(&mut self) -> Option<Event>
        ensures event { result ≡ slice_get self.old.events 0 }
        ensures events { self.new.events ≡ drop 1 self.old.events }
        ensures owed { self.new.owed ≡ self.old.owed }
        ensures spare { self.new.spare ≡ self.old.spare }
        ensures room { self.old.room ≤ self.new.room }
    {
        self.queue.pop_front()
    }

    /// Drops the events of channel k. Goes through all events; takes no memory.
    pub fn drop_channel(&mut self, k: ChannelNo)
        ensures events { self.new.events ≡ filter (spec.is_apart k.0) self.old.events }
        ensures owed { self.new.owed ≡ self.old.owed }
        ensures spare { self.new.spare ≡ self.old.spare }
        ensures room { self.old.room ≤ self.new.room }
    {
        self.queue.retain(|event| !is_of(event.kind, k));
    }
}
