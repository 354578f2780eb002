//! The channels, the requests and the mailboxes as one value, with the calls that change them together.
ghost use Rattle.std.specs.Prelude.{◌≡◌, ◌<◌, [], ◌∷◌, ◌++◌, false, true, length, map, slice_get, slice_set};
ghost use Rattle.std.specs.Prelude.{IsTrue, IfOk, IfSome, OnOk, OnErr};
ghost use Rattle.wx_id.specs.declared.events.EventKind.TheVariants as kind;
ghost use Rattle.wx_id.specs.Contexts.{are_distinct, is_among};
ghost use Rattle.wx_port.specs.Port.{closed, end_of, is_live_end, is_open_port, live_of, opened, IsSound};
ghost use Rattle.wx_one_shot.specs.declared.requests.Standing.TheVariants.{Open};
ghost use Rattle.wx_one_shot.specs.Requests.{asked, is_settled_at, is_unsettled_at, settled, standing_at, without};
ghost use Rattle.wx_tables.specs.State.{in_entry};
ghost use Rattle.wx_tables.specs.Ending.{parted, told_each, told_end, told_opener, EachQueue};
ghost use Rattle.wx_tables.specs.Leaving.{left_at, told_ends};
ghost use Rattle.wx_tables.specs.Asking.{request_left_at, told_asker, told_left, told_outcomes};
ghost use Rattle.wx_tables.specs.Opening.{AreThere};
ghost use Rattle.wx_tables.specs.Waiting.{first_in, taken};

use crate::{asking, ending, leaving, opening, telling, waiting};
use std::alloc::Global;
use std::marker::Model;
use wx_id::{ChannelNo, ContextNo, End, EntryNo, Event, EventKind, NoMemory, RequestNo};
use wx_mailbox::Mailbox;
use wx_one_shot::{Requests, Standing};
use wx_port::Ports;

/// The channels and requests of a broker, and what waits for each of its contexts. A mailbox keeps a place for all that
/// may still be owed to it, so the calls that answer no `Result` take no memory. No call reads or copies a message.
#[derive(Drop)]
pub struct Tables {
    ports: Ports,
    requests: Requests,
    boxes: Vec<Mailbox>,
    alloc: Global,
}

impl Model for Tables {
    ghost use Rattle.wx_tables.specs.State.{TablesState, queues_in, AreOwed};

    ghost Value = { TablesState };

    ghost view = { λ a. record { ports = a.ports; requests = a.requests; queues = queues_in a.boxes.items } };

    ghost invariant = { λ a. AreOwed a.ports a.requests a.boxes.items };
}

impl Tables {
    /// No channels, requests or contexts.
    pub fn new(alloc: Global) -> Tables
        ensures ports { result.ports ≡ [] }
        ensures requests { result.requests ≡ [] }
        ensures queues { result.queues ≡ [] }
    {
        Tables {
            ports: Ports::new(alloc),
            requests: Requests::new(alloc),
            boxes: Vec::new(alloc),
            alloc,
        }
    }

    /// One more context comes in: nothing waits for it yet. Where memory is refused nothing changes.
    pub fn enter(&mut self) -> Result<(), NoMemory>
        ensures ports { self.new.ports ≡ self.old.ports }
        ensures requests { self.new.requests ≡ self.old.requests }
        ensures ok { OnOk result (self.new.queues ≡ self.old.queues ++ [] ∷ []) }
        ensures err { OnErr result (self.new ≡ self.old) }
    {
        waiting::enter(&self.ports, &self.requests, &mut self.boxes, self.alloc)
    }

    /// Opens a channel in entry n: each receiver is told. Takes the room for its end as well. Where memory is refused
    /// nothing changes. O(receivers).
    pub fn connect(
        &mut self,
        opener: ContextNo,
        receivers: Vec<ContextNo>,
        n: EntryNo,
    ) -> Result<ChannelNo, NoMemory>
        requires distinct { IsTrue (are_distinct receivers.items) }
        requires other { is_among receivers.items opener ≡ false }
        requires there { AreThere (opener ∷ receivers.items) self.old.queues }
        ensures number { IfOk result (λ k. k.0 ≡ length self.old.ports) }
        ensures ports { OnOk result (self.new.ports ≡ self.old.ports ++ opened opener receivers.items ∷ []) }
        ensures requests { self.new.requests ≡ self.old.requests }
        ensures queues { IfOk result (λ k. EachQueue (told_each receivers.items (in_entry n (kind.Connected k)))
            self.old.queues self.new.queues) }
        ensures err { OnErr result (self.new ≡ self.old) }
    {
        opening::open_channel(
            &mut self.ports,
            &self.requests,
            &mut self.boxes,
            opener,
            receivers,
            n,
        )
    }

    /// Opens a channel to a native host: nobody is told. Takes the room for its end as well. Where memory is refused
    /// nothing changes.
    #[tactic(auto, using(crate::proofs::OpeningLater::one_there, crate::proofs::OpeningLater::none_told))]
    pub fn connect_native(&mut self, opener: ContextNo) -> Result<ChannelNo, NoMemory>
        requires { opener.0 < length self.old.queues }
        ensures number { IfOk result (λ k. k.0 ≡ length self.old.ports) }
        ensures ports { OnOk result (self.new.ports ≡ self.old.ports ++ opened opener [] ∷ []) }
        ensures requests { self.new.requests ≡ self.old.requests }
        ensures queues { self.new.queues ≡ self.old.queues }
        ensures err { OnErr result (self.new ≡ self.old) }
    {
        self.connect(opener, Vec::new(self.alloc), EntryNo(0))
    }

    /// Asks a request in entry n: each receiver is told. Takes the room for its outcome as well. Where memory is
    /// refused nothing changes. O(receivers).
    pub fn ask(
        &mut self,
        asker: ContextNo,
        receivers: Vec<ContextNo>,
        n: EntryNo,
    ) -> Result<RequestNo, NoMemory>
        requires distinct { IsTrue (are_distinct receivers.items) }
        requires other { is_among receivers.items asker ≡ false }
        requires there { AreThere (asker ∷ receivers.items) self.old.queues }
        ensures number { IfOk result (λ r. r.0 ≡ length self.old.requests) }
        ensures requests { OnOk result (self.new.requests ≡ self.old.requests ++ asked asker receivers.items ∷ []) }
        ensures ports { self.new.ports ≡ self.old.ports }
        ensures queues { IfOk result (λ r. EachQueue (told_each receivers.items (in_entry n (kind.Asked r)))
            self.old.queues self.new.queues) }
        ensures err { OnErr result (self.new ≡ self.old) }
    {
        opening::ask(
            &self.ports,
            &mut self.requests,
            &mut self.boxes,
            asker,
            receivers,
            n,
        )
    }

    /// Asks a request of a native host: nobody is told. Takes the room for its outcome as well. Where memory is
    /// refused nothing changes.
    #[tactic(auto, using(crate::proofs::OpeningLater::one_there, crate::proofs::OpeningLater::none_told))]
    pub fn ask_native(&mut self, asker: ContextNo) -> Result<RequestNo, NoMemory>
        requires { asker.0 < length self.old.queues }
        ensures number { IfOk result (λ r. r.0 ≡ length self.old.requests) }
        ensures requests { OnOk result (self.new.requests ≡ self.old.requests ++ asked asker [] ∷ []) }
        ensures ports { self.new.ports ≡ self.old.ports }
        ensures queues { self.new.queues ≡ self.old.queues }
        ensures err { OnErr result (self.new ≡ self.old) }
    {
        self.ask(asker, Vec::new(self.alloc), EntryNo(0))
    }

    /// Context c posts on the open channel k, in entry n: the other side is told. Where memory is refused nothing
    /// changes. O(receivers that are told).
    pub fn post(&mut self, k: ChannelNo, c: ContextNo, n: EntryNo) -> Result<(), NoMemory>
        requires { IsTrue (is_open_port (slice_get self.old.ports k.0)) }
        ensures ports { self.new.ports ≡ self.old.ports }
        ensures requests { self.new.requests ≡ self.old.requests }
        ensures queues { OnOk result (IfSome (slice_get self.old.ports k.0)
            (λ port. EachQueue (told_end port c (in_entry n (kind.Message k))) self.old.queues self.new.queues)) }
        ensures err { OnErr result (self.new ≡ self.old) }
    {
        let e = Event {
            entry: n,
            kind: EventKind::Message(k),
        };
        telling::post(&self.ports, &self.requests, &mut self.boxes, k, c, e)
    }

    /// A message on the open channel k, in entry n, goes to its opener. Where memory is refused nothing changes.
    pub fn hear(&mut self, k: ChannelNo, n: EntryNo) -> Result<(), NoMemory>
        requires { IsTrue (is_open_port (slice_get self.old.ports k.0)) }
        ensures ports { self.new.ports ≡ self.old.ports }
        ensures requests { self.new.requests ≡ self.old.requests }
        ensures queues { OnOk result (IfSome (slice_get self.old.ports k.0)
            (λ port. EachQueue (told_opener port (in_entry n (kind.Message k))) self.old.queues self.new.queues)) }
        ensures err { OnErr result (self.new ≡ self.old) }
    {
        let e = Event {
            entry: n,
            kind: EventKind::Message(k),
        };
        telling::hear(&self.ports, &self.requests, &mut self.boxes, k, e)
    }

    /// Context c, a live end of channel k, disconnects it in entry n: the other side is told, and what waits for c of
    /// the channel is dropped. O(receivers and events that wait for c).
    pub fn disconnect(&mut self, k: ChannelNo, c: ContextNo, n: EntryNo)
        requires { IsTrue (is_live_end (slice_get self.old.ports k.0) c) }
        ensures ports { IfSome (slice_get self.old.ports k.0)
            (λ port. self.new.ports ≡ slice_set self.old.ports k.0 (closed port)) }
        ensures requests { self.new.requests ≡ self.old.requests }
        ensures queues { IfSome (slice_get self.old.ports k.0)
            (λ port. EachQueue (parted port c k.0 (in_entry n (kind.Disconnected k)))
            self.old.queues self.new.queues) }
    {
        let e = Event {
            entry: n,
            kind: EventKind::Disconnected(k),
        };
        ending::part(&mut self.ports, &self.requests, &mut self.boxes, k, c, e);
    }

    /// The native host of the open channel k ended, in entry n: the channel is closed, and its opener is told.
    pub fn end_native(&mut self, k: ChannelNo, n: EntryNo)
        requires { IsTrue (is_open_port (slice_get self.old.ports k.0)) }
        ensures ports { IfSome (slice_get self.old.ports k.0)
            (λ port. self.new.ports ≡ slice_set self.old.ports k.0 (closed port)) }
        ensures requests { self.new.requests ≡ self.old.requests }
        ensures queues { IfSome (slice_get self.old.ports k.0)
            (λ port. EachQueue (told_each (port.opener ∷ []) (in_entry n (kind.Disconnected k)))
            self.old.queues self.new.queues) }
    {
        let e = Event {
            entry: n,
            kind: EventKind::Disconnected(k),
        };
        ending::end_by_host(&mut self.ports, &self.requests, &mut self.boxes, k, e);
    }

    /// Request r, which is not settled, has its first reply in entry n: its asker is told. O(receivers of r).
    pub fn reply(&mut self, r: RequestNo, n: EntryNo)
        requires { IsTrue (is_unsettled_at (slice_get self.old.requests r.0)) }
        ensures ports { self.new.ports ≡ self.old.ports }
        ensures requests { IfSome (slice_get self.old.requests r.0)
            (λ request. self.new.requests ≡ slice_set self.old.requests r.0 (settled request)) }
        ensures queues { IfSome (slice_get self.old.requests r.0)
            (λ request. EachQueue (told_asker true request (in_entry n (kind.Replied r)))
            self.old.queues self.new.queues) }
    {
        let e = Event {
            entry: n,
            kind: EventKind::Replied(r),
        };
        asking::settle(&self.ports, &mut self.requests, &mut self.boxes, r, e);
    }

    /// The native host of request r, which is not settled, ended with no reply, in entry n: its asker is told.
    pub fn fail_native(&mut self, r: RequestNo, n: EntryNo)
        requires { IsTrue (is_unsettled_at (slice_get self.old.requests r.0)) }
        ensures ports { self.new.ports ≡ self.old.ports }
        ensures requests { IfSome (slice_get self.old.requests r.0)
            (λ request. self.new.requests ≡ slice_set self.old.requests r.0 (settled request)) }
        ensures queues { IfSome (slice_get self.old.requests r.0)
            (λ request. EachQueue (told_asker true request (in_entry n (kind.Closed r)))
            self.old.queues self.new.queues) }
    {
        let closing = Event {
            entry: n,
            kind: EventKind::Closed(r),
        };
        asking::settle(&self.ports, &mut self.requests, &mut self.boxes, r, closing);
    }

    /// Context c, whose standing is open, declines request r in entry n: where none may reply any more its asker is
    /// told. O(receivers of r).
    pub fn decline(&mut self, r: RequestNo, c: ContextNo, n: EntryNo)
        requires { standing_at (slice_get self.old.requests r.0) c ≡ Open }
        ensures ports { self.new.ports ≡ self.old.ports }
        ensures requests { IfSome (slice_get self.old.requests r.0)
            (λ request. self.new.requests ≡ slice_set self.old.requests r.0 (without c request)) }
        ensures queues { IfSome (slice_get self.old.requests r.0)
            (λ request. EachQueue (told_asker (without c request).is_settled request (in_entry n (kind.Closed r)))
            self.old.queues self.new.queues) }
    {
        let e = Event {
            entry: n,
            kind: EventKind::Closed(r),
        };
        asking::drop_receiver(&self.ports, &mut self.requests, &mut self.boxes, r, c, e);
    }

    /// Context c leaves each open channel of which it is a live end, in entry n.
    fn leave_channels(&mut self, c: ContextNo, n: EntryNo)
        ensures ports { self.new.ports ≡ map (left_at c) self.old.ports }
        ensures requests { self.new.requests ≡ self.old.requests }
        ensures queues { EachQueue (told_ends self.old.ports c n (length self.old.ports))
            self.old.queues self.new.queues }
    {
        leaving::leave_channels(&mut self.ports, &self.requests, &mut self.boxes, c, n);
    }

    /// Context c leaves each unsettled request that it asked or may still reply to, in entry n.
    fn leave_requests(&mut self, c: ContextNo, n: EntryNo)
        ensures ports { self.new.ports ≡ self.old.ports }
        ensures requests { self.new.requests ≡ map (request_left_at c) self.old.requests }
        ensures queues { EachQueue (told_outcomes self.old.requests c n (length self.old.requests))
            self.old.queues self.new.queues }
    {
        asking::leave_requests(&self.ports, &mut self.requests, &mut self.boxes, c, n);
    }

    /// Context c leaves, in entry n: first each open channel of which it is a live end, by number, and then each
    /// unsettled request that it asked or may still reply to. Goes through its own channels and requests, and the
    /// receivers of each.
    #[tactic(auto, using(crate::proofs::LeavingLater::queues_left))]
    pub fn leave(&mut self, c: ContextNo, n: EntryNo)
        ensures ports { self.new.ports ≡ map (left_at c) self.old.ports }
        ensures requests { self.new.requests ≡ map (request_left_at c) self.old.requests }
        ensures queues { EachQueue (told_left self.old.ports self.old.requests c n)
            self.old.queues self.new.queues }
    {
        self.leave_channels(c, n);
        self.leave_requests(c, n);
    }

    /// The first event that waits for context c, if there is one. O(1).
    pub fn first(&self, c: ContextNo) -> Option<Event>
        ensures { result ≡ first_in (slice_get self.now.queues c.0) }
    {
        waiting::first(&self.boxes, c)
    }

    /// Takes the first event that waits for context c out, if there is one. O(1).
    pub fn take(&mut self, c: ContextNo) -> Option<Event>
        requires { c.0 < length self.old.queues }
        ensures event { result ≡ first_in (slice_get self.old.queues c.0) }
        ensures ports { self.new.ports ≡ self.old.ports }
        ensures requests { self.new.requests ≡ self.old.requests }
        ensures queues { EachQueue (taken c) self.old.queues self.new.queues }
    {
        waiting::take(&self.ports, &self.requests, &mut self.boxes, c)
    }

    /// How many contexts came in.
    #[tactic(auto, using(crate::proofs::OwedLater::as_many))]
    pub fn contexts(&self) -> u64
        ensures { result ≡ length self.now.queues }
    {
        self.boxes.len() as u64
    }

    /// How many channels were opened.
    pub fn channels(&self) -> u64
        ensures { result ≡ length self.now.ports }
    {
        self.ports.count()
    }

    /// What c is to channel k, open or closed; `Neither` where k has not been given out. O(log) of the channels of c.
    pub fn end(&self, k: ChannelNo, c: ContextNo) -> End
        ensures { result ≡ end_of (slice_get self.now.ports k.0) c }
    {
        self.ports.end(k, c)
    }

    /// Whether channel k has been opened and is open.
    pub fn is_open(&self, k: ChannelNo) -> bool
        ensures { result ≡ is_open_port (slice_get self.now.ports k.0) }
    {
        self.ports.is_open(k)
    }

    /// The live receivers of channel k.
    pub fn live(&self, k: ChannelNo) -> &[ContextNo]
        ensures value { result.now ≡ live_of (slice_get self.now.ports k.0) }
        ensures sound { IfSome (slice_get self.now.ports k.0) IsSound }
    {
        self.ports.live(k)
    }

    /// How many requests were asked.
    pub fn requests(&self) -> u64
        ensures { result ≡ length self.now.requests }
    {
        self.requests.count()
    }

    /// What context c is to request r; a stranger where r has not been given out.
    pub fn standing(&self, r: RequestNo, c: ContextNo) -> Standing
        ensures { result ≡ standing_at (slice_get self.now.requests r.0) c }
    {
        self.requests.standing(r, c)
    }

    /// Whether request r, which has been given out, is settled.
    pub fn is_settled(&self, r: RequestNo) -> bool
        requires { r.0 < length self.now.requests }
        ensures { result ≡ is_settled_at (slice_get self.now.requests r.0) }
    {
        self.requests.is_settled(r)
    }
}
