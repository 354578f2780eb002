//! The channels of a broker: the table of channels, and for each context the numbers of its own.
ghost use Rattle.std.specs.Prelude.{◌≡◌, ℕ, ◌<◌, ◌≤◌, [], ◌∷◌, ◌++◌, IsTrue, false, true, IsNone, IfOk};
ghost use Rattle.std.specs.Prelude.{IfErr, IfSome, OnOk, OnErr, length, map, not, slice_get, slice_set};
ghost use Rattle.std.specs.List.Sorted.{IsNonDecreasing};
ghost use Rattle.wx_id.specs.Contexts.{are_distinct, is_among};
ghost use Rattle.wx_port.specs.Port as spec;
ghost use Rattle.wx_port.specs.Numbers.{AreOf, AreSound, AreStill, IsKept, room_in};

use crate::numbers::{Numbers, count_below, has_number};
use crate::own;
use crate::table::Table;
use std::alloc::Global;
use std::marker::Model;
use wx_id::{ChannelNo, ContextNo, End, NoMemory};

/// The channels that were opened, each at the place of its number. Contracts see them as a list.
#[derive(Debug, Drop)]
pub struct Ports {
    table: Table,
    own: Vec<Numbers>,
    alloc: Global,
}

impl Model for Ports {
    ghost use Rattle.std.specs.Prelude.{List};
    ghost use Rattle.wx_port.specs.Port.{Port};
    ghost use Rattle.wx_port.specs.Numbers.{IsKept};

    ghost Value = { List Port };

    ghost view = { λ a. a.table };

    ghost invariant = { λ a. IsKept a.table a.own.items };
}

/// Makes room for one more number of each end of a channel.
#[tactic(auto, using(crate::proofs::OwnLater::still_then, crate::proofs::OwnLater::room_still))]
fn make_room(
    own: &mut Vec<Numbers>,
    alloc: Global,
    opener: ContextNo,
    receivers: &[ContextNo],
) -> Result<(), NoMemory>
    ensures still { AreStill own.old.items own.new.items }
    ensures receivers { OnOk result ((d : ContextNo) → is_among receivers.now d ≡ true
        → 0 < room_in (slice_get own.new.items d.0)) }
    ensures opener { OnOk result (0 < room_in (slice_get own.new.items opener.0)) }
{
    own::make_room(own, alloc, receivers)?;
    own::make_room_at(own, alloc, opener)
}

/// Opens a channel for whose number its ends have room.
fn open_in(
    table: &mut Table,
    own: &mut Vec<Numbers>,
    opener: ContextNo,
    receivers: Vec<ContextNo>,
) -> Result<ChannelNo, Vec<ContextNo>>
    requires distinct { IsTrue (are_distinct receivers.items) }
    requires opener { is_among receivers.items opener ≡ false }
    requires kept { IsKept table.old own.old.items }
    requires receivers_room { (d : ContextNo) → is_among receivers.items d ≡ true
        → 0 < room_in (slice_get own.old.items d.0) }
    requires opener_room { 0 < room_in (slice_get own.old.items opener.0) }
    ensures number { IfOk result (λ k. k.0 ≡ length table.old) }
    ensures ok { OnOk result (table.new ≡ table.old ++ spec.opened opener receivers.items ∷ []) }
    ensures err { OnErr result (table.new ≡ table.old) }
    ensures returned { IfErr result (λ back. back ≡ receivers) }
    ensures kept { IsKept table.new own.new.items }
{
    match table.open(opener, receivers) {
        Ok(k) => {
            own::add(own, table.live(k), k.0);
            own::add(own, &[opener], k.0);
            Ok(k)
        }
        Err(back) => Err(back),
    }
}

/// Context c leaves each of its own channels.
fn leave_each(table: &mut Table, own: &[u64], c: ContextNo)
    requires { AreOf table.old c own.now }
    ensures { table.new ≡ map (spec.left_by c) table.old }
{
    for k in own {
        table.leave(ChannelNo(*k), c);
    }
}

/// The least open channel at or after `from` of which c is a live end, among its own channels.
fn next_from(table: &Table, own: &[u64], c: ContextNo, from: ChannelNo) -> Option<ChannelNo>
    requires sound { AreSound table.now }
    requires own { AreOf table.now c own.now }
    requires rising { IsNonDecreasing own.now }
    ensures live { IfSome result (λ k. IsTrue (spec.is_live_end (slice_get table.now k.0) c)) }
    ensures from { IfSome result (λ k. from.0 ≤ k.0) }
    ensures least { IfSome result (λ k. (j : ℕ) → from.0 ≤ j → j < k.0
        → spec.is_live_end (slice_get table.now j) c ≡ false) }
    ensures none { IsNone result → (j : ℕ) → from.0 ≤ j → spec.is_live_end (slice_get table.now j) c ≡ false }
{
    for i in count_below(own, from.0)..own.len() {
        let k = ChannelNo(own[i]);
        if table.has_live_end(k, c) {
            return Some(k);
        }
    }
    None
}

impl Ports {
    /// No channels.
    #[tactic(auto, using(crate::proofs::KeptLater::kept_none))]
    pub fn new(alloc: Global) -> Ports
        ensures { result ≡ [] }
    {
        Ports {
            table: Table::new(alloc),
            own: Vec::new(alloc),
            alloc,
        }
    }

    /// Opens a channel, with the next number, from 0. Where memory is refused nothing changes, and the receivers come
    /// back.
    #[tactic(auto, using(crate::proofs::KeptLater::kept_still))]
    pub fn open(
        &mut self,
        opener: ContextNo,
        receivers: Vec<ContextNo>,
    ) -> Result<ChannelNo, Vec<ContextNo>>
        requires distinct { IsTrue (are_distinct receivers.items) }
        requires opener { is_among receivers.items opener ≡ false }
        ensures number { IfOk result (λ k. k.0 ≡ length self.old) }
        ensures ok { OnOk result (self.new ≡ self.old ++ spec.opened opener receivers.items ∷ []) }
        ensures err { OnErr result (self.new ≡ self.old) }
        ensures returned { IfErr result (λ back. back ≡ receivers) }
    {
        if make_room(&mut self.own, self.alloc, opener, &receivers).is_err() {
            return Err(receivers);
        }
        open_in(&mut self.table, &mut self.own, opener, receivers)
    }

    /// What c is to channel k, open or closed; `Neither` where k has not been given out. A search by halves among the
    /// channels of c.
    #[tactic(auto, using(crate::proofs::SearchLater::end_own, crate::proofs::KeptLater::own_of))]
    pub fn end(&self, k: ChannelNo, c: ContextNo) -> End
        ensures { result ≡ spec.end_of (slice_get self.now k.0) c }
    {
        if k.0 >= self.table.count() {
            End::Neither
        } else if self.table.opener(k).0 == c.0 {
            End::Opener
        } else if has_number(own::numbers_of(&self.own, c), k.0) {
            End::Receiver
        } else {
            End::Neither
        }
    }

    /// Whether channel k has been opened and is open.
    pub fn is_open(&self, k: ChannelNo) -> bool
        ensures { result ≡ spec.is_open_port (slice_get self.now k.0) }
    {
        self.table.is_open(k)
    }

    /// Who opened channel k.
    pub fn opener(&self, k: ChannelNo) -> ContextNo
        requires { k.0 < length self.now }
        ensures { IfSome (slice_get self.now k.0) (λ port. result ≡ port.opener) }
    {
        self.table.opener(k)
    }

    /// The live receivers of channel k: none where it is closed or has not been given out.
    pub fn live(&self, k: ChannelNo) -> &[ContextNo]
        ensures value { result.now ≡ spec.live_of (slice_get self.now k.0) }
        ensures sound { IfSome (slice_get self.now k.0) spec.IsSound }
        ensures closed { spec.is_open_port (slice_get self.now k.0) ≡ false → result.now ≡ [] }
    {
        self.table.live(k)
    }

    /// Closes channel k, which is open. Its ends stay. Takes no memory.
    #[tactic(auto, using(crate::proofs::KeptLater::kept_closed))]
    pub fn close(&mut self, k: ChannelNo)
        requires { IsTrue (spec.is_open_port (slice_get self.old k.0)) }
        ensures { IfSome (slice_get self.old k.0) (λ port. self.new ≡ slice_set self.old k.0 (spec.closed port)) }
    {
        self.table.close(k);
    }

    /// The live end c of channel k drops it; answers whether that closed it. The opener's drop does, and a receiver's
    /// where no other is live. Takes no memory.
    pub fn drop_end(&mut self, k: ChannelNo, c: ContextNo) -> bool
        requires { IsTrue (spec.is_live_end (slice_get self.old k.0) c) }
        ensures ports { IfSome (slice_get self.old k.0)
            (λ port. self.new ≡ slice_set self.old k.0 (spec.without c port)) }
        ensures closed { result ≡ not (spec.is_open_port (slice_get self.new k.0)) }
    {
        self.table.drop_end(k, c)
    }

    /// Context c leaves: it drops each open channel of which it is an end. Goes through its own channels; takes no
    /// memory.
    #[tactic(auto, using(crate::proofs::KeptLater::own_of))]
    pub fn leave(&mut self, c: ContextNo)
        ensures { self.new ≡ map (spec.left_by c) self.old }
    {
        leave_each(&mut self.table, own::numbers_of(&self.own, c), c);
    }

    /// How many channels were opened.
    pub fn count(&self) -> u64
        ensures { result ≡ length self.now }
    {
        self.table.count()
    }

    /// The least open channel at or after `from` of which c is a live end. A search by halves among the channels of c,
    /// and then as many steps as it finds closed.
    #[tactic(auto, using(crate::proofs::KeptLater::own_of))]
    pub fn next_of(&self, c: ContextNo, from: ChannelNo) -> Option<ChannelNo>
        ensures live { IfSome result (λ k. IsTrue (spec.is_live_end (slice_get self.now k.0) c)) }
        ensures from { IfSome result (λ k. from.0 ≤ k.0) }
        ensures least { IfSome result (λ k. (j : ℕ) → from.0 ≤ j → j < k.0
            → spec.is_live_end (slice_get self.now j) c ≡ false) }
        ensures none { IsNone result → (j : ℕ) → from.0 ≤ j → spec.is_live_end (slice_get self.now j) c ≡ false }
    {
        next_from(&self.table, own::numbers_of(&self.own, c), c, from)
    }
}
