//! The channels as a table: a row for each, at the place of its number, and a slab of the open ones.
ghost use Rattle.std.specs.Prelude.{◌≡◌, ◌==◌, ℕ, ◌+◌, ◌<◌, List, [], ◌∷◌, ◌++◌, Some, cond, false};
ghost use Rattle.std.specs.Prelude.{length, filter, map, not, IsTrue, IfOk, IfErr, IfSome, OnSome};
ghost use Rattle.std.specs.Prelude.{OnOk, OnErr, slice_get, slice_set, vec_len, vec_capacity};
ghost use Rattle.std.specs.Option.{IsSomeAnd, option_map};
ghost use Rattle.slab.specs.Slab.{get, Updates, HasRoomFor};
ghost use Rattle.wx_id.specs.Contexts.{is_other};
ghost use Rattle.wx_port.specs.Port.{opened, closed, is_open_port, live_of, is_live_end, left_by, without};
ghost use Rattle.wx_port.specs.Numbers.{is_end_at};
ghost use Rattle.wx_port.specs.Table.{cleared, fewer, place_of, ports_of, IsTable};

use slab::Slab;
use std::alloc::Global;
use std::marker::Model;
use wx_id::{ChannelNo, ContextNo, is_among, take_out};

/// A channel's ends, and its place while it is open.
#[derive(Debug, Drop)]
struct Row {
    opener: ContextNo,
    receivers: Vec<ContextNo>,
    place: Option<usize>,
}

/// An open channel: its number, and the receivers that are left.
#[derive(Debug, Drop)]
struct Open {
    number: usize,
    live: Vec<ContextNo>,
}

/// The channels. Contracts see them as a list.
#[derive(Debug, Drop)]
pub struct Table {
    rows: Vec<Row>,
    slots: Slab<Open>,
    alloc: Global,
}

impl Model for Table {
    ghost use Rattle.std.specs.Prelude.{List};
    ghost use Rattle.wx_port.specs.Port.{Port};

    ghost Value = { List Port };

    ghost use Rattle.wx_port.specs.Table.{ports_of, IsTable};

    ghost view = { λ a. ports_of a.slots a.rows.items };

    ghost invariant = { λ a. IsTable a.slots a.rows.items };
}

/// The place of channel k, while it is open.
fn place(rows: &[Row], k: usize) -> Option<usize>
    ensures place { result ≡ place_of (slice_get rows.now k) }
    ensures within { OnSome result (k < length rows.now) }
{
    match rows.get(k) {
        Some(row) => row.place,
        None => None,
    }
}

/// Channel k has no place any more.
fn clear_place(rows: &mut Vec<Row>, k: usize)
    requires { k < length rows.old.items }
    ensures { IfSome (slice_get rows.old.items k) (λ row. rows.new.items ≡ slice_set rows.old.items k (cleared row)) }
{
    rows[k].place = None;
}

/// Closes channel k.
#[tactic(auto, using(crate::proofs::TableLater::open_is))]
fn close_row(rows: &mut Vec<Row>, slots: &mut Slab<Open>, k: usize)
    requires table { IsTable slots.old rows.old.items }
    requires is_open { IsTrue (is_open_port (slice_get (ports_of slots.old rows.old.items) k)) }
    ensures table { IsTable slots.new rows.new.items }
    ensures ports { IfSome (slice_get (ports_of slots.old rows.old.items) k)
        (λ port. ports_of slots.new rows.new.items ≡ slice_set (ports_of slots.old rows.old.items) k (closed port)) }
{
    if let Some(p) = place(rows, k) {
        let _ = slots.try_remove(p);
        clear_place(rows, k);
    }
}

/// The room for one more channel, or nothing changed.
fn room(rows: &mut Vec<Row>, slots: &mut Slab<Open>) -> bool
    ensures rows { rows.new.items ≡ rows.old.items }
    ensures slots { slots.new.slots ≡ slots.old.slots }
    ensures next { slots.new.vacant_key ≡ slots.old.vacant_key }
    ensures room { IsTrue result → (vec_len rows.new < vec_capacity rows.new) × HasRoomFor slots.new 1 }
{
    if rows.reserve(1).is_err() {
        return false;
    }
    slots.reserve(1).is_ok()
}

/// Opens a channel for which there is room.
fn open_row(
    rows: &mut Vec<Row>,
    slots: &mut Slab<Open>,
    opener: ContextNo,
    receivers: Vec<ContextNo>,
    live: Vec<ContextNo>,
)
    requires table { IsTable slots.old rows.old.items }
    requires room { (vec_len rows.old < vec_capacity rows.old) × HasRoomFor slots.old 1 }
    requires same { live.items ≡ receivers.items }
    ensures table { IsTable slots.new rows.new.items }
    ensures ports { ports_of slots.new rows.new.items ≡ ports_of slots.old rows.old.items
        ++ opened opener receivers.items ∷ [] }
{
    let number = rows.len();
    let place = slots.insert_reserved(Open { number, live });
    rows.push_reserved(Row {
        opener,
        receivers,
        place: Some(place),
    });
}

/// Takes a receiver of the open channel at place p away.
fn drop_live(slots: &mut Slab<Open>, p: usize, c: ContextNo)
    ensures updates { IfSome (get slots.old p) (λ o. Updates slots.old slots.new p (get slots.new p)) }
    ensures live { IfSome (get slots.old p) (λ o. IsSomeAnd (get slots.new p)
        (λ n. (n.number ≡ o.number) × (n.live.items ≡ filter (is_other c) o.live.items))) }
{
    if let Some(o) = slots.get_mut(p) {
        take_out(&mut o.live, c);
    }
}

/// Takes a receiver of the open channel k away.
fn fewer_row(rows: &Vec<Row>, slots: &mut Slab<Open>, k: usize, p: usize, c: ContextNo)
    requires table { IsTable slots.old rows.now.items }
    requires place { place_of (slice_get rows.now.items k) ≡ Some p }
    ensures table { IsTable slots.new rows.now.items }
    ensures ports { IfSome (slice_get (ports_of slots.old rows.now.items) k)
        (λ port. ports_of slots.new rows.now.items ≡ slice_set (ports_of slots.old rows.now.items) k (fewer c port)) }
{
    let _ = rows;
    drop_live(slots, p, c);
}

impl Table {
    /// No channels.
    pub fn new(alloc: Global) -> Table
        ensures { result ≡ [] }
    {
        Table {
            rows: Vec::new(alloc),
            slots: Slab::new(alloc),
            alloc,
        }
    }

    /// Opens a channel.
    pub fn open(
        &mut self,
        opener: ContextNo,
        receivers: Vec<ContextNo>,
    ) -> Result<ChannelNo, Vec<ContextNo>>
        ensures number { IfOk result (λ k. k.0 ≡ length self.old) }
        ensures ok { OnOk result (self.new ≡ self.old ++ opened opener receivers.items ∷ []) }
        ensures err { OnErr result (self.new ≡ self.old) }
        ensures returned { IfErr result (λ back. back ≡ receivers) }
    {
        let Ok(live) = Vec::from_slice(self.alloc, &receivers) else {
            return Err(receivers);
        };
        if !room(&mut self.rows, &mut self.slots) {
            return Err(receivers);
        }
        let number = self.rows.len() as u64;
        open_row(&mut self.rows, &mut self.slots, opener, receivers, live);
        Ok(ChannelNo(number))
    }

    /// Whether channel k is open.
    #[tactic(auto, using(crate::proofs::TableLater::open_is))]
    pub fn is_open(&self, k: ChannelNo) -> bool
        ensures { result ≡ is_open_port (slice_get self.now k.0) }
    {
        place(&self.rows, k.0 as usize).is_some()
    }

    /// Who opened channel k.
    pub fn opener(&self, k: ChannelNo) -> ContextNo
        requires { k.0 < length self.now }
        ensures { IfSome (slice_get self.now k.0) (λ port. result ≡ port.opener) }
    {
        self.rows[k.0 as usize].opener
    }

    /// The receivers of channel k that are left.
    pub fn live(&self, k: ChannelNo) -> &[ContextNo]
        ensures value { result.now ≡ live_of (slice_get self.now k.0) }
        ensures closed { is_open_port (slice_get self.now k.0) ≡ false → result.now ≡ [] }
    {
        match place(&self.rows, k.0 as usize) {
            Some(p) => match self.slots.get(p) {
                Some(o) => &o.live,
                None => &[],
            },
            None => &[],
        }
    }

    /// Closes channel k.
    pub fn close(&mut self, k: ChannelNo)
        requires { IsTrue (is_open_port (slice_get self.old k.0)) }
        ensures { IfSome (slice_get self.old k.0) (λ port. self.new ≡ slice_set self.old k.0 (closed port)) }
    {
        close_row(&mut self.rows, &mut self.slots, k.0 as usize);
    }

    /// Takes receiver c of the open channel k away.
    #[tactic(auto, using(crate::proofs::TableLater::no_place))]
    fn fewer(&mut self, k: ChannelNo, c: ContextNo)
        requires { IsTrue (is_open_port (slice_get self.old k.0)) }
        ensures { IfSome (slice_get self.old k.0) (λ port. self.new ≡ slice_set self.old k.0 (fewer c port)) }
    {
        if let Some(p) = place(&self.rows, k.0 as usize) {
            fewer_row(&self.rows, &mut self.slots, k.0 as usize, p, c);
        }
    }

    /// An end c of the open channel k drops it; answers whether that closed it. The opener's drop does, and a
    /// receiver's where no other is live.
    pub fn drop_end(&mut self, k: ChannelNo, c: ContextNo) -> bool
        requires { IsTrue (is_open_port (slice_get self.old k.0)) }
        ensures ports { IfSome (slice_get self.old k.0) (λ port. self.new ≡ slice_set self.old k.0 (without c port)) }
        ensures closed { result ≡ not (is_open_port (slice_get self.new k.0)) }
    {
        if self.opener(k).0 == c.0 {
            self.close(k);
            return true;
        }
        self.fewer(k, c);
        let last = self.live(k).is_empty();
        if last {
            self.close(k);
        }
        last
    }

    /// Context c, an end of channel k, leaves: it drops the channel where that is open.
    pub fn leave(&mut self, k: ChannelNo, c: ContextNo)
        requires { IsTrue (is_end_at (slice_get self.old k.0) c) }
        ensures { (j : ℕ) → slice_get self.new j
            ≡ option_map (λ port. cond (k.0 == j) (left_by c port) port) (slice_get self.old j) }
    {
        if self.is_open(k) {
            let _ = self.drop_end(k, c);
        }
    }

    /// How many channels were opened.
    pub fn count(&self) -> u64
        ensures { result ≡ length self.now }
    {
        self.rows.len() as u64
    }

    /// Whether channel k is open and c a live end of it.
    pub fn has_live_end(&self, k: ChannelNo, c: ContextNo) -> bool
        ensures { result ≡ is_live_end (slice_get self.now k.0) c }
    {
        match self.rows.get(k.0 as usize) {
            Some(row) => self.is_open(k) && (row.opener.0 == c.0 || is_among(self.live(k), c)),
            None => false,
        }
    }
}
