//! The lock and its seats, and the table that they share.
ghost use Rattle.std.specs.Prelude.{◌≡◌, ◌≢◌, ◌≤◌, [], length, Some, None};
ghost use Rattle.wx_turn.specs.declared.view.Stage.TheVariants.{Rests};
ghost use Rattle.wx_turn.specs.History.{own};

use crate::bells::Bells;
use crate::stands::Stands;
use crate::view::View;
use atomic_table::{Seat as TableSeat, Shared, Table, TableRule};
use std::alloc::Global;
use std::marker::PhantomData;
use std::snapshot::Snapshot;

/// The most turns of one seat.
pub const TURN_LIMIT: u64 = 65536;

/// The most seats of one lock.
pub const SEAT_LIMIT: u64 = 4294967296;

// The words of the table: the tickets that were drawn, the turns that were served, the seats that were numbered.
pub(crate) const TICKETS: usize = 0;

pub(crate) const TURNS: usize = 1;

pub(crate) const SEATS: usize = 2;

/// The rule of the lock's table.
pub struct Tickets<S> {
    state: PhantomData<S>,
}

impl<S: Stands> TableRule<Option<S>, View<S::Entry, S::Fixed>, Snapshot<S>> for Tickets<S> {
    ghost use Rattle.wx_turn.specs.Turns.{first_view};
    ghost use Rattle.wx_turn.specs.Rule.{LockRule};

    ghost holds = { λ key. LockRule S.stands S.fixed (S.fixed key.value) };

    ghost first = { λ key. first_view (S.fixed key.value) };
}

pub(crate) type Place<S> = TableSeat<Option<S>, View<<S as Stands>::Entry, <S as Stands>::Fixed>>;

pub(crate) type SharedTable<S> = Shared<
    Option<S>,
    View<<S as Stands>::Entry, <S as Stands>::Fixed>,
    Snapshot<S>,
    Tickets<S>,
>;

pub(crate) type TicketTable<S> = Table<
    Option<S>,
    View<<S as Stands>::Entry, <S as Stands>::Fixed>,
    Snapshot<S>,
    Tickets<S>,
    Global,
>;

/// The seat has made all its turns, of which there are 65,536.
#[derive(Clone, Copy, Debug, PartialEq, Eq)]
pub struct Spent;

/// All seats of the lock were numbered, of which there are 2^32.
#[derive(Clone, Copy, Debug, PartialEq, Eq)]
pub struct Full;

/// A value behind a lock, which is served to those who wait in the order of their tickets.
///
/// Who waits sleeps. A turn inside a turn of the same lock waits for ever, and so does each later one.
#[derive(Drop)]
pub struct Turn<S: Stands> {
    pub(crate) table: TicketTable<S>,
    pub(crate) bells: Bells,
    ghost sized: { (table.shared.table_id.words ≡ 3) × (table.shared.table_id.slots ≡ 1) },
}

/// The right to make 65,536 turns of one lock. Contracts see it as what it knows: its lock, its number, the history
/// that it has seen, and the seats that it has joined.
#[derive(Drop)]
pub struct Seat<S: Stands> {
    pub(crate) place: Place<S>,
    pub(crate) number: u64,
    pub(crate) made: u64,
    ghost empty: { place.me.1 ≡ [] },
    ghost rests: { place.me.0.stage ≡ Rests },
    ghost numbered: { place.me.0.number ≡ Some number },
    ghost alive: { place.me.0.fixed ≢ None },
    ghost counted: { (made ≡ length (own number place.me.0.history)) × (made ≤ 65536) },
}
