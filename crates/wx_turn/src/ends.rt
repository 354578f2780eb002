//! How a lock begins, and how it ends.
ghost use Rattle.std.specs.Prelude.{◌≡◌, [], Some, IfOk, IfErr};
ghost use Rattle.wx_turn.specs.declared.view.Stage.TheVariants.{Waits};
ghost use Rattle.wx_turn.specs.Turns.{first_view, StandsForWhole};
ghost use Rattle.wx_turn.specs.Steps.{IsAtTable, IsLast};
ghost use Rattle.wx_turn.specs.Seats.{view, number, lock_of, id};

use crate::bells::Bells;
use crate::lock::{Place, SEATS, Seat, SharedTable, TICKETS, TURNS, TicketTable, Turn};
use crate::plays::{Draw, LookLast};
use crate::stands::Stands;
use atomic_table::Refused;
use std::alloc::Global;
use std::snapshot::Snapshot;
use std::sync::Wait;
use wx_id::NoMemory;

// Waits until the last ticket is served. The value stays at home.
fn wait_for_last<S: Stands, R: Wait>(
    rt: &R,
    table: &SharedTable<S>,
    bells: &Bells,
    place: &mut Place<S>,
    ticket: u64,
)
    requires table { IsAtTable place.old.table_id table.now.table_id }
    requires ready { (place.old.me.1 ≡ []) × (place.old.me.0.stage ≡ Waits ticket) }
    ensures same { (place.new.table_id ≡ place.old.table_id) × (place.new.id ≡ place.old.id) }
    ensures last { IsLast place.old.me.0 place.new.me ticket }
{
    for _ in rt.forever() {
        let heard = bells.heard(ticket);
        if table.load::<LookLast<S>>(place, TURNS) == ticket {
            return;
        }
        bells.sleep(rt, ticket, heard);
    }
    unreachable!()
}

impl<S: Stands> Turn<S> {
    /// A lock over a value that stands for no turns, with its first seat, whose number is 0. Where memory is refused
    /// the value comes back.
    pub fn new(alloc: Global, state: S) -> Result<(Turn<S>, Seat<S>), (NoMemory, S)>
        requires { S.stands state [] }
        ensures seat { IfOk result (λ r. (lock_of r.1 ≡ id r.0) × (number r.1 ≡ 0)) }
        ensures view { IfOk result (λ r. view r.1 ≡ first_view (S.fixed state)) }
        ensures err { IfErr result (λ r. r.1 ≡ state) }
    {
        let Ok(bells) = Bells::new(alloc) else {
            return Err((NoMemory, state));
        };
        let key = Snapshot::of(&state);
        let mut slots = Vec::new(alloc);
        if slots.reserve(1).is_err() {
            slots.destroy_empty();
            return Err((NoMemory, state));
        }
        slots.push_reserved(Some(state));
        match TicketTable::<S>::new(alloc, &[0, 0, 1], slots, &key) {
            Ok((table, place)) => Ok((
                Turn { table, bells },
                Seat {
                    place,
                    number: 0,
                    made: 0,
                },
            )),
            Err(refused) => {
                let Refused { mut slots } = refused;
                let state = slots.pop().unwrap().unwrap();
                slots.destroy_empty();
                Err((NoMemory, state))
            }
        }
    }

    /// Ends the lock: the value, which stands for one history, and how many seats were numbered. It waits until all
    /// turns of earlier tickets are over, adds no element, and may be called with a spent seat.
    pub fn close<R: Wait>(self, rt: &R, seat: Seat<S>) -> (S, u64)
        requires { lock_of seat ≡ id self }
        ensures fixed { (view seat).fixed ≡ Some (S.fixed result.0) }
        ensures history { StandsForWhole S.stands result.0 result.1 (number seat) (view seat) }
    {
        let Turn { table, bells } = self;
        let Seat {
            mut place,
            number: _,
            made: _,
        } = seat;
        let ticket = table.shared.fetch_add::<Draw>(&mut place, TICKETS, 1);
        wait_for_last(rt, &table.shared, &bells, &mut place, ticket);
        let mut closed = table.close_with(place);
        let count = closed.word(SEATS);
        let state = closed.take(0).unwrap();
        closed.free();
        (state, count)
    }
}
