//! A turn of a seat: it waits for its ticket, takes the value, acts, puts the value back and serves the next ticket.
ghost use Rattle.std.specs.Prelude.{◌≡◌, ◌^◌, ◌<◌, [], ◌∷◌, Some, None, IfOk, OnOk, OnErr};
ghost use Rattle.wx_turn.specs.declared.view.Stage.TheVariants.{Waits, Acts};
ghost use Rattle.wx_turn.specs.Steps.{IsAtTable, BeginsTurn, HasOneMore, HasServed};
ghost use Rattle.wx_turn.specs.Seats.{turns_made, lock_of, id, IsSameSeat, IsTurnOf};

use crate::bells::Bells;
use crate::lock::{Place, Seat, SharedTable, Spent, TICKETS, TURN_LIMIT, TURNS, Turn};
use crate::plays::{Draw, Look, Serve};
use crate::stands::{Stands, Work};
use std::sync::Wait;

// Waits until the ticket is served, and takes the value.
fn begin<S: Stands, R: Wait>(
    rt: &R,
    table: &SharedTable<S>,
    bells: &Bells,
    place: &mut Place<S>,
    ticket: u64,
) -> S
    requires table { IsAtTable place.old.table_id table.now.table_id }
    requires ready { (place.old.me.1 ≡ []) × (place.old.me.0.stage ≡ Waits ticket) }
    ensures same { (place.new.table_id ≡ place.old.table_id) × (place.new.id ≡ place.old.id) }
    ensures vacant { place.new.me.1 ≡ (0, None) ∷ [] }
    ensures begun { BeginsTurn S.stands S.fixed place.old.me (place.new.me.0, (0, Some result) ∷ []) ticket result }
{
    for _ in rt.forever() {
        let heard = bells.heard(ticket);
        if table.load::<Look<S>>(place, TURNS) == ticket {
            return table.exchange(place, 0, None).unwrap();
        }
        bells.sleep(rt, ticket, heard);
    }
    unreachable!()
}

// Puts the value back, and serves the next ticket.
fn finish<S: Stands>(table: &SharedTable<S>, place: &mut Place<S>, ticket: u64, state: S)
    requires table { IsAtTable place.old.table_id table.now.table_id }
    requires ready { (place.old.me.1 ≡ (0, None) ∷ []) × (place.old.me.0.stage ≡ Acts ticket) × (ticket < 2 ^ 63) }
    requires stands { HasOneMore S.stands S.fixed place.old.me.0 state }
    ensures same { (place.new.table_id ≡ place.old.table_id) × (place.new.id ≡ place.old.id) }
    ensures served { HasServed S.stands place.old.me.0 state place.new.me }
{
    let vacant = table.exchange(place, 0, Some(state));
    let None = vacant else { unreachable!() };
    table.swap::<Serve<S>>(place, TURNS, ticket + 1);
}

impl<S: Stands> Turn<S> {
    /// Makes one turn of the seat, in which `work` acts on the value, and gives its answer. It waits until all turns of
    /// earlier tickets are over. `Spent`, with nothing changed, exactly where the seat has made 65,536 turns.
    pub fn with_turn<R: Wait, W: Work<S>>(
        &self,
        rt: &R,
        seat: &mut Seat<S>,
        work: &mut W,
    ) -> Result<W::Answer, Spent>
        requires { lock_of seat.old ≡ id self.now }
        ensures same { IsSameSeat seat.old seat.new }
        ensures unspent { OnOk result (turns_made seat.old < 65536) }
        ensures turn { IfOk result (λ a. IsTurnOf seat.old seat.new (λ f h e. W.relates work.old work.new f h e a)) }
        ensures spent { OnErr result ((turns_made seat.old ≡ 65536) × (seat.new ≡ seat.old) × (work.new ≡ work.old)) }
    {
        if seat.made == TURN_LIMIT {
            return Err(Spent);
        }
        let table = &self.table.shared;
        let ticket = table.fetch_add::<Draw>(&mut seat.place, TICKETS, 1);
        let mut state = begin(rt, table, &self.bells, &mut seat.place, ticket);
        let answer = work.act(&mut state);
        finish(table, &mut seat.place, ticket, state);
        self.bells.ring(ticket + 1);
        seat.made += 1;
        Ok(answer)
    }
}
