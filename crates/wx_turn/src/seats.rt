//! Seats: how many turns are left to one, how another is made of it, and how it takes another in.
ghost use Rattle.std.specs.Prelude.{◌≡◌, ◌+◌, ◌<◌, ◌≤◌, IfOk, OnErr};
ghost use Rattle.wx_turn.specs.Turns.{split_view};
ghost use Rattle.wx_turn.specs.Seats.{view, number, turns_made, lock_of, id, IsSameSeat, IsJoinOf};

use crate::lock::{Full, SEAT_LIMIT, SEATS, Seat, TURN_LIMIT, TURNS, Turn};
use crate::plays::{Count, Learn, Number, SplitOff, TakeIn};
use crate::stands::Stands;
use std::sync::Wait;

impl<S: Stands> Seat<S> {
    /// How many turns are left: 65,536 less those that the seat has made.
    pub fn left(&self) -> u64
        ensures { result + turns_made self.now ≡ 65536 }
    {
        TURN_LIMIT - self.made
    }
}

impl<S: Stands> Turn<S> {
    /// Another seat, with the next number, which has seen what this one has seen. `Full`, with nothing changed, exactly
    /// where 2^32 seats were numbered. It may wait while others split.
    pub fn split<R: Wait>(&self, rt: &R, seat: &mut Seat<S>) -> Result<Seat<S>, Full>
        requires { lock_of seat.old ≡ id self.now }
        ensures same { IsSameSeat seat.old seat.new }
        ensures view { view seat.new ≡ record (view seat.old) { known_seats = (view seat.new).known_seats } }
        ensures known { (view seat.old).known_seats ≤ (view seat.new).known_seats }
        ensures lock { IfOk result (λ r. lock_of r ≡ lock_of seat.old) }
        ensures number { IfOk result (λ r. (number r ≡ (view seat.new).known_seats) × (number r < 4294967296)) }
        ensures other { IfOk result (λ r. view r ≡ split_view (view seat.old) (number r)) }
        ensures full { OnErr result ((view seat.new).known_seats ≡ 4294967296) }
    {
        let table = &self.table.shared;
        let mut place = table.split_seat::<SplitOff>(&mut seat.place);
        for _ in rt.forever() {
            let count = table.load::<Count<S>>(&mut seat.place, SEATS);
            if count == SEAT_LIMIT {
                return Err(Full);
            }
            if table.compare_exchange::<Number<S>>(&mut place, SEATS, count, count + 1) == count {
                return Ok(Seat {
                    place,
                    number: count,
                    made: 0,
                });
            }
        }
        unreachable!()
    }

    /// Takes the other seat into this one, which has then seen all that the two had seen, and keeps the other's own
    /// elements under the other's number, with those that the other kept.
    pub fn join(&self, seat: &mut Seat<S>, other: Seat<S>)
        requires seat { lock_of seat.old ≡ id self.now }
        requires other { lock_of other ≡ id self.now }
        ensures same { IsSameSeat seat.old seat.new }
        ensures joined { IsJoinOf seat.old other seat.new }
    {
        let Seat {
            place,
            number: _,
            made: _,
        } = other;
        let table = &self.table.shared;
        table.join_seat::<TakeIn>(&mut seat.place, place);
        table.load::<Learn<S>>(&mut seat.place, TURNS);
    }
}
