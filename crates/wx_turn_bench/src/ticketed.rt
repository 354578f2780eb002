//! Turns of the ticketed lock, in threads that split their seats and join them.
ghost use Rattle.std.specs.Prelude.{◌≡◌};
ghost use Rattle.std.specs.Thread.{IsSync};
ghost use Rattle.wx_turn.specs.Seats.{lock_of, id};

use crate::tally::{Tally, Tick};
use std::alloc::Global;
use std::sync::Wait;
use std::thread::{Threads, join};
use wx_turn::{Seat, Turn};

// Makes so many turns, as far as the seat has them.
fn make_turns<R: Wait>(rt: &R, lock: &Turn<Tally>, mut seat: Seat<Tally>, turns: u64) -> Seat<Tally>
    requires { lock_of seat ≡ id lock.now }
    ensures { lock_of result ≡ lock_of seat }
{
    for _ in 0..turns {
        if lock.with_turn(rt, &mut seat, &mut Tick).is_err() {
            break;
        }
    }
    seat
}

// Makes so many turns in each of so many threads, of which this is one.
fn spread<R: Threads + Wait + Sync>(
    rt: &R,
    lock: &Turn<Tally>,
    mut seat: Seat<Tally>,
    threads: u64,
    turns: u64,
) -> Seat<Tally>
    requires { lock_of seat ≡ id lock.now }
    ensures { lock_of result ≡ lock_of seat }
{
    if threads <= 1 {
        return make_turns(rt, lock, seat, turns);
    }
    let Ok(other) = lock.split(rt, &mut seat) else {
        return seat;
    };
    let half = threads / 2;
    let most = threads - half;
    let (mut seat, other) = join(
        rt,
        || -> Seat<Tally>
            requires { IsSync R.row × (lock_of seat ≡ id lock.now) }
            ensures { lock_of result ≡ lock_of seat }
        { spread(rt, lock, seat, most, turns) },
        || -> Seat<Tally>
            requires { IsSync R.row × (lock_of other ≡ id lock.now) }
            ensures { lock_of result ≡ lock_of other }
        { spread(rt, lock, other, half, turns) },
    );
    lock.join(&mut seat, other);
    seat
}

/// How many turns were made.
pub(crate) fn run<R: Threads + Wait + Sync>(
    rt: &R,
    alloc: Global,
    threads: u64,
    turns: u64,
) -> u64 {
    let Ok((lock, seat)) = Turn::new(alloc, Tally { turns: 0 }) else {
        return 0;
    };
    let seat = spread(rt, &lock, seat, threads, turns);
    let (tally, _) = lock.close(rt, seat);
    tally.turns
}
