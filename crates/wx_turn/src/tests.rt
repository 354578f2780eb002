//! A plain list behind the lock, used by one thread and by two.
ghost use Rattle.std.specs.Prelude.{◌≡◌, ◌+◌, ◌<◌, ◌^◌, IfOk};
ghost use Rattle.wx_turn.specs.Seats.{lock_of, id};

use crate::plain::{Find, Plain, Put};
use crate::{Seat, TURN_LIMIT, Turn};
use std::alloc::Global;
use std::sync::Wait;
use std::test::Fail;
use std::thread::join;

// A lock over an empty list.
fn opened(alloc: Global) -> Result<(Turn<Plain>, Seat<Plain>), Fail>
    ensures { IfOk result (λ r. lock_of r.1 ≡ id r.0) }
{
    let plain = Plain {
        items: Vec::new(alloc),
        count: 0,
    };
    match Turn::new(alloc, plain) {
        Ok(opened) => Ok(opened),
        Err(_) => Err(Fail::new("no memory")),
    }
}

// Puts so many numbers, from the first on, each in a turn of its own, and counts those that were put.
fn put_all<R: Wait>(
    rt: &R,
    lock: &Turn<Plain>,
    mut seat: Seat<Plain>,
    from: u64,
    count: u64,
) -> (Seat<Plain>, u64)
    requires lock { lock_of seat ≡ id lock.now }
    requires small { from + count < 2 ^ 32 }
    ensures { lock_of result.0 ≡ lock_of seat }
{
    let mut made = 0u64;
    for k in 0..count {
        let mut put = Put { value: from + k };
        if let Ok(true) = lock.with_turn(rt, &mut seat, &mut put) {
            made = made.saturating_add(1);
        }
    }
    (seat, made)
}

// Whether the numbers in this range stand in the list each once and in rising order.
fn in_order(items: &[u64], from: u64, count: u64) -> bool {
    let mut next = from;
    for x in items {
        if *x >= from && *x - from < count {
            if *x != next {
                return false;
            }
            next = next.saturating_add(1);
        }
    }
    next.saturating_sub(from) == count
}

#[test]
fn two_threads_make_a_thousand_turns_each(rt: HostRuntime) -> Result<(), Fail> {
    let (lock, mut seat) = opened(rt.alloc())?;
    let Ok(one) = lock.split(&rt, &mut seat) else {
        return Err(Fail::new("no seat"));
    };
    let Ok(two) = lock.split(&rt, &mut seat) else {
        return Err(Fail::new("no seat"));
    };
    let shared = &lock;
    let rt = &rt;
    let ((one, a), (two, b)) = join(
        rt,
        || -> (Seat<Plain>, u64)
            requires { lock_of one ≡ id shared.now }
            ensures { lock_of result.0 ≡ lock_of one }
        { put_all(rt, shared, one, 0, 1000) },
        || -> (Seat<Plain>, u64)
            requires { lock_of two ≡ id shared.now }
            ensures { lock_of result.0 ≡ lock_of two }
        { put_all(rt, shared, two, 1000, 1000) },
    );
    lock.join(&mut seat, one);
    lock.join(&mut seat, two);
    let (plain, count) = lock.close(rt, seat);
    assert!(rt; a == 1000 && b == 1000 && count == 3);
    assert!(rt; plain.items.len() == 2000 && plain.count == 2000);
    assert!(rt; in_order(&plain.items, 0, 1000) && in_order(&plain.items, 1000, 1000));
    Ok(())
}

#[test]
fn a_seat_makes_65536_turns(rt: HostRuntime) -> Result<(), Fail> {
    let (lock, mut seat) = opened(rt.alloc())?;
    let mut put = Put { value: 7 };
    for _ in 0..TURN_LIMIT {
        assert!(rt; lock.with_turn(&rt, &mut seat, &mut put).is_ok());
    }
    assert!(rt; seat.left() == 0);
    assert!(rt; lock.with_turn(&rt, &mut seat, &mut put).is_err());
    let (plain, count) = lock.close(&rt, seat);
    assert!(rt; plain.items.len() == 65536 && count == 1);
    Ok(())
}

#[test]
fn a_joined_seat_hands_on_what_it_made(rt: HostRuntime) -> Result<(), Fail> {
    let (lock, mut seat) = opened(rt.alloc())?;
    let Ok(mut other) = lock.split(&rt, &mut seat) else {
        return Err(Fail::new("no seat"));
    };
    let mut put = Put { value: 7 };
    assert!(rt; lock.with_turn(&rt, &mut other, &mut put).is_ok());
    lock.join(&mut seat, other);
    let mut find = Find { value: 7 };
    let found = lock.with_turn(&rt, &mut seat, &mut find);
    assert!(rt; matches!(found, Ok(true)));
    let (plain, count) = lock.close(&rt, seat);
    assert!(rt; plain.items.len() == 1 && plain.count == 2 && count == 2);
    Ok(())
}
