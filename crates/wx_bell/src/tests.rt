//! A bell that rang before the wait, and a bell that another thread rings.
use crate::{Bell, ThreadBell};
use std::sync::Wait;
use std::sync::atomic::{AtomicU64, Ordering};
use std::test::Fail;
use std::thread::join;

#[test]
fn a_ring_ends_the_next_wait(rt: HostRuntime) -> Result<(), Fail> {
    let bell = ThreadBell::new(&rt);
    bell.ring();
    bell.ring();
    bell.wait();
    Ok(())
}

// Waits at the bell until the flag is set.
fn wait_for<R: Wait, B: Bell>(rt: &R, bell: &B, flag: &AtomicU64) {
    for _ in rt.forever() {
        if flag.load(Ordering::SeqCst) == 1 {
            return;
        }
        bell.wait();
    }
}

#[test]
fn two_threads_wake_each_other(rt: HostRuntime) -> Result<(), Fail> {
    let (first, second) = (ThreadBell::new(&rt), ThreadBell::new(&rt));
    let (asked, answered) = (AtomicU64::new(0), AtomicU64::new(0));
    join(
        &rt,
        || {
            asked.store(1, Ordering::SeqCst);
            second.ring();
            wait_for(&rt, &first, &answered);
        },
        || {
            wait_for(&rt, &second, &asked);
            answered.store(1, Ordering::SeqCst);
            first.ring();
        },
    );
    assert!(rt; answered.load(Ordering::SeqCst) == 1);
    Ok(())
}
