//! The same number of turns by std's lock, to compare with.
ghost use Rattle.std.specs.Thread.{IsSync};

use std::sync::{Mutex, Wait};
use std::thread::{Threads, join};

fn make_turns<R: Wait>(rt: &R, lock: &Mutex<u64>, turns: u64) {
    for _ in 0..turns {
        let mut count = lock.lock(rt);
        *count = count.saturating_add(1);
    }
}

fn spread<R: Threads + Wait + Sync>(rt: &R, lock: &Mutex<u64>, threads: u64, turns: u64) {
    if threads <= 1 {
        return make_turns(rt, lock, turns);
    }
    let half = threads / 2;
    let most = threads - half;
    join(
        rt,
        || -> ()
            requires { IsSync R.row }
        { spread(rt, lock, most, turns) },
        || -> ()
            requires { IsSync R.row }
        { spread(rt, lock, half, turns) },
    );
}

/// How many turns were made.
pub(crate) fn run<R: Threads + Wait + Sync>(rt: &R, threads: u64, turns: u64) -> u64 {
    let lock = Mutex::new(0u64);
    spread(rt, &lock, threads, turns);
    lock.into_inner()
}
