//! Bells, by which threads sleep until their ticket may be served.
ghost use Rattle.std.specs.Prelude.{◌≡◌, vec_len};

use std::alloc::Global;
use std::sync::Wait;
use std::sync::atomic::{AtomicU64, Ordering};
use wx_id::NoMemory;

// As many bells as threads may wait at once, so that a ring wakes one of them.
const BELLS: u64 = 1024;

// How often it has rung, and how many threads sleep by it or are about to. The kernel is asked to wake somebody only
// where there is a sleeper: a turn of an idle lock calls no kernel.
#[derive(Drop)]
struct Bell {
    rings: AtomicU64,
    sleepers: AtomicU64,
}

/// A row of bells, each for the tickets that are its place in the row modulo its length.
///
/// Nothing is claimed of a bell. It says only when to look again: who serves a turn rings the bell of the next ticket
/// afterwards, and who waits hears the bell before each look, so no ring is missed.
#[derive(Drop)]
pub(crate) struct Bells {
    bells: Vec<Bell>,
    ghost length: { vec_len bells ≡ 1024 },
}

impl Bells {
    pub(crate) fn new(alloc: Global) -> Result<Bells, NoMemory> {
        let mut bells = Vec::new(alloc);
        for _ in 0..BELLS {
            let bell = Bell {
                rings: AtomicU64::new(0),
                sleepers: AtomicU64::new(0),
            };
            if bells.push(bell).is_err() {
                return Err(NoMemory);
            }
        }
        Ok(Bells { bells })
    }

    fn bell(&self, ticket: u64) -> &Bell {
        &self.bells[(ticket % BELLS) as usize]
    }

    /// How often the ticket's bell has rung.
    pub(crate) fn heard(&self, ticket: u64) -> u64 {
        self.bell(ticket).rings.load(Ordering::SeqCst)
    }

    /// Sleeps until the ticket's bell rings, unless it has rung since it was `heard`.
    pub(crate) fn sleep<R: Wait>(&self, rt: &R, ticket: u64, heard: u64) {
        let bell = self.bell(ticket);
        bell.sleepers.fetch_add(1, Ordering::SeqCst);
        bell.rings.park(rt, (heard % (1 << 32)) as u32);
        bell.sleepers.fetch_sub(1, Ordering::SeqCst);
    }

    /// Wakes all that sleep by the ticket's bell. It rings before it looks for sleepers, and these are counted before
    /// they compare the rings: who is not seen here finds that it has rung, and does not sleep.
    pub(crate) fn ring(&self, ticket: u64) {
        let bell = self.bell(ticket);
        bell.rings.fetch_add(1, Ordering::SeqCst);
        if bell.sleepers.load(Ordering::SeqCst) > 0 {
            bell.rings.wake_all();
        }
    }
}
