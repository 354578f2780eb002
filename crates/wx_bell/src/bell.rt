//! What a worker waits at, and the bell at which a thread sleeps.
use std::sync::Wait;
use std::thread::Parker;

/// What a worker that has nothing to do waits at. One worker waits at a bell, and any thread rings it.
pub trait Bell: Sync {
    /// Waits until it rings. A ring that came since the last wait ends this one at once.
    fn wait(&self);

    /// Ends the wait of who waits here, or the next wait.
    fn ring(&self);
}

/// A bell at which a thread sleeps. It keeps the runtime reference by which it waits.
#[derive(Drop)]
pub struct ThreadBell<'a, R: Wait + Sync> {
    rt: &'a R,
    parker: Parker,
}

impl<'a, R: Wait + Sync> ThreadBell<'a, R> {
    /// A bell that has not rung.
    pub fn new(rt: &'a R) -> Self {
        ThreadBell {
            rt,
            parker: Parker::new(),
        }
    }
}

impl<'a, R: Wait + Sync> Bell for ThreadBell<'a, R> {
    fn wait(&self) {
        self.parker.park(self.rt);
    }

    fn ring(&self) {
        self.parker.unpark();
    }
}
