//! The gate, by which a test holds workers back or counts them.

/// What each endpoint's worker calls once, ahead of its first turn, with the endpoint's place in the scene. Nothing is
/// claimed of it.
pub trait Gate: Sync {
    fn before(&self, n: u64);
}

/// The gate that lets each worker begin at once.
#[derive(Clone, Copy, Debug, Drop)]
pub struct NoGate;

impl Gate for NoGate {
    fn before(&self, _n: u64) {}
}
