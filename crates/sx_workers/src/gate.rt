//! What is called before each candidate.

/// What a worker calls before it decides a candidate, with its own number, from 0, and the place of the
/// candidate.
///
/// No clause speaks of it: whatever it does, the outcomes are those of a gathering. Tests use it to see
/// that workers run at the same time.
pub trait Gate {
    fn before(&self, worker: u32, index: u32);
}

/// The gate that does nothing. To call it costs nothing.
#[derive(Clone, Copy, Debug, Drop)]
pub struct NoGate;

impl Gate for NoGate {
    #[inline]
    fn before(&self, _worker: u32, _index: u32) {}
}
