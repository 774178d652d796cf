//! Why a purse or a bit is refused.

/// The purse has less than is needed.
#[derive(Clone, Copy, Debug, PartialEq, Eq)]
pub struct Overdraft {
    /// What the purse had, in units. It has no more from then on.
    pub seen: u64,
    /// What was needed, in units: more than `seen`.
    pub need: u64,
}

/// The bit was set before.
#[derive(Clone, Copy, Debug, PartialEq, Eq)]
pub struct Held;
