//! What an actor does in one step, and what it is told.

/// What one actor does in one step: one operation on one word, or on the ranges of views.
#[derive(Clone, Copy, Debug, PartialEq, Eq)]
pub enum Event {
    /// Reads the purse.
    Look { purse: u32 },
    /// Takes `need` out of the purse, if it still has the value that the view saw last.
    Take { purse: u32, need: u64 },
    /// Sets the bit, if it is clear.
    Claim { word: u32, bit: u32 },
    /// Hands the candidates from `at` on to a new view.
    Split { at: u32 },
    /// Takes in the view whose range begins where this one's ends.
    Join { other: u32 },
}

/// What the actor is told of its step.
#[derive(Clone, Copy, Debug, PartialEq, Eq)]
pub enum Step {
    /// The purse has this value.
    Seen(u64),
    /// The amount was taken.
    Won,
    /// Another actor was there before: the purse has this value, and nothing was taken.
    Lost(u64),
    /// The bit was clear, and is now this view's.
    Clear,
    /// The bit was set before.
    Taken,
    /// The name of the new view.
    Made(u32),
    /// The other view is spent.
    Joined,
}
