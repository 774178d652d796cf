//! What a view has taken and what it has seen.

/// What a view has taken for itself.
#[derive(Clone, Copy, Debug, PartialEq, Eq)]
pub enum Claim {
    /// This amount, out of this purse.
    Debit { purse: u32, amount: u64 },
    /// This bit of this word.
    Bit { word: u32, bit: u32 },
}

/// What a view has seen.
#[derive(Clone, Copy, Debug, PartialEq, Eq)]
pub enum Note {
    /// This purse had this value, so it has no more from then on.
    Low { purse: u32, value: u64 },
    /// This bit of this word was set, so it is set from then on.
    Set { word: u32, bit: u32 },
}
