//! The tags of records: what a payload holds.

/// A state.
pub const STATE: u8 = 1;

/// Candidates, the transactions that a block may take.
pub const CANDIDATES: u8 = 2;

/// A block.
pub const BLOCK: u8 = 3;

/// The outcomes of candidates.
pub const OUTCOMES: u8 = 4;

/// A script, the turns of actors.
pub const SCRIPT: u8 = 5;

/// A proof of one account.
pub const PROOF: u8 = 6;
