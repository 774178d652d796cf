//! Scripts of gathering.

use sx_bytes::Bytes;

/// A script: which actor makes the next step, turn by turn. There are 1 to 8 actors, and each turn is
/// below their number.
#[derive(Debug, Drop, PartialEq, Eq)]
pub struct Script {
    pub actors: u32,
    pub turns: Bytes,
}

/// How many actors a script may have.
pub const MOST_ACTORS: u8 = 8;

/// How many turns a script may have.
pub const MOST_TURNS: u32 = 8_000_000;
