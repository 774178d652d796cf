//! What the words ask for.

/// A command with its numbers. Each number is in the range of its option.
#[derive(Clone, Copy, Debug, PartialEq, Eq)]
pub enum Command {
    /// Gathers candidates, clears the market and writes the block.
    Seal {
        workers: u32,
        shards: u32,
        /// The exponent `j` of the margin μ, which is `2^-j`.
        mu: u8,
        rounds: u32,
        /// How many price searches run, the best of which is posted.
        searches: u32,
    },
    /// Applies blocks to a state.
    Replay {
        workers: u32,
    },
    /// Checks one block.
    Check,
    /// Writes a record as text.
    Show,
    /// Runs candidates by a script.
    Interleave,
    /// Writes a state in its newest version.
    Migrate,
    /// Chooses candidates without any race, and writes them.
    Filter {
        workers: u32,
    },
    /// Shows what a state says of one account.
    Prove {
        /// The account.
        id: u64,
    },
    /// Tells whether a proof of an account is good.
    Verify,
    /// Applies proposed blocks, whatever their order, as far as they make a chain.
    Follow,
    /// Makes a market from a number, and clears it.
    Demo {
        number: u64,
        workers: u32,
    },
}
