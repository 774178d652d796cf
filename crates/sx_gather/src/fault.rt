//! Why a gathering does not start.

ghost use Rattle.std.specs.Prelude.{◌≡◌};
ghost use Rattle.sx_gather.specs.declared.fault.GatherFault.TheVariants as gather_fault;
ghost use Rattle.sx_gather.specs.Start.{fault_of as the_fault};

use std::alloc::{AllocError, AllocFailed};
use sx_bytes::NoMemory;
use sx_outcome::NoRoom;
use thiserror::Error;

/// Why a gathering does not start.
#[derive(Clone, Copy, Debug, PartialEq, Eq, Error)]
pub enum GatherFault {
    /// Memory ran out.
    #[error("out of memory")]
    NoMemory,
    /// The ledger has the greatest height, `2^63 - 1`, so no block may follow.
    #[error("no block may follow: the ledger has the greatest height")]
    Ended,
    /// The ledger has `have` accounts, or offers, and the candidates ask for `more`, but there may be
    /// only `limit`: 65,536 accounts or 262,144 offers. The accounts count before the offers.
    #[error("there are {have}, and no room for {more} more: the limit is {limit}")]
    Crowded { have: u32, more: u32, limit: u32 },
}

impl From<NoRoom> for GatherFault {
    ghost from_gives = { λ why fault. fault ≡ the_fault why };

    fn from(why: NoRoom) -> GatherFault {
        match why {
            NoRoom::Ended => GatherFault::Ended,
            NoRoom::Crowded { have, more, limit } => GatherFault::Crowded { have, more, limit },
        }
    }
}

impl From<NoMemory> for GatherFault {
    ghost from_gives = { λ _ fault. fault ≡ gather_fault.NoMemory };

    fn from(_error: NoMemory) -> GatherFault {
        GatherFault::NoMemory
    }
}

impl From<AllocError> for GatherFault {
    ghost from_gives = { λ _ fault. fault ≡ gather_fault.NoMemory };

    fn from(_error: AllocError) -> GatherFault {
        GatherFault::NoMemory
    }
}

impl<T: Drop> From<AllocFailed<T>> for GatherFault {
    ghost from_gives = { λ _ fault. fault ≡ gather_fault.NoMemory };

    fn from(_error: AllocFailed<T>) -> GatherFault {
        GatherFault::NoMemory
    }
}
