//! Why a check says nothing good of a block.

ghost use Rattle.std.specs.Prelude.{◌≡◌};
ghost use Rattle.sx_check.specs.declared.fault.CheckFault.TheVariants as check_fault;

use std::alloc::{AllocError, AllocFailed};
use sx_block::Invalid;
use sx_bytes::NoMemory;
use thiserror::Error;

/// Why a check does not find a block valid.
#[derive(Clone, Copy, Debug, PartialEq, Eq, Error)]
pub enum CheckFault {
    /// Memory ran out. It may be answered in place of any other answer.
    #[error("out of memory")]
    NoMemory,
    /// The first reason why the block is refused.
    #[error("{0}")]
    Invalid(Invalid),
}

impl From<NoMemory> for CheckFault {
    ghost from_gives = { λ _ error. error ≡ check_fault.NoMemory };

    fn from(_error: NoMemory) -> CheckFault {
        CheckFault::NoMemory
    }
}

impl From<AllocError> for CheckFault {
    ghost from_gives = { λ _ error. error ≡ check_fault.NoMemory };

    fn from(_error: AllocError) -> CheckFault {
        CheckFault::NoMemory
    }
}

impl<T: Drop> From<AllocFailed<T>> for CheckFault {
    ghost from_gives = { λ _ error. error ≡ check_fault.NoMemory };

    fn from(_error: AllocFailed<T>) -> CheckFault {
        CheckFault::NoMemory
    }
}

impl From<Invalid> for CheckFault {
    ghost from_gives = { λ why error. error ≡ check_fault.Invalid why };

    fn from(why: Invalid) -> CheckFault {
        CheckFault::Invalid(why)
    }
}
