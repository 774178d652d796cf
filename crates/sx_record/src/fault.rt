//! Why no record could be read.

ghost use Rattle.std.specs.Prelude.{◌≡◌};
ghost use Rattle.sx_record.specs.declared.fault.RecordFault.TheVariants as record_fault;

use std::alloc::{AllocError, AllocFailed};
use sx_base::Failed;
use sx_bytes::{FormFault, NoMemory};
use thiserror::Error;

/// Why [`next_record`](crate::next_record) answers no record.
#[derive(Clone, Copy, Debug, PartialEq, Eq, Error)]
pub enum RecordFault {
    /// Memory ran out. It may be answered in place of any other answer.
    #[error("out of memory")]
    NoMemory,
    /// A take failed, and the source's count of faults has risen.
    #[error("the source failed")]
    Failed,
    /// The first fault of the record's frame.
    #[error("{0}")]
    Form(FormFault),
}

impl From<NoMemory> for RecordFault {
    ghost from_gives = { λ _ error. error ≡ record_fault.NoMemory };

    fn from(_error: NoMemory) -> RecordFault {
        RecordFault::NoMemory
    }
}

impl From<AllocError> for RecordFault {
    ghost from_gives = { λ _ error. error ≡ record_fault.NoMemory };

    fn from(_error: AllocError) -> RecordFault {
        RecordFault::NoMemory
    }
}

impl<T: Drop> From<AllocFailed<T>> for RecordFault {
    ghost from_gives = { λ _ error. error ≡ record_fault.NoMemory };

    fn from(_error: AllocFailed<T>) -> RecordFault {
        RecordFault::NoMemory
    }
}

impl From<Failed> for RecordFault {
    ghost from_gives = { λ _ error. error ≡ record_fault.Failed };

    fn from(_error: Failed) -> RecordFault {
        RecordFault::Failed
    }
}

impl From<FormFault> for RecordFault {
    ghost from_gives = { λ fault error. error ≡ record_fault.Form fault };

    fn from(fault: FormFault) -> RecordFault {
        RecordFault::Form(fault)
    }
}
