//! Why the words are no command.

ghost use Rattle.std.specs.Prelude.{◌≡◌};
ghost use Rattle.sx_words.specs.declared.fault.WordsFault.TheVariants as words_fault;

use std::alloc::{AllocError, AllocFailed};
use sx_bytes::NoMemory;
use thiserror::Error;

/// Why [`parse`](crate::parse) answers no command.
#[derive(Clone, Copy, Debug, PartialEq, Eq, Error)]
pub enum WordsFault {
    /// Memory ran out. It may be answered in place of any other answer.
    #[error("out of memory")]
    NoMemory,
    /// The words spell no command.
    #[error("the words are no command")]
    Usage,
}

impl From<NoMemory> for WordsFault {
    ghost from_gives = { λ _ fault. fault ≡ words_fault.NoMemory };

    fn from(_error: NoMemory) -> WordsFault {
        WordsFault::NoMemory
    }
}

impl From<AllocError> for WordsFault {
    ghost from_gives = { λ _ fault. fault ≡ words_fault.NoMemory };

    fn from(_error: AllocError) -> WordsFault {
        WordsFault::NoMemory
    }
}

impl<T: Drop> From<AllocFailed<T>> for WordsFault {
    ghost from_gives = { λ _ fault. fault ≡ words_fault.NoMemory };

    fn from(_error: AllocFailed<T>) -> WordsFault {
        WordsFault::NoMemory
    }
}
