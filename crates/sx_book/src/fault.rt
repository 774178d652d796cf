//! Why books refuse an offer or a cancellation.

ghost use Rattle.std.specs.Prelude.{◌≡◌};
ghost use Rattle.sx_book.specs.declared.fault.BookFault.TheVariants as book_fault;

use sx_bytes::NoMemory;
use thiserror::Error;

/// Why an offer is not put into books.
#[derive(Clone, Copy, Debug, PartialEq, Eq, Error)]
pub enum BookFault {
    /// Memory ran out.
    #[error("out of memory")]
    NoMemory,
    /// 1: an offer of the same key is there.
    #[error("an offer of the same key is in the books")]
    Present,
}

impl From<NoMemory> for BookFault {
    ghost from_gives = { λ none fault. fault ≡ book_fault.NoMemory };

    fn from(_none: NoMemory) -> BookFault {
        BookFault::NoMemory
    }
}

/// 2: no offer of the key is in the books.
#[derive(Clone, Copy, Debug, PartialEq, Eq, Error)]
#[error("no offer of this key is in the books")]
pub struct Absent;
