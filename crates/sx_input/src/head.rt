//! Where a chain of blocks stands: a ledger, its record, and its digest.

ghost use Rattle.std.specs.Prelude.{◌≡◌, [], IfOk};
ghost use Rattle.sx_input.specs.Head.{IsHead};
ghost use Rattle.sx_meaning.specs.Items.{state_record};

use std::alloc::Global;
use sx_bytes::{NoMemory, Writer};
use sx_digests::StateDigest;
use sx_ledger::Ledger;
use sx_record::{FRAME_BYTES, tag, write_frame};
use sx_state::{state_length, write_state};

/// A ledger, its record if that was written, and its digest, which is that of the record and which a thread may
/// still be making.
#[derive(Drop)]
pub struct Head {
    pub ledger: Ledger,
    pub state: Option<Writer>,
    pub digest: StateDigest,
}

impl Head {
    /// The record of the ledger, which is written now if it was not before.
    pub fn into_state(self, alloc: Global) -> Result<Writer, NoMemory>
        requires { IsHead self }
        ensures { IfOk result (λ written. written ≡ state_record self.ledger) }
    {
        let Head { ledger, state, .. } = self;
        match state {
            Some(state) => Ok(state),
            None => written(alloc, &ledger, None),
        }
    }
}

// A writer of nothing, in memory that is spare where that is as long as this. A shorter one is let go, since growing it
// would copy bytes that nobody wants.
fn writer_in(alloc: Global, spare: Option<Writer>, length: usize) -> Writer
    ensures { result ≡ [] }
{
    let Some(mut spare) = spare else {
        return Writer::new(alloc);
    };
    if spare.capacity() < length {
        return Writer::new(alloc);
    }
    spare.cut(0);
    spare
}

/// The record of a ledger, written over bytes that are no longer needed, if there are some: in their memory, where that is
/// long enough.
pub fn written(alloc: Global, ledger: &Ledger, spare: Option<Writer>) -> Result<Writer, NoMemory>
    ensures { IfOk result (λ state. state ≡ state_record ledger.now) }
{
    let size = state_length(ledger);
    let mut state = writer_in(alloc, spare, FRAME_BYTES as usize + size as usize);
    write_frame(&mut state, tag::STATE, size)?;
    write_state(&mut state, ledger)?;
    Ok(state)
}
