//! What a block leaves: the digest of the ledger, and its record, where that is wanted.

ghost use Rattle.std.specs.Prelude.{◌≡◌, IfOk, IfSome};
ghost use Rattle.sx_block.specs.Digest.{IsDigest};
ghost use Rattle.sx_block.specs.Validity.{digest_of_ledger};
ghost use Rattle.sx_meaning.specs.Items.{state_record};

use std::alloc::Global;
use std::thread::Threads;
use sx_block::{Digest, digest_of};
use sx_bytes::{NoMemory, Writer};
use sx_digests::ledger_digest;
use sx_fork::fork;
use sx_input::written;
use sx_ledger::Ledger;
use sx_state::state_length;

// From how many bytes of a ledger on its record is written on a thread of its own. Writing takes a millisecond there,
// and to start a thread a small part of one.
const MANY_BYTES: u32 = 1 << 20;

// The digest of a ledger, and its record, where that was written.
#[derive(Drop)]
pub struct Left {
    pub digest: Digest,
    pub state: Option<Writer>,
}

// The record of a ledger, written over that of an earlier one, if there is one, and then its digest.
fn in_turn(alloc: Global, ledger: &Ledger, earlier: Option<Writer>) -> Result<Left, NoMemory>
    ensures state { IfOk result (λ left. IfSome left.state (λ written. written ≡ state_record ledger.now)) }
    ensures hash { IfOk result (λ left. left.digest ≡ digest_of_ledger ledger.now) }
    ensures digest { IfOk result (λ left. IsDigest left.digest) }
{
    let state = written(alloc, ledger, earlier)?;
    let digest = digest_of(state.bytes());
    Ok(Left {
        digest,
        state: Some(state),
    })
}

// The same, with the digest made on a thread of its own beside the record.
fn side_by_side<R: Threads>(
    rt: &R,
    alloc: Global,
    ledger: &Ledger,
    earlier: Option<Writer>,
) -> Result<Left, NoMemory>
    ensures state { IfOk result (λ left. IfSome left.state (λ written. written ≡ state_record ledger.now)) }
    ensures hash { IfOk result (λ left. left.digest ≡ digest_of_ledger ledger.now) }
    ensures digest { IfOk result (λ left. IsDigest left.digest) }
{
    let (digest, state) = fork(
        rt,
        true,
        || -> Result<Digest, NoMemory>
            ensures hash { IfOk result (λ digest. digest ≡ digest_of_ledger ledger.entry.now) }
            ensures digest { IfOk result IsDigest }
        { ledger_digest(alloc, ledger) },
        move || -> Result<Writer, NoMemory>
            ensures { IfOk result (λ state. state ≡ state_record ledger.entry.now) }
        { written(alloc, ledger, earlier) },
    );
    Ok(Left {
        digest: digest?,
        state: Some(state?),
    })
}

// The digest of a ledger, and its record, where a caller wants it. A record may be written over that of an earlier
// ledger.
pub fn left_of<R: Threads>(
    rt: &R,
    alloc: Global,
    ledger: &Ledger,
    earlier: Option<Writer>,
    is_wanted: bool,
) -> Result<Left, NoMemory>
    ensures state { IfOk result (λ left. IfSome left.state (λ written. written ≡ state_record ledger.now)) }
    ensures hash { IfOk result (λ left. left.digest ≡ digest_of_ledger ledger.now) }
    ensures digest { IfOk result (λ left. IsDigest left.digest) }
{
    if !is_wanted {
        return Ok(Left {
            digest: ledger_digest(alloc, ledger)?,
            state: None,
        });
    }
    if state_length(ledger) < MANY_BYTES {
        return in_turn(alloc, ledger, earlier);
    }
    side_by_side(rt, alloc, ledger, earlier)
}
