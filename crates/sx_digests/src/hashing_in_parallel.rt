//! The digest of a ledger with many offers, by two threads.

ghost use Rattle.std.specs.Prelude.{◌≡◌, IfOk};
ghost use Rattle.std.specs.List.{flat_map};
ghost use Rattle.sx_block.specs.Digest.{IsDigest};
ghost use Rattle.sx_block.specs.Validity.{digest_of_ledger};
ghost use Rattle.sx_digests.specs.Hashing.{HoldsAllButOffers};
ghost use Rattle.sx_state.specs.Encoding.{offer_bytes};

use crate::hashing::{hash_before_offers, ledger_digest};
use sha2::{Digest as Hasher, Sha256};
use std::alloc::Global;
use std::thread::Threads;
use sx_block::Digest;
use sx_bytes::{NoMemory, Writer};
use sx_fork::fork;
use sx_ledger::Ledger;
use sx_state::write_offers;

// From how many offers on a thread of its own encodes them. For fewer it is not worth starting one.
const MANY_OFFERS: u32 = 32_768;

// How many bytes an offer has in a state.
const OFFER_BYTES: usize = 34;

// The encoding of all offers of a ledger, in memory that is taken once.
fn written_offers(alloc: Global, ledger: &Ledger) -> Result<Writer, NoMemory>
    ensures { IfOk result (λ written. written ≡ flat_map offer_bytes ledger.now.offers) }
{
    let mut written = Writer::new(alloc);
    written.reserve(ledger.offers() as usize * OFFER_BYTES)?;
    write_offers(&mut written, ledger.parts().offers.items())?;
    Ok(written)
}

/// The digest of a ledger, as [`ledger_digest`] answers it. Where there are 32,768 offers or more, one thread encodes
/// all of them while another one hashes the accounts, and so the call takes memory for the encoding, 34 bytes an offer.
/// It only waits for both. Where no thread can be started, it does the work of both itself, one after the other.
/// `NoMemory` is the only error.
pub fn par_ledger_digest<R: Threads>(
    rt: &R,
    alloc: Global,
    ledger: &Ledger,
) -> Result<Digest, NoMemory>
    ensures hash { IfOk result (λ digest. digest ≡ digest_of_ledger ledger.now) }
    ensures digest { IfOk result IsDigest }
{
    if ledger.offers() < MANY_OFFERS {
        return ledger_digest(alloc, ledger);
    }
    let (offers, hasher) = fork(
        rt,
        true,
        || -> Result<Writer, NoMemory>
            ensures { IfOk result (λ written. written ≡ flat_map offer_bytes ledger.entry.now.offers) }
        { written_offers(alloc, ledger) },
        || -> Result<Sha256, NoMemory>
            ensures { IfOk result (HoldsAllButOffers ledger.entry.now) }
        { hash_before_offers(&mut Writer::new(alloc), ledger) },
    );
    let offers = offers?;
    let mut hasher = hasher?;
    hasher.update(offers.bytes());
    Ok(Digest::of(hasher.finalize()))
}
