//! Digests of ledgers and of transactions, by SHA-256.

ghost use Rattle.std.specs.Prelude.{◌≡◌, ℕ, ◌^◌, ◌<◌, ◌≤◌, List, [], ◌++◌, length, IfOk, OnOk};
ghost use Rattle.std.specs.List.{flat_map};
ghost use Rattle.sha2.specs.Hashers.{Holds256};
ghost use Rattle.sha2.specs.Sha256.{sha256};
ghost use Rattle.sx_block.specs.Digest.{IsDigest};
ghost use Rattle.sx_block.specs.Validity.{digest_of_ledger};
ghost use Rattle.sx_digests.specs.Hashing.{HoldsAllButOffers};
ghost use Rattle.sx_record.specs.Frame.{record_bytes};
ghost use Rattle.sx_tx.specs.Transactions.{list_bytes, most_transactions, tx_bytes};

use crate::pieces::{AccountEncoder, OfferEncoder, TxEncoder, add_entries, add_written};
use sha2::{Digest as Hasher, Sha256};
use std::alloc::Global;
use sx_block::Digest;
use sx_bytes::{NoMemory, Writer};
use sx_ledger::Ledger;
use sx_record::tag;
use sx_state::{state_length, write_opening};
use sx_tx::Tx;

/// SHA-256 of the record of this tag and payload: of the tag, the length of the payload in four bytes,
/// and the payload. It takes no memory.
pub fn record_digest(tag: u8, payload: &[u8]) -> Digest
    requires { length payload.now < 2 ^ 32 }
    ensures hash { result ≡ sha256 (record_bytes tag payload.now) }
    ensures digest { IsDigest result }
{
    let mut hasher = Sha256::new();
    hasher.update([tag].as_slice());
    hasher.update((payload.len() as u32).to_be_bytes().as_slice());
    hasher.update(payload);
    Digest::of(hasher.finalize())
}

// What has hashed the state record of a ledger but for the offers. The record is written and hashed in pieces, through
// a writer that is empty before and after.
pub fn hash_before_offers(piece: &mut Writer, ledger: &Ledger) -> Result<Sha256, NoMemory>
    requires { piece.old ≡ [] }
    ensures hashed { IfOk result (HoldsAllButOffers ledger.now) }
    ensures emptied { OnOk result (piece.new ≡ []) }
{
    let parts = ledger.parts();
    let accounts = AccountEncoder {
        version: parts.version,
    };
    let mut hasher = Sha256::new();
    piece.put_u8(tag::STATE)?;
    piece.put_u32(state_length(ledger))?;
    write_opening(piece, ledger)?;
    add_written(&mut hasher, piece);
    add_entries(&accounts, &mut hasher, piece, parts.accounts.items())?;
    piece.put_u32(ledger.offers())?;
    add_written(&mut hasher, piece);
    Ok(hasher)
}

/// The digest of a ledger: that of its whole state record. Accounts and offers are written and hashed in pieces, so that
/// the call takes no more memory for many of them than for 1,024.
pub fn ledger_digest(alloc: Global, ledger: &Ledger) -> Result<Digest, NoMemory>
    ensures hash { IfOk result (λ digest. digest ≡ digest_of_ledger ledger.now) }
    ensures digest { IfOk result IsDigest }
{
    let mut piece = Writer::new(alloc);
    let mut hasher = hash_before_offers(&mut piece, ledger)?;
    let offers = ledger.parts().offers.items();
    add_entries(&OfferEncoder, &mut hasher, &mut piece, offers)?;
    Ok(Digest::of(hasher.finalize()))
}

/// The digest of a list of transactions: that of the list's encoding, their number included. They are written and hashed
/// in pieces, so that the call takes no more memory for many of them than for 1,024.
pub fn body_digest(alloc: Global, txs: &[Tx]) -> Result<Digest, NoMemory>
    requires { length txs.now ≤ most_transactions }
    ensures hash { IfOk result (λ digest. digest ≡ sha256 (list_bytes txs.now)) }
    ensures digest { IfOk result IsDigest }
{
    let mut hasher = Sha256::new();
    let mut piece = Writer::new(alloc);
    piece.put_u32(txs.len() as u32)?;
    add_written(&mut hasher, &mut piece);
    add_entries(&TxEncoder, &mut hasher, &mut piece, txs)?;
    Ok(Digest::of(hasher.finalize()))
}
