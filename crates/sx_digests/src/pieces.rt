//! Entries of a record, written and hashed piece by piece.

ghost use Rattle.std.specs.Prelude.{◌≡◌, ℕ, List, [], ◌++◌, OnOk};
ghost use Rattle.std.specs.List.{flat_map};
ghost use Rattle.sha2.specs.Hashers.{Holds256};
ghost use Rattle.sx_ledger.specs.declared.account.Account.{Account as OneAccount};
ghost use Rattle.sx_ledger.specs.declared.offer.Offer.{Offer as OneOffer};
ghost use Rattle.sx_state.specs.Encoding.{account_bytes, offer_bytes};
ghost use Rattle.sx_tx.specs.Transactions.{tx_bytes};

use sha2::{Digest as Hasher, Sha256};
use sx_bytes::{NoMemory, Writer};
use sx_ledger::{Account, Offer};
use sx_state::{write_accounts, write_offers};
use sx_tx::{Tx, write_tx};

// How many entries are written before their bytes are hashed, which are then still in a processor's cache.
const A_PIECE: usize = 1024;

// How entries of a kind are written.
pub trait Encoder<T> {
    // The bytes of one entry.
    ghost encode: { Self → T → List ℕ };

    // Appends entries.
    fn write(&self, to: &mut Writer, entries: &[T]) -> Result<(), NoMemory>
        ensures { OnOk result (to.new ≡ to.old ++ flat_map (encode self.now) entries.now) };
}

// Accounts as a state of this version has them.
#[derive(Clone, Copy)]
pub struct AccountEncoder {
    pub version: u8,
}

impl Encoder<Account> for AccountEncoder {
    ghost encode = { λ encoder. account_bytes encoder.version };

    fn write(&self, to: &mut Writer, entries: &[Account]) -> Result<(), NoMemory> {
        write_accounts(to, self.version, entries)
    }
}

// Offers as a state has them.
#[derive(Clone, Copy)]
pub struct OfferEncoder;

impl Encoder<Offer> for OfferEncoder {
    ghost encode = { λ _. offer_bytes };

    fn write(&self, to: &mut Writer, entries: &[Offer]) -> Result<(), NoMemory> {
        write_offers(to, entries)
    }
}

// Transactions as a block has them.
#[derive(Clone, Copy)]
pub struct TxEncoder;

impl Encoder<Tx> for TxEncoder {
    ghost encode = { λ _. tx_bytes };

    fn write(&self, to: &mut Writer, entries: &[Tx]) -> Result<(), NoMemory> {
        for tx in entries {
            write_tx(to, tx)?;
        }
        Ok(())
    }
}

// Adds to a message what was written, and empties the writer.
pub fn add_written(hasher: &mut Sha256, written: &mut Writer)
    ensures hashed { (m : List ℕ) → Holds256 hasher.old m → Holds256 hasher.new (m ++ written.old) }
    ensures emptied { written.new ≡ [] }
{
    hasher.update(written.bytes());
    written.cut(0);
}

// Adds entries to a message, through a writer that is empty before and after.
fn add_piece<T, E: Encoder<T>>(
    encoder: &E,
    hasher: &mut Sha256,
    piece: &mut Writer,
    entries: &[T],
) -> Result<(), NoMemory>
    requires { piece.old ≡ [] }
    ensures hashed { OnOk result ((m : List ℕ) → Holds256 hasher.old m
        → Holds256 hasher.new (m ++ flat_map (E.encode encoder.now) entries.now)) }
    ensures emptied { OnOk result (piece.new ≡ []) }
{
    encoder.write(piece, entries)?;
    add_written(hasher, piece);
    Ok(())
}

// Adds entries to a message, in pieces, through a writer that is empty before and after.
pub fn add_entries<T, E: Encoder<T>>(
    encoder: &E,
    hasher: &mut Sha256,
    piece: &mut Writer,
    entries: &[T],
) -> Result<(), NoMemory>
    requires { piece.old ≡ [] }
    ensures hashed { OnOk result ((m : List ℕ) → Holds256 hasher.old m
        → Holds256 hasher.new (m ++ flat_map (E.encode encoder.now) entries.now)) }
    ensures emptied { OnOk result (piece.new ≡ []) }
{
    let mut done = 0;
    while done < entries.len() {
        let count = A_PIECE.min(entries.len() - done);
        add_piece(encoder, hasher, piece, &entries[done..done + count])?;
        done += count;
    }
    Ok(())
}
