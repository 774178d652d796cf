//! The transactions of a block, written and hashed at once.

ghost use Rattle.std.specs.Prelude.{◌≡◌, ℕ, ◌≤◌, List, ◌++◌, length, IfOk, OnOk};
ghost use Rattle.std.specs.List.{flat_map};
ghost use Rattle.sha2.specs.Hashers.{Holds256};
ghost use Rattle.sha2.specs.Sha256.{sha256};
ghost use Rattle.sx_block.specs.Digest.{IsDigest};
ghost use Rattle.sx_tx.specs.Transactions.{list_bytes, most_transactions, tx_bytes};

use crate::pieces::{Encoder, TxEncoder};
use sha2::{Digest as Hasher, Sha256};
use std::alloc::Global;
use std::mem::swap;
use std::thread::Threads;
use sx_block::{Digest, digest_of};
use sx_bytes::{NoMemory, Writer};
use sx_fork::fork_mut;
use sx_tx::Tx;

// How many transactions are written while those before them are hashed: some two megabytes, which take several
// milliseconds to hash. To start a thread takes up to one on a busy machine.
const A_PIECE: usize = 1 << 16;

/// The encoding of a list of transactions, and its digest.
#[derive(Debug, Drop)]
pub struct WrittenBody {
    pub list: Writer,
    pub digest: Digest,
}

// Appends transactions to a list, and leaves them alone in the piece.
fn write_piece(list: &mut Writer, piece: &mut Writer, txs: &[Tx]) -> Result<(), NoMemory>
    ensures list { OnOk result (list.new ≡ list.old ++ flat_map tx_bytes txs.now) }
    ensures piece { OnOk result (piece.new ≡ flat_map tx_bytes txs.now) }
{
    piece.cut(0);
    TxEncoder.write(piece, txs)?;
    list.raw(piece.bytes())
}

// Appends transactions to a list, and leaves them alone in the piece. A thread of its own adds those that were written
// before to a message meanwhile.
fn write_beside<R: Threads>(
    rt: &R,
    hasher: &mut Sha256,
    before: &Writer,
    list: &mut Writer,
    piece: &mut Writer,
    txs: &[Tx],
) -> Result<(), NoMemory>
    ensures hashed { (m : List ℕ) → Holds256 hasher.old m → Holds256 hasher.new (m ++ before.now) }
    ensures list { OnOk result (list.new ≡ list.old ++ flat_map tx_bytes txs.now) }
    ensures piece { OnOk result (piece.new ≡ flat_map tx_bytes txs.now) }
{
    let (_hashed, written) = fork_mut(
        rt,
        true,
        &mut || hasher.update(before.bytes()),
        &mut || write_piece(list, piece, txs),
    );
    written
}

// Appends transactions to a list, in pieces, each of which is hashed while the next one is written. What has the whole
// list as its message is answered.
fn write_and_hash<R: Threads>(
    rt: &R,
    alloc: Global,
    list: &mut Writer,
    txs: &[Tx],
) -> Result<Sha256, NoMemory>
    ensures list { OnOk result (list.new ≡ list.old ++ flat_map tx_bytes txs.now) }
    ensures hashed { IfOk result (λ hasher. Holds256 hasher (list.old ++ flat_map tx_bytes txs.now)) }
{
    let mut hasher = Sha256::new();
    let mut before = Writer::new(alloc);
    let mut piece = Writer::new(alloc);
    before.raw(list.bytes())?;
    let mut done = 0;
    while done < txs.len() {
        let count = A_PIECE.min(txs.len() - done);
        write_beside(
            rt,
            &mut hasher,
            &before,
            list,
            &mut piece,
            &txs[done..done + count],
        )?;
        swap(&mut before, &mut piece);
        done += count;
    }
    hasher.update(before.bytes());
    Ok(hasher)
}

/// The encoding of a list of transactions, their number included, and its digest. It is written over `spare`, whose
/// bytes are lost: where that holds memory for it, none is taken. More than 65,536 transactions are written in pieces:
/// one thread hashes a piece while another one writes the next, and the call only waits for both. Where no thread can
/// be started, it does the work of both itself.
pub fn par_written_body<R: Threads>(
    rt: &R,
    alloc: Global,
    txs: &[Tx],
    spare: Writer,
) -> Result<WrittenBody, NoMemory>
    requires { length txs.now ≤ most_transactions }
    ensures list { IfOk result (λ written. written.list ≡ list_bytes txs.now) }
    ensures hash { IfOk result (λ written. written.digest ≡ sha256 (list_bytes txs.now)) }
    ensures digest { IfOk result (λ written. IsDigest written.digest) }
{
    let mut list = spare;
    list.cut(0);
    list.put_u32(txs.len() as u32)?;
    if txs.len() <= A_PIECE {
        TxEncoder.write(&mut list, txs)?;
        let digest = digest_of(list.bytes());
        return Ok(WrittenBody { list, digest });
    }
    let hasher = write_and_hash(rt, alloc, &mut list, txs)?;
    let digest = Digest::of(hasher.finalize());
    Ok(WrittenBody { list, digest })
}
