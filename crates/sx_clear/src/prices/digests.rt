//! The digests of what is there before anything trades.

ghost use Rattle.std.specs.Prelude.{◌≤◌, IfOk, length};
ghost use Rattle.sx_clear.specs.Digests.{IsBodyDigest, IsParentDigest, IsWrittenBody};
ghost use Rattle.sx_tx.specs.Transactions.{most_transactions};

use std::alloc::Global;
use std::thread::Threads;
use sx_block::Digest;
use sx_bytes::{NoMemory, Writer};
use sx_digests::{WrittenBody, body_digest, ledger_digest, par_written_body};
use sx_ledger::Ledger;
use sx_tx::Tx;

/// The digest of a ledger, and that of the transactions of a block on it.
#[derive(Clone, Copy, Debug, Drop)]
pub struct Digests {
    pub parent: Digest,
    pub body: Digest,
}

/// The digest of a ledger: SHA-256 of its state record.
pub fn digest_of_parent(alloc: Global, ledger: &Ledger) -> Result<Digest, NoMemory>
    ensures { IfOk result (IsParentDigest ledger.now) }
{
    ledger_digest(alloc, ledger)
}

/// The digest of at most 1,000,000 transactions: SHA-256 of their encoding.
pub fn digest_of_body(alloc: Global, txs: &[Tx]) -> Result<Digest, NoMemory>
    requires few { length txs.now ≤ most_transactions }
    ensures { IfOk result (IsBodyDigest txs.now) }
{
    body_digest(alloc, txs)
}

// The encoding of transactions, written over what is spare, and its digest.
pub(crate) fn written_body<R: Threads>(
    rt: &R,
    alloc: Global,
    txs: &[Tx],
    spare: Writer,
) -> Result<WrittenBody, NoMemory>
    requires few { length txs.now ≤ most_transactions }
    ensures { IfOk result (IsWrittenBody txs.now) }
{
    par_written_body(rt, alloc, txs, spare)
}
