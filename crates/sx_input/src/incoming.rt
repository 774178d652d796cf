//! Blocks as they come, with the digests of their transactions and what those do to a ledger.

ghost use Rattle.std.specs.Prelude.{◌≡◌, ◌+◌, ◌^◌, ◌≤◌, drop, length, IfErr, IfOk, IsErrOf, IsTrue};
ghost use Rattle.sha2.specs.Sha256.{sha256};
ghost use Rattle.sx_base.specs.Outside.{Rose};
ghost use Rattle.sx_block.specs.Block.{IsBlock};
ghost use Rattle.sx_block.specs.Encoding.{block_bytes};
ghost use Rattle.sx_check.specs.Surveys.{IsSurveyed};
ghost use Rattle.sx_input.specs.Incoming.{HasDigest, IsReady, item_of};
ghost use Rattle.sx_input.specs.Stream.{Holds, Stops, UnlessReadFault};
ghost use Rattle.sx_meaning.specs.Expected.{item_at, needed};
ghost use Rattle.sx_meaning.specs.Items.{IsItem, item_record, payload_at, payload_of};
ghost use Rattle.sx_meaning.specs.Items as item;
ghost use Rattle.sx_record.specs.Frame.{frame_bytes, most_bytes};
ghost use Rattle.sx_record.specs.Stream.{Took};
ghost use Rattle.sx_record.specs.Tags.{block_tag};
ghost use Rattle.sx_tx.specs.Transactions.{list_bytes};

use crate::payloads::decoded;
use crate::stop::Stop;
use crate::stream::{Taken, end_of, required};
use std::alloc::Global;
use std::thread::Threads;
use sx_base::Source;
use sx_block::{Block, Digest, digest_of, header_length};
use sx_check::{Survey, par_survey_of};
use sx_fork::fork;
use sx_ledger::Ledger;
use sx_record::{Record, tag};
use sx_tally::PrecheckFault;

// From how many bytes on transactions are hashed on a thread of their own. Hashing takes a millisecond there, and to
// start a thread a small part of one.
const WORTH_A_THREAD: usize = 1 << 18;

// Where a block's payload has the number of its assets.
const ASSETS_AT: usize = 74;

// How many bytes a block has of each asset before its trades, and after them.
const PRICE_BYTES: usize = 8;

const OUTCOME_BYTES: usize = 12;

const TRADE_BYTES: usize = 18;

const CUT_BYTES: usize = 4;

const DIGEST_BYTES: usize = 32;

/// A block that was read, the digest of its transactions, and the survey of them on the ledger that it comes to.
#[derive(Debug, Drop)]
pub struct Incoming {
    pub block: Block,
    pub body: Digest,
    pub found: Result<Survey, PrecheckFault>,
}

// A block that was read, and the survey of its transactions on a ledger.
#[derive(Debug, Drop)]
struct Surveyed {
    block: Block,
    found: Result<Survey, PrecheckFault>,
}

// The byte at a place, or 0 where there is none.
fn byte_at(payload: &[u8], at: usize) -> usize
    ensures { result ≤ 255 }
{
    match payload.get(at) {
        Some(byte) => *byte as usize,
        None => 0,
    }
}

// Where the transactions begin in the payload of a block, found by the counts in its header before it is decoded. In
// other bytes it is some place. Only time rests on it: a digest from another place is not used.
fn transactions_begin(payload: &[u8]) -> usize
    ensures { result ≤ length payload.now }
{
    let assets = byte_at(payload, ASSETS_AT);
    let trades_at = ASSETS_AT + 1 + PRICE_BYTES * assets;
    let trades = 256 * byte_at(payload, trades_at) + byte_at(payload, trades_at + 1);
    let cut_at = trades_at + 2 + TRADE_BYTES * trades;
    let cut = if byte_at(payload, cut_at) == 0 {
        0
    } else {
        CUT_BYTES
    };
    let begin = cut_at + 1 + cut + OUTCOME_BYTES * assets + DIGEST_BYTES;
    begin.min(payload.len())
}

// The block that the payload of a record encodes, and the survey of its transactions on a ledger, by so many workers.
fn with_survey<R: Threads + Sync>(
    rt: &R,
    alloc: Global,
    ledger: &Ledger,
    found: &Record,
    workers: u32,
) -> Result<Surveyed, Stop>
    requires some_worker { 1 ≤ workers }
    requires few_workers { workers ≤ 64 }
    requires place { found.now.at ≤ 2 ^ 63 + 5 }
    requires fits { length found.now.payload ≤ most_bytes }
    ensures exact { Holds (λ said. item.block said.block) found.now.at (payload_at block_tag found.now.payload) result }
    ensures form { IfOk result (λ said. IsBlock said.block) }
    ensures encoded { IfOk result (λ said. found.now.payload ≡ block_bytes said.block) }
    ensures survey { IfOk result (λ said. IsSurveyed ledger.now said.block.txs said.found) }
{
    let block: Block = decoded(rt, alloc, found)?;
    let found = par_survey_of(rt, alloc, ledger, block.txs.items(), workers);
    Ok(Surveyed { block, found })
}

// The digest of the bytes of a payload from a place on, and the block that the payload encodes with its survey. Where
// there are many such bytes, a thread of its own makes the digest.
fn digest_and_block<R: Threads + Sync>(
    rt: &R,
    alloc: Global,
    ledger: &Ledger,
    found: &Record,
    from: usize,
    workers: u32,
) -> (Digest, Result<Surveyed, Stop>)
    requires some_worker { 1 ≤ workers }
    requires few_workers { workers ≤ 64 }
    requires place { found.now.at ≤ 2 ^ 63 + 5 }
    requires fits { length found.now.payload ≤ most_bytes }
    requires within { from ≤ length found.now.payload }
    ensures digest { result.0 ≡ sha256 (drop from found.now.payload) }
    ensures exact { Holds (λ said. item.block said.block) found.now.at (payload_at block_tag found.now.payload) result.1 }
    ensures form { IfOk result.1 (λ said. IsBlock said.block) }
    ensures encoded { IfOk result.1 (λ said. found.now.payload ≡ block_bytes said.block) }
    ensures survey { IfOk result.1 (λ said. IsSurveyed ledger.now said.block.txs said.found) }
{
    let transactions = &found.payload.items()[from..];
    if transactions.len() < WORTH_A_THREAD {
        return (
            digest_of(transactions),
            with_survey(rt, alloc, ledger, found, workers),
        );
    }
    fork(
        rt,
        true,
        || -> Digest
            ensures { result ≡ sha256 transactions.entry.now }
        { digest_of(transactions) },
        || -> Result<Surveyed, Stop>
            requires some_worker { 1 ≤ workers }
            requires few_workers { workers ≤ 64 }
            requires place { found.now.at ≤ 2 ^ 63 + 5 }
            requires fits { length found.now.payload ≤ most_bytes }
            ensures exact { Holds (λ said. item.block said.block) found.entry.now.at (payload_at block_tag found.entry.now.payload) result }
            ensures form { IfOk result (λ said. IsBlock said.block) }
            ensures encoded { IfOk result (λ said. found.entry.now.payload ≡ block_bytes said.block) }
            ensures survey { IfOk result (λ said. IsSurveyed ledger.entry.now said.block.txs said.found) }
        { with_survey(rt, alloc, ledger, found, workers) },
    )
}

// The digest of the transactions of a block, where a digest was made of its payload from a place on.
fn transactions_digest(payload: &[u8], block: &Block, from: usize, digest: Digest) -> Digest
    requires form { IsBlock block.now }
    requires encoded { payload.now ≡ block_bytes block.now }
    requires digest { digest ≡ sha256 (drop from payload.now) }
    ensures { result ≡ sha256 (list_bytes block.now.txs) }
{
    let begin = header_length(block);
    if begin == from {
        return digest;
    }
    digest_of(&payload[begin..])
}

/// The block that the payload of a record encodes, with the digest of its transactions, which is made of the payload's
/// own bytes, and the survey of them on the ledger that the block comes to, for which 1 to 64 workers look accounts and
/// offers up. Many transactions are hashed on a thread of their own while the block is decoded and surveyed, and the
/// call returns where that thread returns. Where no thread can be started, the two are done in turn. The answer is the
/// same for every number of workers.
pub fn decoded_block<R: Threads + Sync>(
    rt: &R,
    alloc: Global,
    ledger: &Ledger,
    found: &Record,
    workers: u32,
) -> Result<Incoming, Stop>
    requires some_worker { 1 ≤ workers }
    requires few_workers { workers ≤ 64 }
    requires place { found.now.at ≤ 2 ^ 63 + 5 }
    requires fits { length found.now.payload ≤ most_bytes }
    ensures exact { Holds item_of found.now.at (payload_at block_tag found.now.payload) result }
    ensures form { IfOk result (λ incoming. IsItem (item_of incoming)) }
    ensures encoded { IfOk result (λ incoming. found.now.payload ≡ payload_of (item_of incoming)) }
    ensures known { IfOk result HasDigest }
    ensures survey { IfOk result (IsReady ledger.now) }
{
    let payload = found.payload.items();
    let from = transactions_begin(payload);
    let (digest, said) = digest_and_block(rt, alloc, ledger, found, from, workers);
    let Surveyed { block, found } = said?;
    let body = transactions_digest(payload, &block, from, digest);
    Ok(Incoming { block, body, found })
}

/// The block that the next record holds, which has to be there and to have the tag of a block, with its survey on
/// the ledger that it comes to, by 1 to 64 workers.
pub fn take_block<R: Threads + Sync, S: Source>(
    rt: &R,
    alloc: Global,
    ledger: &Ledger,
    source: &mut S,
    at: u64,
    workers: u32,
) -> Result<Taken<Incoming>, Stop>
    requires place { at ≤ 2 ^ 63 }
    requires some_worker { 1 ≤ workers }
    requires few_workers { workers ≤ 64 }
    ensures stops { IfErr result (Stops (item_at (needed block_tag) at) (S.left source.old) (S.left source.new)) }
    ensures took { IfOk result (λ taken. Took (S.left source.old) (S.left source.new) (item_record (item_of taken.held))) }
    ensures form { IfOk result (λ taken. IsItem (item_of taken.held)) }
    ensures known { IfOk result (λ taken. HasDigest taken.held) }
    ensures survey { IfOk result (λ taken. IsReady ledger.now taken.held) }
    ensures end { IfOk result (λ taken. taken.end ≡ at + length (item_record (item_of taken.held))) }
    ensures near { IfOk result (λ taken. taken.end ≤ at + (frame_bytes + most_bytes)) }
    ensures steady { UnlessReadFault result (IsTrue (S.strict source.old) → S.faults source.new ≡ S.faults source.old) }
    ensures read_fault { IsErrOf result Stop.ReadFault → Rose (S.faults source.old) (S.faults source.new) }
    ensures falls_never { S.faults source.old ≤ S.faults source.new }
    ensures kept { S.strict source.new ≡ S.strict source.old }
{
    let found = required(alloc, source, at, tag::BLOCK)?;
    let held = decoded_block(rt, alloc, ledger, &found, workers)?;
    let end = end_of(&found);
    Ok(Taken { held, end })
}
