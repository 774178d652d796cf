//! Blocks that are applied before it is known whether the ledgers before them have the digests that they name.

ghost use Rattle.std.specs.Prelude.{◌≡◌, ◌+◌, ◌<◌, ◌≤◌, length, IfOk, IfSome};
ghost use Rattle.std.specs.List.{All};
ghost use Rattle.sha2.specs.Sha256.{sha256};
ghost use Rattle.sx_apply.specs.Effects.{AreEffects};
ghost use Rattle.sx_block.specs.Block.{IsBlock};
ghost use Rattle.sx_block.specs.Validity.{IsApplicable};
ghost use Rattle.sx_follow.specs.Ahead.{AreAhead, IsBatch};
ghost use Rattle.sx_follow.specs.Chosen.{AreChosen};
ghost use Rattle.sx_follow.specs.Bodies.{AreBodies};
ghost use Rattle.sx_follow.specs.Waiting.{AreWaiting};
ghost use Rattle.sx_tx.specs.Transactions.{list_bytes};

use crate::ahead::batch::{Batch, Claim};
use crate::ahead::bodies::Bodies;
use crate::choosing::choose;
use crate::spare::Spare;
use crate::waiting::Waiting;
use std::alloc::Global;
use std::thread::Threads;
use sx_apply::{Effects, apply};
use sx_block::{Block, Digest};
use sx_bytes::NoMemory;
use sx_check::{CheckFault, judge_applicable, survey_of};
use sx_ledger::Ledger;
use sx_state::state_length;

// How many blocks are applied ahead at most, each of which leaves a state to be hashed. Threads are started once for all of
// them.
const MOST_BLOCKS: u32 = 32;

// How many bytes these states have about, at most.
const MOST_BYTES: u32 = 1 << 23;

// From how many bytes on a state record is worth a thread of its own. Hashing takes some 50 microseconds there, and to
// start a thread about as long.
const LEAST_BYTES: u32 = 1 << 14;

// How many bytes a record has before its payload.
const FRAME_BYTES: u32 = 5;

// How many blocks are applied ahead of a ledger: none where hashing it is not worth a thread, and none where states
// as long would take much memory.
fn most_ahead(ledger: &Ledger) -> u32
    ensures { result ≤ 32 }
{
    let length = FRAME_BYTES + state_length(ledger);
    let most = MOST_BYTES / length;
    if length < LEAST_BYTES || most < 2 {
        return 0;
    }
    most.min(MOST_BLOCKS)
}

// What a block does to the ledger, whatever digests it names, where it can be applied. The body is the digest of its
// transactions.
fn effects_on<R: Threads + Sync>(
    rt: &R,
    alloc: Global,
    ledger: &Ledger,
    block: &Block,
    body: &Digest,
) -> Result<Option<Effects>, NoMemory>
    requires form { IsBlock block.now }
    requires body { body.now ≡ sha256 (list_bytes block.now.txs) }
    ensures applicable { IfOk result (λ found. IfSome found (λ _. IsApplicable ledger.now block.now)) }
    ensures effects { IfOk result (λ found. IfSome found (AreEffects ledger.now block.now)) }
{
    let found = survey_of(alloc, ledger, block.txs.items());
    match judge_applicable(rt, alloc, ledger, block, body, found, 1) {
        Ok(judged) => Ok(Some(judged.effects)),
        Err(CheckFault::Invalid(_)) => Ok(None),
        Err(CheckFault::NoMemory) => Err(NoMemory),
    }
}

// Applies the chosen blocks, one on the other, up to the first that cannot be. All change one copy of the ledger.
fn apply_chosen<R: Threads + Sync>(
    rt: &R,
    alloc: Global,
    ledger: &Ledger,
    digest: &Digest,
    blocks: &[Block],
    bodies: &Bodies,
    places: &[u32],
    spare: &mut Spare,
) -> Result<Batch, NoMemory>
    requires form { All IsBlock blocks.now }
    requires bodies { AreBodies blocks.now bodies.now }
    requires chosen { AreChosen (ledger.now.height + 1) digest.now blocks.now places.now }
    ensures { IfOk result (λ batch.
        AreAhead ledger.now digest.now blocks.now batch.claims.items batch.ledger batch.digest) }
{
    let mut claims: Vec<Claim> = Vec::new(alloc);
    let mut after = spare.copy(alloc, ledger)?;
    let mut named = *digest;
    for index in 0..places.len() {
        let place = places[index] as usize;
        let block = &blocks[place];
        let body = bodies.at(alloc, blocks, place)?;
        let Some(effects) = effects_on(rt, alloc, &after, block, &body)? else {
            break;
        };
        after = apply(alloc, after, block, effects)?;
        named = block.header.after;
        claims.push(Claim {
            state: spare.state(alloc, &after)?,
            digest: named,
        })?;
    }
    Ok(Batch {
        claims,
        ledger: after,
        digest: named,
    })
}

// The places of the blocks that are to be applied ahead of a ledger of this digest, at most so many. There are none where
// fewer than two are found.
fn chosen(
    alloc: Global,
    ledger: &Ledger,
    digest: &Digest,
    blocks: &[Block],
    waiting: &Waiting,
    reach: u32,
) -> Result<Vec<u32>, NoMemory>
    requires { AreWaiting blocks.now waiting.now }
    ensures { IfOk result (λ places. AreChosen (ledger.now.height + 1) digest.now blocks.now places.items) }
{
    let most = most_ahead(ledger).min(reach);
    let mut places = choose(alloc, blocks, waiting, ledger.height() + 1, digest, most)?;
    if places.len() < 2 {
        places.clear();
    }
    Ok(places)
}

/// Whether blocks are to be applied ahead of a ledger of this digest.
pub fn goes_ahead(
    alloc: Global,
    ledger: &Ledger,
    digest: &Digest,
    blocks: &[Block],
    waiting: &Waiting,
) -> Result<bool, NoMemory>
    requires { AreWaiting blocks.now waiting.now }
{
    Ok(!chosen(alloc, ledger, digest, blocks, waiting, MOST_BLOCKS)?.is_empty())
}

/// At most `reach` blocks that go on from a ledger of this digest by the digests that they name, applied one on the
/// other. There are none where fewer than two are found, where the first cannot be applied, and where hashing a state as long is not
/// worth a thread.
pub fn ahead<R: Threads + Sync>(
    rt: &R,
    alloc: Global,
    ledger: &Ledger,
    digest: &Digest,
    blocks: &[Block],
    bodies: &Bodies,
    waiting: &Waiting,
    spare: &mut Spare,
    reach: u32,
) -> Result<Option<Batch>, NoMemory>
    requires form { All IsBlock blocks.now }
    requires bodies { AreBodies blocks.now bodies.now }
    requires waiting { AreWaiting blocks.now waiting.now }
    ensures { IfOk result (λ found. IfSome found (IsBatch ledger.now digest.now blocks.now)) }
{
    let places = chosen(alloc, ledger, digest, blocks, waiting, reach)?;
    if places.is_empty() {
        return Ok(None);
    }
    let batch = apply_chosen(rt, alloc, ledger, digest, blocks, bodies, &places, spare)?;
    if batch.claims.is_empty() {
        batch.keep_in(spare);
        return Ok(None);
    }
    Ok(Some(batch))
}
