//! What the payloads of records hold, their faults told by the offset in the whole input.

ghost use Rattle.std.specs.Prelude.{◌≡◌, ◌+◌, ◌^◌, ◌≤◌, ℕ, length, IfErr, IfOk};
ghost use Rattle.std.specs.Thread.{IsSync};
ghost use Rattle.sx_bytes.specs.Grammar.{Gives};
ghost use Rattle.sx_input.specs.Stream.{Holds, IsInPayload, IsWithin, stop_of};
ghost use Rattle.sx_meaning.specs.Items.{Item, IsItem, payload_at, payload_of, tag_of};
ghost use Rattle.sx_meaning.specs.Items as item;
ghost use Rattle.sx_record.specs.Frame.{most_bytes};
ghost use Rattle.sx_record.specs.Tags.{block_tag, candidates_tag, outcomes_tag, proof_tag, script_tag};
ghost use Rattle.sx_record.specs.Tags.{state_tag};

use crate::stop::Stop;
use std::alloc::Global;
use std::thread::Threads;
use sx_block::{Block, Digest, Proof, block_laws, par_read_block};
use sx_bytes::{FormFault, ReadError};
use sx_commit::{proof_laws, read_proof};
use sx_ledger::Ledger;
use sx_outcome::{Outcomes, Script, outcome_list_laws, read_outcomes, read_script, script_laws};
use sx_parts::{par_read_candidates, par_read_candidates_in_parts};
use sx_record::{Record, tag};
use sx_state::{par_read_state, state_laws};
use sx_tx::{TxList, TxParts, list_laws};

// How many threads share the reading of a long payload. They wait for memory more than they calculate, so more of them
// win little.
const WORKERS: u32 = 4;

/// What the payload of a record may hold.
pub trait Payload {
    /// The tag of the record.
    ghost TAG: { ℕ };

    /// The item of the input that a value is.
    ghost item: { Self → Item };

    /// What is known of a value beside its item.
    ghost goes_with: { Self → Type 0 };

    const TAG: u8;

    /// The value that a payload encodes. A state, candidates or a block, where they are long, are read by several threads, and
    /// the call returns where these return.
    fn read<R: Threads + Sync>(rt: &R, alloc: Global, payload: &[u8]) -> Result<Self, ReadError>
        requires shared { IsSync R.row }
        ensures exact { Gives item result (payload_at TAG payload.now) }
        ensures form { IfOk result (λ x. IsItem (item x)) }
        ensures tag { IfOk result (λ x. tag_of (item x) ≡ TAG) }
        ensures encoded { IfOk result (λ x. payload.now ≡ payload_of (item x)) }
        ensures known { IfOk result goes_with }
        ensures within { IfErr result (IsInPayload payload.now) };
}

impl Payload for Ledger {
    ghost TAG = { state_tag };

    ghost item = { λ ledger. item.state ledger };

    ghost goes_with = { λ _. Unit {0} };

    const TAG: u8 = tag::STATE;

    fn read<R: Threads + Sync>(rt: &R, alloc: Global, payload: &[u8]) -> Result<Ledger, ReadError> {
        state_laws();
        par_read_state(rt, alloc, payload, WORKERS)
    }
}

impl Payload for TxList {
    ghost TAG = { candidates_tag };

    ghost item = { λ txs. item.candidates txs };

    ghost goes_with = { λ _. Unit {0} };

    const TAG: u8 = tag::CANDIDATES;

    fn read<R: Threads + Sync>(rt: &R, alloc: Global, payload: &[u8]) -> Result<TxList, ReadError> {
        list_laws();
        par_read_candidates(rt, alloc, payload, WORKERS)
    }
}

// The candidates of an input whose parts may stay apart.
impl Payload for TxParts {
    ghost TAG = { candidates_tag };

    ghost item = { λ txs. item.candidates txs };

    ghost goes_with = { λ _. Unit {0} };

    const TAG: u8 = tag::CANDIDATES;

    fn read<R: Threads + Sync>(
        rt: &R,
        alloc: Global,
        payload: &[u8],
    ) -> Result<TxParts, ReadError> {
        list_laws();
        par_read_candidates_in_parts(rt, alloc, payload, WORKERS)
    }
}

impl Payload for Block {
    ghost TAG = { block_tag };

    ghost item = { λ said. item.block said };

    ghost goes_with = { λ _. Unit {0} };

    const TAG: u8 = tag::BLOCK;

    fn read<R: Threads + Sync>(rt: &R, alloc: Global, payload: &[u8]) -> Result<Block, ReadError> {
        block_laws();
        par_read_block(rt, alloc, payload, WORKERS)
    }
}

impl Payload for Outcomes {
    ghost TAG = { outcomes_tag };

    ghost item = { λ told. item.outcomes told };

    ghost goes_with = { λ _. Unit {0} };

    const TAG: u8 = tag::OUTCOMES;

    fn read<R: Threads + Sync>(
        _rt: &R,
        alloc: Global,
        payload: &[u8],
    ) -> Result<Outcomes, ReadError> {
        outcome_list_laws();
        read_outcomes(alloc, payload)
    }
}

impl Payload for Script {
    ghost TAG = { script_tag };

    ghost item = { λ script. item.script script };

    ghost goes_with = { λ _. Unit {0} };

    const TAG: u8 = tag::SCRIPT;

    fn read<R: Threads + Sync>(
        _rt: &R,
        alloc: Global,
        payload: &[u8],
    ) -> Result<Script, ReadError> {
        script_laws();
        read_script(alloc, payload)
    }
}

impl Payload for (Digest, Proof) {
    ghost TAG = { proof_tag };

    ghost item = { λ claim. item.proof claim };

    ghost goes_with = { λ _. Unit {0} };

    const TAG: u8 = tag::PROOF;

    fn read<R: Threads + Sync>(
        _rt: &R,
        alloc: Global,
        payload: &[u8],
    ) -> Result<(Digest, Proof), ReadError> {
        proof_laws();
        read_proof(alloc, payload)
    }
}

// A fault of a payload that begins at this offset.
fn stop_in(at: u64, error: ReadError) -> Stop
    requires { IsWithin at error }
    ensures { result ≡ stop_of at error }
{
    match error {
        ReadError::NoMemory => Stop::NoMemory,
        ReadError::Form(fault) => Stop::Malformed(FormFault {
            at: at + fault.at,
            fault: fault.fault,
        }),
    }
}

/// What the payload of a record holds. Several threads may read it, and the call returns where these return.
pub fn decoded<P: Payload, R: Threads + Sync>(
    rt: &R,
    alloc: Global,
    found: &Record,
) -> Result<P, Stop>
    requires place { found.now.at ≤ 2 ^ 63 + 5 }
    requires fits { length found.now.payload ≤ most_bytes }
    ensures exact { Holds P.item found.now.at (payload_at P.TAG found.now.payload) result }
    ensures form { IfOk result (λ x. IsItem (P.item x)) }
    ensures tag { IfOk result (λ x. tag_of (P.item x) ≡ P.TAG) }
    ensures encoded { IfOk result (λ x. found.now.payload ≡ payload_of (P.item x)) }
    ensures known { IfOk result P.goes_with }
{
    match P::read(rt, alloc, found.payload.items()) {
        Ok(x) => Ok(x),
        Err(error) => Err(stop_in(found.at, error)),
    }
}
