//! `prove`: a state, and nothing more. What shows one account is written.

ghost use Rattle.std.specs.Prelude.{◌≡◌, ◌<◌, [], ◌∷◌, IfOk, IfSome, IsErrOf, IsTrue, Some, length, slice_get};
ghost use Rattle.sx_base.specs.Outside.{Rose};
ghost use Rattle.sx_commit.specs.Commitments.{root_of};
ghost use Rattle.sx_input.specs.Found.{ConcludesAs, Found};
ghost use Rattle.sx_input.specs.Stream.{UnlessReadFault};
ghost use Rattle.sx_ledger.specs.declared.account.Account.{Account as Entry};
ghost use Rattle.sx_ledger.specs.Ledger.{IsLedger};
ghost use Rattle.sx_meaning.specs.Items.{item_record};
ghost use Rattle.sx_meaning.specs.Items as item;
ghost use Rattle.sx_meaning.specs.Proving.{proof_in};

use std::alloc::Global;
use std::thread::Threads;
use sx_base::{AccountId, Source};
use sx_block::{Digest, Proof};
use sx_bytes::{NoMemory, Writer};
use sx_commit::{commitment_laws, leads_to, proof_laws, write_proof};
use sx_input::{Stop, end, take};
use sx_ledger::Ledger;
use sx_record::{tag, write_record};
use sx_words::{Command, Setting};

// The record of the proof of the account at a place, with the root of the ledger. As many workers make the digests as
// where a command is given no number of them.
fn proof_record<R: Threads + Sync>(
    rt: &R,
    alloc: Global,
    ledger: &Ledger,
    place: u32,
) -> Result<Writer, NoMemory>
    requires ledger { IsLedger ledger.now }
    requires place { place < length ledger.now.accounts }
    ensures { (account : Entry) → slice_get ledger.now.accounts place ≡ Some account
        → IfOk result (λ told. told ≡ item_record (item.proof (root_of ledger.now, proof_in ledger.now place account))) }
{
    commitment_laws();
    proof_laws();
    let workers = Setting::Workers.default();
    let proof = sx_commit::prove(rt, alloc, ledger, place, workers)?;
    let root = leads_to(&proof);
    let mut payload = Writer::new(alloc);
    write_proof(&mut payload, &root, &proof)?;
    let mut told = Writer::new(alloc);
    write_record(&mut told, tag::PROOF, payload.bytes())?;
    Ok(told)
}

// The record of the proof of an account, or nothing where there is no such account.
fn proved<R: Threads + Sync>(
    rt: &R,
    alloc: Global,
    ledger: &Ledger,
    id: u64,
) -> Result<Writer, Stop>
    requires { IsLedger ledger.now }
    ensures concludes { ConcludesAs (Command.Prove id) (item.state ledger.now ∷ []) result }
    ensures calm { IsErrOf result Stop.ReadFault → ⊥ }
{
    match ledger.find(AccountId(id)) {
        Some(place) => Ok(proof_record(rt, alloc, ledger, place)?),
        None => Ok(Writer::new(alloc)),
    }
}

/// The record of the proof of an account of the state of the input, or nothing if it has no such account. An error is
/// the first fault of the input, that memory ran out, or a fault of reading.
pub fn prove<R: Threads + Sync, S: Source>(
    rt: &R,
    alloc: Global,
    id: u64,
    source: &mut S,
) -> Result<Writer, Stop>
    ensures found { Found (Command.Prove id) (S.left source.old) (S.left source.new) result }
    ensures steady { UnlessReadFault result (IsTrue (S.strict source.old) → S.faults source.new ≡ S.faults source.old) }
    ensures read_fault { IsErrOf result Stop.ReadFault → Rose (S.faults source.old) (S.faults source.new) }
{
    let opening = take::<Ledger, R, S>(rt, alloc, source, 0)?;
    end(alloc, source, opening.end)?;
    proved(rt, alloc, &opening.held, id)
}
