//! `verify`: a root and a proof, and nothing more.

ghost use Rattle.std.specs.Prelude.{◌≡◌, [], ◌∷◌, IsErrOf, IsTrue};
ghost use Rattle.sx_base.specs.Outside.{Rose};
ghost use Rattle.sx_commit.specs.Claim.{IsClaim};
ghost use Rattle.sx_input.specs.Found.{ConcludesAs, Found};
ghost use Rattle.sx_input.specs.Stream.{UnlessReadFault};
ghost use Rattle.sx_meaning.specs.Items as item;

use std::alloc::Global;
use std::thread::Threads;
use sx_base::Source;
use sx_block::{Digest, Proof};
use sx_input::{Stop, end, take};
use sx_text::{Text, proof_line};
use sx_words::Command;

// The line that tells whether a proof is good for a root.
fn verdict(alloc: Global, root: &Digest, proof: &Proof) -> Result<Text, Stop>
    requires { IsClaim (root.now, proof.now) }
    ensures concludes { ConcludesAs Command.Verify (item.proof (root.now, proof.now) ∷ []) result }
    ensures calm { IsErrOf result Stop.ReadFault → ⊥ }
{
    let good = sx_commit::verify(root, proof);
    Ok(proof_line(alloc, root, proof, good)?)
}

/// The line that tells whether the proof of the input is good for its root. An error is the first fault of the input,
/// that memory ran out, or a fault of reading.
pub fn verify<R: Threads + Sync, S: Source>(
    rt: &R,
    alloc: Global,
    source: &mut S,
) -> Result<Text, Stop>
    ensures found { Found Command.Verify (S.left source.old) (S.left source.new) result }
    ensures steady { UnlessReadFault result (IsTrue (S.strict source.old) → S.faults source.new ≡ S.faults source.old) }
    ensures read_fault { IsErrOf result Stop.ReadFault → Rose (S.faults source.old) (S.faults source.new) }
{
    let claim = take::<(Digest, Proof), R, S>(rt, alloc, source, 0)?;
    end(alloc, source, claim.end)?;
    let (root, proof) = &claim.held;
    verdict(alloc, root, proof)
}
