//! Writing a root and a proof. What is written is their one encoding, and where memory runs out it is taken back.

ghost use Rattle.std.specs.Prelude.{◌≡◌, ◌≤◌, ◌++◌, length, OnOk, OnErr};
ghost use Rattle.std.specs.List.{flat_map};
ghost use Rattle.sx_base.specs.Ranges.{most_assets};
ghost use Rattle.sx_block.specs.Digest.{IsDigest};
ghost use Rattle.sx_bytes.specs.Written.{Begins};
ghost use Rattle.sx_commit.specs.Clashes.{IsProof};
ghost use Rattle.sx_commit.specs.Encoding.{digest_bytes, fields_bytes, proof_bytes};

use sx_block::{Digest, Proof};
use sx_bytes::{NoMemory, Writer};
use sx_state::write_account;

#[tactic(auto, using(sx_bytes::proofs::Written::begins, sx_bytes::proofs::Written::begins_then))]
fn put_siblings(to: &mut Writer, siblings: &[Digest]) -> Result<(), NoMemory>
    ensures ok { OnOk result (to.new ≡ to.old ++ flat_map digest_bytes siblings.now) }
    ensures err { OnErr result (Begins to.old to.new) }
{
    for sibling in siblings {
        to.raw(sibling.bytes())?;
    }
    Ok(())
}

// What stands after the root.
#[tactic(auto, using(sx_bytes::proofs::Written::begins, sx_bytes::proofs::Written::begins_then))]
fn put_fields(to: &mut Writer, proof: &Proof) -> Result<(), NoMemory>
    requires { length proof.now.account.balances ≤ most_assets }
    ensures ok { OnOk result (to.new ≡ to.old ++ fields_bytes proof.now) }
    ensures err { OnErr result (Begins to.old to.new) }
{
    to.put_u8(proof.version)?;
    to.put_u8(proof.account.balances.items().len() as u8)?;
    to.put_u32(proof.place)?;
    write_account(to, proof.version, &proof.account)?;
    put_siblings(to, proof.siblings.items())
}

#[tactic(auto, using(sx_bytes::proofs::Written::begins, sx_bytes::proofs::Written::begins_then))]
fn put_proof(to: &mut Writer, root: &Digest, proof: &Proof) -> Result<(), NoMemory>
    requires { length proof.now.account.balances ≤ most_assets }
    ensures ok { OnOk result (to.new ≡ to.old ++ proof_bytes root.now proof.now) }
    ensures err { OnErr result (Begins to.old to.new) }
{
    to.raw(root.bytes())?;
    put_fields(to, proof)
}

/// Appends the payload of a root and a proof, which is their one encoding, whether or not the proof is good for
/// the root. Where memory runs out, nothing is appended.
#[tactic(auto, using(sx_bytes::proofs::Written::begins_cut))]
pub fn write_proof(to: &mut Writer, root: &Digest, proof: &Proof) -> Result<(), NoMemory>
    requires { IsProof proof.now }
    ensures ok { OnOk result (to.new ≡ to.old ++ proof_bytes root.now proof.now) }
    ensures err { OnErr result (to.new ≡ to.old) }
{
    let before = to.bytes().len();
    let written = put_proof(to, root, proof);
    if written.is_err() {
        to.cut(before);
    }
    written
}
