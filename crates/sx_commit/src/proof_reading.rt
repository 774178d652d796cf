//! Reading a root and a proof, field by field from left to right. Each field is read whole and then tested.

ghost use Rattle.std.specs.Prelude.{◌≡◌, IfOk, Ok};
ghost use Rattle.sx_block.specs.Decoding.{digest_at};
ghost use Rattle.sx_bytes.specs.Grammar.{DecodesOrStrays, Gives, MayDecodeOrStray, many_at};
ghost use Rattle.sx_commit.specs.Claim.{Claim, IsClaim};
ghost use Rattle.sx_commit.specs.Commitments.{levels};
ghost use Rattle.sx_commit.specs.Decoding.{claim_at, fields_at, proof_at};
ghost use Rattle.sx_commit.specs.Encoding.{claim_bytes};

use crate::LEVELS;
use std::alloc::Global;
use sx_base::AssetId;
use sx_block::{Digest, Digests, Proof};
use sx_bytes::{Form, FormFault, ReadError, Reader};
use sx_ledger::Ledger;
use sx_state::read_account;

// The greatest place.
const MOST_PLACE: u32 = 65_535;

fn read_digest(from: &mut Reader) -> Result<Digest, FormFault>
    ensures { DecodesOrStrays (λ x. x) (digest_at from.old) from.new result }
{
    let mut bytes = [0; 32];
    bytes.copy_from_slice(from.raw(32)?);
    Ok(Digest::of(bytes))
}

fn read_siblings(alloc: Global, from: &mut Reader) -> Result<Vec<Digest>, ReadError>
    ensures { MayDecodeOrStray (λ v. v.items) (many_at digest_at levels from.old) from.new result }
{
    let mut siblings = Vec::with_capacity(alloc, LEVELS)?;
    for _ in 0..LEVELS {
        siblings.push(read_digest(from)?)?;
    }
    Ok(siblings)
}

// What stands after the root.
#[tactic(auto, unfolding(crate::specs::Decoding::fields_at))]
fn read_fields(alloc: Global, from: &mut Reader) -> Result<Proof, ReadError>
    ensures { MayDecodeOrStray (λ x. x) (fields_at from.old) from.new result }
{
    let version = from.field_u8(1, Ledger::NEWEST, Form::Version)?;
    let assets = from.field_u8(1, AssetId::LIMIT, Form::AssetCount)?;
    let place = from.field_u32(0, MOST_PLACE, Form::PlaceRange)?;
    let account = read_account(alloc, from, version, assets)?;
    let siblings = read_siblings(alloc, from)?;
    Ok(Proof {
        version,
        place,
        account,
        siblings: Digests::of(siblings),
    })
}

#[tactic(auto, unfolding(crate::specs::Decoding::claim_at))]
fn read_claim(alloc: Global, from: &mut Reader) -> Result<(Digest, Proof), ReadError>
    ensures { MayDecodeOrStray (λ x. x) (claim_at from.old) from.new result }
{
    let root = read_digest(from)?;
    let proof = read_fields(alloc, from)?;
    Ok((root, proof))
}

#[tactic(auto, unfolding(crate::specs::Decoding::proof_at))]
fn read_whole(alloc: Global, payload: &[u8]) -> Result<(Digest, Proof), ReadError>
    ensures { Gives (λ claim. claim) result (proof_at payload.now) }
{
    let mut from = Reader::new(payload);
    let claim = read_claim(alloc, &mut from)?;
    if from.left() != 0 {
        let at = from.place() as u64;
        let fault = Form::Rest;
        return Err(ReadError::Form(FormFault { at, fault }));
    }
    Ok(claim)
}

/// The root and the proof that a payload encodes, all of the payload, whether or not the proof is good for the
/// root. An error is the first fault from left to right, its offset counted from the payload's first byte, or
/// `NoMemory`, which may come in place of any other answer.
///
/// The faults are `Version`, `AssetCount`, `PlaceRange` of a place of 65,536 or more, those of `read_account`,
/// `Short` where a field passes the end, and `Rest` at the first byte after the last digest.
pub fn read_proof(alloc: Global, payload: &[u8]) -> Result<(Digest, Proof), ReadError>
    // What is read is encoded so.
    ensures found { IfOk result (λ claim. IsClaim claim × (payload.now ≡ claim_bytes claim)) }
    // What is encoded so is read, unless memory runs out.
    ensures only { (claim : Claim) → IsClaim claim → payload.now ≡ claim_bytes claim →
        Gives (λ found. found) result (Ok claim) }
    // Which fault it is.
    ensures exact { Gives (λ claim. claim) result (proof_at payload.now) }
{
    read_whole(alloc, payload)
}
