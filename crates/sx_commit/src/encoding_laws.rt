//! Laws of the encoding of a proof.

ghost use Rattle.std.specs.Prelude.{◌≡◌};
ghost use Rattle.sx_bytes.specs.FaultPlaces.{PayloadFaultsWithin};
ghost use Rattle.sx_bytes.specs.Laws.{IsInjective, IsPrefixFree};
ghost use Rattle.sx_commit.specs.Claim.{IsClaim};
ghost use Rattle.sx_commit.specs.Decoding.{proof_at};
ghost use Rattle.sx_commit.specs.Encoding.{claim_bytes};
ghost use Rattle.sx_commit.specs.ProofLaws.{HasMostBytes, SomeHasMostBytes};

/// A root and a proof have one encoding, which no other root and proof have, and bytes begin with the encoding
/// of one root and one proof at most. The longest encoding has 830 bytes, which fit the payload of a record.
/// Where a payload is none, the first fault is at or before its end.
pub fn proof_laws()
    ensures one { IsInjective claim_bytes IsClaim }
    ensures first { IsPrefixFree claim_bytes IsClaim }
    ensures most { HasMostBytes }
    ensures some { SomeHasMostBytes }
    ensures within { PayloadFaultsWithin proof_at }
{}
