//! Laws of the encodings of a state and of an account.

ghost use Rattle.std.specs.Prelude.{◌≡◌, ℕ};
ghost use Rattle.sx_bytes.specs.FaultPlaces.{FaultsWithin, PayloadFaultsWithin};
ghost use Rattle.sx_bytes.specs.Laws.{DecodesOnlyEncodings, DecodesEveryEncoding, IsInjective, IsPrefixFree};
ghost use Rattle.sx_ledger.specs.Ledger.{IsAccount, IsLedger, most_version};
ghost use Rattle.sx_state.specs.Decoding.{account_at, state_at};
ghost use Rattle.sx_state.specs.Encoding.{account_bytes, state_bytes};
ghost use Rattle.sx_state.specs.Laws.{EveryStateFits, longest_state};

use crate::sizes::LONGEST_STATE;
use sx_ledger::Ledger;

/// Decoding an account of a state of one version, with one number of assets, answers an account only
/// if the bytes begin with its encoding, and does so for every encoding. Two accounts of one encoding
/// are the same, no encoding is a prefix of another, and a fault is not after the end of the bytes.
pub fn account_laws()
    ensures decodes_only { (version assets : ℕ) →
        DecodesOnlyEncodings (account_at version assets) (account_bytes version) (IsAccount version assets) }
    ensures decodes_every { (version assets : ℕ) →
        DecodesEveryEncoding (account_at version assets) (account_bytes version) (IsAccount version assets) }
    ensures injective { (version assets : ℕ) → IsInjective (account_bytes version) (IsAccount version assets) }
    ensures prefix_free { (version assets : ℕ) → IsPrefixFree (account_bytes version) (IsAccount version assets) }
    ensures within { (version assets : ℕ) → FaultsWithin (account_at version assets) }
{}

/// Two states of one encoding are the same, no encoding is a prefix of another, a fault of a payload
/// is not after its end, and the longest encoding, of [`LONGEST_STATE`] bytes, fits the payload of a
/// record. [`Ledger::NEWEST`] is the last version.
pub fn state_laws()
    ensures one { IsInjective state_bytes IsLedger }
    ensures first { IsPrefixFree state_bytes IsLedger }
    ensures within { PayloadFaultsWithin state_at }
    ensures fits { EveryStateFits }
    ensures longest { LONGEST_STATE ≡ longest_state }
    ensures newest { Ledger.NEWEST ≡ most_version }
{}
