//! Laws of the encodings, for all values.

ghost use Rattle.std.specs.Prelude.{◌≡◌};
ghost use Rattle.sx_bytes.specs.FaultPlaces.{FaultsWithin, PayloadFaultsWithin};
ghost use Rattle.sx_bytes.specs.Laws.{DecodesOnlyEncodings, DecodesEveryEncoding, IsInjective, IsPrefixFree};
ghost use Rattle.sx_outcome.specs.Laws.{NumbersNameStatics, OutcomesFit, ScriptsFit};
ghost use Rattle.sx_outcome.specs.OutcomeDecoding.{outcome_at, outcome_list_at, outcomes_at};
ghost use Rattle.sx_outcome.specs.Outcomes.{outcome_bytes, outcomes_bytes, most_outcomes, IsOutcome, AreOutcomes};
ghost use Rattle.sx_outcome.specs.Gathering.{BodyIsNoLonger, FreeIsAccepted, StaticIsExact};
ghost use Rattle.sx_outcome.specs.ScriptDecoding.{script_at, script_fields_at};
ghost use Rattle.sx_outcome.specs.Scripts.{script_bytes, most_actors, most_turns, IsScript};

use crate::outcome::MOST_OUTCOMES;
use crate::script::{MOST_ACTORS, MOST_TURNS};

/// Decoding an outcome answers an outcome only if the bytes begin with its encoding, and does so for
/// every encoding. Two outcomes of one encoding are the same, and no encoding is a prefix of another.
/// Each static refusal is the one of its number.
pub fn outcome_laws()
    ensures decodes_only { DecodesOnlyEncodings outcome_at outcome_bytes IsOutcome }
    ensures decodes_every { DecodesEveryEncoding outcome_at outcome_bytes IsOutcome }
    ensures injective { IsInjective outcome_bytes IsOutcome }
    ensures prefix_free { IsPrefixFree outcome_bytes IsOutcome }
    ensures statics { NumbersNameStatics }
{}

/// The same of lists of at most `MOST_OUTCOMES` outcomes, and each fits the payload of a record. A fault is
/// at the end of the payload at most.
pub fn outcome_list_laws()
    ensures decodes_only { DecodesOnlyEncodings outcome_list_at outcomes_bytes AreOutcomes }
    ensures decodes_every { DecodesEveryEncoding outcome_list_at outcomes_bytes AreOutcomes }
    ensures injective { IsInjective outcomes_bytes AreOutcomes }
    ensures prefix_free { IsPrefixFree outcomes_bytes AreOutcomes }
    ensures fits { OutcomesFit }
    ensures within { FaultsWithin outcome_list_at }
    ensures payload_within { PayloadFaultsWithin outcomes_at }
    ensures most { MOST_OUTCOMES ≡ most_outcomes }
{}

/// The same of scripts.
pub fn script_laws()
    ensures decodes_only { DecodesOnlyEncodings script_fields_at script_bytes IsScript }
    ensures decodes_every { DecodesEveryEncoding script_fields_at script_bytes IsScript }
    ensures injective { IsInjective script_bytes IsScript }
    ensures prefix_free { IsPrefixFree script_bytes IsScript }
    ensures fits { ScriptsFit }
    ensures within { FaultsWithin script_fields_at }
    ensures payload_within { PayloadFaultsWithin script_at }
    ensures most_actors { MOST_ACTORS ≡ most_actors }
    ensures most_turns { MOST_TURNS ≡ most_turns }
{}

/// A body is no longer than the list of the candidates. A candidate that nothing stands in the way of is
/// accepted, and one has a static refusal exactly where the ledger gives it this one.
pub fn gathering_laws()
    ensures no_longer { BodyIsNoLonger }
    ensures free { FreeIsAccepted }
    ensures statics { StaticIsExact }
{}
