//! Laws of the rules that make a block valid.

ghost use Rattle.sx_block.specs.ValidityLaws.{
  ApplicableIsSound,
  FittingIsSound,
  SoundFits,
  SoundIsAdmissible,
  SoundIsApplicable,
  SoundIsBody,
  SoundIsTradable,
  SoundIsValid,
  ValidIsSound,
};

/// A block is sound if it is valid except for the digest of the ledger that it leaves. Its transactions are then a
/// body by the rule of its version, and so by that of version 2; its flow and its potentials fit the bounds, and
/// what it trades can be traded with the rounding that it says. A block of which all this holds, with a header for
/// the ledger and a cut where it drops lower bounds, is sound. A sound block that names the ledger that it leaves
/// is valid, and a valid one is sound. A sound block can be applied, and one that can be applied is sound where it
/// names the ledger.
pub fn validity_laws()
    ensures admissible { SoundIsAdmissible }
    ensures body { SoundIsBody }
    ensures fits { SoundFits }
    ensures tradable { SoundIsTradable }
    ensures sound { FittingIsSound }
    ensures valid { SoundIsValid }
    ensures back { ValidIsSound }
    ensures applicable { SoundIsApplicable }
    ensures named { ApplicableIsSound }
{}
