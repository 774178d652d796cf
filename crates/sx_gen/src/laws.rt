//! The laws of the demonstration.

ghost use Rattle.sx_gen.specs.Laws.{HasAllCandidates, DrawsInRange};

/// The demonstration has 5,000 candidates, and each is within the ranges of a transaction.
pub fn demo_laws()
    ensures number { HasAllCandidates }
    ensures ranges { DrawsInRange }
{}
