//! Laws of commitments.

ghost use Rattle.sx_commit.specs.Laws.{GoodForOne, TrueIsClaim, TrueIsGood};

/// A proof of what the ledger says is good for the root of its accounts, and both have the ranges of a record. A
/// proof is good for one root alone.
pub fn commitment_laws()
    ensures true_is_good { TrueIsGood }
    ensures true_is_claim { TrueIsClaim }
    ensures one_root { GoodForOne }
{}
