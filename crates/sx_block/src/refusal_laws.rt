//! Laws of refusals.

ghost use Rattle.sx_block.specs.RefusalLaws.{EveryBlockIsJudged, OneReason, ValidIsNotRefused, WrongAfterRefuses};
ghost use Rattle.sx_block.specs.RefusalLaws.{WrongParentRefuses};

/// A block is valid for a ledger, or refused for one first reason, and never both. One that is valid but for
/// the digest of the ledger that it leaves is refused where it names another ledger than it leaves, and one that
/// can be applied where it names another ledger as its parent. All this holds of all ledgers and blocks.
pub fn check_laws()
    ensures one_reason { OneReason }
    ensures valid_is_not_refused { ValidIsNotRefused }
    ensures wrong_after { WrongAfterRefuses }
    ensures wrong_parent { WrongParentRefuses }
    ensures judged { EveryBlockIsJudged }
{}
