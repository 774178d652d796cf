//! Laws of what a filter keeps.

ghost use Rattle.sx_filter.specs.KeptLaws.{BodyIsKept, CoversAll, KeptIsAccepted, KeptIsAdmissible, KeptIsFew, KeptPermuted};
ghost use Rattle.sx_filter.specs.KeptLaws.{RefusedAreNothing};

/// What is kept is the body of a block by the rule of version 1, if there is room for all candidates, and such a body
/// is kept whole. What is kept is the same whatever the order of the candidates, and without those that the ledger
/// refuses. A gathering of what is kept accepts all of it. The assets of the ledger are all that have to be looked at,
/// to tell that an account holds enough. No more is kept than there are candidates.
pub fn kept_laws()
    ensures admissible { KeptIsAdmissible }
    ensures whole { BodyIsKept }
    ensures permuted { KeptPermuted }
    ensures accepted { KeptIsAccepted }
    ensures covers_all { CoversAll }
    ensures refused { RefusedAreNothing }
    ensures few { KeptIsFew }
{}
