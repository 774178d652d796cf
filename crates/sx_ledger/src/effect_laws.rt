//! Laws of what transactions do to accounts and offers.

ghost use Rattle.sx_ledger.specs.EffectLaws.{
  DebitsAppend,
  CreditsAppend,
  DebitsPermuted,
  CreditsPermuted,
  MustWithinMay,
  LowWithinHigh,
  UnnamedStays,
  LastIsGreatest,
  UsedByWindowOrBody,
  LaterAdmitsMore,
  BodyKeepsLedger,
  BodyConserves,
};

/// The debits and the credits of two lists of transactions together are the sums of both, and in
/// another order they are the same.
pub fn posting_laws()
    ensures debits_append { DebitsAppend }
    ensures credits_append { CreditsAppend }
    ensures debits_permuted { DebitsPermuted }
    ensures credits_permuted { CreditsPermuted }
{}

/// The offers of a pair that must trade have at most what those have that may trade, and so the
/// least value of a pair is at most the greatest.
pub fn bound_laws()
    ensures must_within_may { MustWithinMay }
    ensures low_within_high { LowWithinHigh }
{}

/// An account that no transaction names does not change. In version 1 the last sequence number of an
/// account is afterwards the greatest one that it used, and in version 2 a number is used afterwards
/// exactly where it was used before or a transaction uses it. A body that version 1 admits is
/// admitted in every version. In each version the ledger after the body of a block is a ledger, and
/// there is as much of each asset as before.
pub fn body_laws()
    ensures unnamed_stays { UnnamedStays }
    ensures last_is_greatest { LastIsGreatest }
    ensures used_by_both { UsedByWindowOrBody }
    ensures later_admits_more { LaterAdmitsMore }
    ensures keeps_ledger { BodyKeepsLedger }
    ensures conserves { BodyConserves }
{}
