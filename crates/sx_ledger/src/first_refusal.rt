//! Laws of refusals.

ghost use Rattle.sx_ledger.specs.FirstRefusal.{OneRefusal, PassingIsNotRefused};

/// The first transaction that a ledger refuses is one, for one reason, and there is none if all
/// pass.
pub fn refusal_laws()
    ensures one { OneRefusal }
    ensures none { PassingIsNotRefused }
{}
