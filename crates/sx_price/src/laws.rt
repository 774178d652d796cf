//! Laws of the two rules and of the two roundings, for all numbers.

ghost use Rattle.sx_price.specs.Laws.{
  MayIsDecided,
  MustIsDecided,
  MustIsMay,
  RateKeepsMay,
  RateKeepsMust,
  LimitKeepsMay,
  LimitKeepsMust,
  UpIsLeast,
  DownIsGreatest,
  DownUpToUp,
  WholeUnitsStay,
};

/// The tests of `specs/Limits` say exactly what may trade and what must trade. What must trade may
/// trade. A greater batch rate keeps both, and so does a lower limit.
pub fn limit_laws()
    ensures may_is_decided { MayIsDecided }
    ensures must_is_decided { MustIsDecided }
    ensures must_is_may { MustIsMay }
    ensures rate_keeps_may { RateKeepsMay }
    ensures rate_keeps_must { RateKeepsMust }
    ensures limit_keeps_may { LimitKeepsMay }
    ensures limit_keeps_must { LimitKeepsMust }
{}

/// Rounded up is the least number of units that reaches a value, and rounded down the greatest that
/// does not pass it. They are at most one apart, and both are n at the value of n units.
pub fn rounding_laws()
    ensures up { UpIsLeast }
    ensures down { DownIsGreatest }
    ensures apart { DownUpToUp }
    ensures whole { WholeUnitsStay }
{}
