//! Laws of what quotes sell, and of the search for prices.

ghost use Rattle.sx_curve.specs.Laws.{
  BalancedStays,
  DigitsAreLeast,
  MayAreBelow,
  MidIsCovered,
  MustAndMid,
  MustAreBelow,
  NoRoundsStay,
  SearchKeepsLength,
  SearchKeepsRange,
  SearchMends,
  SearchPermuted,
  SoldPermuted,
  ValueWithinBounds,
};

/// The quotes of a pair that may trade, and those that must, are those up to a limit, so that
/// [`Curves::below`](crate::Curves::below) tells their sums. The limits of those that may but need
/// not trade are at most the rate, and a pair sells at least what must trade and at most what may.
/// The order of the quotes is of no account.
pub fn value_laws()
    ensures may_are_below { MayAreBelow }
    ensures must_are_below { MustAreBelow }
    ensures must_and_mid { MustAndMid }
    ensures mid_is_covered { MidIsCovered }
    ensures within_bounds { ValueWithinBounds }
    ensures permuted { SoldPermuted }
{}

/// A search keeps the number of the prices and their range, and its result has at most the imbalance
/// of its start. It ends where it starts if it has no rounds, or if nothing is to mend. The order of
/// the quotes is of no account.
pub fn search_laws()
    ensures length { SearchKeepsLength }
    ensures range { SearchKeepsRange }
    ensures mends { SearchMends }
    ensures no_rounds { NoRoundsStay }
    ensures balanced { BalancedStays }
    ensures permuted { SearchPermuted }
    ensures digits { DigitsAreLeast }
{}
