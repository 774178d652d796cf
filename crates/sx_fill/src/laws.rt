//! What ties the fills of a pair to those of all offers.

ghost use Rattle.sx_fill.specs.Laws.{PairFillsAreTheirs};

/// In the list of its pair an offer trades, gives and gets what it does among the offers of all pairs.
pub fn pair_laws()
    ensures theirs { PairFillsAreTheirs }
{}
