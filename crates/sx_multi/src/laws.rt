//! Laws of the posted prices.

ghost use Rattle.sx_multi.specs.Laws.{MoreAreNoWorse, OneIsUsual, PostedIsBest, PostedMends, PostedPermuted};

/// Of any number of searches from 1 on, the posted prices are those of one that leaves the least
/// imbalance, and none before it leaves as little. So they leave no more than the usual search, and
/// more searches no more than fewer; one search is the usual one. The order of the quotes is of no account.
pub fn posted_laws()
    ensures best { PostedIsBest }
    ensures mends { PostedMends }
    ensures one { OneIsUsual }
    ensures no_worse { MoreAreNoWorse }
    ensures permuted { PostedPermuted }
{}
