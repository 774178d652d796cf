//! Prices, limits and the two roundings of the exchange, over whole numbers alone.
//!
//! [`Price`], [`Limit`] and [`Mu`] are numbers that keep their range, and [`Prices`] is a list. An
//! offer sells one asset for another; [`may_trade`] and [`must_trade`] say whether the batch rate,
//! the sold asset's price over the bought asset's, reaches its limit, and whether it does so by the
//! margin of μ. [`value`] is price times amount, and [`units_up`] and [`units_down`] lead back from a
//! value to whole units: the least number that reaches it, the greatest that does not pass it.
//! [`limit_laws`] and [`rounding_laws`] state what follows for all numbers. The two rules compare
//! products and divide nothing, no call takes memory, and no number passes 128 bits.
//!
//! Not here: how prices are found, which offers stand in a book, how much of an offer is filled, and
//! what becomes of the remainders that rounding leaves.
#![tactic(auto)]

mod laws;
mod limit;
mod mu;
mod price;
mod prices;
mod rounding;
mod trading;

pub use laws::{limit_laws, rounding_laws};
pub use limit::{Limit, LimitRange};
pub use mu::{Mu, MuRange};
pub use price::{Price, PriceRange};
pub use prices::Prices;
pub use rounding::{units_down, units_up, value};
pub use trading::{may_trade, must_trade};
