//! When an offer trades at a batch rate. Both rules compare products, and divide nothing.

ghost use Rattle.std.specs.Prelude.{◌≡◌, ◌↔◌, IsTrue};
ghost use Rattle.sx_price.specs.Limits.{MayTrade, MustTrade, may_trade as may, must_trade as must};

use crate::limit::Limit;
use crate::mu::Mu;
use crate::price::Price;

// One, in units of 2^-24.
const ONE: u128 = 1 << 24;

/// Whether an offer may trade: the batch rate, `sell` over `buy`, reaches its limit. It says yes at
/// the limit itself.
pub fn may_trade(sell: Price, buy: Price, limit: Limit) -> bool
    ensures rule { IsTrue result ↔ MayTrade sell buy limit }
    ensures decided { result ≡ may sell buy limit }
{
    u128::from(limit.get()) * u128::from(buy.get()) <= u128::from(sell.get()) * ONE
}

/// Whether an offer must trade: the batch rate, `sell` over `buy`, reaches its limit even when it is
/// cut by the part `mu` of it. It says yes at the limit itself.
pub fn must_trade(sell: Price, buy: Price, limit: Limit, mu: Mu) -> bool
    ensures rule { IsTrue result ↔ MustTrade sell buy limit mu }
    ensures decided { result ≡ must sell buy limit mu }
{
    let parts = 1u128 << mu.get();
    let asked = u128::from(limit.get()) * u128::from(buy.get()) * parts;
    let offered = u128::from(sell.get()) * ONE * (parts - 1);
    asked <= offered
}
