//! Quotes of a market of three assets.

ghost use Rattle.std.specs.Prelude.{◌≡◌, ◌≢◌, ◌<◌, ◌≤◌, ◌^◌, IfSome};
ghost use Rattle.sx_curve.specs.Curves.{IsAmong};

use sx_base::{Amount, AssetId};
use sx_curve::Quote;
use sx_price::Limit;

/// The price and the limit 1.
pub const ONE: u64 = 1 << 24;

/// A quote of two of three assets.
pub fn quote(sell: u8, buy: u8, limit: u64, amount: u64) -> Option<Quote>
    requires sell { sell < 3 }
    requires buy { buy < 3 }
    requires different { sell ≢ buy }
    requires small { amount ≤ 2 ^ 59 }
    ensures among { IfSome result (IsAmong 3) }
    ensures amount { IfSome result (λ quote. quote.amount ≡ amount) }
{
    Some(Quote {
        sell: AssetId::new(sell).ok()?,
        buy: AssetId::new(buy).ok()?,
        limit: Limit::new(limit).ok()?,
        amount: Amount::new(amount).ok()?,
    })
}
