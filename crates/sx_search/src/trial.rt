//! The prices of a trial.

ghost use Rattle.std.specs.Prelude.{◌≡◌, ◌≤◌, length, map, pos, slice_index, slice_index_or};
ghost use Rattle.sx_curve.specs.Demand.{assets_of, price_of};
ghost use Rattle.sx_curve.specs.Search.{moved_price};
ghost use Rattle.sx_search.specs.Trials.{AreExcesses, moved_prices};

use crate::step::moved;
use sx_price::Price;

// Writes the prices that a step moves these ones to.
pub(crate) fn write_trial(
    prices: &[Price],
    nets: &[i128],
    volumes: &[u128],
    exponent: u32,
    trial: &mut [Price],
)
    requires exponent { exponent ≤ 40 }
    requires trial { length trial.old ≡ length prices.now }
    requires excesses { AreExcesses (length prices.now) nets.now volumes.now }
    ensures { trial.new ≡ moved_prices exponent prices.now nets.now volumes.now }
{
    for (asset, price) in trial.iter_mut().enumerate() {
        *price = moved(exponent, prices[asset], nets[asset], volumes[asset]);
    }
}
