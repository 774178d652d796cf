//! What is sold and bought of each asset.

ghost use Rattle.std.specs.Prelude.{◌≡◌, ℕ, ◌-◌, ◌*◌, ◌<◌, ◌≤◌, ◌^◌, Contains, IfNone, IfSome};
ghost use Rattle.sx_dual.specs.Tables.{AreBounds};
ghost use Rattle.sx_feas.specs.Shape.{IsShaped, bought_now, sold_now};

use crate::network::traded_by;
use sx_dual::Bounds;
use sx_net::Net;

#[derive(Clone, Copy)]
struct Totals {
    sold: u128,
    bought: u128,
}

fn totals_of(bounds: &Bounds, net: &Net, asset: u32) -> Totals
    requires shaped { IsShaped bounds.now net.now.arcs }
    requires asset { asset < bounds.now.assets }
    ensures sold { result.sold ≡ sold_now bounds.now net.now.arcs asset }
    ensures bought { result.bought ≡ bought_now bounds.now net.now.arcs asset }
    ensures bounds { AreBounds bounds.now }
{
    let mut sold = 0;
    let mut bought = 0;
    for other in 0..bounds.assets() {
        let sale = traded_by(bounds, net, asset, other);
        let purchase = traded_by(bounds, net, other, asset);
        sold += sale;
        bought += purchase;
    }
    Totals { sold, bought }
}

// What is bought of an asset more than sold.
pub fn surplus(bounds: &Bounds, net: &Net, asset: u32) -> u128
    requires shaped { IsShaped bounds.now net.now.arcs }
    requires asset { asset < bounds.now.assets }
    ensures value { result ≡ bought_now bounds.now net.now.arcs asset - sold_now bounds.now net.now.arcs asset }
    ensures bounds { AreBounds bounds.now }
{
    let totals = totals_of(bounds, net, asset);
    totals.bought.saturating_sub(totals.sold)
}

// What is sold of an asset more than bought.
pub fn shortage(bounds: &Bounds, net: &Net, asset: u32) -> u128
    requires shaped { IsShaped bounds.now net.now.arcs }
    requires asset { asset < bounds.now.assets }
    ensures { result ≡ sold_now bounds.now net.now.arcs asset - bought_now bounds.now net.now.arcs asset }
{
    let totals = totals_of(bounds, net, asset);
    totals.sold.saturating_sub(totals.bought)
}

// The first asset that the last search reached and that is sold more than bought.
pub fn first_short(bounds: &Bounds, net: &Net) -> Option<u32>
    requires shaped { IsShaped bounds.now net.now.arcs }
    requires nodes { bounds.now.assets ≤ net.now.nodes }
    ensures asset { IfSome result (λ asset. asset < bounds.now.assets) }
    ensures reached { IfSome result (λ asset. Contains net.now.reached asset) }
    ensures short { IfSome result (λ asset.
        bought_now bounds.now net.now.arcs asset < sold_now bounds.now net.now.arcs asset) }
    ensures none { IfNone result ((asset : ℕ) → asset < bounds.now.assets → Contains net.now.reached asset
        → sold_now bounds.now net.now.arcs asset ≤ bought_now bounds.now net.now.arcs asset) }
{
    for asset in 0..bounds.assets() {
        if net.reached(asset) && shortage(bounds, net, asset) > 0 {
            return Some(asset);
        }
    }
    None
}
