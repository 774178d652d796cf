//! Prices with the demand at them.

ghost use Rattle.std.specs.Prelude.{◌≡◌, ◌≤◌, IfOk, length};
ghost use Rattle.sx_search.specs.Points.{HasRoom, IsAt};

use crate::offness::off;
use std::alloc::Global;
use std::thread::Threads;
use sx_bytes::NoMemory;
use sx_curve::Curves;
use sx_demand::Demand;
use sx_price::{Mu, Price};

// Prices, the demand at them, and how far all assets are from balance there.
#[derive(Drop)]
pub(crate) struct Point {
    pub prices: Vec<Price>,
    pub demand: Demand,
    pub off: u128,
}

// A point with these prices, of which the demand is not yet known.
pub(crate) fn point_of(alloc: Global, assets: u32, prices: &[Price]) -> Result<Point, NoMemory>
    requires assets { length prices.now ≡ assets }
    requires few { assets ≤ 32 }
    ensures prices { IfOk result (λ point. point.prices.items ≡ prices.now) }
    ensures room { IfOk result (λ point. HasRoom assets point) }
{
    Ok(Point {
        prices: prices.to_vec(alloc)?,
        demand: Demand::new(alloc, assets)?,
        off: 0,
    })
}

impl Point {
    // The demand at the prices.
    pub fn update<R: Threads + Sync>(&mut self, rt: &R, curves: &Curves, mu: Mu)
        requires { HasRoom curves.now.assets self.old }
        ensures prices { self.new.prices.items ≡ self.old.prices.items }
        ensures room { HasRoom curves.now.assets self.new }
        ensures at { IsAt curves.now.quotes mu self.new }
    {
        self.demand.update(rt, curves, &self.prices, mu);
        self.off = off(self.demand.net());
    }
}
