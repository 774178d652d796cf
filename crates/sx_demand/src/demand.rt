//! The demand at prices that change.

ghost use Rattle.std.specs.Prelude.{◌≡◌, ◌≤◌, ◌^◌, All, IfOk, length, unsigned_abs};
ghost use Rattle.sx_demand.specs.Excess.{nets_of, volumes_of};

use crate::imbalance::{Imbalance, Nets, Volumes};
use crate::sums::write_excess;
use crate::table::{Entry, FIRST, ROW, fill};
use std::alloc::Global;
use std::marker::Model;
use std::thread::Threads;
use sx_bytes::NoMemory;
use sx_curve::Curves;
use sx_price::{Mu, Price};

/// What is wanted of each asset in excess, and how much of it is wanted and sold, at the prices of
/// the last [`update`](Demand::update). It keeps the memory that an update needs, and where each search
/// of the last update ended. Contracts see the two lists.
#[derive(Debug, Drop)]
pub struct Demand {
    entries: Vec<Entry>,
    columns: Vec<u128>,
    net: Vec<i128>,
    volume: Vec<u128>,
}

impl Model for Demand {
    ghost use Rattle.sx_demand.specs.Excess.{Excess, IsRoom};

    ghost Value = { Excess };

    ghost view = { λ d. record { net = d.net.items; volume = d.volume.items } };

    ghost invariant = { λ d. IsRoom d.entries.items d.columns.items d.net.items d.volume.items };
}

impl Demand {
    /// Room for the demand of at most 32 assets. Nothing is said of its entries before the first
    /// update. `NoMemory` is the only error.
    pub fn new(alloc: Global, assets: u32) -> Result<Demand, NoMemory>
        requires { assets ≤ 32 }
        ensures net { IfOk result (λ demand. length demand.net ≡ assets) }
        ensures volume { IfOk result (λ demand. length demand.volume ≡ assets) }
    {
        let assets = assets as usize;
        Ok(Demand {
            entries: vec![in alloc; FIRST; assets * ROW]?,
            columns: vec![in alloc; 0; assets]?,
            net: vec![in alloc; 0; assets]?,
            volume: vec![in alloc; 0; assets]?,
        })
    }

    /// The demand at these prices. It takes no memory but what threads take, and the less time the nearer
    /// the prices are to those of the last update.
    pub fn update<R: Threads + Sync>(&mut self, rt: &R, curves: &Curves, prices: &[Price], mu: Mu)
        requires prices { length prices.now ≡ curves.now.assets }
        requires room { length self.old.net ≡ curves.now.assets }
        ensures net { self.new.net ≡ nets_of curves.now.quotes prices.now mu }
        ensures volume { self.new.volume ≡ volumes_of curves.now.quotes prices.now mu }
        ensures net_range { All (λ net. unsigned_abs net ≤ 2 ^ 107) self.new.net }
        ensures volume_range { All (λ volume. volume ≤ 2 ^ 108) self.new.volume }
    {
        fill(rt, &mut self.entries, curves, prices, mu);
        write_excess(
            &self.entries,
            &mut self.columns,
            &mut self.net,
            &mut self.volume,
        );
    }

    /// The value that is wanted of each asset, less the value of it that is sold.
    pub fn net(&self) -> &[i128]
        ensures { result.now ≡ self.now.net }
    {
        &self.net
    }

    /// Both values of each asset together.
    pub fn volume(&self) -> &[u128]
        ensures { result.now ≡ self.now.volume }
    {
        &self.volume
    }

    /// The two lists. It takes no memory.
    pub fn into_imbalance(self) -> Imbalance
        ensures net { result.net ≡ self.net }
        ensures volume { result.volume ≡ self.volume }
    {
        Imbalance {
            net: Nets::of(self.net),
            volume: Volumes::of(self.volume),
        }
    }
}
