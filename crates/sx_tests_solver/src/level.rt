//! `solve` of `sx_level`: small bounds drawn from a seed, of which the plain pair `feasible` and `best` finds the same, and
//! bounds for each number of assets. Each answer is looked at by the plain sums of `sx_dual`. Stored cases have the blocks
//! of bounds that were worked out by hand.

ghost use Rattle.std.specs.Prelude.{◌≡◌, ◌<◌, ◌≤◌};

use crate::instances::{Outcome, answer};
use crate::spans::{Kind, bounds_of};
use rand_core::SeedableRng;
use rand_xoshiro::Xoshiro256PlusPlus;
use std::alloc::Global;
use std::marker::Brand;
use std::sync::ledger::{Blank, Ledger};
use sx_dual::{Bounds, cuts, fits};
use sx_level::{Solved, solve};
use sx_net::Steps;

fn solved<L: Ledger>(alloc: Global, bounds: &Bounds, blank: Blank) -> Option<Outcome>
    requires name { blank.name ≡ L.name }
    requires parts { blank.parts ≡ L.parts }
    requires some { 0 < blank.parts }
{
    let mut steps = Steps::<L>::new(blank);
    match solve(alloc, bounds, &mut steps).ok()? {
        Solved::Best { flow, potentials } => {
            fits(bounds, &flow, &potentials).ok()?;
            Some(Outcome::Greatest(flow.value()))
        }
        Solved::Cut(cut) => cuts(bounds, cut).then_some(Outcome::NoneWithin(cut.0)),
    }
}

// Whether both find the same. Of several cuts they may find two.
fn finds_the_same(alloc: Global, bounds: &Bounds) -> Option<bool> {
    let level = solved::<Brand>(alloc, bounds, Blank::new(1))?;
    let plain = answer::<Brand>(alloc, bounds, Blank::new(1))?;
    Some(match (level, plain) {
        (Outcome::NoneWithin(_), Outcome::NoneWithin(_)) => true,
        _ => level == plain,
    })
}

fn all_the_same(alloc: Global) -> Option<bool> {
    let mut generator = Xoshiro256PlusPlus::seed_from_u64(1);
    for round in 0..1000u32 {
        let kind = if round % 2 == 0 {
            Kind::Near
        } else {
            Kind::Far
        };
        let bounds = bounds_of(alloc, &mut generator, kind, 1 + round % 6)?;
        if !finds_the_same(alloc, &bounds)? {
            return Some(false);
        }
    }
    Some(true)
}

#[test]
fn the_plain_pair_finds_the_same(rt: HostRuntime) {
    assert!(rt; all_the_same(rt.alloc()) == Some(true));
}

// What is found of the bounds of a kind that are drawn for this many assets.
fn drawn(alloc: Global, kind: Kind, assets: u32) -> Option<Outcome>
    requires some { 1 ≤ assets }
    requires few { assets ≤ 32 }
{
    let mut generator = Xoshiro256PlusPlus::seed_from_u64(u64::from(assets));
    let bounds = bounds_of(alloc, &mut generator, kind, assets)?;
    solved::<Brand>(alloc, &bounds, Blank::new(1))
}

// Whether of the bounds drawn for each number of assets some have a circulation and some have none.
fn answers_both(alloc: Global, kind: Kind) -> Option<bool> {
    let mut some = false;
    let mut none = false;
    for assets in 1..33 {
        match drawn(alloc, kind, assets)? {
            Outcome::Greatest(_) => some = true,
            Outcome::NoneWithin(_) => none = true,
        }
    }
    Some(some && none)
}

#[test]
fn bounds_drawn_from_seeds(rt: HostRuntime) {
    assert!(rt; answers_both(rt.alloc(), Kind::Near) == Some(true));
    assert!(rt; answers_both(rt.alloc(), Kind::Far) == Some(true));
}
