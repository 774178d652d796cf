//! Circulations and cuts of bounds that are hard or at an end of their range: each answer is looked at
//! by the plain sums of `sx_dual`, and what it has to be was worked out by hand.

ghost use Rattle.std.specs.Prelude.{◌≡◌, ◌<◌, ◌≤◌};
ghost use Rattle.sx_dual.specs.Circulation.{IsCirculation};
ghost use Rattle.sx_dual.specs.Tables.{high_of, low_of, value_of};

use crate::spans::{Kind, bounds_of};
use rand_core::SeedableRng;
use rand_xoshiro::Xoshiro256PlusPlus;
use std::alloc::Global;
use std::marker::Brand;
use std::sync::ledger::{Blank, Ledger};
use sx_circ::best;
use sx_dual::{Bounds, Cut, Flow, cuts, fits};
use sx_feas::{Feas, feasible};
use sx_net::Steps;

// What is found of bounds: the greatest value that trades, or the assets of a cut, bit i for asset i.
#[derive(Clone, Copy, PartialEq, Eq)]
pub enum Outcome {
    Greatest(u128),
    NoneWithin(u32),
}

// The value of the best circulation from this one, where the potentials show that none trades more.
fn greatest_from<L: Ledger>(
    alloc: Global,
    bounds: &Bounds,
    start: Flow,
    steps: &mut Steps<L>,
) -> Option<Outcome>
    requires assets { start.assets ≡ bounds.now.assets }
    requires start { IsCirculation bounds.now.assets (low_of bounds.now) (high_of bounds.now) (value_of start) }
{
    let (flow, potentials) = best(alloc, bounds, start, steps).ok()?;
    fits(bounds, &flow, &potentials).ok()?;
    Some(Outcome::Greatest(flow.value()))
}

fn shown(bounds: &Bounds, cut: Cut) -> Option<Outcome> {
    cuts(bounds, cut).then_some(Outcome::NoneWithin(cut.0))
}

// What `feasible` and `best` find.
pub fn answer<L: Ledger>(alloc: Global, bounds: &Bounds, blank: Blank) -> Option<Outcome>
    requires name { blank.name ≡ L.name }
    requires parts { blank.parts ≡ L.parts }
    requires some { 0 < blank.parts }
{
    let mut steps = Steps::<L>::new(blank);
    match feasible(alloc, bounds, &mut steps).ok()? {
        Feas::Flow(flow) => greatest_from(alloc, bounds, flow, &mut steps),
        Feas::Cut(cut) => shown(bounds, cut),
    }
}

// The same of the bounds of a kind, for 1 to 32 assets.
fn answer_of(alloc: Global, kind: Kind, assets: u32) -> Option<Outcome> {
    if assets < 1 || assets > 32 {
        return None;
    }
    let mut generator = Xoshiro256PlusPlus::seed_from_u64(0);
    let bounds = bounds_of(alloc, &mut generator, kind, assets)?;
    answer::<Brand>(alloc, &bounds, Blank::new(1))
}

// The number of the first row that comes out otherwise.
fn first_wrong(alloc: Global) -> Option<u8> {
    for (row, kind, assets, wanted) in [
        (1, Kind::Nothing, 1u32, Outcome::Greatest(0)),
        (2, Kind::Nothing, 32, Outcome::Greatest(0)),
        (3, Kind::Greatest, 1, Outcome::Greatest(0)),
        (4, Kind::Greatest, 32, Outcome::Greatest(992 << 102)),
        (5, Kind::Fixed, 6, Outcome::Greatest(180)),
        (6, Kind::Uneven, 2, Outcome::NoneWithin(2)),
        (7, Kind::Halves, 2, Outcome::NoneWithin(1)),
        (8, Kind::Halves, 32, Outcome::NoneWithin(0xFFFF)),
        (9, Kind::Ring, 3, Outcome::Greatest(30)),
        (10, Kind::Ring, 32, Outcome::Greatest(320)),
        (11, Kind::Chord, 3, Outcome::Greatest(30)),
        (12, Kind::Chord, 32, Outcome::Greatest(320)),
        (13, Kind::Rings, 32, Outcome::Greatest(27_015)),
    ] {
        if answer_of(alloc, kind, assets) != Some(wanted) {
            return Some(row);
        }
    }
    None
}

#[test]
fn bounds_worked_out_by_hand(rt: HostRuntime) {
    assert_eq!(rt; first_wrong(rt.alloc()), None);
}
