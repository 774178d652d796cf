//! A circulation of greatest value is found, or a cut.

ghost use Rattle.std.specs.Prelude.{◌≡◌, ◌<◌};
ghost use Rattle.sx_level.specs.Solved.{IsSolved};

use crate::report::ROUNDS;
use anyhow::{Result, ensure};
use std::marker::Brand;
use std::rt::Clock;
use std::sync::ledger::{Blank, Ledger};
use std::time::Instant;
use sx_dual::{Bounds, cuts, fits};
use sx_level::{Solved, solve};
use sx_net::Steps;

pub const NAME: &str = "circulation";

pub const WHAT: &str =
    "finds a circulation of greatest value within the bounds that are read, or a cut, level by level";

// What was found: the value that is traded, or the assets of a cut as the bits of a number.
#[derive(Clone, Copy, PartialEq, Eq)]
enum Found {
    Traded(u128),
    Cut(u32),
}

// What was found, and in how many nanoseconds.
#[derive(Clone, Copy)]
struct Run {
    found: Found,
    taken: u128,
}

// What is found by an answer, which is looked at once more.
fn found_by(bounds: &Bounds, solved: Solved) -> Result<Found>
    requires { IsSolved bounds.now solved }
{
    match solved {
        Solved::Best { flow, potentials } => {
            let fit = fits(bounds, &flow, &potentials).is_ok();
            ensure!(fit, "the potentials do not fit");
            Ok(Found::Traded(flow.value()))
        }
        Solved::Cut(cut) => {
            ensure!(cuts(bounds, cut), "the cut is none");
            Ok(Found::Cut(cut.0))
        }
    }
}

fn run_once<R: Clock + AllocGlobal, L: Ledger>(
    rt: &R,
    bounds: &Bounds,
    steps: &mut Steps<L>,
) -> Result<Run> {
    let start = Instant::now(rt)?;
    let solved = solve(rt.alloc(), bounds, steps)?;
    let taken = start.elapsed(rt)?.as_nanos();
    let found = found_by(bounds, solved)?;
    Ok(Run { found, taken })
}

// The quickest of several runs, which all find the same.
fn best_run<R: Clock + AllocGlobal, L: Ledger>(rt: &R, bounds: &Bounds, blank: Blank) -> Result<Run>
    requires name { blank.name ≡ L.name }
    requires parts { blank.parts ≡ L.parts }
    requires some { 0 < blank.parts }
{
    let mut steps = Steps::<L>::new(blank);
    let mut least = run_once(rt, bounds, &mut steps)?;
    for _ in 0..4 * ROUNDS {
        let again = run_once(rt, bounds, &mut steps)?;
        ensure!(again.found == least.found, "two runs find two things");
        least.taken = least.taken.min(again.taken);
    }
    Ok(least)
}

/// Prints the least time of several runs in nanoseconds, and the value that is traded, or the assets of the cut.
pub fn measure<R: Clock + Print + AllocGlobal>(rt: &R, bounds: &Bounds) -> Result<()> {
    let Run { found, taken } = best_run::<R, Brand>(rt, bounds, Blank::new(1))?;
    match found {
        Found::Traded(value) => println!(rt; "{taken} ns traded {value}")?,
        Found::Cut(set) => println!(rt; "{taken} ns cut {set:b}")?,
    }
    Ok(())
}
