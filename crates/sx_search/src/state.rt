//! What a search holds, and one trial of it.

ghost use Rattle.std.specs.Prelude.{◌≡◌, ◌≤◌, nat_le, not, ◌==◌, ◌&&◌};
ghost use Rattle.sx_curve.specs.Search.{after_trial};
ghost use Rattle.sx_search.specs.Points.{held_at};
ghost use Rattle.sx_search.specs.States.{IsState};

use crate::point::Point;
use crate::trial::write_trial;
use std::mem;
use std::thread::Threads;
use sx_curve::Curves;
use sx_price::Mu;

// The greatest exponent at which a trial is made.
const MOST: u32 = 40;

// The prices that are held, room for those of a trial, and the exponent of the next step.
#[derive(Drop)]
pub(crate) struct State {
    pub held: Point,
    pub trial: Point,
    pub exponent: u32,
}

impl State {
    // There is something to mend, and steps are not too small yet.
    pub fn goes_on(&self) -> bool
        ensures { result ≡ (not (self.now.held.off == 0) && nat_le self.now.exponent 40) }
    {
        self.held.off != 0 && self.exponent <= MOST
    }

    // Tries the prices that the next step leads to, and holds them if they leave less imbalance.
    pub fn try_once<R: Threads + Sync>(&mut self, rt: &R, curves: &Curves, mu: Mu)
        requires state { IsState curves.now.assets curves.now.quotes mu self.old }
        requires exponent { self.old.exponent ≤ 40 }
        ensures state { IsState curves.now.assets curves.now.quotes mu self.new }
        ensures after { held_at self.new.held self.new.exponent
            ≡ after_trial curves.now.quotes mu (held_at self.old.held self.old.exponent) }
    {
        let held = &self.held;
        let trial = &mut self.trial;
        write_trial(
            &held.prices,
            held.demand.net(),
            held.demand.volume(),
            self.exponent,
            &mut trial.prices,
        );
        // Steps become so small at last that no price moves. Then as much imbalance is left as before.
        if trial.prices.as_slice() == held.prices.as_slice() {
            self.exponent += 1;
            return;
        }
        trial.update(rt, curves, mu);
        if self.trial.off < self.held.off {
            mem::swap(&mut self.held, &mut self.trial);
            self.exponent = self.exponent.saturating_sub(1).max(1);
        } else {
            self.exponent += 1;
        }
    }
}
