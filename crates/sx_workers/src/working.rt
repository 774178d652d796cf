//! The workers.

ghost use Rattle.std.specs.Prelude.{◌≡◌, ◌+◌, ◌-◌, ◌<◌, ◌≤◌, length};
ghost use Rattle.sx_workers.specs.Passing.{AreHeld, CanDecide, DecidesHeld, DecidesRest, IsDone, IsHeld, IsWaiting};

use crate::gate::Gate;
use std::thread::Threads;
use sx_fork::for_each_mut;
use sx_gather::{Gather, Pass};

// Decides all that a pass has left.
fn decide_rest<G: Gate>(gather: &Gather, gate: &G, worker: u32, pass: &mut Pass)
    requires { CanDecide gather.now pass.old }
    ensures { DecidesRest gather.now pass.old pass.new }
{
    for index in pass.next()..pass.end() {
        gate.before(worker, index);
        let _ = gather.submit(pass);
    }
}

// The same for the pass in a slot. The worker has it on its own stack meanwhile, since slots share cache lines.
fn work<G: Gate>(gather: &Gather, gate: &G, worker: u32, slot: &mut Option<Pass>)
    requires { IsHeld (CanDecide gather.now) slot.old }
    ensures { DecidesHeld gather.now slot.old slot.new }
{
    let mut pass = slot.take().unwrap();
    decide_rest(gather, gate, worker, &mut pass);
    *slot = Some(pass);
}

// All workers work, each in a thread of its own where one can be started. One worker alone works in this one.
pub fn work_all<R: Threads + Sync, G: Gate + Sync>(
    rt: &R,
    gather: &Gather,
    gate: &G,
    n: u32,
    slots: &mut [Option<Pass>],
)
    requires some { 1 ≤ n }
    requires one_each { length slots.old ≡ n }
    requires waiting { AreHeld (IsWaiting gather.now n) n slots.old }
    ensures one_each { length slots.new ≡ n }
    ensures done { AreHeld (IsDone gather.now n) n slots.new }
{
    for_each_mut(
        rt,
        slots,
        n as usize,
        &|place: usize, slot: &mut Option<Pass>|
            requires { (place < n) × IsHeld (IsWaiting gather.now n (n - 1 - place)) slot.now }
            ensures { IsHeld (IsDone gather.entry.now n (n - 1 - place)) slot.exit.now }
        { work(gather, gate, n - 1 - place as u32, slot) },
    );
}
