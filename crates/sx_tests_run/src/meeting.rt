//! A gate at which two workers meet.

use std::sync::atomic::{AtomicBool, Ordering};
use sx_workers::Gate;

// How often a worker looks for the other one.
const LOOKS: u32 = 100_000_000;

// What one of two workers tells the other.
#[derive(Drop)]
struct Side {
    here: AtomicBool,
    met: AtomicBool,
}

impl Side {
    fn new() -> Side {
        Side {
            here: AtomicBool::new(false),
            met: AtomicBool::new(false),
        }
    }

    // Before its first candidate a worker says that it is here, and looks for the other one.
    fn meet(&self, other: &Side) {
        if self.here.swap(true, Ordering::SeqCst) {
            return;
        }
        for _ in 0..LOOKS {
            if other.here.load(Ordering::SeqCst) {
                self.met.store(true, Ordering::SeqCst);
                return;
            }
        }
    }

    fn has_met(&self) -> bool {
        self.met.load(Ordering::SeqCst)
    }
}

/// The sides of two workers.
#[derive(Drop)]
pub struct Meeting {
    one: Side,
    other: Side,
}

impl Meeting {
    pub fn new() -> Meeting {
        Meeting {
            one: Side::new(),
            other: Side::new(),
        }
    }

    /// Whether each worker saw the other one before its first candidate.
    pub fn has_been(&self) -> bool {
        self.one.has_met() && self.other.has_met()
    }
}

impl Gate for Meeting {
    fn before(&self, worker: u32, _index: u32) {
        match worker {
            0 => self.one.meet(&self.other),
            _ => self.other.meet(&self.one),
        }
    }
}
