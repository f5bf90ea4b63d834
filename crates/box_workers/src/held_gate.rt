//! A gate that shows whether two workers share the work.

use crate::gate::Gate;
use glass_base::{Listener, Memory};
use std::hint::spin_loop;
use std::sync::atomic::{AtomicBool, Ordering};

/// A hold gives up after so many loads.
const MOST_LOADS: u32 = 400_000_000;

/// A gate for tests of two workers, which holds each of them until the other one has come to a box as well. The box of identity 0 does not
/// count, and passes at once.
///
/// At any other box `pass` notes that this worker has come to one, and holds it until the other one has. `idle` notes nothing, and holds a
/// worker likewise. A hold gives up after 400,000,000 loads, and once one has no later call holds.
///
/// One worker has the number 0, the other one any other number. Where one thread does the work of both, a hold gives up, or they never
/// meet.
#[derive(Drop)]
pub struct HeldGate {
    /// Whether worker 0 has come to a box that counts.
    first_came: AtomicBool,
    /// Whether the other worker has.
    second_came: AtomicBool,
    gave_up: AtomicBool,
}

impl HeldGate {
    /// A gate that no worker has come to. Only want of memory may be refused.
    pub fn new() -> Result<HeldGate, Memory> {
        Ok(HeldGate {
            first_came: AtomicBool::new(false),
            second_came: AtomicBool::new(false),
            gave_up: AtomicBool::new(false),
        })
    }

    /// Whether both workers have come to a box that counts.
    pub fn met(&self) -> bool {
        self.first_came.load(Ordering::SeqCst) && self.second_came.load(Ordering::SeqCst)
    }

    /// Whether a hold gave up.
    pub fn gave_up(&self) -> bool {
        self.gave_up.load(Ordering::SeqCst)
    }

    /// Notes that a worker has come to a box that counts.
    fn note(&self, worker: u32) {
        if worker == 0 {
            self.first_came.store(true, Ordering::SeqCst);
        } else {
            self.second_came.store(true, Ordering::SeqCst);
        }
    }

    /// Holds a worker until the other one has come to a box that counts.
    fn hold(&self, worker: u32) {
        let other_came = if worker == 0 {
            &self.second_came
        } else {
            &self.first_came
        };
        if !self.gave_up() && !comes_true(other_came) {
            self.gave_up.store(true, Ordering::SeqCst);
        }
    }
}

/// Whether a flag is set, which is looked at 400,000,000 times at the most.
fn comes_true(flag: &AtomicBool) -> bool {
    for _ in 0..MOST_LOADS {
        if flag.load(Ordering::SeqCst) {
            return true;
        }
        spin_loop();
    }
    false
}

impl Listener for HeldGate {}

impl Gate for HeldGate {
    fn pass(&self, worker: u32, id: u64) {
        if id != 0 {
            self.note(worker);
            self.hold(worker);
        }
    }

    fn idle(&self, worker: u32) {
        self.hold(worker);
    }
}
