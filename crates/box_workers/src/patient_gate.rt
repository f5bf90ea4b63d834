//! A gate that makes a worker without a box wait for those that have one.

use crate::gate::Gate;
use glass_base::Listener;
use std::sync::atomic::{AtomicU32, Ordering};
use std::thread::yield_now;

/// Set until the first box is handled.
const NOT_BEGUN: u32 = 1 << 31;

/// A gate for programs: in each turn without a box a worker lets others run, for as long as another one has a box, since that one may
/// soon put one that can be stolen.
///
/// A worker rests after 100,000 turns in a row without a box. That is a few milliseconds, in which no thread may have been made yet that
/// handles a box. With this gate it is some thirty, and a few again once no worker has a box. A worker whose budget is spent counts as one
/// that has a box. The numbers of workers are below 31.
#[derive(Drop)]
pub struct PatientGate {
    /// A bit for each worker that has a box.
    busy: AtomicU32,
}

impl PatientGate {
    /// A gate that no worker has come to.
    pub fn new() -> PatientGate {
        PatientGate {
            busy: AtomicU32::new(NOT_BEGUN),
        }
    }
}

/// The bit of a worker.
fn bit(worker: u32) -> u32 {
    1u32.wrapping_shl(worker)
}

impl Listener for PatientGate {}

impl Gate for PatientGate {
    fn pass(&self, worker: u32, _id: u64) {
        let own = bit(worker);
        let busy = self.busy.load(Ordering::Relaxed);
        // The word is written only where it changes, so that workers with boxes do not wait for one another.
        if busy & own == 0 {
            self.busy.fetch_or(own, Ordering::Relaxed);
        }
        if busy & NOT_BEGUN != 0 {
            self.busy.fetch_and(!NOT_BEGUN, Ordering::Relaxed);
        }
    }

    fn idle(&self, worker: u32) {
        let own = bit(worker);
        if self.busy.load(Ordering::Relaxed) & own != 0 {
            self.busy.fetch_and(!own, Ordering::Relaxed);
        }
        if self.busy.load(Ordering::Relaxed) != 0 {
            yield_now();
        }
    }
}
