//! The effort of a beam, counted and not timed, so that a plan is the same on each machine.

/// The effort of a beam so far: about 30 ns each.
#[derive(Clone, Copy)]
pub struct Ticks {
    pub spent: u64,
}

impl Ticks {
    pub fn spend(&mut self, ticks: u64) {
        self.spent = self.spent.wrapping_add(ticks);
    }

    /// A number of things of a list, each of which takes `numerator / denominator` of a tick.
    pub fn spend_half(&mut self, count: usize) {
        self.spend(count as u64 / 2);
    }

    pub fn spend_quarter(&mut self, count: usize) {
        self.spend(count as u64 / 4);
    }
}
