//! What a beam is to do.

use crate::guide::Guide;
use crate::measure::Amount;
use crate::sheet::Sheet;
use crate::stock::Stock;

/// How many lanes work on a level, and how many sieves, whatever the number of threads.
pub const LANES: usize = 32;

/// So many of the lanes go ahead, and what they find tells the others from which key on a child is of no use.
pub const AHEAD: usize = 4;

/// What a beam is to do.
#[derive(Clone, Copy)]
pub struct Task<'t> {
    pub sheet: &'t Sheet,
    pub stock: &'t Stock,
    pub guide: Guide,
    /// Nodes with as much waste as this are of no use.
    pub best: Amount,
    /// The effort.
    pub ticks: u64,
    /// At most so many nodes of a level are expanded.
    pub widest: u64,
}

impl Task<'_> {
    /// How many ticks are left of its effort.
    pub fn left(&self, spent: u64) -> u64 {
        self.ticks.saturating_sub(spent)
    }

    /// How many nodes of a level are expanded at the most, so that the ticks that are left last to the end where a node
    /// takes `cost`.
    pub fn width(&self, left: u64, level: usize, cost: u64) -> usize {
        let levels = self.stock.items.saturating_sub(level).max(1) as u64;
        let share = left.checked_div(cost.wrapping_mul(levels)).unwrap_or(0);
        share.min(self.widest).max(1) as usize
    }
}

/// How many candidates a level may hold of which so many are expanded.
pub fn room_for(width: usize) -> usize {
    width.saturating_mul(2).saturating_add(8)
}
