//! What all searches over fronts go by.

use crate::halt::Halt;
use glass_base::{Instance, Listener, News};
use std::alloc::Global;

/// An instance whose fronts are searched, within which limit, by whom, and who is told.
#[derive(Clone, Copy)]
pub struct Probe<'a, R, L> {
    pub alloc: Global,
    pub instance: &'a Instance,
    /// How many labels are looked at in one search at the most; there may be a front for each 5,000 of them (`LABELS_A_FRONT`).
    pub limit: u64,
    /// At most so many threads, from 1 to 8, work through the fronts, and the caller itself where none can be made.
    pub rt: &'a R,
    pub threads: u32,
    /// Who is told how far a search is.
    pub listener: &'a L,
}

/// For how many labels a front counts: by the memory and the time that its row takes.
const LABELS_A_FRONT: u64 = 5_000;

impl<'a, R, L> Probe<'a, R, L> {
    /// So many fronts there may be.
    pub fn most_fronts(&self) -> u64 {
        self.limit / LABELS_A_FRONT
    }
}

impl<'a, R, L: Listener> Probe<'a, R, L> {
    /// Tells why a search ends before it is done.
    pub fn tell(&self, halt: Halt) {
        match halt {
            Halt::Memory => {}
            Halt::Limit => self.listener.hear(News::TooManyLabels { most: self.limit }),
            Halt::Fronts => self.listener.hear(News::TooManyFronts {
                most: self.most_fronts(),
            }),
        }
    }
}
