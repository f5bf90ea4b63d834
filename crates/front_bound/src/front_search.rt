//! How fronts are searched.

ghost use Rattle.std.specs.Prelude.{◌≡◌};

use front_table::probe::Probe;
use glass_base::Instance;
use std::alloc::Global;

/// How fronts are searched: how far, by whom, and who is told.
#[derive(Drop)]
pub struct FrontSearch<'a, R, L> {
    /// How many labels are looked at in one search at the most; there may be a front for each 5,000 of them. It bounds
    /// time and memory.
    pub labels: u64,
    /// At most so many threads, from 1 to 8, work through the fronts, and the caller itself where none can be made:
    /// what they find is the same for each number.
    pub rt: &'a R,
    pub threads: u32,
    /// Who is told how far it is.
    pub listener: &'a L,
}

impl<'a, R, L> FrontSearch<'a, R, L> {
    /// The same search of the fronts of an instance.
    pub fn probe(&self, alloc: Global, instance: &'a Instance) -> Probe<'a, R, L>
        ensures { result.instance.now ≡ instance.now }
    {
        Probe {
            alloc,
            instance,
            limit: self.labels,
            rt: self.rt,
            threads: self.threads,
            listener: self.listener,
        }
    }
}
