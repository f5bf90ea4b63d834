//! The list of plans that several workers share.

use crate::entries::Entries;
use cut_model::Trace;
use glass_base::Memory;
use std::sync::{Mutex, Wait};

/// The list of plans that several workers share under a lock. Whenever the lock is free, the list is one of plans of its instance, each of
/// which loses less than those before it: nothing else can stand in an `Entries`.
#[derive(Drop)]
pub struct Board {
    entries: Mutex<Entries>,
}

impl Board {
    /// A board on which these plans stand. It takes no memory.
    pub fn new(entries: Entries) -> Board {
        Board {
            entries: Mutex::new(entries),
        }
    }

    /// Offers a trace to the list, whatever the answer. It waits for the lock.
    ///
    /// No clause says that the trace is entered, since nothing is known of a list that others change; tests show it.
    pub fn post<R: Wait>(&self, rt: &R, trace: &Trace) -> Result<(), Memory> {
        self.entries.lock(rt).offer(trace)?;
        Ok(())
    }

    /// The list, once nobody shares it any more.
    pub fn close(self) -> Entries {
        self.entries.into_inner()
    }
}
