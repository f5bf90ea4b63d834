//! Why a search ends before it is done.

ghost use Rattle.std.specs.Prelude.{◌≡◌, IfOk};

use glass_base::Memory;
use std::alloc::{AllocError, AllocFailed};

/// A search has no answer.
#[derive(Clone, Copy)]
pub enum Halt {
    /// Memory has run out.
    Memory,
    /// More labels would be needed than the limit allows.
    Limit,
    /// There are more fronts than the limit allows.
    Fronts,
}

impl Halt {
    /// What is answered in place of an answer: this one, which says less, where the limit was reached.
    pub fn or<T: Drop>(self, less: T) -> Result<T, Memory>
        ensures { IfOk result (λ answer. answer ≡ less) }
    {
        match self {
            Halt::Memory => Err(Memory),
            Halt::Limit => Ok(less),
            Halt::Fronts => Ok(less),
        }
    }
}

impl From<AllocError> for Halt {
    fn from(_refused: AllocError) -> Halt {
        Halt::Memory
    }
}

impl<T: Drop> From<AllocFailed<T>> for Halt {
    fn from(_refused: AllocFailed<T>) -> Halt {
        Halt::Memory
    }
}

impl From<Memory> for Halt {
    fn from(_refused: Memory) -> Halt {
        Halt::Memory
    }
}
