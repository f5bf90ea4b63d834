//! What files and a sink promise.

ghost use Rattle.std.specs.Prelude.{◌≡◌, OnOk, IfOk, IsErrOf};
ghost use Rattle.glass_io.specs.Told.{Appended, AppendedPrefix, CountsRead, CountsStore, CountsWrite, Paper, SameBytes, SameContents, Shelf, Stored, StoredPrefix};
ghost use Rattle.glass_io.specs.Fetching.{TellsFile};
ghost use Rattle.glass_io.specs.declared.files.Trouble.TheVariants.{Failed, Memory as OutOfMemory};

use glass_base::{Memory, Role, Run};
use std::alloc::{AllocError, AllocFailed};

/// Why a call did not do all that it was to do.
#[derive(Clone, Copy, Debug, PartialEq, Eq)]
pub enum Trouble {
    /// The file or the sink failed, and one more fault was counted.
    Failed,
    /// Memory ran out. What is held did not change, and no fault was counted.
    Memory,
}

impl From<Memory> for Trouble {
    ghost from_gives = { λ _ e. e ≡ OutOfMemory };

    fn from(_refused: Memory) -> Trouble {
        Trouble::Memory
    }
}

impl From<AllocError> for Trouble {
    ghost from_gives = { λ _ e. e ≡ OutOfMemory };

    fn from(_refused: AllocError) -> Trouble {
        Trouble::Memory
    }
}

impl<T: Drop> From<AllocFailed<T>> for Trouble {
    ghost from_gives = { λ _ e. e ≡ OutOfMemory };

    fn from(_refused: AllocFailed<T>) -> Trouble {
        Trouble::Memory
    }
}

/// What a fetch found.
#[derive(Drop)]
pub enum Fetched {
    /// The whole file.
    Bytes(Run<u8>),
    /// There is no file of this name.
    Absent,
    /// The file has more bytes than the limit.
    TooLong,
}

/// Files by name.
///
/// Where they tell what they hold, a call says what it leaves. Counts of faults rise by faults alone and by one each: a
/// call that fails counts one fault under its role or as a failed store, and every other call none. A count that stands
/// at the greatest `u64` stays there.
pub trait Files {
    // what they hold, where that is told, and the counts of faults
    ghost shelf: { Self → Shelf };

    // no call fails from here on
    ghost reliable: { Self → Type 0 };

    /// The file of this name, if there is one and it has at most `limit` bytes.
    fn fetch(&mut self, role: Role, name: &str, limit: u64) -> Result<Fetched, Trouble>
        ensures same { (shelf self.new).contents ≡ (shelf self.old).contents }
        ensures found { IfOk result (TellsFile (shelf self.old).contents name.now limit) }
        ensures counts { CountsRead role (shelf self.old) (shelf self.new) result }
        ensures keeps { reliable self.old → reliable self.new × (IsErrOf result Failed → ⊥) };

    /// Makes the name hold these bytes. A store that fails may leave a front of them.
    fn store(&mut self, name: &str, bytes: &[u8]) -> Result<(), Trouble>
        ensures stored { OnOk result (Stored name.now bytes.now (shelf self.old).contents
            (shelf self.new).contents) }
        ensures failed { IsErrOf result Failed → StoredPrefix name.now bytes.now
            (shelf self.old).contents (shelf self.new).contents }
        ensures memory { IsErrOf result OutOfMemory → SameContents (shelf self.old).contents
            (shelf self.new).contents }
        ensures counts { CountsStore (shelf self.old) (shelf self.new) result }
        ensures keeps { reliable self.old → reliable self.new × (IsErrOf result Failed → ⊥) };
}

/// Where lines are printed.
///
/// The sink counts the writes that it is asked for, whatever comes of them, and beside that the writes that failed. Both
/// counts rise by one each time, and stay at the greatest `u64`.
pub trait Sink {
    // what was written, where that is told, and the counts of writes and of faults
    ghost paper: { Self → Paper };

    // no call fails from here on
    ghost reliable: { Self → Type 0 };

    /// Appends these bytes. A write that fails may append a front of them.
    fn write(&mut self, bytes: &[u8]) -> Result<(), Trouble>
        ensures written { OnOk result (Appended bytes.now (paper self.old).printed
            (paper self.new).printed) }
        ensures failed { IsErrOf result Failed → AppendedPrefix bytes.now (paper self.old).printed
            (paper self.new).printed }
        ensures memory { IsErrOf result OutOfMemory → SameBytes (paper self.old).printed
            (paper self.new).printed }
        ensures counts { CountsWrite (paper self.old) (paper self.new) result }
        ensures keeps { reliable self.old → reliable self.new × (IsErrOf result Failed → ⊥) };
}
