//! Files and a sink in memory, which fail at the calls that they are told to fail at.

ghost use Rattle.std.specs.Prelude.{◌≡◌, ◌↔◌, ◌/◌, ◌++◌, [], Contains, IfErr, IfOk, IsErrOf, IsTrue, OnErr, OnOk, length, take};
ghost use Rattle.glass_io.specs.Fetching.{TellsFile};
ghost use Rattle.glass_io.specs.Held.{FollowsScript, held_in, mem_paper, mem_shelf};
ghost use Rattle.glass_io.specs.Told.{Appended, AppendedPrefix, Counted, CountsRead, CountsStore, CountsWrite, Holds, SameBytes, SameContents, Stored, StoredPrefix};
ghost use Rattle.glass_io.specs.declared.files.Trouble.TheVariants.{Failed, Memory as OutOfMemory};

use crate::faults::{count_read, one_more};
use crate::files::{Fetched, Files, Sink, Trouble};
use glass_base::{Role, Run};
use std::alloc::Global;
use std::collections::BTreeMap;

/// Files in memory. Fetches and stores are counted together, from 0, and those whose numbers stand in `fails` fail: a store
/// does so after the first half of its bytes.
#[derive(Drop)]
pub struct MemFiles {
    pub alloc: Global,
    /// The bytes under each name.
    pub files: BTreeMap<String, Run<u8>>,
    /// The numbers of the calls that fail.
    pub fails: Run<u64>,
    /// How many calls there were.
    pub calls: u64,
    /// How many fetches failed, by the place of their role; one place is spare.
    pub read_faults: [u64; 7],
    /// How many stores failed.
    pub write_faults: u64,
}

/// Whether a script names this call.
fn names(script: &Run<u64>, call: u64) -> bool
    ensures { IsTrue result ↔ Contains script.now.items call }
{
    script.as_slice().contains(&call)
}

/// Puts bytes under a name. Both copies are made first, so that want of memory changes nothing.
fn put(
    alloc: Global,
    files: &mut BTreeMap<String, Run<u8>>,
    name: &str,
    bytes: &[u8],
) -> Result<(), Trouble>
    ensures stored { OnOk result (Holds name.now bytes.now (held_in files.old)
        (held_in files.new)) }
    ensures memory { OnErr result (held_in files.new ≡ held_in files.old) }
    ensures only_memory { IfErr result (λ e. e ≡ OutOfMemory) }
{
    let copy = Run::from(bytes.to_vec(alloc)?);
    files.insert(String::from_str(alloc, name)?, copy)?;
    Ok(())
}

impl Files for MemFiles {
    ghost shelf = { mem_shelf };

    ghost reliable = { λ m. m.fails.items ≡ [] };

    fn fetch(&mut self, role: Role, name: &str, limit: u64) -> Result<Fetched, Trouble>
        ensures same { held_in self.new.files ≡ held_in self.old.files }
        ensures found { IfOk result (TellsFile (mem_shelf self.old).contents name.now limit) }
        ensures counts { CountsRead role (mem_shelf self.old) (mem_shelf self.new) result }
        ensures keeps { self.old.fails.items ≡ [] → (self.new.fails.items ≡ [])
            × (IsErrOf result Failed → ⊥) }
        ensures called { Counted self.old.calls self.new.calls }
        ensures script { self.new.fails.items ≡ self.old.fails.items }
        ensures follows { IsErrOf result Failed ↔ Contains self.old.fails.items self.old.calls }
    {
        let fails = names(&self.fails, self.calls);
        self.calls = one_more(self.calls);
        if fails {
            count_read(&mut self.read_faults, role);
            return Err(Trouble::Failed);
        }
        match self.files.get(name) {
            None => Ok(Fetched::Absent),
            Some(bytes) => {
                if bytes.len() as u64 > limit {
                    Ok(Fetched::TooLong)
                } else {
                    Ok(Fetched::Bytes(Run::from(bytes.as_slice().to_vec(self.alloc)?)))
                }
            }
        }
    }

    fn store(&mut self, name: &str, bytes: &[u8]) -> Result<(), Trouble>
        ensures stored { OnOk result (Stored name.now bytes.now (mem_shelf self.old).contents
            (mem_shelf self.new).contents) }
        ensures failed { IsErrOf result Failed → StoredPrefix name.now bytes.now
            (mem_shelf self.old).contents (mem_shelf self.new).contents }
        ensures memory { IsErrOf result OutOfMemory → SameContents (mem_shelf self.old).contents
            (mem_shelf self.new).contents }
        ensures counts { CountsStore (mem_shelf self.old) (mem_shelf self.new) result }
        ensures keeps { self.old.fails.items ≡ [] → (self.new.fails.items ≡ [])
            × (IsErrOf result Failed → ⊥) }
        ensures called { Counted self.old.calls self.new.calls }
        ensures script { self.new.fails.items ≡ self.old.fails.items }
        ensures follows { FollowsScript self.old.fails.items self.old.calls result }
        ensures half { IsErrOf result Failed → Holds name.now
            (take (length bytes.now / 2) bytes.now) (held_in self.old.files)
            (held_in self.new.files) }
    {
        let fails = names(&self.fails, self.calls);
        self.calls = one_more(self.calls);
        if fails {
            put(self.alloc, &mut self.files, name, &bytes[..bytes.len() / 2])?;
            self.write_faults = one_more(self.write_faults);
            return Err(Trouble::Failed);
        }
        put(self.alloc, &mut self.files, name, bytes)
    }
}

/// A sink in memory. Writes are counted from 0, and those whose numbers stand in `fails` fail after the first half of their
/// bytes.
#[derive(Drop)]
pub struct MemSink {
    /// What was written.
    pub bytes: Run<u8>,
    /// The numbers of the calls that fail.
    pub fails: Run<u64>,
    /// How many writes it was asked for.
    pub calls: u64,
    /// How many writes failed.
    pub faults: u64,
}

impl Sink for MemSink {
    ghost paper = { mem_paper };

    ghost reliable = { λ m. m.fails.items ≡ [] };

    fn write(&mut self, bytes: &[u8]) -> Result<(), Trouble>
        ensures written { OnOk result (Appended bytes.now (mem_paper self.old).printed
            (mem_paper self.new).printed) }
        ensures failed { IsErrOf result Failed → AppendedPrefix bytes.now
            (mem_paper self.old).printed (mem_paper self.new).printed }
        ensures memory { IsErrOf result OutOfMemory → SameBytes (mem_paper self.old).printed
            (mem_paper self.new).printed }
        ensures counts { CountsWrite (mem_paper self.old) (mem_paper self.new) result }
        ensures keeps { self.old.fails.items ≡ [] → (self.new.fails.items ≡ [])
            × (IsErrOf result Failed → ⊥) }
        ensures called { Counted self.old.calls self.new.calls }
        ensures script { self.new.fails.items ≡ self.old.fails.items }
        ensures follows { FollowsScript self.old.fails.items self.old.calls result }
        ensures half { IsErrOf result Failed → self.new.bytes.items
            ≡ self.old.bytes.items ++ take (length bytes.now / 2) bytes.now }
    {
        let fails = names(&self.fails, self.calls);
        self.calls = one_more(self.calls);
        if fails {
            self.bytes.extend_from_slice(&bytes[..bytes.len() / 2])?;
            self.faults = one_more(self.faults);
            return Err(Trouble::Failed);
        }
        self.bytes.extend_from_slice(bytes)?;
        Ok(())
    }
}
