//! The files of the system and standard output. They do not tell what they hold: what a real file keeps is trusted.

ghost use Rattle.std.specs.Prelude.{◌≡◌, ◌<◌, ◌≤◌, ◌+◌, ◌-◌, ◌^◌, [], ◌∷◌, ◌++◌, None, Some, IfErr, IfOk, IfSome, OnOk, min, take};
ghost use Rattle.std.specs.IoError.{error_kind};
ghost use Rattle.glass_io.specs.Fetching.{IsFound};
ghost use Rattle.glass_io.specs.Storing.{StandsFor};
ghost use Rattle.glass_io.specs.declared.decisions.FileId.{FileId};
ghost use Rattle.glass_io.specs.Held.{shelf_of};

use crate::decisions::{FileId, called, found, unread, written};
use crate::faults::{count_read, one_more};
use crate::files::{Fetched, Files, Sink, Trouble};
use crate::storing::{id_of, store_under};
use glass_base::{Role, Run};
use std::alloc::Global;
use std::fs::OpenFile;
use std::io::{ErrorKind, Read, Write};
use std::{fs, io, rt};

/// The files of the system, by their paths.
///
/// A store loses nothing: its bytes go to a new file `.NAME.glass-N` beside the name, which takes the name once it is whole, with
/// the permissions of the old file. Whatever fails before that leaves the old file, and no new one where it can be removed. A link stays,
/// and the file that it leads to is replaced, or made. A device or a pipe is written as it is. A folder, and a file that this run has
/// read or stored, whatever its name, are not written: a store there fails.
#[derive(Drop)]
pub struct StdFiles<'a, R> {
    pub rt: &'a R,
    pub alloc: Global,
    /// The files that were opened to be read, and those that were stored.
    pub used: Run<FileId>,
    /// How many fetches failed, by the place of their role; one place is spare.
    pub read_faults: [u64; 7],
    /// How many stores failed.
    pub write_faults: u64,
}

impl<'a, R> StdFiles<'a, R> {
    ghost use Rattle.std.specs.Prelude.{◌≡◌, []};
    ghost use Rattle.glass_base.specs.declared.role.Role.{Role};
    ghost use Rattle.glass_io.specs.Held.{faults_of};

    /// The files of the system, with no fault so far.
    pub fn new(rt: &'a R, alloc: Global) -> StdFiles<'a, R>
        ensures unread { (of : Role) → faults_of result.read_faults of ≡ 0 }
        ensures unwritten { result.write_faults ≡ 0 }
        ensures unused { result.used.items ≡ [] }
    {
        StdFiles {
            rt,
            alloc,
            used: Run::new(alloc),
            read_faults: [0; 7],
            write_faults: 0,
        }
    }
}

/// The bytes of an open file, of which one more than the limit is read at the most.
fn read_up_to<F: Read + Drop>(alloc: Global, file: F, limit: u64) -> io::Result<Vec<u8>>
    ensures { IfOk result (λ bytes. IfSome (F.remaining file) (λ all. bytes.items
        ≡ take (min (limit + 1) (2 ^ 64 - 1)) all)) }
{
    let mut bytes = Vec::new(alloc);
    file.take(limit.saturating_add(1)).read_to_end(&mut bytes)?;
    Ok(bytes)
}

/// A file that is open to be read, and is noted as soon as it is.
fn open_noted<R: rt::Files>(rt: &R, used: &mut Run<FileId>, name: &str) -> io::Result<R::File>
    requires { 1 ≤ used.old.spare }
    ensures { OnOk result ((id : FileId) × (used.new.items ≡ used.old.items ++ id ∷ [])) }
{
    let file = fs::open(rt, name)?;
    used.put(id_of(&file.metadata()?));
    Ok(file)
}

/// What a fetch answers of the file that was opened so: all that it holds, or that this is more than the limit.
fn answered<F: Read + Drop>(
    alloc: Global,
    opened: io::Result<F>,
    limit: u64,
) -> Result<Fetched, Trouble>
    ensures read { IfOk opened (λ file. IfSome (F.remaining file) (λ all. limit < 2 ^ 64 - 1
        → IfOk result (IsFound (Some all) limit))) }
    ensures unread { IfErr opened (λ error. StandsFor ErrorKind.NotFound Fetched.Absent
        (error_kind error) result) }
{
    match opened {
        Ok(file) => {
            let bytes = called(read_up_to(alloc, file, limit))?;
            Ok(found(bytes, limit))
        }
        Err(error) => unread(error.kind(), Fetched::Absent),
    }
}

impl<'a, R: rt::Files> Files for StdFiles<'a, R> {
    ghost shelf = { λ s. shelf_of None s.read_faults s.write_faults };

    ghost reliable = { λ _. ⊥ };

    fn fetch(&mut self, role: Role, name: &str, limit: u64) -> Result<Fetched, Trouble> {
        self.used.reserve(1)?;
        let opened = open_noted(self.rt, &mut self.used, name);
        let answer = answered(self.alloc, opened, limit);
        if let Err(Trouble::Failed) = answer {
            count_read(&mut self.read_faults, role);
        }
        answer
    }

    fn store(&mut self, name: &str, bytes: &[u8]) -> Result<(), Trouble> {
        self.used.reserve(1)?;
        match store_under(self.rt, self.alloc, self.used.as_slice(), name, bytes) {
            Ok(None) => Ok(()),
            Ok(Some(id)) => {
                self.used.put(id);
                Ok(())
            }
            Err(Trouble::Memory) => Err(Trouble::Memory),
            Err(Trouble::Failed) => {
                self.write_faults = one_more(self.write_faults);
                Err(Trouble::Failed)
            }
        }
    }
}

/// Standard output.
#[derive(Drop)]
pub struct StdSink<'a, R> {
    pub rt: &'a R,
    /// How many writes it was asked for.
    pub writes: u64,
    /// How many writes failed. A write that accepts nothing counts as one that failed.
    pub faults: u64,
}

impl<'a, R> StdSink<'a, R> {
    ghost use Rattle.std.specs.Prelude.{◌≡◌};

    /// Standard output, with no write and no fault so far.
    pub fn new(rt: &'a R) -> StdSink<'a, R>
        ensures unasked { result.writes ≡ 0 }
        ensures unfailed { result.faults ≡ 0 }
    {
        StdSink {
            rt,
            writes: 0,
            faults: 0,
        }
    }
}

impl<'a, R: Print> Sink for StdSink<'a, R> {
    ghost paper = { λ s. record { printed = None; writes = s.writes; faults = s.faults } };

    ghost reliable = { λ _. ⊥ };

    fn write(&mut self, bytes: &[u8]) -> Result<(), Trouble> {
        self.writes = one_more(self.writes);
        let answer = written(io::writer(self.rt).write_all(bytes));
        if answer.is_err() {
            self.faults = one_more(self.faults);
        }
        answer
    }
}
