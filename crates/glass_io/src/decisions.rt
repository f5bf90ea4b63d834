//! What the system's answers mean, and what a store does about them. Each decision takes plain values, so that its contract
//! says the whole of it, and what is left to the calls themselves is trusted.

ghost use Rattle.std.specs.Prelude.{◌≡◌, ◌↔◌, Contains, IfErr, IfOk, IsErrAnd, IsErrOf, IsTrue, MatchResult, option_map};
ghost use Rattle.std.specs.IoError.{error_kind};
ghost use Rattle.std.specs.Fs.{file_type};
ghost use Rattle.std.specs.Path.{path_buf_bytes};
ghost use Rattle.glass_io.specs.Fetching.{IsFound};
ghost use Rattle.glass_io.specs.Storing.{IsTrouble, IsWay, StandsAs, StandsFor, name_beside as name_beside_of};
ghost use Rattle.glass_io.specs.declared.files.Trouble.TheVariants.{Failed};

use crate::files::{Fetched, Trouble};
use glass_base::Run;
use std::alloc::Global;
use std::fs::Metadata;
use std::io;
use std::io::ErrorKind;
use std::path::PathBuf;

/// Which file of the system this is, whatever its name: the number of its device, and its own number there.
#[derive(Clone, Copy, Debug, PartialEq, Eq)]
pub struct FileId {
    pub device: u64,
    pub inode: u64,
}

/// What stands under a name.
#[derive(Clone, Copy, Debug, PartialEq, Eq)]
pub(crate) enum Standing {
    Nothing,
    /// A regular file.
    File(FileId),
    Folder,
    /// A device, a pipe or a socket.
    Other,
}

/// How a store writes under a name.
#[derive(Clone, Copy, Debug, PartialEq, Eq)]
pub(crate) enum Way {
    /// To what stands there, which holds nothing that could be lost.
    AsItIs,
    /// To a new file, where there is none yet.
    Make,
    /// To a new file, in the place of this one.
    Replace(FileId),
    /// Not at all.
    Refuse,
}

/// What a file is of which these bytes were read: all of it, or more of it than the limit.
pub(crate) fn found(bytes: Vec<u8>, limit: u64) -> Fetched
    ensures { IsFound (Some bytes.items) limit result }
{
    if bytes.len() as u64 > limit {
        Fetched::TooLong
    } else {
        Fetched::Bytes(Run::from(bytes))
    }
}

/// What an error of this kind is to the caller of files.
fn trouble(kind: ErrorKind) -> Trouble
    ensures { IsTrouble kind result }
{
    match kind {
        ErrorKind::OutOfMemory => Trouble::Memory,
        _ => Trouble::Failed,
    }
}

/// What a call answers that ended in an error of this kind, where a name under which nothing stands is no fault.
pub(crate) fn unread<T: Drop>(kind: ErrorKind, nothing: T) -> Result<T, Trouble>
    ensures { StandsFor ErrorKind.NotFound nothing kind result }
{
    match kind {
        ErrorKind::NotFound => Ok(nothing),
        ErrorKind::OutOfMemory => Err(Trouble::Memory),
        _ => Err(Trouble::Failed),
    }
}

/// What a look at a name answers, where nothing may stand there.
pub(crate) fn looked_up<T: Drop>(outcome: io::Result<T>, nothing: T) -> Result<T, Trouble>
    ensures seen { IfOk outcome (λ value. result ≡ Ok value) }
    ensures unseen { IfErr outcome (λ error. StandsFor ErrorKind.NotFound nothing
        (error_kind error) result) }
{
    match outcome {
        Ok(value) => Ok(value),
        Err(error) => unread(error.kind(), nothing),
    }
}

/// What a call answers that touches nothing where it fails.
pub(crate) fn called<T>(outcome: io::Result<T>) -> Result<T, Trouble>
    ensures done { IfOk outcome (λ value. result ≡ Ok value) }
    ensures failed { IfErr outcome (λ error. IsErrAnd result (IsTrouble (error_kind error))) }
{
    match outcome {
        Ok(value) => Ok(value),
        Err(error) => Err(trouble(error.kind())),
    }
}

/// The file that was to be made, or none where its name is taken.
pub(crate) fn made<T: Drop>(outcome: io::Result<T>) -> Result<Option<T>, Trouble>
    ensures made { IfOk outcome (λ file. result ≡ Ok (Some file)) }
    ensures unmade { IfErr outcome (λ error. StandsFor ErrorKind.AlreadyExists None
        (error_kind error) result) }
{
    match outcome {
        Ok(file) => Ok(Some(file)),
        Err(error) => match error.kind() {
            ErrorKind::AlreadyExists => Ok(None),
            kind => Err(trouble(kind)),
        },
    }
}

/// What a store or a write answers after this outcome: an error of any kind is a failure, since a front of the bytes may
/// have been written before it.
pub(crate) fn written<T>(outcome: io::Result<T>) -> Result<T, Trouble>
    ensures { MatchResult outcome (λ value. result ≡ Ok value) (λ _. IsErrOf result Failed) }
{
    match outcome {
        Ok(value) => Ok(value),
        Err(_) => Err(Trouble::Failed),
    }
}

/// What a store answers after this write to what stands there, of which no new file comes.
pub(crate) fn written_as_it_is(outcome: io::Result<()>) -> Result<Option<FileId>, Trouble>
    ensures { MatchResult outcome (λ _. result ≡ Ok None) (λ _. IsErrOf result Failed) }
{
    written(outcome)?;
    Ok(None)
}

/// What stands under a name of which this was found, and which file it is.
pub(crate) fn what_stands(found: &Metadata, id: FileId) -> Standing
    ensures { StandsAs (file_type found.now) id result }
{
    if found.is_file() {
        Standing::File(id)
    } else if found.is_dir() {
        Standing::Folder
    } else {
        Standing::Other
    }
}

/// Whether a run used this file.
fn was_used(used: &[FileId], id: FileId) -> bool
    ensures { IsTrue result ↔ Contains used.now id }
{
    used.contains(&id)
}

/// How a store writes under a name under which this stands, in a run that used these files.
pub(crate) fn way_to_store(standing: Standing, used: &[FileId]) -> Way
    ensures { IsWay used.now standing result }
{
    match standing {
        Standing::Nothing => Way::Make,
        Standing::File(id) => {
            if was_used(used, id) {
                Way::Refuse
            } else {
                Way::Replace(id)
            }
        }
        Standing::Folder => Way::Refuse,
        Standing::Other => Way::AsItIs,
    }
}

/// Whether this very file stands somewhere.
pub(crate) fn is_still(standing: Standing, id: FileId) -> bool
    ensures { IsTrue result ↔ (standing ≡ Standing.File id) }
{
    standing == Standing::File(id)
}

/// The name of this number for a new file beside a target, `.NAME.glass-N`, or none where the target ends in no name.
pub(crate) fn name_beside(
    alloc: Global,
    target: &PathBuf,
    number: u32,
) -> Result<Option<PathBuf>, Trouble>
    ensures { IfOk result (λ beside. option_map path_buf_bytes beside
        ≡ name_beside_of (path_buf_bytes target.now) number) }
{
    match target.file_name() {
        None => Ok(None),
        Some(name) => {
            let own = format!(in alloc; ".{name}.glass-{number}")?;
            Ok(Some(target.with_file_name(alloc, own.as_str())?))
        }
    }
}
