//! A store among the files of the system that loses nothing: the bytes go to a new file beside the name, which takes the name
//! only once it is whole. What the calls do is trusted; what they mean is decided in `decisions`.

ghost use Rattle.std.specs.Prelude.{◌≡◌, OnOk, false, true};
ghost use Rattle.std.specs.Fs.{asks_create, asks_create_new, asks_truncate, asks_write};
ghost use Rattle.std.specs.Io.KnownBytes.{Appends};

use crate::decisions::{
    FileId, Standing, Way, called, is_still, looked_up, made, name_beside, way_to_store,
    what_stands, written, written_as_it_is,
};
use crate::files::Trouble;
use std::alloc::Global;
use std::fs::{Metadata, OpenFile, OpenOptions, Permissions};
use std::io::Write;
use std::os::unix::fs::{MetadataExt, OpenOptionsExt};
use std::path::PathBuf;
use std::{fs, io, rt};

/// How many links a name may lead through, one behind the other: as many as Linux follows.
const MOST_LINKS: u32 = 40;

/// How many names are tried for a new file.
const NAMES_TRIED: u32 = 100;

/// The permissions with which a new file is made that replaces none, before the user's mask.
const SHARED: u32 = 0o666;

/// The permissions of a new file until it has those of the one that it is to replace.
const PRIVATE: u32 = 0o600;

/// Which file this is.
pub(crate) fn id_of(found: &Metadata) -> FileId {
    FileId {
        device: found.dev(),
        inode: found.ino(),
    }
}

/// What stands under a name, behind all links.
fn standing_under<R: rt::Files>(rt: &R, name: &str) -> Result<Standing, Trouble> {
    let outcome = fs::metadata(rt, name).map(|found| what_stands(&found, id_of(&found)));
    looked_up(outcome, Standing::Nothing)
}

/// The name that the links of this one lead to in the end. It is no link; nothing may stand there.
fn behind_links<R: rt::Files>(rt: &R, alloc: Global, name: &str) -> Result<PathBuf, Trouble> {
    let mut path = PathBuf::from_str(alloc, name)?;
    for _ in 0..MOST_LINKS {
        let outcome = fs::symlink_metadata(rt, &path).map(|found| found.is_symlink());
        if !looked_up(outcome, false)? {
            return Ok(path);
        }
        let next = called(rt.read_link(alloc, path.as_str()))?;
        path.set_file_name(next.as_str())?;
    }
    Err(Trouble::Failed)
}

/// How a file is opened that has to let itself be written: as it is, where it is.
fn to_look_at() -> OpenOptions
    ensures written { asks_write result ≡ true }
    ensures whole { asks_truncate result ≡ false }
    ensures there { asks_create result ≡ false }
{
    let mut options = OpenOptions::new();
    options.write(true);
    options
}

/// How a new file is made: to be written, and under no name that is taken.
fn to_make(mode: u32) -> OpenOptions
    ensures written { asks_write result ≡ true }
    ensures new { asks_create_new result ≡ true }
{
    let mut options = OpenOptions::new();
    options.mode(mode);
    options.write(true);
    options.create_new(true);
    options
}

/// The permissions of the file under this name, which has to be this very file and to let itself be written.
fn permissions_of<R: rt::Files>(
    rt: &R,
    target: &PathBuf,
    id: FileId,
) -> Result<Permissions, Trouble> {
    let file = called(to_look_at().open(rt, target))?;
    let found = called(file.metadata())?;
    if is_still(what_stands(&found, id_of(&found)), id) {
        Ok(found.permissions())
    } else {
        Err(Trouble::Failed)
    }
}

/// A new file beside the target, and its name. No file that is there already is opened.
fn new_beside<R: rt::Files>(
    rt: &R,
    alloc: Global,
    target: &PathBuf,
    mode: u32,
) -> Result<(PathBuf, R::File), Trouble> {
    let options = to_make(mode);
    for number in 0..NAMES_TRIED {
        let Some(name) = name_beside(alloc, target, number)? else {
            return Err(Trouble::Failed);
        };
        if let Some(file) = made(options.open(rt, &name))? {
            return Ok((name, file));
        }
    }
    Err(Trouble::Failed)
}

/// Gives a new file its permissions, where they are not those that it was made with, and its bytes, and says which file it is.
fn fill<F: Write + OpenFile>(
    file: &mut F,
    permissions: Option<Permissions>,
    bytes: &[u8],
) -> io::Result<FileId>
    ensures { OnOk result (Appends (F.contents file.old) (F.contents file.new) bytes.now) }
{
    if let Some(permissions) = permissions {
        file.set_permissions(permissions)?;
    }
    file.write_all(bytes)?;
    file.flush()?;
    file.sync_all()?;
    Ok(id_of(&file.metadata()?))
}

/// Makes the target a new file of these bytes, with these permissions where they are given. A fault leaves the target as it was,
/// and removes the new file, if that can be done.
fn replace<R: rt::Files>(
    rt: &R,
    alloc: Global,
    target: &PathBuf,
    permissions: Option<Permissions>,
    bytes: &[u8],
) -> Result<FileId, Trouble> {
    let mode = if permissions.is_some() {
        PRIVATE
    } else {
        SHARED
    };
    let (name, mut file) = new_beside(rt, alloc, target, mode)?;
    let filled = fill(&mut file, permissions, bytes);
    drop(file);
    let outcome = match filled {
        Ok(id) => fs::rename(rt, &name, target).map(|_| id),
        Err(error) => Err(error),
    };
    if outcome.is_err() {
        let _ = fs::remove_file(rt, &name);
    }
    written(outcome)
}

/// Stores bytes under a name, in a run that used these files, and says which new file stands there now, if one does.
pub(crate) fn store_under<R: rt::Files>(
    rt: &R,
    alloc: Global,
    used: &[FileId],
    name: &str,
    bytes: &[u8],
) -> Result<Option<FileId>, Trouble> {
    match way_to_store(standing_under(rt, name)?, used) {
        Way::AsItIs => written_as_it_is(fs::write(rt, name, bytes)),
        Way::Make => {
            let target = behind_links(rt, alloc, name)?;
            Ok(Some(replace(rt, alloc, &target, None, bytes)?))
        }
        Way::Replace(old) => {
            let target = behind_links(rt, alloc, name)?;
            let permissions = permissions_of(rt, &target, old)?;
            Ok(Some(replace(rt, alloc, &target, Some(permissions), bytes)?))
        }
        Way::Refuse => Err(Trouble::Failed),
    }
}
