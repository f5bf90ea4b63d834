//! What real files and the real output do. No contract can say it: they tell nothing of what they hold.

use glass_base::Role;
use glass_io::{Fetched, Files, Sink, StdFiles, StdSink, Trouble};
use std::alloc::Global;
use std::fs::Permissions;
use std::os::unix::fs::{MetadataExt, PermissionsExt, symlink};
use std::process::Abort;
use std::test::Fail;
use std::{fs, io, rt};

/// A file of this name, in the folder that the test runs in.
const NAME: &str = "glass_files_test.tmp";

/// What a fetch of this name gives: its bytes as text, or a word.
fn found(
    rt: &impl Abort,
    files: &mut impl Files,
    name: &str,
    limit: u64,
    wanted: &[u8],
) -> Result<(), Fail> {
    match files.fetch(Role::Plan, name, limit) {
        Ok(Fetched::Bytes(bytes)) => assert_eq!(rt; bytes.as_slice(), wanted),
        Ok(Fetched::Absent) => assert_eq!(rt; b"absent".as_slice(), wanted),
        Ok(Fetched::TooLong) => assert_eq!(rt; b"too long".as_slice(), wanted),
        Err(Trouble::Failed) => assert_eq!(rt; b"failed".as_slice(), wanted),
        Err(Trouble::Memory) => assert_eq!(rt; b"memory".as_slice(), wanted),
    }
    Ok(())
}

#[test]
fn real_files_hold_what_is_stored(rt: HostRuntime) -> Result<(), Fail> {
    let mut files = StdFiles::new(&rt, rt.alloc());
    assert_eq!(rt; files.store(NAME, b"0;1\n"), Ok(()));
    found(&rt, &mut files, NAME, 4, b"0;1\n")?;
    found(&rt, &mut files, NAME, 3, b"too long")?;
    found(&rt, &mut files, "glass_no_file.tmp", 4, b"absent")?;
    assert_eq!(rt; files.read_faults, [0; 7]);
    found(&rt, &mut files, ".", 4, b"failed")?;
    assert_eq!(rt; files.read_faults, [0, 0, 0, 1, 0, 0, 0]);
    assert_eq!(rt;
        files.store("glass_no_folder/a", b"0"),
        Err(Trouble::Failed)
    );
    assert_eq!(rt; files.write_faults, 1);
    fs::remove_file(&rt, NAME)?;
    Ok(())
}

/// What a test does to the files of its folder.
#[derive(Clone, Copy)]
enum Change {
    Folder(&'static str),
    /// A file that holds `old`.
    File(&'static str),
    Mode(&'static str, u32),
    Link(&'static str, &'static str),
    HardLink(&'static str, &'static str),
    Remove(&'static str),
    /// Fails where a file was left in the folder.
    RemoveFolder(&'static str),
}

fn make_change(rt: &impl rt::Files, change: Change) -> io::Result<()> {
    match change {
        Change::Folder(name) => fs::create_dir(rt, name),
        Change::File(name) => fs::write(rt, name, "old"),
        Change::Mode(name, mode) => fs::set_permissions(rt, name, Permissions::from_mode(mode)),
        Change::Link(target, name) => symlink(rt, target, name),
        Change::HardLink(target, name) => fs::hard_link(rt, target, name),
        Change::Remove(name) => fs::remove_file(rt, name),
        Change::RemoveFolder(name) => fs::remove_dir(rt, name),
    }
}

fn change_all(rt: &impl rt::Files, changes: &[Change]) -> io::Result<()> {
    for each in changes {
        make_change(rt, *each)?;
    }
    Ok(())
}

/// What a run over the system's files is asked for, and what comes of it.
#[derive(Clone, Copy)]
enum Call {
    /// A store of `new` that is done.
    Stores(&'static str),
    /// One that fails.
    Fails(&'static str),
    /// A fetch of this text.
    Holds(&'static str, &'static str),
}

fn make_call(rt: &impl Abort, files: &mut impl Files, call: Call) -> Result<(), Fail> {
    match call {
        Call::Stores(name) => assert_eq!(rt; files.store(name, b"new"), Ok(())),
        Call::Fails(name) => assert_eq!(rt; files.store(name, b"new"), Err(Trouble::Failed)),
        Call::Holds(name, text) => found(rt, files, name, 3, text.as_bytes())?,
    }
    Ok(())
}

fn call_all<R: rt::Files + Abort>(rt: &R, alloc: Global, calls: &[Call]) -> Result<(), Fail> {
    let mut files = StdFiles::new(rt, alloc);
    for each in calls {
        make_call(rt, &mut files, *each)?;
    }
    Ok(())
}

/// A link stays, and its target is replaced, or made. A new file takes no name that is there, keeps the permissions of the old one, and is
/// not left where it cannot take the name, which says here that it is a folder's.
#[test]
fn targets_are_replaced(rt: HostRuntime) -> Result<(), Fail> {
    change_all(
        &rt,
        &[
            Change::Folder("glass_links"),
            Change::Folder("glass_links/in"),
            Change::File("glass_links/in/a"),
            Change::Mode("glass_links/in/a", 0o640),
            Change::File("glass_links/in/.a.glass-0"),
            Change::Link("in/a", "glass_links/a"),
            Change::Link("c", "glass_links/in/b"),
        ],
    )?;
    call_all(
        &rt,
        rt.alloc(),
        &[
            Call::Stores("glass_links/a"),
            Call::Stores("glass_links/in/b"),
            Call::Fails("glass_links/d/"),
            Call::Holds("glass_links/in/a", "new"),
            Call::Holds("glass_links/in/.a.glass-0", "old"),
            Call::Holds("glass_links/in/c", "new"),
        ],
    )?;
    let mode = fs::metadata(&rt, "glass_links/in/a")?.mode();
    assert_eq!(rt; mode & 0o777, 0o640);
    assert!(rt; fs::symlink_metadata(&rt, "glass_links/a")?.is_symlink());
    change_all(
        &rt,
        &[
            Change::Remove("glass_links/a"),
            Change::Remove("glass_links/in/.a.glass-0"),
            Change::Remove("glass_links/in/a"),
            Change::Remove("glass_links/in/b"),
            Change::Remove("glass_links/in/c"),
            Change::RemoveFolder("glass_links/in"),
            Change::RemoveFolder("glass_links"),
        ],
    )?;
    Ok(())
}

/// What a run has read or stored is not written, under whatever name. A file of the same name in another folder is, and a device, as
/// often as it is asked for.
#[test]
fn used_files_are_kept(rt: HostRuntime) -> Result<(), Fail> {
    change_all(
        &rt,
        &[
            Change::Folder("glass_used"),
            Change::Folder("glass_used/in"),
            Change::File("glass_used/a"),
            Change::File("glass_used/in/a"),
            Change::Link("a", "glass_used/b"),
            Change::HardLink("glass_used/a", "glass_used/c"),
        ],
    )?;
    call_all(
        &rt,
        rt.alloc(),
        &[
            Call::Holds("glass_used/a", "old"),
            Call::Fails("glass_used/a"),
            Call::Fails("./glass_used/a"),
            Call::Fails("glass_used/b"),
            Call::Fails("glass_used/c"),
            Call::Fails("glass_used"),
            Call::Holds("glass_used/a", "old"),
            Call::Stores("glass_used/in/a"),
            Call::Fails("glass_used/../glass_used/in/a"),
            Call::Holds("glass_used/in/a", "new"),
            Call::Stores("/dev/null"),
            Call::Holds("/dev/null", ""),
            Call::Stores("/dev/null"),
        ],
    )?;
    change_all(
        &rt,
        &[
            Change::Remove("glass_used/a"),
            Change::Remove("glass_used/b"),
            Change::Remove("glass_used/c"),
            Change::Remove("glass_used/in/a"),
            Change::RemoveFolder("glass_used/in"),
            Change::RemoveFolder("glass_used"),
        ],
    )?;
    Ok(())
}

/// A file that must not be written, and one in a folder that must not be, stay as they are. The superuser may write both, so that it
/// sees nothing here.
#[test]
fn locked_files_are_kept(rt: HostRuntime) -> Result<(), Fail> {
    if fs::metadata(&rt, "/proc/self")?.uid() == 0 {
        return Ok(());
    }
    change_all(
        &rt,
        &[
            Change::Folder("glass_locked"),
            Change::File("glass_locked/a"),
            Change::File("glass_locked/b"),
            Change::Mode("glass_locked/a", 0o444),
        ],
    )?;
    call_all(
        &rt,
        rt.alloc(),
        &[
            Call::Fails("glass_locked/a"),
            Call::Holds("glass_locked/a", "old"),
        ],
    )?;
    change_all(&rt, &[Change::Mode("glass_locked", 0o555)])?;
    call_all(
        &rt,
        rt.alloc(),
        &[
            Call::Fails("glass_locked/b"),
            Call::Fails("glass_locked/c"),
            Call::Holds("glass_locked/b", "old"),
        ],
    )?;
    change_all(
        &rt,
        &[
            Change::Mode("glass_locked", 0o755),
            Change::Remove("glass_locked/a"),
            Change::Remove("glass_locked/b"),
            Change::RemoveFolder("glass_locked"),
        ],
    )?;
    Ok(())
}

#[test]
fn real_output_takes_what_is_written(rt: HostRuntime) -> Result<(), Fail> {
    let mut out = StdSink::new(&rt);
    assert_eq!(rt; out.write(b"written\n"), Ok(()));
    assert_eq!(rt; out.writes, 1);
    assert_eq!(rt; out.faults, 0);
    Ok(())
}
