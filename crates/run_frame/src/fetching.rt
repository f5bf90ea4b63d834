//! The texts of a command's files.

ghost use Rattle.std.specs.Prelude.{◌≡◌, ◌++◌, IfOk, IfErr, IfSome, OnOk, map, option_to_list};
ghost use Rattle.glass_io.specs.Told.{SameContents};
ghost use Rattle.run_frame.specs.Forms.{CountsFetch, CountsFetches, FetchesOne, GathersAll, OnFault, file_in};
ghost use Rattle.command_line.specs.Lines.{line_in};
ghost use Rattle.command_line.specs.Grammar.{file_of, files_of};
ghost use Rattle.run_frame.specs.Texts.{Reaches, text_of, texts_of};
ghost use Rattle.run_frame.specs.declared.fetching.NoReply.TheVariants.{Memory as OutOfReach};

use crate::notices::{absent, too_long};
use crate::reply::Notice;
use crate::texts::{Text, limit};
use command_line::{CommandLine, FETCH_ORDER};
use glass_base::{Memory, Role, Run, append};
use glass_io::{Fetched, Files, Trouble};
use std::alloc::Global;

/// Why a run has no reply.
#[derive(Clone, Copy, Debug)]
pub enum NoReply {
    /// The file of this role could not be read.
    ReadFault(Role),
    /// Memory ran out.
    Memory,
}

impl From<Memory> for NoReply {
    ghost from_gives = { λ _ e. e ≡ OutOfReach };

    fn from(_refused: Memory) -> NoReply {
        NoReply::Memory
    }
}

/// A file to be fetched.
#[derive(Clone, Copy, Debug)]
pub struct Wanted<'a> {
    pub role: Role,
    pub name: &'a str,
}

/// Appends the file of this role, if the line names it.
fn append_wanted<'a, V>(
    wanted: &mut Run<Wanted<'a>>,
    line: &CommandLine<'a, V>,
    role: Role,
) -> Result<(), Memory>
    ensures { OnOk result (map file_in wanted.new.items
        ≡ map file_in wanted.old.items ++ option_to_list (file_of (line_in line.now) role)) }
{
    match line.name_of(role) {
        Some(name) => append(wanted, Wanted { role, name }),
        None => Ok(()),
    }
}

/// The files that a line reads, in the order in which they are fetched.
fn files_wanted<'a, V>(alloc: Global, line: &CommandLine<'a, V>) -> Result<Run<Wanted<'a>>, Memory>
    ensures { IfOk result (λ wanted. map file_in wanted.items ≡ files_of (line_in line.now)) }
{
    let mut wanted = Run::new(alloc);
    for role in FETCH_ORDER {
        append_wanted(&mut wanted, line, role)?;
    }
    Ok(wanted)
}

/// The bytes of a file, or the notice that ends the run where it gives none.
fn fetch_text<F: Files>(
    alloc: Global,
    files: &mut F,
    file: Wanted<'_>,
) -> Result<Result<Text, Notice>, NoReply>
    ensures same { SameContents (F.shelf files.old).contents (F.shelf files.new).contents }
    ensures fetched { IfOk result (λ r. IfSome (F.shelf files.old).contents
        (λ contents. FetchesOne r file.entry.role
        (text_of file.entry.role (contents file.entry.name.now)))) }
    ensures faults { CountsFetch file.entry.role (F.shelf files.old) (F.shelf files.new) result }
    ensures keeps { F.reliable files.old → F.reliable files.new × IfErr result (OnFault (λ _. ⊥)) }
{
    match files.fetch(file.role, file.name, limit(file.role)) {
        Ok(Fetched::Bytes(bytes)) => Ok(Ok(Text {
            role: file.role,
            bytes,
        })),
        Ok(Fetched::Absent) => Ok(Err(absent(alloc, file.role)?)),
        Ok(Fetched::TooLong) => Ok(Err(too_long(alloc, file.role)?)),
        Err(Trouble::Failed) => Err(NoReply::ReadFault(file.role)),
        Err(Trouble::Memory) => Err(NoReply::Memory),
    }
}

/// The texts of files, in their order, or the notice of the first that gives none.
fn fetch_texts<F: Files>(
    alloc: Global,
    files: &mut F,
    wanted: &[Wanted<'_>],
) -> Result<Result<Run<Text>, Notice>, NoReply>
    ensures same { SameContents (F.shelf files.old).contents (F.shelf files.new).contents }
    ensures fetched { IfOk result (λ r. IfSome (F.shelf files.old).contents
        (λ contents. GathersAll r (texts_of contents (map file_in wanted.now)))) }
    ensures reached { IfErr result (OnFault (λ of.
        IfSome (F.shelf files.old).contents
        (λ contents. Reaches contents of (map file_in wanted.now)))) }
    ensures faults { CountsFetches (F.shelf files.old) (F.shelf files.new) result }
    ensures keeps { F.reliable files.old → F.reliable files.new × IfErr result (OnFault (λ _. ⊥)) }
{
    let mut texts = Run::new(alloc);
    for file in wanted {
        match fetch_text(alloc, files, *file)? {
            Ok(text) => append(&mut texts, text)?,
            Err(notice) => return Ok(Err(notice)),
        }
    }
    Ok(Ok(texts))
}

/// The texts of a line's files, or the notice of the first that gives none.
pub fn fetch_files<F: Files, V>(
    alloc: Global,
    files: &mut F,
    line: &CommandLine<'_, V>,
) -> Result<Result<Run<Text>, Notice>, NoReply>
    ensures same { SameContents (F.shelf files.old).contents (F.shelf files.new).contents }
    ensures fetched { IfOk result (λ r. IfSome (F.shelf files.old).contents
        (λ contents. GathersAll r (texts_of contents (files_of (line_in line.now))))) }
    ensures reached { IfErr result (OnFault (λ of.
        IfSome (F.shelf files.old).contents
        (λ contents. Reaches contents of (files_of (line_in line.now))))) }
    ensures faults { CountsFetches (F.shelf files.old) (F.shelf files.new) result }
    ensures keeps { F.reliable files.old → F.reliable files.new × IfErr result (OnFault (λ _. ⊥)) }
{
    let wanted = files_wanted(alloc, line)?;
    fetch_texts(alloc, files, wanted.as_slice())
}
