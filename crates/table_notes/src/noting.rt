//! Files that tell on standard error what is to be noted of them.

use crate::lines::first_line;
use crate::notes::{TableNote, note_on};
use glass_base::{Memory, Role};
use glass_io::{Fetched, Files, Trouble};
use std::alloc::Global;
use std::io::Eprint;

/// A UTF-8 byte order mark.
const MARK: &[u8] = b"\xEF\xBB\xBF";

/// Files as they are, which tell on standard error, a line each, what is to be noted of the tables that are fetched.
/// Nothing else hangs on it: a note that cannot be told, or for which there is no memory, is left out.
#[derive(Drop)]
pub struct NotingFiles<'a, R, F> {
    pub rt: &'a R,
    pub alloc: Global,
    pub files: F,
}

/// The first line of a text that is not empty, as it is told: without a byte order mark.
fn line_of(alloc: Global, text: &[u8]) -> Result<String, Memory> {
    let line = first_line(text);
    let line = line.strip_prefix(MARK).unwrap_or(line);
    Ok(String::from_utf8_lossy(alloc, line)?)
}

/// What a header that is a row of a table of this role is, or does.
fn row_said(role: Role) -> &'static str {
    match role {
        Role::Batch => "is no item",
        Role::Defects => "is no defect",
        Role::Params => "sets nothing",
        _ => "is no plate",
    }
}

/// What a row of a table of this role is, or does.
fn rows_said(role: Role) -> &'static str {
    match role {
        Role::Batch => "is an item",
        Role::Defects => "is a defect",
        Role::Params => "sets anything",
        _ => "is a plate",
    }
}

/// Tells what is to be noted of the text of a file of this role. What cannot be told changes nothing.
fn tell_note<R: Eprint>(
    rt: &R,
    alloc: Global,
    role: Role,
    name: &str,
    text: &[u8],
) -> Result<(), Memory> {
    let Some(note) = note_on(alloc, role, text)? else {
        return Ok(());
    };
    let line = line_of(alloc, text)?;
    let _told = match note {
        TableNote::HeaderIsRow => {
            let is = row_said(role);
            eprintln!(rt; "note: {name}: the first line, {line}, is taken for the header and {is}")
        }
        TableNote::NoRow => {
            let is = rows_said(role);
            eprintln!(rt;
                "note: {name}: all its lines are taken for the header, which begins with {line}, and none {is}"
            )
        }
    };
    Ok(())
}

impl<'a, R: Eprint, F: Files> Files for NotingFiles<'a, R, F> {
    ghost shelf = { λ s. F.shelf s.files };

    ghost reliable = { λ s. F.reliable s.files };

    fn fetch(&mut self, role: Role, name: &str, limit: u64) -> Result<Fetched, Trouble> {
        let answer = self.files.fetch(role, name, limit);
        if let Ok(Fetched::Bytes(bytes)) = &answer {
            let _noted = tell_note(self.rt, self.alloc, role, name, bytes.as_slice());
        }
        answer
    }

    fn store(&mut self, name: &str, bytes: &[u8]) -> Result<(), Trouble> {
        self.files.store(name, bytes)
    }
}
