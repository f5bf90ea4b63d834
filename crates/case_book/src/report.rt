//! What is printed of a case that is not as it should be.

use crate::book::Case;
use crate::comparing::Mismatch;
use crate::running::Difference;
use glass_run::Status;
use std::alloc::{AllocError, Global};

/// How many bytes of a line are shown.
const SHOWN: usize = 80;

/// A line in the writing of a book, shortened.
fn shown(alloc: Global, line: &Option<Vec<u8>>) -> Result<String, AllocError> {
    let Some(bytes) = line else {
        return String::from_str(alloc, "the end");
    };
    let mut text = String::from_str(alloc, "`")?;
    for byte in bytes.iter().take(SHOWN) {
        if byte.is_ascii_graphic() || *byte == b' ' {
            text.push(char::from(*byte))?;
        } else {
            text.push_str(format!(in alloc; "\\x{byte:02x}")?.as_str())?;
        }
    }
    text.push_str(if bytes.len() > SHOWN { "` .." } else { "`" })?;
    Ok(text)
}

/// The line that tells of a mismatch in a text of this description.
fn mismatch_line(alloc: Global, of: &str, mismatch: &Mismatch) -> Result<String, AllocError> {
    let line = mismatch.line;
    let wanted = shown(alloc, &mismatch.wanted)?;
    let found = shown(alloc, &mismatch.found)?;
    format!(in alloc; "  {of}, line {line}: wanted {wanted}, found {found}\n")
}

/// The names of statuses, with an `or` between two.
fn names_of(alloc: Global, statuses: &[Status]) -> Result<String, AllocError> {
    let mut names = String::new(alloc);
    for status in statuses {
        if !names.is_empty() {
            names.push_str(" or ")?;
        }
        names.push_str(format!(in alloc; "{status:?}")?.as_str())?;
    }
    Ok(names)
}

/// The line that tells of a difference.
fn line_of(alloc: Global, difference: &Difference) -> Result<String, AllocError> {
    match difference {
        Difference::Untold { word } => {
            format!(in alloc; "  {{{word}}}: the first case of the chain printed no such line\n")
        }
        Difference::Status { wanted, found } => {
            let wanted = names_of(alloc, wanted.as_slice())?;
            format!(in alloc; "  status: wanted {wanted}, found {found:?}\n")
        }
        Difference::Printed(mismatch) => mismatch_line(alloc, "printed", mismatch),
        Difference::File { name, mismatch } => {
            let of = format!(in alloc; "file {name}")?;
            mismatch_line(alloc, of.as_str(), mismatch)
        }
        Difference::Missing { name } => format!(in alloc; "  file {name}: it is not there\n"),
        Difference::Unexpected { name } => {
            format!(in alloc; "  file {name}: it should not be there\n")
        }
        Difference::Writes { calls } => format!(in alloc; "  printed by {calls} calls\n"),
    }
}

/// The paragraph that tells of a case that is not as it should be.
pub fn paragraph(
    alloc: Global,
    case: &Case,
    differences: &[Difference],
) -> Result<String, AllocError> {
    let mut text = format!(in alloc; "{}\n", case.name)?;
    if case.heading.wrong {
        text.push_str("  the run does not differ from a wrong expectation\n")?;
    }
    for difference in differences {
        text.push_str(line_of(alloc, difference)?.as_str())?;
    }
    Ok(text)
}
