//! In what a text differs from the one that is wanted.

use std::alloc::{AllocError, Global};

/// The first line in which a text differs from the one that is wanted.
#[derive(Drop)]
pub struct Mismatch {
    /// The line's number, from 1.
    pub line: u64,
    /// The line that is wanted; none where the wanted text has ended.
    pub wanted: Option<Vec<u8>>,
    /// The line that was found; none where the text has ended.
    pub found: Option<Vec<u8>>,
}

/// A copy of a line, if there is one.
fn copied(alloc: Global, line: Option<&[u8]>) -> Result<Option<Vec<u8>>, AllocError> {
    match line {
        None => Ok(None),
        Some(bytes) => Ok(Some(bytes.to_vec(alloc)?)),
    }
}

/// Whether two lines are the same, or both texts have ended.
fn is_same(wanted: Option<&[u8]>, found: Option<&[u8]>) -> bool {
    match (wanted, found) {
        (Some(wanted), Some(found)) => wanted == found,
        (None, None) => true,
        _ => false,
    }
}

/// The first line in which a text differs from the one that is wanted, if it differs.
pub fn mismatch_of(
    alloc: Global,
    wanted: &[u8],
    found: &[u8],
) -> Result<Option<Mismatch>, AllocError> {
    if wanted == found {
        return Ok(None);
    }
    let mut wanted_lines = wanted.split(|byte| *byte == b'\n');
    let mut found_lines = found.split(|byte| *byte == b'\n');
    for line in 1..u64::MAX {
        let wanted_line = wanted_lines.next();
        let found_line = found_lines.next();
        if !is_same(wanted_line, found_line) {
            return Ok(Some(Mismatch {
                line,
                wanted: copied(alloc, wanted_line)?,
                found: copied(alloc, found_line)?,
            }));
        }
    }
    Ok(None)
}
