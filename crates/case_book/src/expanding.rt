//! The bytes of a text.

use crate::book::{Block, Insert, Number, Text};
use std::alloc::{AllocError, Global};

impl Number {
    /// The number, where its block stood so often before; it stops at the greatest `u64`.
    fn after(&self, times: u64) -> u64 {
        self.factor
            .saturating_mul(times)
            .saturating_add(self.addend)
    }
}

/// What stands in a line behind this word and one space; none where the line does not begin so.
fn behind<'a>(line: &'a [u8], word: &str) -> Option<&'a [u8]> {
    line.strip_prefix(word.as_bytes())?.strip_prefix(b" ")
}

/// What stands in a printed text behind this word and one space, to the end of the line, in the first line that begins so.
pub fn told_of<'a>(printed: &'a [u8], word: &str) -> Option<&'a [u8]> {
    printed
        .split(|byte| *byte == b'\n')
        .find_map(|line| behind(line, word))
}

/// Puts what braces stand for behind bytes, where their block stood so often before. A word behind which nothing was printed
/// stands for nothing.
fn put_insert(
    alloc: Global,
    bytes: &mut Vec<u8>,
    insert: &Insert,
    times: u64,
    printed: &[u8],
) -> Result<(), AllocError> {
    match insert {
        Insert::Number(number) => {
            let value = number.after(times);
            let digits = format!(in alloc; "{value}")?;
            bytes.extend_from_slice(digits.as_bytes())
        }
        Insert::Told(word) => match told_of(printed, word.as_str()) {
            None => Ok(()),
            Some(told) => bytes.extend_from_slice(told),
        },
    }
}

/// Puts a block behind bytes as it stands after so many times.
fn put_block(
    alloc: Global,
    bytes: &mut Vec<u8>,
    block: &Block,
    times: u64,
    printed: &[u8],
) -> Result<(), AllocError> {
    for piece in &block.pieces {
        bytes.extend_from_slice(piece.bytes.as_slice())?;
        put_insert(alloc, bytes, &piece.insert, times, printed)?;
    }
    bytes.extend_from_slice(block.tail.as_slice())
}

/// The bytes of a text, in a chain whose first case printed this.
pub fn bytes_of(alloc: Global, text: &Text, printed: &[u8]) -> Result<Vec<u8>, AllocError> {
    let mut bytes = Vec::new(alloc);
    for block in &text.blocks {
        for times in 0..block.times {
            put_block(alloc, &mut bytes, block, times, printed)?;
        }
    }
    Ok(bytes)
}
