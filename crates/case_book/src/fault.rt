//! Why a book cannot be read.

use std::alloc::{AllocError, AllocFailed};
use thiserror::Error;

/// Why a line of a book cannot be read.
#[derive(Clone, Copy, Debug, Error)]
pub enum Fault {
    #[error("out of memory")]
    Memory,
    #[error("a line that begins with no word of the book")]
    Keyword,
    #[error("no case has begun")]
    NoCase,
    #[error("no case to follow")]
    NothingToFollow,
    #[error("a line of a text where no text stands")]
    NoText,
    #[error("a backslash with something else behind it than an escape")]
    Escape,
    #[error("braces with something else in them than a number or a word")]
    Braces,
    #[error("braces with a word in a case that follows none")]
    FollowsNone,
    #[error("a word or a name that is empty or no text")]
    Word,
    #[error("no number")]
    Number,
    #[error("no name of a status")]
    Status,
    #[error("a case without a status")]
    NoStatus,
}

impl From<AllocError> for Fault {
    fn from(_refused: AllocError) -> Fault {
        Fault::Memory
    }
}

impl<T: Drop> From<AllocFailed<T>> for Fault {
    fn from(_refused: AllocFailed<T>) -> Fault {
        Fault::Memory
    }
}

/// A line of a book that cannot be read, counted from 1, and why.
#[derive(Clone, Copy, Debug, Drop, Error)]
#[error("line {line} of the book: {fault}")]
pub struct BadBook {
    pub line: u64,
    pub fault: Fault,
}
