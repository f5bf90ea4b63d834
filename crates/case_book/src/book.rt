//! What a book says: cases, and the texts that they speak of.

use glass_run::Status;
use std::alloc::{AllocError, Global};

/// A number that is another one each time its block stands: `factor` for each time before, and `addend`.
#[derive(Clone, Copy, Debug)]
pub struct Number {
    pub factor: u64,
    pub addend: u64,
}

/// What braces in a text stand for.
#[derive(Drop)]
pub enum Insert {
    Number(Number),
    /// What the first case of the chain printed behind this word.
    Told(String),
}

/// Bytes, and what braces behind them stand for.
#[derive(Drop)]
pub struct Piece {
    pub bytes: Vec<u8>,
    pub insert: Insert,
}

/// Lines that stand a number of times.
#[derive(Drop)]
pub struct Block {
    pub times: u64,
    pub pieces: Vec<Piece>,
    /// The bytes behind the last piece.
    pub tail: Vec<u8>,
}

impl Block {
    pub fn new(alloc: Global, times: u64) -> Block {
        Block {
            times,
            pieces: Vec::new(alloc),
            tail: Vec::new(alloc),
        }
    }
}

/// A text by its blocks, one behind the other.
#[derive(Drop)]
pub struct Text {
    pub blocks: Vec<Block>,
    /// Whether anything may stand behind the blocks.
    pub more: bool,
}

impl Text {
    pub fn new(alloc: Global) -> Text {
        Text {
            blocks: Vec::new(alloc),
            more: false,
        }
    }

    /// Begins a block that stands so often.
    pub fn begin_block(&mut self, alloc: Global, times: u64) -> Result<(), AllocError> {
        self.blocks.push(Block::new(alloc, times))?;
        Ok(())
    }
}

/// A file's name and text.
#[derive(Drop)]
pub struct NamedText {
    pub name: String,
    pub text: Text,
}

/// What the word with which a case begins says of it.
#[derive(Clone, Copy, Debug)]
pub struct Heading {
    /// Whether the run is on the files that the run of the case before left; the two are then of one chain.
    pub follows: bool,
    /// Whether the run must differ from what the case says of it.
    pub wrong: bool,
}

/// The program that a case runs.
#[derive(Clone, Copy, Debug)]
pub enum Program {
    Glass,
    /// The one that draws.
    Picture,
}

/// A run of a program, and what is to come of it.
#[derive(Drop)]
pub struct Case {
    pub name: String,
    /// The line of the book at which the case begins, counted from 1.
    pub line: u64,
    pub heading: Heading,
    pub program: Program,
    /// The words of the command line.
    pub words: Vec<String>,
    /// The files before the run; where the case follows another one, those that are put over the files that are there.
    pub files: Vec<NamedText>,
    /// The numbers of the fetches and stores that fail, counted together from 0.
    pub failing_calls: Vec<u64>,
    /// The numbers of the writes that fail, from 0.
    pub failing_writes: Vec<u64>,
    /// How the run may end; empty only while the case is read.
    pub statuses: Vec<Status>,
    /// What is printed.
    pub printed: Text,
    /// The files that the run stores.
    pub stored: Vec<NamedText>,
    /// The words that stand in braces in the texts, each once.
    pub told: Vec<String>,
}

impl Case {
    /// A case of which only the first line is read yet.
    pub fn new(alloc: Global, name: String, line: u64, heading: Heading) -> Case {
        Case {
            name,
            line,
            heading,
            program: Program::Glass,
            words: Vec::new(alloc),
            files: Vec::new(alloc),
            failing_calls: Vec::new(alloc),
            failing_writes: Vec::new(alloc),
            statuses: Vec::new(alloc),
            printed: Text::new(alloc),
            stored: Vec::new(alloc),
            told: Vec::new(alloc),
        }
    }
}
