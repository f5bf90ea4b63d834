//! Escapes, and numbers and words in braces, within a line of a book.

use crate::book::{Block, Insert, Number, Piece};
use crate::fault::Fault;
use std::alloc::{AllocError, Global};
use std::mem;

/// Where one stands within a line.
#[derive(Clone, Copy)]
enum Place {
    /// At a byte that stands for itself.
    Plain,
    /// Behind a backslash.
    Escape,
    /// Behind `\x`.
    High,
    /// Behind `\x` and a digit of this value.
    Low(u8),
    /// In braces.
    Braces,
}

/// A line that is being read.
#[derive(Drop)]
struct Line {
    alloc: Global,
    place: Place,
    /// What stands in the braces so far.
    braces: Vec<u8>,
}

/// The value of a hexadecimal digit.
fn hex_digit(byte: u8) -> Result<u8, Fault> {
    match byte {
        b'0'..=b'9' => Ok(byte - b'0'),
        b'a'..=b'f' => Ok(byte - b'a' + 10),
        _ => Err(Fault::Escape),
    }
}

/// The byte that an escape of one letter stands for; none for `\e`.
fn escaped(letter: u8) -> Result<Option<u8>, Fault> {
    match letter {
        b's' => Ok(Some(b' ')),
        b't' => Ok(Some(b'\t')),
        b'r' => Ok(Some(b'\r')),
        b'n' => Ok(Some(b'\n')),
        b'e' => Ok(None),
        b'\\' | b'{' => Ok(Some(letter)),
        _ => Err(Fault::Escape),
    }
}

/// The number that is written in decimal digits alone.
fn value_of(digits: &str) -> Option<u64> {
    if digits.bytes().all(|byte| byte.is_ascii_digit()) {
        digits.parse::<u64>().ok()
    } else {
        None
    }
}

/// The number that is written as an `n`, with digits before it or none, and behind it a `+` with digits or nothing.
fn number_in(written: &str) -> Option<Number> {
    let (before, behind) = written.split_once('n')?;
    let factor = if before.is_empty() {
        1
    } else {
        value_of(before)?
    };
    let addend = if behind.is_empty() {
        0
    } else {
        value_of(behind.strip_prefix('+')?)?
    };
    Some(Number { factor, addend })
}

/// Whether this is a word of small letters.
fn is_word(written: &str) -> bool {
    !written.is_empty() && written.bytes().all(|byte| byte.is_ascii_lowercase())
}

/// What braces stand for, by what stands in them.
fn insert_of(braces: Vec<u8>) -> Result<Insert, Fault> {
    let written = String::from_utf8(braces).map_err(|_| Fault::Braces)?;
    if let Some(number) = number_in(written.as_str()) {
        Ok(Insert::Number(number))
    } else if is_word(written.as_str()) {
        Ok(Insert::Told(written))
    } else {
        Err(Fault::Braces)
    }
}

/// Puts the word of braces behind `told`, where it has one that is not there yet.
fn note_told(insert: &Insert, told: &mut Vec<String>) -> Result<(), AllocError> {
    if let Insert::Told(word) = insert
        && !told.contains(word)
    {
        told.push(word.clone()?)?;
    }
    Ok(())
}

/// Takes the letter behind a backslash.
fn take_letter(block: &mut Block, letter: u8) -> Result<Place, Fault> {
    if letter == b'x' {
        return Ok(Place::High);
    }
    if let Some(byte) = escaped(letter)? {
        block.tail.push(byte)?;
    }
    Ok(Place::Plain)
}

/// Takes a byte outside escapes and braces.
fn take_plain(block: &mut Block, byte: u8) -> Result<Place, Fault> {
    match byte {
        b'\\' => Ok(Place::Escape),
        b'{' => Ok(Place::Braces),
        _ => {
            block.tail.push(byte)?;
            Ok(Place::Plain)
        }
    }
}

impl Line {
    fn new(alloc: Global) -> Line {
        Line {
            alloc,
            place: Place::Plain,
            braces: Vec::new(alloc),
        }
    }

    /// Takes a byte within braces. The last one puts what they stand for behind the bytes of a block, and their word behind `told`.
    fn take_inside(
        &mut self,
        block: &mut Block,
        told: &mut Vec<String>,
        byte: u8,
    ) -> Result<Place, Fault> {
        if byte != b'}' {
            self.braces.push(byte)?;
            return Ok(Place::Braces);
        }
        let braces = mem::replace(&mut self.braces, Vec::new(self.alloc));
        let insert = insert_of(braces)?;
        note_told(&insert, told)?;
        let bytes = mem::replace(&mut block.tail, Vec::new(self.alloc));
        block.pieces.push(Piece { bytes, insert })?;
        Ok(Place::Plain)
    }

    /// Takes one byte.
    fn take(&mut self, block: &mut Block, told: &mut Vec<String>, byte: u8) -> Result<(), Fault> {
        self.place = match self.place {
            Place::Plain => take_plain(block, byte)?,
            Place::Escape => take_letter(block, byte)?,
            Place::High => Place::Low(hex_digit(byte)?),
            Place::Low(high) => {
                block.tail.push((high << 4) | hex_digit(byte)?)?;
                Place::Plain
            }
            Place::Braces => self.take_inside(block, told, byte)?,
        };
        Ok(())
    }
}

/// Puts what stands in a line behind the bytes of a block and the words in its braces behind `told`, and says where the line ends.
fn put(
    alloc: Global,
    block: &mut Block,
    line: &str,
    told: &mut Vec<String>,
) -> Result<Place, Fault> {
    let mut reading = Line::new(alloc);
    for byte in line.as_bytes() {
        reading.take(block, told, *byte)?;
    }
    Ok(reading.place)
}

/// Puts a line of a text behind the bytes of a block, with its line feed, which a backslash at its end takes away; and the words
/// in its braces behind `told`, as far as they are not there.
pub fn put_line(
    alloc: Global,
    block: &mut Block,
    line: &str,
    told: &mut Vec<String>,
) -> Result<(), Fault> {
    match put(alloc, block, line, told)? {
        Place::Plain => {
            block.tail.push(b'\n')?;
            Ok(())
        }
        Place::Escape => Ok(()),
        Place::High | Place::Low(_) => Err(Fault::Escape),
        Place::Braces => Err(Fault::Braces),
    }
}

/// The word or name that is written so; it is written with a letter at least, and without braces.
pub fn word_of(alloc: Global, written: &str) -> Result<String, Fault> {
    if written.is_empty() {
        return Err(Fault::Word);
    }
    let mut block = Block::new(alloc, 1);
    let place = put(alloc, &mut block, written, &mut Vec::new(alloc))?;
    if !matches!(&place, Place::Plain) {
        return Err(Fault::Escape);
    }
    if !block.pieces.is_empty() {
        return Err(Fault::Braces);
    }
    let Block { tail, .. } = block;
    String::from_utf8(tail).map_err(|_| Fault::Word)
}
