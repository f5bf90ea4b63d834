//! Reading a sheet.

ghost use Rattle.std.specs.Prelude.{◌∷◌, ◌<◌, ◌^◌, ◌↔◌, ◌≡◌, IsTrue, length};
ghost use Rattle.cut_sheet.specs.Readings.{IsReading, items_read};
ghost use Rattle.cut_sheet.specs.inner.Lines.{BeginsWithHead, BeginsWithLine, Breaks, SaysLine};

use crate::bad_sheet::BadSheet;
use crate::instr::Instr;
use crate::numbers::{count, piece_type};
use glass_base::limits::MOST_SIDE;
use glass_base::{Run, append};
use std::alloc::Global;

const HEAD: &[u8] = b"glasssheet;1\n";

/// Whether two texts are the same.
fn is_same(text: &[u8], other: &[u8]) -> bool
    ensures { IsTrue result ↔ (text.now ≡ other.now) }
{
    text == other
}

/// The text behind the head.
fn behind_head(text: &[u8]) -> Option<&[u8]>
    ensures { BeginsWithHead text.now result }
{
    if text.len() < HEAD.len() {
        return None;
    }
    let (front, rest) = text.split_at(HEAD.len());
    if is_same(front, HEAD) {
        Some(rest)
    } else {
        None
    }
}

/// The text up to its first line feed, and behind it.
fn first_line(text: &[u8]) -> Option<(&[u8], &[u8])>
    ensures { Breaks text.now result }
{
    for (at, byte) in text.iter().enumerate() {
        if *byte == b'\n' {
            return Some((&text[..at], &text[at + 1..]));
        }
    }
    None
}

/// The plate that is loaded, behind `L;`.
fn load_in(text: &[u8]) -> Option<Instr>
    ensures { SaysLine (76 ∷ 59 ∷ text.now) result }
{
    let plate = count(text, 999)?;
    Some(Instr::Load(plate))
}

/// The part that is cut off, behind `K;`.
fn off_in(text: &[u8]) -> Option<Instr>
    ensures { SaysLine (75 ∷ 59 ∷ text.now) result }
{
    let size = count(text, MOST_SIDE)?;
    Some(Instr::Off(size))
}

/// The piece that leaves the table, behind `D;`.
fn done_in(text: &[u8]) -> Option<Instr>
    ensures { SaysLine (68 ∷ 59 ∷ text.now) result }
{
    let kind = piece_type(text)?;
    Some(Instr::Done(kind))
}

/// The instruction that a line without its line feed is.
fn instr_in(line: &[u8]) -> Option<Instr>
    ensures { SaysLine line.now result }
{
    match line {
        b"T" => Some(Instr::Whole),
        [b'L', b';', rest @ ..] => load_in(rest),
        [b'K', b';', rest @ ..] => off_in(rest),
        [b'D', b';', rest @ ..] => done_in(rest),
        _ => None,
    }
}

/// The instruction whose line the text begins with, and the text behind it.
fn next_instr(text: &[u8]) -> Option<(Instr, &[u8])>
    ensures { BeginsWithLine text.now result }
{
    let (line, rest) = first_line(text)?;
    let instr = instr_in(line)?;
    Some((instr, rest))
}

/// The sheet that a text says, or its first refusal.
///
/// The first line is `glasssheet;1`. Each further line is an instruction: `L;` and a plate's number, at most 999; `K;` and a size, at most
/// 20,000; `T`; or `D;` and a type, which is an item's number, at most 999,999,999, -1 or -3. Numbers are decimal digits without leading
/// zeros, and each line ends with a line feed.
pub fn read_sheet(alloc: Global, bytes: &[u8]) -> Result<Run<Instr>, BadSheet>
    ensures { IsReading bytes.now (items_read result) }
{
    let Some(mut rest) = behind_head(bytes) else {
        return Err(BadSheet::Head);
    };
    let mut sheet = Run::new(alloc);
    let mut line = 2u64;
    while !rest.is_empty() {
        let Some((instr, behind)) = next_instr(rest) else {
            return Err(BadSheet::Line(line));
        };
        append(&mut sheet, instr)?;
        rest = behind;
        line += 1;
    }
    Ok(sheet)
}
