//! The text of a sheet.

ghost use Rattle.std.specs.Prelude.{◌≡◌, ℤ, ◌++◌, All, IfOk, OnOk};
ghost use Rattle.std.specs.Fmt.{signed_decimal};
ghost use Rattle.cut_sheet.specs.Texts.{IsWritable, instr_line, letter_line, sheet_text};

use crate::instr::Instr;
use glass_base::{Memory, Run};
use itoa::Buffer;
use std::alloc::Global;

/// Appends the line of this letter and number.
fn push_line(text: &mut Run<u8>, letter: &[u8], number: i64) -> Result<(), Memory>
    ensures { OnOk result (text.new.items ≡ text.old.items ++ letter_line letter.now number) }
{
    let mut buffer = Buffer::new();
    text.extend_from_slice(letter)?;
    text.extend_from_slice(b";")?;
    text.extend_from_slice(buffer.format(number).as_bytes())?;
    text.extend_from_slice(b"\n")
}

/// Appends the line of an instruction.
fn push_instr(text: &mut Run<u8>, instr: Instr) -> Result<(), Memory>
    ensures { OnOk result (text.new.items ≡ text.old.items ++ instr_line instr) }
{
    match instr {
        Instr::Load(plate) => push_line(text, b"L", i64::from(plate)),
        Instr::Off(size) => push_line(text, b"K", i64::from(size)),
        Instr::Whole => text.extend_from_slice(b"T\n"),
        Instr::Done(kind) => push_line(text, b"D", kind),
    }
}

/// The text of a sheet: the head, and a line for each instruction.
pub fn write_sheet(alloc: Global, sheet: &[Instr]) -> Result<Run<u8>, Memory>
    requires { All IsWritable sheet.now }
    ensures { IfOk result (λ text. text.items ≡ sheet_text sheet.now) }
{
    let mut text = Run::new(alloc);
    text.extend_from_slice(b"glasssheet;1\n")?;
    for instr in sheet {
        push_instr(&mut text, *instr)?;
    }
    Ok(text)
}
