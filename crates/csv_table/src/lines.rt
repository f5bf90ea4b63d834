//! The lines of a table, written with `csv`.

ghost use Rattle.std.specs.Prelude.{◌≡◌, ◌++◌, ◌≤◌, ◌↔◌, [], OnOk, IfOk, IsErr, map, length, false, true};
ghost use Rattle.std.specs.Fmt.{decimal, signed_decimal};
ghost use Rattle.csv.specs.Writing.{row_text};
ghost use Rattle.csv_table.specs.Lines.{IsBetween, IsPlain, ArePlain, number_or_none, line_of, semicolons, Wrote};

use csv::{Writer, WriterBuilder};
use glass_base::{Memory, Run};
use itoa::Buffer;
use std::alloc::Global;
use std::marker::Model;

/// The lines of a table that were written so far. Once memory ran out each call fails.
#[derive(Drop)]
pub struct Lines {
    writer: Writer<Vec<u8>>,
    failed: bool,
}

impl Model for Lines {
    ghost use Rattle.std.specs.Prelude.{◌≡◌, [], false, unwrap_or};
    ghost use Rattle.csv_table.specs.Lines.{IsBetween, Written, text_in};

    ghost Value = { Written };

    ghost view = { λ w. record { text = unwrap_or (text_in w.writer) []; failed = w.failed } };

    ghost invariant = { λ w. w.failed ≡ false → IsBetween w.writer };
}

/// Writes one line.
fn push_line(writer: &mut Writer<Vec<u8>>, fields: &[&[u8]]) -> Result<(), Memory>
    requires { IsBetween writer.old }
    ensures between { OnOk result (IsBetween writer.new) }
    ensures wrote { OnOk result (Wrote writer.old writer.new
        (row_text semicolons (map (λ f. f.now) fields.now))) }
{
    match writer.write_fields(fields) {
        Ok(()) => Ok(()),
        Err(_) => Err(Memory),
    }
}

impl Lines {
    /// No line.
    pub fn new(alloc: Global) -> Lines
        ensures text { result.text ≡ [] }
        ensures failed { result.failed ≡ false }
    {
        let writer = WriterBuilder::new()
            .delimiter(b';')
            .from_writer(Vec::new(alloc));
        Lines {
            writer,
            failed: false,
        }
    }

    /// Writes one line of two fields or more, none of which needs quotes. After an error each call fails, and the lines are
    /// lost.
    pub fn write_line(&mut self, fields: &[&[u8]]) -> Result<(), Memory>
        requires some { 2 ≤ length fields.now }
        requires plain { ArePlain (map (λ f. f.now) fields.now) }
        ensures ok { OnOk result (self.new.text ≡ self.old.text
            ++ line_of (map (λ f. f.now) fields.now)) }
        ensures err { IsErr result ↔ (self.new.failed ≡ true) }
        ensures failed { self.old.failed ≡ true → IsErr result }
    {
        if self.failed {
            return Err(Memory);
        }
        match push_line(&mut self.writer, fields) {
            Ok(()) => Ok(()),
            Err(memory) => {
                self.failed = true;
                Err(memory)
            }
        }
    }

    /// The text of the lines. It fails where memory ran out, now or before.
    pub fn into_text(self) -> Result<Run<u8>, Memory>
        ensures text { IfOk result (λ text. text.items ≡ self.text) }
        ensures failed { self.failed ≡ true → IsErr result }
    {
        if self.failed {
            return Err(Memory);
        }
        match self.writer.into_inner() {
            Ok(text) => Ok(Run::from(text)),
            Err(_) => Err(Memory),
        }
    }
}

/// A number as a field has it.
pub fn unsigned(buffer: &mut Buffer, number: u64) -> &[u8]
    ensures value { result.now ≡ decimal number }
    ensures plain { IsPlain result.now }
{
    buffer.format(number).as_bytes()
}

/// A signed number as a field has it.
pub fn signed(buffer: &mut Buffer, number: i64) -> &[u8]
    ensures value { result.now ≡ signed_decimal number }
    ensures plain { IsPlain result.now }
{
    buffer.format(number).as_bytes()
}

/// A number as a field has it, or an empty field where there is none.
pub fn optional(buffer: &mut Buffer, number: Option<u64>) -> &[u8]
    ensures value { result.now ≡ number_or_none number }
    ensures plain { IsPlain result.now }
{
    match number {
        None => b"",
        Some(number) => unsigned(buffer, number),
    }
}
