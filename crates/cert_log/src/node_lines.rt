//! The lines of nodes.

ghost use Rattle.std.specs.Prelude.{◌≡◌, ◌++◌, ◌∷◌, ◌<◌, ◌^◌, OnOk, replicate};
ghost use Rattle.cert_log.specs.Follow.{nodes_in};
ghost use Rattle.cert_log.specs.inner.LineForms.{NextLine, SaysLine, said};

use crate::bad_cert::BadCert;
use crate::certificate::Node;
use crate::fields::{field, is_word, number, reason, take_number, variable};
use crate::history::Cause;
use crate::place::{Place, TextLine, may_come};
use glass_base::{Memory, Run, append};

/// The split that a text says behind `S;`.
fn split_in(text: &[u8]) -> Option<TextLine>
    ensures { SaysLine (83 ∷ 59 ∷ text.now) result }
{
    let (step, letter) = take_number(text, b';')?;
    let var = variable(letter)?;
    let step = u32::try_from(step).ok()?;
    Some(TextLine::Split { step, var })
}

/// The closed node whose cause a text says behind `C;`.
fn closed_in(text: &[u8]) -> Option<TextLine>
    ensures { SaysLine (67 ∷ 59 ∷ text.now) result }
{
    if is_word(text, b"b") {
        return Some(TextLine::Closed(Cause::Bound));
    }
    if is_word(text, b"f") {
        return Some(TextLine::Closed(Cause::Floor));
    }
    let reason = reason(text)?;
    Some(TextLine::Closed(Cause::Reason(reason)))
}

/// The open nodes whose number a text says behind `O;`.
fn opens_in(text: &[u8]) -> Option<TextLine>
    ensures { SaysLine (79 ∷ 59 ∷ text.now) result }
{
    let count = number(text)?;
    Some(TextLine::Opens(count))
}

/// The line that a text without its line feed is.
fn line_in(text: &[u8]) -> Option<TextLine>
    ensures { SaysLine text.now result }
{
    match text {
        b"C" => Some(TextLine::Closed(Cause::Unsaid)),
        b"O" => Some(TextLine::Open),
        [b'S', b';', rest @ ..] => split_in(rest),
        [b'C', b';', rest @ ..] => closed_in(rest),
        [b'O', b';', rest @ ..] => opens_in(rest),
        _ => None,
    }
}

/// The line that a text begins with, and the text behind it, or why it is refused. The line is of this number.
pub(crate) fn next_line(
    version: u32,
    at: Place,
    line: u64,
    text: &[u8],
) -> Result<(TextLine, &[u8]), BadCert>
    requires line { 1 < line }
    requires places { at.places < 2 ^ 64 }
    ensures { NextLine version at line text.now result }
{
    if text.is_empty() {
        return Err(BadCert::Short(line - 1));
    }
    let (body, rest) = field(text, b'\n').ok_or(BadCert::Line(line))?;
    let found = line_in(body).ok_or(BadCert::Line(line))?;
    if may_come(version, at, found) {
        Ok((found, rest))
    } else {
        Err(BadCert::Line(line))
    }
}

/// Appends so many open nodes.
fn append_open(nodes: &mut Run<Node>, count: u64) -> Result<(), Memory>
    ensures { OnOk result (nodes.new.items ≡ nodes.old.items ++ replicate count Node.Left) }
{
    for _done in 0..count {
        append(nodes, Node::Left)?;
    }
    Ok(())
}

/// Appends the nodes of a line.
pub(crate) fn append_line(nodes: &mut Run<Node>, line: TextLine) -> Result<(), Memory>
    ensures { OnOk result (nodes.new.items ≡ nodes.old.items ++ nodes_in (said line)) }
{
    match line {
        TextLine::Split { step, var } => append(nodes, Node::Split { step, var }),
        TextLine::Closed(cause) => append(nodes, Node::Closed(cause)),
        TextLine::Open => append(nodes, Node::Left),
        TextLine::Opens(count) => append_open(nodes, count),
    }
}
