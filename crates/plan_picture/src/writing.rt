//! The SVG text of the elements of a picture.

ghost use Rattle.std.specs.Prelude.{◌≡◌, ◌++◌, ◌≤◌, OnOk, IfOk};
ghost use Rattle.std.specs.List.{flat_map};
ghost use Rattle.std.specs.String.{string_bytes};
ghost use Rattle.plan_picture.specs.Marks.{cut_text, defect_text, fill_class, head_text, item_class, label_text, look_class, mark_text, name_text, outline_text, picture_text, piece_text, place_text, plate_text, rect_text, ring_text, row_class, sample_text, spot_text, stack_class, title_text};
ghost use Rattle.cut_model.specs.Words.{breach_text};
ghost use Rattle.plan_picture.specs.Words.{number_text, share_text, sides_text, words_text};

use crate::mark::{Fill, Line, Mark, PictureSize, PieceLook, PlacedText, Words};
use crate::words::{class_of, key_word, reason};
use cut_model::{Broken, Row};
use glass_base::{Defect, Memory, Run};
use std::alloc::Global;

/// The style sheet behind the rule on pages, and the hatching of wastes. Lines are as wide as parts of the size of plain text. The
/// fills are the seven colours of Okabe and Ito, each with two parts in five of white, so that black text stands out.
pub const STYLE: &str = "svg:root{width:100%;height:auto}
text{font-family:Arial,Helvetica,Liberation Sans,sans-serif}
text,line,.defect,.broken,.ring{pointer-events:none}
.number,.sides{text-anchor:middle}
.number,.heading,.breach{font-weight:bold}
.breach{fill:#a000a0}
rect,circle{stroke:#000;stroke-width:.02em}
.branch{fill:none}
.item,.residual{fill:#fff}
.s0{fill:#f0c566}
.s1{fill:#9ad2f2}
.s2{fill:#66c5ab}
.s3{fill:#f6ef8e}
.s4{fill:#66aad1}
.s5{fill:#e69e66}
.s6{fill:#e0afca}
.waste{fill:url(#hatch)}
rect.cut0{stroke-width:.12em}
line{stroke:#000}
line.cut1{stroke-width:.12em}
line.cut2{stroke-width:.08em}
line.cut3{stroke-width:.05em}
line.cut4{stroke-width:.03em}
line.hatch{stroke:#888;stroke-width:.05em}
.defect{fill:#e00000;stroke:#e00000;stroke-width:.08em}
.broken,.ring{fill:none;stroke:#a000a0;stroke-width:.25em}
.ring{stroke-width:.12em}
</style>
<defs><pattern id=\"hatch\" width=\".3em\" height=\".3em\" patternUnits=\"userSpaceOnUse\" patternTransform=\"rotate(45)\"><line class=\"hatch\" y2=\".3em\"/></pattern></defs>
";

/// Writes the beginning of a picture.
fn write_head(text: &mut String, frame: &PictureSize) -> Result<(), Memory>
    ensures { OnOk result (string_bytes text.new ≡ string_bytes text.old ++ head_text frame.now) }
{
    let (width, height) = (frame.width, frame.height);
    write!(
        text,
        "<svg xmlns=\"http://www.w3.org/2000/svg\" role=\"img\" viewBox=\"0 0 {width} {height}\""
    )?;
    let (size, page) = (frame.size, frame.page);
    write!(
        text,
        " font-size=\"{size}\">\n<title>Cutting plan</title>\n<style>\n@page{{margin:0;size:1200px {page}px}}\n"
    )?;
    text.push_str(STYLE)?;
    Ok(())
}

/// Writes the beginning of a plate's group.
fn write_plate(text: &mut String, number: u32, x: u64, y: u64) -> Result<(), Memory>
    ensures { OnOk result (string_bytes text.new ≡ string_bytes text.old ++ plate_text number x y) }
{
    write!(
        text,
        "<g id=\"plate{number}\" transform=\"translate({x} {y}) scale(1 -1)\">\n"
    )?;
    Ok(())
}

/// Writes the place and the sides of a rectangle.
fn write_place(text: &mut String, x: u32, y: u32, width: u32, height: u32) -> Result<(), Memory>
    ensures { OnOk result (string_bytes text.new
        ≡ string_bytes text.old ++ place_text x y width height) }
{
    write!(
        text,
        " x=\"{x}\" y=\"{y}\" width=\"{width}\" height=\"{height}\""
    )?;
    Ok(())
}

/// Writes the name of a piece.
fn write_name(text: &mut String, look: &PieceLook) -> Result<(), Memory>
    ensures { OnOk result (string_bytes text.new ≡ string_bytes text.old ++ name_text look.now) }
{
    match *look {
        PieceLook::Item(number, _) => write!(text, "item {number}")?,
        PieceLook::Waste => text.push_str("waste")?,
        PieceLook::Branch => text.push_str("branch")?,
        PieceLook::Residual => text.push_str("residual")?,
    }
    Ok(())
}

/// Writes the class of the items of a stack.
fn write_stack_class(text: &mut String, stack: usize) -> Result<(), Memory>
    ensures { OnOk result (string_bytes text.new ≡ string_bytes text.old ++ stack_class stack) }
{
    let colour = stack % 7;
    write!(text, "item s{colour}")?;
    Ok(())
}

/// Writes the class by which a piece is filled.
fn write_look_class(text: &mut String, look: &PieceLook) -> Result<(), Memory>
    ensures { OnOk result (string_bytes text.new ≡ string_bytes text.old ++ look_class look.now) }
{
    match *look {
        PieceLook::Item(_, Some(stack)) => write_stack_class(text, stack)?,
        PieceLook::Item(_, None) => text.push_str("item")?,
        PieceLook::Waste => text.push_str("waste")?,
        PieceLook::Branch => text.push_str("branch")?,
        PieceLook::Residual => text.push_str("residual")?,
    }
    Ok(())
}

/// Writes what a browser shows where the pointer rests on a piece.
fn write_title(text: &mut String, row: &Row, look: &PieceLook) -> Result<(), Memory>
    ensures { OnOk result (string_bytes text.new
        ≡ string_bytes text.old ++ title_text row.now look.now) }
{
    text.push_str("<title>")?;
    write_name(text, look)?;
    text.push_str(", ")?;
    write_sides(text, row.width, row.height)?;
    let node = row.node;
    write!(text, ", node {node}</title>")?;
    Ok(())
}

/// Writes the class of a row.
fn write_row_class(text: &mut String, row: &Row, look: &PieceLook) -> Result<(), Memory>
    ensures { OnOk result (string_bytes text.new
        ≡ string_bytes text.old ++ row_class row.now look.now) }
{
    text.push_str(" class=\"")?;
    write_look_class(text, look)?;
    let cut = row.cut;
    write!(text, " cut{cut}\"")?;
    Ok(())
}

/// Writes the rectangle of a row.
fn write_rect(text: &mut String, row: &Row, look: &PieceLook) -> Result<(), Memory>
    ensures { OnOk result (string_bytes text.new
        ≡ string_bytes text.old ++ rect_text row.now look.now) }
{
    text.push_str("<rect")?;
    write_row_class(text, row, look)?;
    write_place(text, row.x, row.y, row.width, row.height)?;
    text.push_str("/>")?;
    Ok(())
}

/// Writes a piece.
fn write_piece(text: &mut String, row: &Row, look: &PieceLook) -> Result<(), Memory>
    ensures { OnOk result (string_bytes text.new
        ≡ string_bytes text.old ++ piece_text row.now look.now) }
{
    text.push_str("<g>")?;
    write_title(text, row, look)?;
    write_rect(text, row, look)?;
    text.push_str("</g>\n")?;
    Ok(())
}

/// Writes the line of a cut.
fn write_cut(text: &mut String, line: &Line) -> Result<(), Memory>
    ensures { OnOk result (string_bytes text.new ≡ string_bytes text.old ++ cut_text line.now) }
{
    let (level, x1, y1) = (line.level, line.x1, line.y1);
    write!(text, "<line class=\"cut{level}\" x1=\"{x1}\" y1=\"{y1}\"")?;
    let (x2, y2) = (line.x2, line.y2);
    write!(text, " x2=\"{x2}\" y2=\"{y2}\"/>\n")?;
    Ok(())
}

/// Writes the rectangle of a defect.
fn write_defect(text: &mut String, defect: &Defect) -> Result<(), Memory>
    ensures { OnOk result (string_bytes text.new
        ≡ string_bytes text.old ++ defect_text defect.now) }
{
    text.push_str("<rect class=\"defect\"")?;
    let width = defect.x1.saturating_sub(defect.x0);
    let height = defect.y1.saturating_sub(defect.y0);
    write_place(text, defect.x0, defect.y0, width, height)?;
    text.push_str("/>\n")?;
    Ok(())
}

/// Writes the outline of a row.
fn write_outline(text: &mut String, row: &Row) -> Result<(), Memory>
    ensures { OnOk result (string_bytes text.new ≡ string_bytes text.old ++ outline_text row.now) }
{
    text.push_str("<rect class=\"broken\"")?;
    write_place(text, row.x, row.y, row.width, row.height)?;
    text.push_str("/>\n")?;
    Ok(())
}

/// Writes a ring.
fn write_ring(text: &mut String, x: u32, y: u32) -> Result<(), Memory>
    ensures { OnOk result (string_bytes text.new ≡ string_bytes text.old ++ ring_text x y) }
{
    text.push_str("<circle class=\"ring\"")?;
    write!(text, " cx=\"{x}\" cy=\"{y}\" r=\"1em\"/>\n")?;
    Ok(())
}

/// Writes the class by which a spot of the legend is filled.
fn write_fill_class(text: &mut String, fill: Fill) -> Result<(), Memory>
    ensures { OnOk result (string_bytes text.new ≡ string_bytes text.old ++ fill_class fill) }
{
    match fill {
        Fill::Stack(stack) => write_stack_class(text, stack)?,
        Fill::Waste => text.push_str("waste")?,
        Fill::Residual => text.push_str("residual")?,
        Fill::Defect => text.push_str("defect")?,
    }
    Ok(())
}

/// Writes a spot of the legend.
fn write_sample(text: &mut String, x: u64, y: u64, fill: Fill) -> Result<(), Memory>
    ensures { OnOk result (string_bytes text.new ≡ string_bytes text.old ++ sample_text x y fill) }
{
    text.push_str("<circle class=\"")?;
    write_fill_class(text, fill)?;
    write!(text, "\" cx=\"{x}\" cy=\"{y}\" r=\".45em\"/>\n")?;
    Ok(())
}

/// Writes the number of an item, with a letter where it is turned.
fn write_number(text: &mut String, number: u32, turned: bool) -> Result<(), Memory>
    ensures { OnOk result (string_bytes text.new
        ≡ string_bytes text.old ++ number_text number turned) }
{
    if turned {
        write!(text, "{number} T")?;
    } else {
        write!(text, "{number}")?;
    }
    Ok(())
}

/// Writes the sides of a piece.
fn write_sides(text: &mut String, width: u32, height: u32) -> Result<(), Memory>
    ensures { OnOk result (string_bytes text.new
        ≡ string_bytes text.old ++ sides_text width height) }
{
    write!(text, "{width} x {height}")?;
    Ok(())
}

/// Writes a share of the glass, given in thousandths.
fn write_share(text: &mut String, thousandths: u64) -> Result<(), Memory>
    ensures { OnOk result (string_bytes text.new
        ≡ string_bytes text.old ++ share_text thousandths) }
{
    let whole = thousandths / 10;
    let tenth = thousandths % 10;
    write!(text, "{whole}.{tenth} % of the glass used")?;
    Ok(())
}

/// Writes what a plan loses.
fn write_loss(text: &mut String, loss: u64, thousandths: u64) -> Result<(), Memory>
    ensures { OnOk result (string_bytes text.new
        ≡ string_bytes text.old ++ words_text (Words.Loss loss thousandths)) }
{
    write!(text, "loss {loss} mm&#178;, ")?;
    write_share(text, thousandths)
}

/// Writes a breach.
fn write_breach(text: &mut String, broken: &Broken) -> Result<(), Memory>
    ensures { OnOk result (string_bytes text.new
        ≡ string_bytes text.old ++ breach_text broken.now) }
{
    let word = broken.rule.word();
    let (plate, node) = (broken.plate, broken.node);
    let (left, right) = (broken.left, broken.right);
    write!(
        text,
        "unlawful {word} plate {plate} node {node} {left} {right}"
    )?;
    Ok(())
}

/// Writes the number of an item and its sides in one line.
fn write_item(
    text: &mut String,
    number: u32,
    turned: bool,
    width: u32,
    height: u32,
) -> Result<(), Memory>
    ensures { OnOk result (string_bytes text.new
        ≡ string_bytes text.old ++ words_text (Words.Item number turned width height)) }
{
    text.push_str("<tspan class=\"number\">")?;
    write_number(text, number, turned)?;
    text.push_str("</tspan>&#160; ")?;
    write_sides(text, width, height)
}

/// Writes what a text says.
fn write_words(text: &mut String, words: &Words) -> Result<(), Memory>
    ensures { OnOk result (string_bytes text.new ≡ string_bytes text.old ++ words_text words.now) }
{
    match *words {
        Words::Number(number, turned) => write_number(text, number, turned),
        Words::Sides(width, height) => write_sides(text, width, height),
        Words::Item(number, turned, width, height) => write_item(
            text, number, turned, width, height,
        ),
        Words::Residual => Ok(text.push_str("residual")?),
        Words::Plate(number, width, height) => Ok(write!(
            text,
            "plate {number}: {width} x {height} mm"
        )?),
        Words::Loss(loss, thousandths) => write_loss(text, loss, thousandths),
        Words::Unlawful(broken) => write_breach(text, &broken),
        Words::Reason(rule) => Ok(text.push_str(reason(rule))?),
        Words::Counts(plates, items) => Ok(write!(text, "plates {plates}, items {items}")?),
        Words::Key(key) => Ok(text.push_str(key_word(key))?),
    }
}

/// Writes where a text stands.
fn write_spot(text: &mut String, upright: bool, x: u64, y: u64) -> Result<(), Memory>
    ensures { OnOk result (string_bytes text.new ≡ string_bytes text.old ++ spot_text upright x y) }
{
    if upright {
        write!(text, " transform=\"translate({x} {y}) rotate(-90)\"")?;
    } else {
        write!(text, " x=\"{x}\" y=\"{y}\"")?;
    }
    Ok(())
}

/// Writes a text.
fn write_label(text: &mut String, label: &PlacedText) -> Result<(), Memory>
    ensures { OnOk result (string_bytes text.new ≡ string_bytes text.old ++ label_text label.now) }
{
    let class = class_of(&label.words);
    write!(text, "<text class=\"{class}\"")?;
    write_spot(text, label.upright, label.x, label.y)?;
    let size = label.size;
    write!(text, " font-size=\"{size}\">")?;
    write_words(text, &label.words)?;
    text.push_str("</text>\n")?;
    Ok(())
}

/// Writes one element of a picture.
fn write_mark(text: &mut String, mark: &Mark) -> Result<(), Memory>
    ensures { OnOk result (string_bytes text.new ≡ string_bytes text.old ++ mark_text mark.now) }
{
    match *mark {
        Mark::Plate { number, x, y } => write_plate(text, number, x, y),
        Mark::Piece(row, look) => write_piece(text, &row, &look),
        Mark::Cut(line) => write_cut(text, &line),
        Mark::Defect(defect) => write_defect(text, &defect),
        Mark::Outline(row) => write_outline(text, &row),
        Mark::Ring { x, y } => write_ring(text, x, y),
        Mark::PlateEnd => Ok(text.push_str("</g>\n")?),
        Mark::Sample { x, y, fill } => write_sample(text, x, y, fill),
        Mark::Label(label) => write_label(text, &label),
    }
}

/// Writes the elements of a picture one after the other.
fn write_marks(text: &mut String, marks: &[Mark]) -> Result<(), Memory>
    ensures { OnOk result (string_bytes text.new
        ≡ string_bytes text.old ++ flat_map mark_text marks.now) }
{
    for mark in marks {
        write_mark(text, mark)?;
    }
    Ok(())
}

/// The text of a picture with these elements. It fails only where memory runs out.
pub(crate) fn text_of(alloc: Global, frame: &PictureSize, marks: &[Mark]) -> Result<Run<u8>, Memory>
    ensures { IfOk result (λ text. text.items ≡ picture_text frame.now marks.now) }
{
    let mut text = String::new(alloc);
    write_head(&mut text, frame)?;
    write_marks(&mut text, marks)?;
    text.push_str("</svg>\n")?;
    Ok(Run::from(text.into_bytes()))
}
