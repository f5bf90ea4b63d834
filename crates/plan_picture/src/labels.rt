//! The texts in the pieces of a picture. A letter is taken to be 0.6 times as wide as the size of its text, and a line 1.2 times as high.

ghost use Rattle.std.specs.Prelude.{◌≡◌, ◌≤◌, [], ◌∷◌, ◌++◌, OnOk};
ghost use Rattle.cut_model.specs.declared.family.Sort.TheVariants.{Item as ItemOf, Residual as TheResidual};
ghost use Rattle.cut_model.specs.Tree.{type_number};
ghost use Rattle.plan_picture.specs.declared.mark.Words.TheVariants.{Sides};
ghost use Rattle.plan_picture.specs.inner.Adding.{AddsTrue, words_in};

use crate::layout::Layout;
use crate::mark::{PlacedText, Words};
use crate::sheet::Subject;
use cut_model::Row;
use glass_base::{Memory, Run, append};

/// The greatest and the least size of a text in a piece, in hundredths of the size of plain text, and the size that is large enough for a
/// text to read to the right.
const MOST: u64 = 90;

const LEAST: u64 = 35;

const ENOUGH: u64 = 60;

/// How a text is set in a piece: the size of its letters in mm, and whether it reads upwards.
#[derive(Clone, Copy)]
struct TextSetting {
    size: u64,
    upright: bool,
}

/// The greatest size in which lines of text fit between two sides of a piece, which are given in mm.
fn size_between(along: u32, across: u32, letters: u32, lines: u32) -> u64 {
    let wide = u64::from(along) * 10 / (6 * (u64::from(letters) + 2));
    let high = u64::from(across) * 10 / (12 * u64::from(lines) + 6);
    wide.min(high)
}

/// How so many lines with at most so many letters are set in a piece: to the right where they are large enough, else the larger way.
fn fitting(layout: &Layout, row: &Row, letters: u32, lines: u32) -> TextSetting {
    let level = size_between(row.width, row.height, letters, lines);
    let steep = size_between(row.height, row.width, letters, lines);
    let upright = level < steep && level < layout.hundredths(ENOUGH);
    let size = if upright { steep } else { level };
    TextSetting {
        size: size.min(layout.hundredths(MOST)),
        upright,
    }
}

/// Whether a text is large enough to be read.
fn is_legible(layout: &Layout, setting: TextSetting) -> bool {
    setting.size >= layout.hundredths(LEAST)
}

/// A line of text in the middle of a piece, moved down by so many hundredths of its size, less 20.
fn line(layout: &Layout, row: &Row, setting: TextSetting, down: u64, words: Words) -> PlacedText
    ensures { result.words ≡ words }
{
    let (x, y) = layout.middle(row);
    let size = setting.size;
    let from = size.saturating_mul(20) / 100;
    let to = size.saturating_mul(down) / 100;
    let (x, y) = if setting.upright {
        (x.saturating_sub(from).saturating_add(to), y)
    } else {
        (x, y.saturating_sub(from).saturating_add(to))
    };
    PlacedText {
        x,
        y,
        size,
        upright: setting.upright,
        words,
    }
}

/// How many digits a number has.
fn digits(number: u32) -> u32
    ensures { result ≤ 10 }
{
    match number {
        0..=9 => 1,
        10..=99 => 2,
        100..=999 => 3,
        1_000..=9_999 => 4,
        10_000..=99_999 => 5,
        _ => 10,
    }
}

/// How many letters the sides of a piece take.
fn letters_of_sides(row: &Row) -> u32
    ensures { result ≤ 23 }
{
    digits(row.width) + 3 + digits(row.height)
}

/// Adds a line of text.
pub(crate) fn add_line(labels: &mut Run<PlacedText>, label: PlacedText) -> Result<(), Memory>
    ensures { OnOk result (words_in labels.new.items
        ≡ words_in labels.old.items ++ label.words ∷ []) }
{
    append(labels, label)
}

/// Adds a name and under it the sides of the piece.
fn add_two_lines(
    labels: &mut Run<PlacedText>,
    layout: &Layout,
    row: &Row,
    setting: TextSetting,
    name: Words,
) -> Result<(), Memory>
    ensures { OnOk result (words_in labels.new.items
        ≡ words_in labels.old.items ++ name ∷ Sides row.now.width row.now.height ∷ []) }
{
    add_line(labels, line(layout, row, setting, 0, name))?;
    let sides = Words::Sides(row.width, row.height);
    add_line(labels, line(layout, row, setting, 115, sides))
}

/// Adds the number of an item and its sides: one over the other or in one line, where they fit, else the number alone, where it fits.
pub(crate) fn add_item(
    labels: &mut Run<PlacedText>,
    sheet: &Subject<'_>,
    row: &Row,
    number: u32,
) -> Result<(), Memory>
    requires { row.now.kind ≡ type_number (ItemOf number) }
    ensures { OnOk result (AddsTrue sheet.now.instance.now row.now labels.old.items
        labels.new.items) }
{
    let layout = &sheet.layout;
    let turned = sheet.is_turned(row, number);
    let letters = if turned {
        digits(number) + 2
    } else {
        digits(number)
    };
    let sides = letters_of_sides(row);
    let two = fitting(layout, row, letters.max(sides), 2);
    let one = fitting(layout, row, letters + 2 + sides, 1);
    let alone = fitting(layout, row, letters, 1);
    let wide = two.size >= one.size || two.size >= layout.hundredths(ENOUGH);
    if is_legible(layout, two) && wide {
        add_two_lines(labels, layout, row, two, Words::Number(number, turned))
    } else if is_legible(layout, one) {
        let words = Words::Item(number, turned, row.width, row.height);
        add_line(labels, line(layout, row, one, 56, words))
    } else if is_legible(layout, alone) {
        let words = Words::Number(number, turned);
        add_line(labels, line(layout, row, alone, 56, words))
    } else {
        Ok(())
    }
}

/// Adds that a piece is the residual, and its sides, where they fit.
pub(crate) fn add_residual(
    labels: &mut Run<PlacedText>,
    sheet: &Subject<'_>,
    row: &Row,
) -> Result<(), Memory>
    requires { row.now.kind ≡ type_number TheResidual }
    ensures { OnOk result (AddsTrue sheet.now.instance.now row.now labels.old.items
        labels.new.items) }
{
    let layout = &sheet.layout;
    let two = fitting(layout, row, letters_of_sides(row).max(8), 2);
    if is_legible(layout, two) {
        add_two_lines(labels, layout, row, two, Words::Residual)
    } else {
        Ok(())
    }
}
