//! The legend of a picture.

ghost use Rattle.std.specs.Prelude.{◌≡◌, [], ◌∷◌, ◌++◌, OnOk};
ghost use Rattle.plan_picture.specs.declared.mark.Words.TheVariants.{Counts as CountsOf, Key as KeyOf};
ghost use Rattle.plan_picture.specs.Texts.{thousandths as thousandths_of, verdict_words};
ghost use Rattle.plan_picture.specs.Told.{told};
ghost use Rattle.plan_picture.specs.inner.Adding.{key_words, with_texts};

use crate::adding::add;
use crate::layout::Layout;
use crate::mark::{Fill, Key, Line, Mark, PlacedText, Words};
use cut_model::Verdict;
use glass_base::{Instance, Memory, Run};

/// A line of the legend: what its words stand on and how large they are, in hundredths of the size of plain text.
#[derive(Clone, Copy)]
struct LegendLine {
    y: u64,
    size: u64,
}

const VERDICT: LegendLine = LegendLine { y: 140, size: 120 };

const COUNTS: LegendLine = LegendLine { y: 270, size: 100 };

const KEY: LegendLine = LegendLine { y: 400, size: 100 };

/// How many stacks have a colour of their own.
const COLOURS: usize = 7;

/// What is counted for the legend.
#[derive(Clone, Copy)]
pub(crate) struct Counts {
    pub plates: u64,
    pub items: u64,
}

/// The loss in thousandths of the glass that is used, rounded.
fn thousandths(loss: u64, area: u64) -> u64
    ensures { result ≡ thousandths_of loss area }
{
    let glass = (u128::from(loss) + u128::from(area)).max(1);
    ((u128::from(loss) * 1000 + glass / 2) / glass) as u64
}

/// Adds a text to a line of the legend, from x on, in hundredths of the size of plain text.
fn add_words(
    marks: &mut Run<Mark>,
    layout: &Layout,
    x: u64,
    line: LegendLine,
    words: Words,
) -> Result<(), Memory>
    ensures { OnOk result (told marks.new.items ≡ with_texts (told marks.old.items) (words ∷ [])) }
{
    let label = PlacedText {
        x: layout.hundredths(x),
        y: layout.hundredths(line.y),
        size: layout.hundredths(line.size),
        upright: false,
        words,
    };
    add(marks, Mark::Label(label))
}

/// Adds a word of the key.
fn add_key(marks: &mut Run<Mark>, layout: &Layout, x: u64, key: Key) -> Result<(), Memory>
    ensures { OnOk result (told marks.new.items
        ≡ with_texts (told marks.old.items) (KeyOf key ∷ [])) }
{
    add_words(marks, layout, x, KEY, Words::Key(key))
}

/// Adds a spot of the key.
fn add_sample(marks: &mut Run<Mark>, layout: &Layout, x: u64, fill: Fill) -> Result<(), Memory>
    ensures { OnOk result (told marks.new.items ≡ told marks.old.items) }
{
    let sample = Mark::Sample {
        x: layout.hundredths(x),
        y: layout.hundredths(KEY.y - 35),
        fill,
    };
    add(marks, sample)
}

/// Adds the colours of the stacks.
fn add_colours(marks: &mut Run<Mark>, layout: &Layout) -> Result<(), Memory>
    ensures { OnOk result (told marks.new.items ≡ told marks.old.items) }
{
    for stack in 0..COLOURS {
        add_sample(marks, layout, 245 + 105 * stack as u64, Fill::Stack(stack))?;
    }
    Ok(())
}

/// Adds a line as a cut of this level is drawn.
fn add_cut(marks: &mut Run<Mark>, layout: &Layout, level: u32) -> Result<(), Memory>
    ensures { OnOk result (told marks.new.items ≡ told marks.old.items) }
{
    let x = layout.hundredths(4900 + 60 * u64::from(level));
    let line = Line {
        level,
        x1: x,
        y1: layout.hundredths(KEY.y - 80),
        x2: x,
        y2: layout.hundredths(KEY.y + 10),
    };
    add(marks, Mark::Cut(line))
}

/// Adds lines as cuts are drawn.
fn add_cuts(marks: &mut Run<Mark>, layout: &Layout) -> Result<(), Memory>
    ensures { OnOk result (told marks.new.items ≡ told marks.old.items) }
{
    for level in 1..5 {
        add_cut(marks, layout, level)?;
    }
    Ok(())
}

/// Adds what the colours and the lines of the picture stand for.
fn add_keys(marks: &mut Run<Mark>, layout: &Layout) -> Result<(), Memory>
    ensures { OnOk result (told marks.new.items ≡ with_texts (told marks.old.items) key_words) }
{
    add_colours(marks, layout)?;
    add_key(marks, layout, 960, Key::Stacks)?;
    add_sample(marks, layout, 2745, Fill::Waste)?;
    add_key(marks, layout, 2825, Key::Waste)?;
    add_sample(marks, layout, 3245, Fill::Residual)?;
    add_key(marks, layout, 3325, Key::Residual)?;
    add_sample(marks, layout, 3880, Fill::Defect)?;
    add_key(marks, layout, 3960, Key::Defect)?;
    add_key(marks, layout, 4400, Key::Turned)?;
    add_cuts(marks, layout)?;
    add_key(marks, layout, 5190, Key::Cuts)
}

/// Adds what was found of the plan.
fn add_verdict(
    marks: &mut Run<Mark>,
    layout: &Layout,
    instance: &Instance,
    verdict: &Verdict,
) -> Result<(), Memory>
    ensures { OnOk result (told marks.new.items
        ≡ with_texts (told marks.old.items) (verdict_words instance.now verdict.now)) }
{
    match *verdict {
        Verdict::Lawful(loss) => {
            let words = Words::Loss(loss, thousandths(loss, instance.area()));
            add_words(marks, layout, 200, VERDICT, words)
        }
        Verdict::Broken(broken) => {
            add_words(marks, layout, 200, VERDICT, Words::Unlawful(broken))?;
            add_words(marks, layout, 1600, COUNTS, Words::Reason(broken.rule))
        }
    }
}

/// Adds the legend, above the first plate.
pub(crate) fn add_legend(
    marks: &mut Run<Mark>,
    layout: &Layout,
    instance: &Instance,
    verdict: &Verdict,
    counts: &Counts,
) -> Result<(), Memory>
    ensures { OnOk result (told marks.new.items
        ≡ with_texts (told marks.old.items)
        (verdict_words instance.now verdict.now
        ++ CountsOf counts.now.plates counts.now.items ∷ key_words)) }
{
    add_verdict(marks, layout, instance, verdict)?;
    let words = Words::Counts(counts.plates, counts.items);
    add_words(marks, layout, 200, COUNTS, words)?;
    add_keys(marks, layout)
}
