//! Elements that are added to a picture.

ghost use Rattle.std.specs.Prelude.{◌≡◌, [], ◌∷◌, ◌++◌, OnOk, option_to_list};
ghost use Rattle.plan_picture.specs.Pictures.{defects_on, part_on};
ghost use Rattle.plan_picture.specs.Told.{tell, told};
ghost use Rattle.plan_picture.specs.inner.Adding.{with_defects, with_outlines, with_rings, with_texts, words_in};

use crate::mark::{Line, Mark, PlacedText};
use cut_model::Row;
use glass_base::{Defect, Instance, Memory, Run, append};

/// Adds an element.
pub(crate) fn add(marks: &mut Run<Mark>, mark: Mark) -> Result<(), Memory>
    ensures { OnOk result (told marks.new.items ≡ tell (told marks.old.items) mark) }
{
    append(marks, mark)
}

/// Adds the cuts of this level.
fn add_cuts_of(marks: &mut Run<Mark>, cuts: &[Line], level: u32) -> Result<(), Memory>
    ensures { OnOk result (told marks.new.items ≡ told marks.old.items) }
{
    for cut in cuts {
        if cut.level == level {
            add(marks, Mark::Cut(*cut))?;
        }
    }
    Ok(())
}

/// Adds cuts, those of the outer levels over the others.
pub(crate) fn add_cuts(marks: &mut Run<Mark>, cuts: &[Line]) -> Result<(), Memory>
    ensures { OnOk result (told marks.new.items ≡ told marks.old.items) }
{
    add_cuts_of(marks, cuts, 4)?;
    add_cuts_of(marks, cuts, 3)?;
    add_cuts_of(marks, cuts, 2)?;
    add_cuts_of(marks, cuts, 1)
}

/// Adds a ring around a defect, if there is one.
fn add_ring(marks: &mut Run<Mark>, struck: Option<Defect>) -> Result<(), Memory>
    ensures { OnOk result (told marks.new.items
        ≡ with_rings (told marks.old.items) (option_to_list struck)) }
{
    match struck {
        None => Ok(()),
        Some(defect) => {
            let x = defect.x0 / 2 + defect.x1 / 2;
            let y = defect.y0 / 2 + defect.y1 / 2;
            add(marks, Mark::Ring { x, y })
        }
    }
}

/// Outlines pieces that break a rule, and puts a ring around the defect by which they do, if it is by one.
pub(crate) fn add_outlines(
    marks: &mut Run<Mark>,
    outlined: &[Row],
    struck: Option<Defect>,
) -> Result<(), Memory>
    ensures { OnOk result (told marks.new.items
        ≡ with_outlines (told marks.old.items) (option_to_list struck) outlined.now) }
{
    for row in outlined {
        add(marks, Mark::Outline(*row))?;
        add_ring(marks, struck)?;
    }
    Ok(())
}

/// The part of a defect that lies within these sides of its plate, if there is one.
fn defect_within(defect: &Defect, width: u32, height: u32) -> Option<Defect>
    ensures { option_to_list result ≡ part_on width height defect.now }
{
    if defect.x0 < width && defect.y0 < height {
        Some(Defect {
            x1: defect.x1.min(width),
            y1: defect.y1.min(height),
            ..*defect
        })
    } else {
        None
    }
}

/// Adds a part of a defect, if there is one.
fn add_part(marks: &mut Run<Mark>, part: Option<Defect>) -> Result<(), Memory>
    ensures { OnOk result (told marks.new.items
        ≡ with_defects (told marks.old.items) (option_to_list part)) }
{
    match part {
        None => Ok(()),
        Some(defect) => add(marks, Mark::Defect(defect)),
    }
}

/// Adds the defects of a plate, as far as they lie on it.
pub(crate) fn add_defects(
    marks: &mut Run<Mark>,
    instance: &Instance,
    plate: u32,
) -> Result<(), Memory>
    ensures { OnOk result (told marks.new.items
        ≡ with_defects (told marks.old.items) (defects_on instance.now plate)) }
{
    let width = instance.width(plate);
    let height = instance.params().height;
    for defect in instance.defects() {
        if defect.plate == plate {
            add_part(marks, defect_within(defect, width, height))?;
        }
    }
    Ok(())
}

/// Adds texts.
pub(crate) fn add_labels(marks: &mut Run<Mark>, labels: &[PlacedText]) -> Result<(), Memory>
    ensures { OnOk result (told marks.new.items
        ≡ with_texts (told marks.old.items) (words_in labels.now)) }
{
    for label in labels {
        add(marks, Mark::Label(*label))?;
    }
    Ok(())
}
