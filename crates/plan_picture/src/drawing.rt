//! The picture of a plan.

ghost use Rattle.std.specs.Prelude.{◌≡◌, map, IfOk};
ghost use Rattle.cut_model.specs.Families.{rows_of};
ghost use Rattle.cut_model.specs.Fits.{Fits};
ghost use Rattle.cut_model.specs.Tree.{tree};
ghost use Rattle.plan_picture.specs.Marks.{picture_text};
ghost use Rattle.plan_picture.specs.Pictures.{IsPicture, plates_in};
ghost use Rattle.plan_picture.specs.Told.{told};
ghost use Rattle.plan_picture.specs.inner.Sketches.{HasShown, IsShown, sketch};

use crate::canvas::Canvas;
use crate::layout::Layout;
use crate::legend::{Counts, add_legend};
use crate::mark::{Mark, PictureSize};
use crate::sheet::{Subject, broken_in};
use crate::survey::survey_of;
use crate::writing::text_of;
use cut_model::{Family, Plan, Verdict, Visitor, plates_used, walk};
use glass_base::{Instance, Memory, Run, stack_numbers};
use std::alloc::Global;

/// What is drawn of the pieces told so far.
#[derive(Drop)]
struct Drawing<'a> {
    alloc: Global,
    sheet: &'a Subject<'a>,
    canvas: Canvas,
}

impl<'a> Visitor for Drawing<'a> {
    type Stop = Memory;

    // The rows told so far are shown, once the group that is open is ended.
    ghost has_seen = { λ start now seen.
        (now.sheet.now ≡ start.sheet.now)
        × HasShown now.sheet.now.instance.now now.sheet.now.broken now.sheet.now.layout (sketch now.canvas) (map (λ f. f.row) seen) };

    fn visit(&mut self, family: &Family) -> Result<(), Memory> {
        let sheet = self.sheet;
        self.canvas.turn_to(self.alloc, sheet, family.row.plate)?;
        self.canvas.draw(sheet, family)
    }
}

/// The elements of a picture up to the end of its last plate.
fn draw(alloc: Global, sheet: &Subject<'_>, plan: &Plan) -> Result<Run<Mark>, Memory>
    requires { Fits (tree plan.now) }
    ensures { let b = sheet.now.instance.now in
        IfOk result (λ marks. IsShown b sheet.now.broken sheet.now.layout (told marks.items)
        (plates_in (rows_of b (tree plan.now))) (rows_of b (tree plan.now))) }
{
    let mut drawing = Drawing {
        alloc,
        sheet,
        canvas: Canvas::new(alloc),
    };
    walk(&mut drawing, sheet.instance, plan)?;
    drawing.canvas.close(alloc, sheet)?;
    Ok(drawing.canvas.marks)
}

/// The sizes of a picture and its elements.
#[derive(Drop)]
struct Elements {
    frame: PictureSize,
    marks: Run<Mark>,
}

/// The elements of the picture of a plan.
fn elements_of(
    alloc: Global,
    instance: &Instance,
    plan: &Plan,
    verdict: &Verdict,
) -> Result<Elements, Memory>
    requires { Fits (tree plan.now) }
    ensures { IfOk result (λ e. IsPicture instance.now (tree plan.now) verdict.now
        (picture_text e.frame e.marks.items)) }
{
    let survey = survey_of(instance, plan);
    let layout = Layout::new(survey.widest, instance.params().height);
    let stacks = stack_numbers(alloc, instance.items())?;
    let sheet = Subject {
        instance,
        stacks: stacks.as_slice(),
        layout,
        broken: broken_in(verdict),
    };
    let counts = Counts {
        plates: plates_used(plan),
        items: survey.items,
    };
    let frame = layout.frame(counts.plates);
    let mut marks = draw(alloc, &sheet, plan)?;
    add_legend(&mut marks, &layout, instance, verdict, &counts)?;
    Ok(Elements { frame, marks })
}

/// The picture of a plan as one SVG text: its plates one below the other, with their pieces, cuts and defects, and a legend that tells
/// the verdict. It fails only where memory runs out.
///
/// One unit of the picture is 1 mm. Each row of the plan is drawn once, by its own numbers: in the group of its plate, with its corner, its
/// sides, its kind, the colour of its stack and its node number. The groups share nothing. In each of them lie the plate's defects, as far as
/// they lie on it, and the outline of the piece that breaks a rule, with a ring around the defect by which it does. Texts tell the loss or the
/// breach, the sides of each plate, and of pieces what is true of one. A printed page has one plate.
pub fn picture(
    alloc: Global,
    instance: &Instance,
    plan: &Plan,
    verdict: &Verdict,
) -> Result<Run<u8>, Memory>
    requires { Fits (tree plan.now) }
    ensures { IfOk result (λ text. IsPicture instance.now (tree plan.now) verdict.now text.items) }
{
    let elements = elements_of(alloc, instance, plan, verdict)?;
    text_of(alloc, &elements.frame, elements.marks.as_slice())
}
