//! The elements of a picture, as far as it is drawn.

ghost use Rattle.std.specs.Prelude.{◌≡◌, OnOk, None, []};
ghost use Rattle.cut_model.specs.Tree.{type_number};
ghost use Rattle.cut_model.specs.Visits.{IsSmall};
ghost use Rattle.plan_picture.specs.Pictures.{defects_on, look_of, struck_by};
ghost use Rattle.plan_picture.specs.Told.{told, untold};
ghost use Rattle.plan_picture.specs.inner.Adding.{with_defects, with_outlines};
ghost use Rattle.plan_picture.specs.inner.Sketches.{HasDrawn, closed, opened, sketch, turned_to};

use crate::adding::{add, add_cuts, add_defects, add_labels, add_outlines};
use crate::mark::Mark;
use crate::over::Over;
use crate::sheet::Subject;
use cut_model::Family;
use glass_base::{Memory, Run};
use std::alloc::Global;
use std::mem;

/// The elements so far, the plate whose group is open, and what is to be drawn over its pieces.
#[derive(Drop)]
pub(crate) struct Canvas {
    pub marks: Run<Mark>,
    pub plate: Option<u32>,
    pub over: Over,
}

/// Adds what is drawn over the pieces of a plate, in its group.
fn add_over(
    marks: &mut Run<Mark>,
    over: &Over,
    sheet: &Subject<'_>,
    plate: u32,
) -> Result<(), Memory>
    ensures { let b = sheet.now.instance.now in
        OnOk result (told marks.new.items
        ≡ with_defects (with_outlines (told marks.old.items)
        (struck_by b sheet.now.broken) over.now.outlined.items) (defects_on b plate)) }
{
    add_cuts(marks, over.cuts.as_slice())?;
    add_outlines(marks, over.outlined.as_slice(), sheet.struck())?;
    add_defects(marks, sheet.instance, plate)
}

impl Canvas {
    /// No elements.
    pub fn new(alloc: Global) -> Canvas
        ensures { sketch result ≡ record {
          tells = untold;
          plate = None;
          words = [];
          outlined = [];
        } }
    {
        Canvas {
            marks: Run::new(alloc),
            plate: None,
            over: Over::new(alloc),
        }
    }

    /// Ends the group that is open, if one is: draws over its pieces, and behind the group the texts.
    pub fn close(&mut self, alloc: Global, sheet: &Subject<'_>) -> Result<(), Memory>
        ensures { OnOk result (sketch self.new ≡ record {
          tells = closed sheet.now.instance.now sheet.now.broken
              (sketch self.old);
          plate = None;
          words = [];
          outlined = [];
        }) }
    {
        let over = mem::replace(&mut self.over, Over::new(alloc));
        let Some(plate) = self.plate else {
            return Ok(());
        };
        add_over(&mut self.marks, &over, sheet, plate)?;
        add(&mut self.marks, Mark::PlateEnd)?;
        self.plate = None;
        add_labels(&mut self.marks, over.labels.as_slice())
    }

    /// Begins the group of a plate. None is open, and nothing is noted.
    fn open(&mut self, sheet: &Subject<'_>, plate: u32) -> Result<(), Memory>
        requires words { (sketch self.old).words ≡ [] }
        requires outlined { (sketch self.old).outlined ≡ [] }
        ensures { OnOk result (sketch self.new ≡ opened sheet.now.instance.now sheet.now.layout
            (told self.old.marks.items) plate) }
    {
        let layout = sheet.layout;
        self.over.begin(sheet, plate)?;
        let begin = Mark::Plate {
            number: plate,
            x: layout.left(),
            y: layout.bottom(plate),
        };
        add(&mut self.marks, begin)?;
        self.plate = Some(plate);
        Ok(())
    }

    /// Goes to the group of a plate: ends the one that is open and begins that of the plate, unless it is open already.
    pub fn turn_to(&mut self, alloc: Global, sheet: &Subject<'_>, plate: u32) -> Result<(), Memory>
        ensures { OnOk result (sketch self.new ≡ turned_to sheet.now.instance.now sheet.now.broken
            sheet.now.layout (sketch self.old) plate) }
    {
        if self.plate == Some(plate) {
            return Ok(());
        }
        self.close(alloc, sheet)?;
        self.open(sheet, plate)
    }

    /// Draws a piece in the group that is open, and notes what is to be drawn over it.
    pub fn draw(&mut self, sheet: &Subject<'_>, family: &Family) -> Result<(), Memory>
        requires small { IsSmall family.now }
        requires named { family.now.row.kind ≡ type_number family.now.sort }
        ensures { let b = sheet.now.instance.now in
            OnOk result (HasDrawn b sheet.now.broken family.now.row (look_of b family.now.sort)
            (sketch self.old) (sketch self.new)) }
    {
        let look = sheet.look(family.sort);
        add(&mut self.marks, Mark::Piece(family.row, look))?;
        self.over.note(sheet, family)
    }
}
