//! What is drawn over the pieces of a plate.

ghost use Rattle.std.specs.Prelude.{◌≡◌, [], ◌∷◌, ◌++◌, filter, OnOk};
ghost use Rattle.cut_model.specs.Tree.{type_number};
ghost use Rattle.cut_model.specs.Visits.{IsSmall};
ghost use Rattle.plan_picture.specs.Pictures.{is_breach};
ghost use Rattle.plan_picture.specs.Texts.{heading};
ghost use Rattle.plan_picture.specs.inner.Adding.{AddsTrue, words_in};

use crate::labels::{add_item, add_line, add_residual};
use crate::mark::{Line, PlacedText};
use crate::sheet::Subject;
use cut_model::{Along, Family, Row, Sort};
use glass_base::{Memory, Run, append};
use std::alloc::Global;

/// What is drawn over the pieces of a plate, and beside them.
#[derive(Drop)]
pub(crate) struct Over {
    pub cuts: Run<Line>,
    pub labels: Run<PlacedText>,
    /// The pieces that are outlined: the one that breaks a rule, if it is on this plate.
    pub outlined: Run<Row>,
}

/// The cut between a piece and the neighbour before it, if there is one.
fn cut_before(family: &Family) -> Option<Line>
    requires { IsSmall family.now }
{
    let row = family.row;
    if family.first {
        return None;
    }
    let (x, y) = (u64::from(row.x), u64::from(row.y));
    let (x2, y2) = match family.along {
        Along::Plates => return None,
        Along::X => (x, y + u64::from(row.height)),
        Along::Y => (x + u64::from(row.width), y),
    };
    Some(Line {
        level: row.cut,
        x1: x,
        y1: y,
        x2,
        y2,
    })
}

/// Adds the cut before a piece, if there is one.
fn add_cut(cuts: &mut Run<Line>, family: &Family) -> Result<(), Memory>
    requires { IsSmall family.now }
{
    match cut_before(family) {
        None => Ok(()),
        Some(cut) => append(cuts, cut),
    }
}

/// Adds a row, if it is the piece that breaks a rule.
fn add_breach(outlined: &mut Run<Row>, sheet: &Subject<'_>, row: Row) -> Result<(), Memory>
    ensures { OnOk result (outlined.new.items
        ≡ outlined.old.items ++ filter (is_breach sheet.now.broken) (row ∷ [])) }
{
    if sheet.is_breach(&row) {
        append(outlined, row)
    } else {
        Ok(())
    }
}

/// Adds the texts in a piece, as far as they fit.
fn add_words(
    labels: &mut Run<PlacedText>,
    sheet: &Subject<'_>,
    family: &Family,
) -> Result<(), Memory>
    requires { family.now.row.kind ≡ type_number family.now.sort }
    ensures { OnOk result (AddsTrue sheet.now.instance.now family.now.row labels.old.items
        labels.new.items) }
{
    match family.sort {
        Sort::Item(number) => add_item(labels, sheet, &family.row, number),
        Sort::Residual => add_residual(labels, sheet, &family.row),
        Sort::Waste | Sort::Branch => Ok(()),
    }
}

impl Over {
    /// Nothing.
    pub fn new(alloc: Global) -> Over
        ensures labels { result.labels.items ≡ [] }
        ensures outlined { result.outlined.items ≡ [] }
    {
        Over {
            cuts: Run::new(alloc),
            labels: Run::new(alloc),
            outlined: Run::new(alloc),
        }
    }

    /// Notes the text above a plate.
    pub fn begin(&mut self, sheet: &Subject<'_>, plate: u32) -> Result<(), Memory>
        ensures labels { OnOk result (words_in self.new.labels.items
            ≡ words_in self.old.labels.items ++ heading sheet.now.instance.now plate ∷ []) }
        ensures outlined { self.new.outlined.items ≡ self.old.outlined.items }
    {
        let width = sheet.instance.width(plate);
        add_line(&mut self.labels, sheet.layout.heading(plate, width))
    }

    /// Notes what is drawn over a piece.
    pub fn note(&mut self, sheet: &Subject<'_>, family: &Family) -> Result<(), Memory>
        requires small { IsSmall family.now }
        requires named { family.now.row.kind ≡ type_number family.now.sort }
        ensures labels { OnOk result (AddsTrue sheet.now.instance.now family.now.row
            self.old.labels.items self.new.labels.items) }
        ensures outlined { OnOk result (self.new.outlined.items
            ≡ self.old.outlined.items ++ filter (is_breach sheet.now.broken)
            (family.now.row ∷ [])) }
    {
        add_cut(&mut self.cuts, family)?;
        add_breach(&mut self.outlined, sheet, family.row)?;
        add_words(&mut self.labels, sheet, family)
    }
}
