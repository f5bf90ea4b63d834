//! The instructions for the pieces of a plate, level by level.

ghost use Rattle.std.specs.Prelude.{◌≡◌, ℕ, [], ◌∷◌, ◌++◌, OnOk};
ghost use Rattle.cut_model.specs.Tree.{Forest, neighbours, strips, type_number};
ghost use Rattle.cut_model.specs.declared.family.Sort.{Sort as SortOf};
ghost use Rattle.cut_sheet.specs.Sheets.{finished, parted as parted_of, parts_sheet};

use crate::instr::Instr;
use cut_model::{Body1, Body2, Body3, Body4, Leaf4, Piece1, Piece2, Piece3, Plate, Sort};
use glass_base::{Memory, Run, append};

/// A piece of one of the levels.
trait Part {
    // Its size, its sort, and what it is cut into.
    ghost size: { Self → ℕ };

    ghost sort: { Self → SortOf };

    ghost inner: { Self → Forest };

    fn size(&self) -> u32
        ensures { result ≡ size self.now };

    /// Appends what is done with the piece once it is parted from its neighbours.
    fn finish(&self, sheet: &mut Run<Instr>) -> Result<(), Memory>
        ensures { OnOk result (sheet.new.items ≡ sheet.old.items ++ finished (sort self.now) (parts_sheet (inner self.now))) };
}

/// Parts a piece of this size from its neighbours; the last one is what is left of them.
fn parted(last: bool, size: u32) -> Instr
    ensures { result ≡ parted_of last size }
{
    if last { Instr::Whole } else { Instr::Off(size) }
}

/// Appends what is done with neighbours.
fn put_parts<P: Part>(sheet: &mut Run<Instr>, parts: &[P]) -> Result<(), Memory>
    ensures { OnOk result (sheet.new.items ≡ sheet.old.items
        ++ parts_sheet (neighbours P.size P.sort P.inner parts.now)) }
{
    let count = parts.len();
    for (place, part) in parts.iter().enumerate() {
        append(sheet, parted(place + 1 == count, part.size()))?;
        part.finish(sheet)?;
    }
    Ok(())
}

/// Appends that a piece leaves the table as this sort.
fn put_done(sheet: &mut Run<Instr>, sort: Sort) -> Result<(), Memory>
    ensures { OnOk result (sheet.new.items ≡ sheet.old.items
        ++ Instr.Done (type_number sort) ∷ []) }
{
    append(sheet, Instr::Done(sort.kind()))
}

impl Part for Leaf4 {
    ghost use Rattle.cut_model.specs.Tree.{nothing, sort4};

    ghost size = { λ p. p.height };

    ghost sort = { λ p. sort4 p.body };

    ghost inner = { λ p. nothing };

    fn size(&self) -> u32 {
        self.height
    }

    fn finish(&self, sheet: &mut Run<Instr>) -> Result<(), Memory> {
        match self.body {
            Body4::Waste => put_done(sheet, Sort::Waste),
            Body4::Item(number) => put_done(sheet, Sort::Item(number)),
        }
    }
}

impl Part for Piece3 {
    ghost use Rattle.cut_model.specs.Tree.{inner3, sort3};

    ghost size = { λ p. p.width };

    ghost sort = { λ p. sort3 p.body };

    ghost inner = { λ p. inner3 p.body };

    fn size(&self) -> u32 {
        self.width
    }

    fn finish(&self, sheet: &mut Run<Instr>) -> Result<(), Memory> {
        match self.body {
            Body3::Waste => put_done(sheet, Sort::Waste),
            Body3::Item(number) => put_done(sheet, Sort::Item(number)),
            Body3::Two(low, high) => put_parts(sheet, &[low, high]),
        }
    }
}

impl Part for Piece2 {
    ghost use Rattle.cut_model.specs.Tree.{inner2, sort2};

    ghost size = { λ p. p.height };

    ghost sort = { λ p. sort2 p.body };

    ghost inner = { λ p. inner2 p.body };

    fn size(&self) -> u32 {
        self.height
    }

    fn finish(&self, sheet: &mut Run<Instr>) -> Result<(), Memory> {
        match &self.body {
            Body2::Waste => put_done(sheet, Sort::Waste),
            Body2::Item(number) => put_done(sheet, Sort::Item(*number)),
            Body2::Cut(pieces) => put_parts(sheet, pieces.as_slice()),
        }
    }
}

impl Part for Piece1 {
    ghost use Rattle.cut_model.specs.Tree.{inner1, sort1};

    ghost size = { λ p. p.width };

    ghost sort = { λ p. sort1 p.body };

    ghost inner = { λ p. inner1 p.body };

    fn size(&self) -> u32 {
        self.width
    }

    fn finish(&self, sheet: &mut Run<Instr>) -> Result<(), Memory> {
        match &self.body {
            Body1::Waste => put_done(sheet, Sort::Waste),
            Body1::Residual => put_done(sheet, Sort::Residual),
            Body1::Item(number) => put_done(sheet, Sort::Item(*number)),
            Body1::Cut(pieces) => put_parts(sheet, pieces.as_slice()),
        }
    }
}

/// Appends what is done with a plate of this number.
pub(crate) fn put_plate(sheet: &mut Run<Instr>, number: u32, plate: &Plate) -> Result<(), Memory>
    ensures { OnOk result (sheet.new.items ≡ sheet.old.items ++ Instr.Load number
        ∷ parts_sheet (strips plate.now.pieces.items)) }
{
    append(sheet, Instr::Load(number))?;
    put_parts(sheet, plate.pieces.as_slice())
}
