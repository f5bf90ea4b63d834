//! Copies of plates, with all pieces in them.

ghost use Rattle.std.specs.Prelude.{◌≡◌, [], ◌∷◌, IfOk, OnOk};
ghost use Rattle.cut_model.specs.Tree.{bands, inner1, inner2, plates_of, sort1, sort2, strips};
ghost use Rattle.plan_freeze.specs.Frozen.{joined};

use cut_model::{Body1, Body2, Piece1, Piece2, Piece3, Plate};
use glass_base::{Memory, Run, append};
use std::alloc::Global;

fn copy_cells(alloc: Global, cells: &[Piece3]) -> Result<Run<Piece3>, Memory>
    ensures { IfOk result (λ copy. copy.items ≡ cells.now) }
{
    let mut copy = Run::new(alloc);
    copy.extend_from_slice(cells)?;
    Ok(copy)
}

fn copy_band_body(alloc: Global, body: &Body2) -> Result<Body2, Memory>
    ensures sort { IfOk result (λ copy. sort2 copy ≡ sort2 body.now) }
    ensures inner { IfOk result (λ copy. inner2 copy ≡ inner2 body.now) }
{
    match body {
        Body2::Waste => Ok(Body2::Waste),
        Body2::Item(number) => Ok(Body2::Item(*number)),
        Body2::Cut(cells) => {
            let copy = copy_cells(alloc, cells.as_slice())?;
            Ok(Body2::Cut(copy))
        }
    }
}

fn copy_band(alloc: Global, band: &Piece2) -> Result<Piece2, Memory>
    ensures { IfOk result (λ copy. bands (copy ∷ []) ≡ bands (band.now ∷ [])) }
{
    let body = copy_band_body(alloc, &band.body)?;
    Ok(Piece2 {
        height: band.height,
        body,
    })
}

fn copy_bands(alloc: Global, pieces: &[Piece2]) -> Result<Run<Piece2>, Memory>
    ensures { IfOk result (λ copy. bands copy.items ≡ bands pieces.now) }
{
    let mut copy = Run::new(alloc);
    for piece in pieces {
        append(&mut copy, copy_band(alloc, piece)?)?;
    }
    Ok(copy)
}

fn copy_strip_body(alloc: Global, body: &Body1) -> Result<Body1, Memory>
    ensures sort { IfOk result (λ copy. sort1 copy ≡ sort1 body.now) }
    ensures inner { IfOk result (λ copy. inner1 copy ≡ inner1 body.now) }
{
    match body {
        Body1::Waste => Ok(Body1::Waste),
        Body1::Residual => Ok(Body1::Residual),
        Body1::Item(number) => Ok(Body1::Item(*number)),
        Body1::Cut(pieces) => {
            let copy = copy_bands(alloc, pieces.as_slice())?;
            Ok(Body1::Cut(copy))
        }
    }
}

fn copy_strip(alloc: Global, strip: &Piece1) -> Result<Piece1, Memory>
    ensures { IfOk result (λ copy. strips (copy ∷ []) ≡ strips (strip.now ∷ [])) }
{
    let body = copy_strip_body(alloc, &strip.body)?;
    Ok(Piece1 {
        width: strip.width,
        body,
    })
}

fn copy_strips(alloc: Global, pieces: &[Piece1]) -> Result<Run<Piece1>, Memory>
    ensures { IfOk result (λ copy. strips copy.items ≡ strips pieces.now) }
{
    let mut copy = Run::new(alloc);
    for piece in pieces {
        append(&mut copy, copy_strip(alloc, piece)?)?;
    }
    Ok(copy)
}

fn copy_plate(alloc: Global, plate: &Plate) -> Result<Plate, Memory>
    ensures { IfOk result (λ copy. plates_of (copy ∷ []) ≡ plates_of (plate.now ∷ [])) }
{
    let pieces = copy_strips(alloc, plate.pieces.as_slice())?;
    Ok(Plate { pieces })
}

/// Adds copies of `more` behind `plates`.
pub(crate) fn add_plates(
    alloc: Global,
    plates: &mut Run<Plate>,
    more: &[Plate],
) -> Result<(), Memory>
    ensures { OnOk result (plates_of plates.new.items
        ≡ joined (plates_of plates.old.items) (plates_of more.now)) }
{
    for plate in more {
        append(plates, copy_plate(alloc, plate)?)?;
    }
    Ok(())
}
