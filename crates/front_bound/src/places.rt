//! The least places of a piece around defects.

ghost use Rattle.std.specs.Prelude.{◌≡◌, ℕ, ◌+◌, ◌≤◌, Contains, IsTrue, IfSome, OnOk};
ghost use Rattle.front_bound.specs.inner.Clear.{Covered, IsFree, Meets};

use front_table::halt::Halt;
use glass_base::Defect;
use std::mem;

/// A piece's lower left corner on its plate, in mm.
#[derive(Clone, Copy)]
pub struct Corner {
    pub x: u32,
    pub y: u32,
}

/// The sides of a piece, and how far to the right and up it may reach, in mm.
#[derive(Clone, Copy)]
pub struct PieceToPlace {
    pub wide: u32,
    pub high: u32,
    pub room: u32,
    pub height: u32,
}

/// Lists of places that are used again.
#[derive(Drop)]
pub struct CornerLists {
    /// The places that are found.
    pub found: Vec<Corner>,
    /// Those of the next round.
    pub next: Vec<Corner>,
}

/// So often each place is looked at. Where that does not suffice, places are listed at which a defect is met, which is no mistake: they are still
/// no further right and no higher than those at which none is.
const ROUNDS: u32 = 8;

/// Whether a piece meets a defect at a place.
fn is_met(hole: &Defect, piece: &PieceToPlace, place: &Corner) -> bool
    ensures { IsTrue result → Meets hole.now piece.now place.now }
{
    u64::from(hole.x0) < u64::from(place.x) + u64::from(piece.wide)
        && place.x < hole.x1
        && u64::from(hole.y0) < u64::from(place.y) + u64::from(piece.high)
        && place.y < hole.y1
}

/// One of the defects that a piece meets at a place.
fn met(holes: &[Defect], piece: &PieceToPlace, place: &Corner) -> Option<Defect>
    ensures { IfSome result (λ d. Contains holes.now d × Meets d piece.now place.now) }
{
    for hole in holes {
        if is_met(hole, piece, place) {
            return Some(*hole);
        }
    }
    None
}

/// Lists a place.
fn push(places: &mut Vec<Corner>, x: u32, y: u32) -> Result<(), Halt>
    ensures kept { OnOk result ((left low : ℕ) → Covered places.old.items left low
        → Covered places.new.items left low) }
    ensures new { OnOk result ((left low : ℕ) → x ≤ left → y ≤ low
        → Covered places.new.items left low) }
{
    places.push(Corner { x, y })?;
    Ok(())
}

/// Lists a place again, or the two behind and above a defect that is met there.
fn look(
    places: &mut Vec<Corner>,
    holes: &[Defect],
    piece: &PieceToPlace,
    place: &Corner,
) -> Result<bool, Halt>
    ensures kept { OnOk result ((left low : ℕ) → Covered places.old.items left low
        → Covered places.new.items left low) }
    ensures new { OnOk result ((left low : ℕ) → place.now.x ≤ left → place.now.y ≤ low
        → IsFree holes.now piece.now left low → Covered places.new.items left low) }
{
    if u64::from(place.x) + u64::from(piece.wide) > u64::from(piece.room) {
        return Ok(false);
    }
    if u64::from(place.y) + u64::from(piece.high) > u64::from(piece.height) {
        return Ok(false);
    }
    let Some(hole) = met(holes, piece, place) else {
        push(places, place.x, place.y)?;
        return Ok(false);
    };
    push(places, hole.x1, place.y)?;
    push(places, place.x, hole.y1)?;
    Ok(true)
}

/// Looks at each place once.
fn look_at_all(
    old: &[Corner],
    places: &mut Vec<Corner>,
    holes: &[Defect],
    piece: &PieceToPlace,
) -> Result<bool, Halt>
    ensures { OnOk result ((left low : ℕ) → Covered old.now left low
        → IsFree holes.now piece.now left low → Covered places.new.items left low) }
{
    places.clear();
    let mut changed = false;
    for place in old {
        if look(places, holes, piece, place)? {
            changed = true;
        }
    }
    Ok(changed)
}

/// Lists places as found: each place right of `x` and above `y` at which the piece meets no defect is right of one of them, and above it.
pub fn least_places(
    lists: &mut CornerLists,
    holes: &[Defect],
    piece: &PieceToPlace,
    x: u32,
    y: u32,
) -> Result<(), Halt>
    ensures { OnOk result ((left low : ℕ) → x ≤ left → y ≤ low → IsFree holes.now piece.now left low
        → Covered lists.new.found.items left low) }
{
    lists.found.clear();
    push(&mut lists.found, x, y)?;
    for _ in 0..ROUNDS {
        let changed = look_at_all(lists.found.as_slice(), &mut lists.next, holes, piece)?;
        mem::swap(&mut lists.found, &mut lists.next);
        if !changed {
            return Ok(());
        }
    }
    Ok(())
}
