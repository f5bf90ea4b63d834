//! The defects of a plate that strips can come near.

ghost use Rattle.std.specs.Prelude.{◌≡◌, ℕ, ◌<◌, ◌≤◌, ◌⊎◌, Contains, OnOk};
ghost use Rattle.glass_base.specs.declared.item.Defect.{Defect as DefectOf};
ghost use Rattle.front_bound.specs.inner.Clear.{AreHoles, LineClear};

use front_table::halt::Halt;
use glass_base::{Defect, Instance};

/// Adds a defect, where it is one of the plate that reaches beyond `left` and does not begin behind `end`.
fn add_hole(
    holes: &mut Vec<Defect>,
    defect: &Defect,
    plate: u32,
    left: u32,
    end: u64,
) -> Result<(), Halt>
    ensures { OnOk result ((d : DefectOf) → Contains holes.new.items d → Contains holes.old.items d
        ⊎ ((defect.now ≡ d) × (plate ≡ defect.now.plate))) }
{
    if defect.plate != plate {
        return Ok(());
    }
    if defect.x1 <= left || u64::from(defect.x0) >= end {
        return Ok(());
    }
    holes.push(*defect)?;
    Ok(())
}

/// The defects that strips of a plate meet which begin at `left` and are no wider than `top`, or lie near them.
pub fn holes_of(
    instance: &Instance,
    holes: &mut Vec<Defect>,
    plate: u32,
    left: u32,
    top: u32,
) -> Result<(), Halt>
    ensures { OnOk result (AreHoles instance.now plate holes.new.items) }
{
    holes.clear();
    let end = u64::from(left) + u64::from(top);
    for defect in instance.defects() {
        add_hole(holes, defect, plate, left, end)?;
    }
    Ok(())
}

/// A side moved to the right, out of one of the defects that are lower than a height, and not beyond a plate's width.
fn past_one(hole: &Defect, side: u32, height: u32, width: u32) -> u32
    requires { side ≤ width }
    ensures least { (right : ℕ) → side ≤ right → right ≤ width
        → (right < width → hole.now.y0 < height → 0 < hole.now.y1 → (right ≤ hole.now.x0)
        ⊎ (hole.now.x1 ≤ right)) → result ≤ right }
    ensures within { result ≤ width }
{
    if hole.x0 < side && side < hole.x1 && hole.y0 < height && 0 < hole.y1 {
        return hole.x1.min(width);
    }
    side
}

/// A side moved to the right, out of each of the defects in turn, all of which are gone through once.
fn past_once(holes: &[Defect], side: u32, height: u32, width: u32) -> u32
    requires { side ≤ width }
    ensures least { (right : ℕ) → side ≤ right → right ≤ width
        → (right < width → LineClear holes.now height right) → result ≤ right }
    ensures within { result ≤ width }
{
    let mut least = side;
    for hole in holes {
        least = past_one(hole, least, height, width);
    }
    least
}

/// So often all defects are gone through.
const PASSES: u32 = 8;

/// The least side from this one on that lies in none of the defects, as far as some passes over them tell.
pub fn past(holes: &[Defect], side: u32, height: u32, width: u32) -> u32
    requires { side ≤ width }
    ensures { (right : ℕ) → side ≤ right → right ≤ width
        → (right < width → LineClear holes.now height right) → result ≤ right }
{
    let mut least = side;
    for _ in 0..PASSES {
        let next = past_once(holes, least, height, width);
        if next == least {
            return least;
        }
        least = next;
    }
    least
}
