//! The least strip and band in which a cell stands lawfully.

use crate::demands::{Demand, first_demand};
use crate::gaps::{ROUNDS, lack, least_right, least_top};
use crate::measure::Length;
use crate::node::Begins;
use crate::scene::Scene;
use crate::shapes::{Cell, Reach};
use crate::sheet::Sheet;
use crate::ticks::Ticks;
use glass_base::Memory;

/// At most so many left sides are tried where a defect hinders a cell.
const MOST_TRIES: usize = 8;

/// At most so many places of a band or strip behind defects.
pub const MOST_BEHIND: usize = 3;

/// How far strip and band reach at least with a cell, before gaps and defects are looked at.
pub fn first_reach(sheet: &Sheet, scene: &Scene, cell: &Cell) -> Reach {
    let lift = if cell.lifted {
        sheet.waste
    } else {
        Length::ZERO
    };
    Reach {
        b: scene.b.max(cell.right()).max(scene.a + sheet.min1),
        d: scene
            .d
            .max(scene.c + sheet.min2)
            .max(scene.c + cell.height + lift),
    }
}

/// Whether a defect may stand in the way of what moves up where too little is left over the band.
fn is_tight_above(sheet: &Sheet, scene: &Scene, reach: Reach) -> bool {
    lack(sheet, reach.d, sheet.high) > Length::ZERO
        && scene.defects.iter().any(|defect| {
            defect.x0 < reach.b && scene.a < defect.x1 && scene.lax.d < defect.y1
        })
}

/// Whether a defect may stand in the way of what moves right where too little is left behind the strip.
fn is_tight_right(sheet: &Sheet, scene: &Scene, reach: Reach) -> bool {
    if lack(sheet, reach.b, scene.wide) == Length::ZERO {
        return false;
    }
    match sheet.plates.get(usize::from(scene.plate)) {
        Some(plate) => plate.defects.iter().any(|defect| scene.lax.b < defect.x1),
        None => false,
    }
}

/// Whether a cell that stands lawfully in what is so far may not do so once bands and strips are moved.
pub fn is_tight(sheet: &Sheet, scene: &Scene, reach: Reach) -> bool {
    is_tight_above(sheet, scene, reach) || is_tight_right(sheet, scene, reach)
}

/// The least sides of strip and band with which the cell stands lawfully, if there are some. Where a band or a strip
/// before may reach further, too little may be left over the band or behind the strip.
pub fn fit(sheet: &Sheet, scene: &Scene, cell: &Cell, ticks: &mut Ticks) -> Option<Reach> {
    let mut reach = first_reach(sheet, scene, cell);
    ticks.spend(2);
    for _ in 0..ROUNDS {
        reach.b = least_right(sheet, scene, reach.b, cell.right())?;
        reach.d = least_top(sheet, scene, reach.d, cell)?;
        ticks.spend_quarter(scene.defects.len());
        match first_demand(sheet, scene, reach, cell) {
            Demand::Nothing => return Some(reach),
            Demand::Right(x) => reach.b = x,
            Demand::Up(y) => reach.d = y,
            Demand::Never => return None,
        }
    }
    None
}

/// Leaves the first few of these places, each once.
fn keep_first(places: &mut Vec<Length>, most: usize) {
    places.sort_unstable();
    places.dedup();
    places.truncate(most);
}

/// Notes the left sides that defects give a piece of this width which can't begin at `x`, from left to right.
pub fn note_tries(
    sheet: &Sheet,
    scene: &Scene,
    x: Length,
    width: Length,
    tries: &mut Vec<Length>,
) -> Result<(), Memory> {
    tries.clear();
    let least = x + sheet.waste;
    for defect in scene.defects {
        if x < defect.x1 && defect.x0 < least + width {
            tries.push(defect.x1.max(least))?;
            tries.push(defect.x1.max(least + width) - width)?;
        }
    }
    if !tries.is_empty() {
        tries.push(least)?;
    }
    keep_first(tries, MOST_TRIES);
    Ok(())
}

/// Notes the first few places behind defects where a band or a strip may begin in place of where the scene has it: at
/// the least with a waste before them. No defect is cut by the left side of a strip.
pub fn note_behind(sheet: &Sheet, scene: &Scene, behind: &mut Vec<Length>) -> Result<(), Memory> {
    behind.clear();
    let is_band = matches!(scene.begins, Begins::Band);
    let begin = if is_band { scene.c } else { scene.a };
    for defect in scene.defects {
        let end = if is_band { defect.y1 } else { defect.x1 };
        let side = end.max(begin + sheet.waste);
        if begin < end && (is_band || !scene.is_crossed_x(side)) {
            behind.push(side)?;
        }
    }
    keep_first(behind, MOST_BEHIND);
    Ok(())
}
