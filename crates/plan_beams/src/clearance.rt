//! Whether the cells of a plate are clear of its defects where bands and strips are stretched.

use crate::measure::Length;
use crate::node::LaidCell;
use crate::scene::Scene;
use crate::shapes::Rectangle;
use crate::sheet::{BeamPlate, Sheet};
use crate::stretching::{Spot, Stretching};
use crate::ticks::Ticks;

/// Whether a cell's item or one of its cuts runs through the defect. All of them lie in its strip.
fn is_hit(sheet: &Sheet, wide: Length, defect: &Rectangle, node: &LaidCell, spot: &Spot) -> bool {
    defect.is_along_x(spot.a, spot.b)
        && (is_strip_hit(wide, defect, node, spot)
            || is_band_hit(sheet, defect, node, spot)
            || is_cell_hit(defect, node, spot))
}

/// Whether the strip's sides, where the cell begins it, run through the defect.
fn is_strip_hit(wide: Length, defect: &Rectangle, node: &LaidCell, spot: &Spot) -> bool {
    node.begins.is_strip()
        && ((Length::ZERO < spot.a && defect.is_crossed_x(spot.a))
            || (spot.b < wide && defect.is_crossed_x(spot.b)))
}

/// Whether the band's sides, where the cell begins it, run through the defect, which reaches into the strip.
fn is_band_hit(sheet: &Sheet, defect: &Rectangle, node: &LaidCell, spot: &Spot) -> bool {
    node.begins.is_band()
        && ((Length::ZERO < spot.c && defect.is_crossed_y(spot.c))
            || (spot.d < sheet.high && defect.is_crossed_y(spot.d)))
}

/// Whether the cell's item, its sides or the line over or under its item run through the defect.
fn is_cell_hit(defect: &Rectangle, node: &LaidCell, spot: &Spot) -> bool {
    let right = spot.e + Length::from(node.width);
    let height = Length::from(node.height);
    let (low, top) = if node.lifted {
        (spot.d - height, spot.d)
    } else {
        (spot.c, spot.c + height)
    };
    if defect.is_along_y(spot.c, spot.d)
        && ((spot.a < spot.e && defect.is_crossed_x(spot.e))
            || (right < spot.b && defect.is_crossed_x(right)))
    {
        return true;
    }
    defect.is_along_x(spot.e, right)
        && (defect.is_along_y(low, top)
            || (node.lifted && defect.is_crossed_y(low))
            || (!node.lifted && top < spot.d && defect.is_crossed_y(top)))
}

/// Whether a cell and its cuts are clear of the defects of its plate.
fn is_spot_clear(sheet: &Sheet, plate: &BeamPlate, node: &LaidCell, spot: &Spot) -> bool {
    !plate
        .defects
        .iter()
        .any(|defect| is_hit(sheet, plate.wide, defect, node, spot))
}

/// Whether all cells of a plate up to a new one are clear of its defects, at the spots that they have with it.
pub fn is_clear(sheet: &Sheet, scene: &Scene, new: LaidCell, ticks: &mut Ticks) -> bool {
    let Some(plate) = sheet.plates.get(usize::from(scene.plate)) else {
        return false;
    };
    let cost = (plate.defects.len() as u64 / 4).saturating_add(1);
    let mut stretching = Stretching::new();
    let mut current = new;
    let mut before = Some(&scene.base.node);
    let mut is_clear = true;
    for _ in 0..new.items {
        ticks.spend(cost);
        if is_clear {
            let spot = stretching.spot_of(sheet, &current);
            is_clear = is_spot_clear(sheet, plate, &current, &spot);
        }
        if current.begins.is_plate() {
            return is_clear;
        }
        let Some(parent) = before else {
            return is_clear;
        };
        current = *parent;
        before = current.parent_in(scene.arena);
    }
    is_clear
}
