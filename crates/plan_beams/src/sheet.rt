//! Parameters, plates and defects in the form that the search reads.

use crate::measure::Length;
use crate::rest::Remainder;
use crate::shapes::Rectangle;
use glass_base::{Defect, Instance, Memory};
use std::alloc::Global;

/// A plate. All lengths are in mm.
#[derive(Drop)]
pub struct BeamPlate {
    pub wide: Length,
    /// The widths of the plates before it together, without those that stay as they are.
    pub before: Length,
    /// Its defects, from left to right.
    pub defects: Vec<Rectangle>,
}

/// Parameters and plates. All lengths are in mm.
#[derive(Drop)]
pub struct Sheet {
    pub high: Length,
    pub min1: Length,
    pub max1: Length,
    pub min2: Length,
    pub waste: Length,
    /// The least side of all items.
    pub small: Length,
    pub plates: Vec<BeamPlate>,
}

fn rectangle(defect: &Defect) -> Rectangle {
    Rectangle {
        x0: Length(defect.x0),
        y0: Length(defect.y0),
        x1: Length(defect.x1),
        y1: Length(defect.y1),
    }
}

/// The defects of a plate that begin on it, from left to right.
fn defects_of(alloc: Global, instance: &Instance, plate: u32) -> Result<Vec<Rectangle>, Memory> {
    let wide = instance.width(plate);
    let high = instance.params().height;
    let mut defects = Vec::new(alloc);
    for defect in instance.defects() {
        if defect.plate == plate && defect.x0 < wide && defect.y0 < high {
            defects.push(rectangle(defect))?;
        }
    }
    defects.sort_unstable();
    Ok(defects)
}

/// The plates behind the first ones.
fn plates_behind(alloc: Global, instance: &Instance, first: u32) -> Result<Vec<BeamPlate>, Memory> {
    let mut plates = Vec::new(alloc);
    let mut before = 0u32;
    for number in first..instance.params().plates {
        let wide = instance.width(number);
        plates.push(BeamPlate {
            wide: Length(wide),
            before: Length(before),
            defects: defects_of(alloc, instance, number)?,
        })?;
        before = before.wrapping_add(wide);
    }
    Ok(plates)
}

impl Sheet {
    pub fn new(alloc: Global, instance: &Instance, rest: &Remainder) -> Result<Sheet, Memory> {
        let params = instance.params();
        Ok(Sheet {
            high: Length(params.height),
            min1: Length(params.min1),
            max1: Length(params.max1),
            min2: Length(params.min2),
            waste: Length(params.waste),
            small: Length(rest.small),
            plates: plates_behind(alloc, instance, rest.plates)?,
        })
    }
}
