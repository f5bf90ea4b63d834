//! The strip that a node leaves open.

use crate::measure::Length;
use crate::node::{Begins, LaidCell};
use crate::shapes::{Cell, ClosedBand, Rectangle};
use crate::sheet::Sheet;
use crate::ticks::Ticks;
use glass_base::Memory;
use std::alloc::Global;

/// Room for so many is made at once, so that what one thread writes to is on cache lines of its own.
pub const ROOM: usize = 64;

/// The open strip of a node.
#[derive(Drop)]
pub struct OpenStrip {
    /// The open band and the closed ones, from the last on.
    pub bands: Vec<ClosedBand>,
    /// The cells of the open band, from the last on.
    pub cells: Vec<Cell>,
    /// The defects that may stand in the way, from left to right.
    pub defects: Vec<Rectangle>,
}

/// The bands behind the first, which is the open one.
pub fn closed(bands: &[ClosedBand]) -> &[ClosedBand] {
    match bands.split_first() {
        Some((_, closed)) => closed,
        None => &[],
    }
}

/// Whether a band of these cells, `high` high, may be higher by any number: over or under each of them is a waste.
fn is_lax_band(cells: &[Cell], high: Length) -> bool {
    !cells.iter().any(|cell| cell.two || high <= cell.height)
}

/// Whether a strip of these bands, from `a` to `b`, may be wider by any number below a waste: behind each band is a
/// waste.
fn is_lax_strip(sheet: &Sheet, bands: &[ClosedBand], a: Length, b: Length) -> bool {
    b - a + sheet.waste <= sheet.max1 && !bands.iter().any(|band| b <= band.right)
}

impl OpenStrip {
    pub fn new(alloc: Global) -> Result<OpenStrip, Memory> {
        Ok(OpenStrip {
            bands: Vec::with_capacity(alloc, ROOM)?,
            cells: Vec::with_capacity(alloc, ROOM)?,
            defects: Vec::with_capacity(alloc, ROOM)?,
        })
    }

    /// Notes the bands of the strip in which a node's cell lies, and the cells of the open one.
    pub fn note<'n>(&mut self, arena: &'n [LaidCell], node: &'n LaidCell) -> Result<(), Memory> {
        self.bands.clear();
        self.cells.clear();
        self.bands.push(node.band())?;
        let mut current = node;
        let mut is_open = true;
        for _ in 0..node.items {
            if is_open {
                self.cells.push(current.cell())?;
            }
            if current.begins.is_strip() {
                return Ok(());
            }
            let Some(parent) = current.parent_in(arena) else {
                return Ok(());
            };
            if let Begins::Band = current.begins {
                is_open = false;
                self.bands.push(parent.band())?;
            }
            current = parent;
        }
        Ok(())
    }

    /// The upper side of the last band that may be higher, once the node's band is closed.
    pub fn lax_d(&self, node: &LaidCell) -> Length {
        let high = Length::from(node.d) - Length::from(node.c);
        if is_lax_band(self.cells.as_slice(), high) {
            node.d.into()
        } else {
            node.lax_d.into()
        }
    }

    /// The right side of the last strip that may be wider, once the node's strip is closed.
    pub fn lax_b(&self, sheet: &Sheet, node: &LaidCell) -> Length {
        let bands = self.bands.as_slice();
        if is_lax_strip(sheet, bands, node.a.into(), node.b.into()) {
            node.b.into()
        } else {
            node.lax_b.into()
        }
    }

    /// Notes the defects of a plate that reach right of `left` and begin left of `right`.
    pub fn note_defects(
        &mut self,
        sheet: &Sheet,
        plate: u16,
        left: Length,
        right: Length,
        ticks: &mut Ticks,
    ) -> Result<(), Memory> {
        self.defects.clear();
        if let Some(on) = sheet.plates.get(usize::from(plate)) {
            for defect in &on.defects {
                if right <= defect.x0 {
                    break;
                }
                if left < defect.x1 {
                    self.defects.push(*defect)?;
                }
            }
            ticks.spend_quarter(on.defects.len());
        }
        Ok(())
    }
}
