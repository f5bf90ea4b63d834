//! The defects of an instance, and what they stand in the way of.

use crate::columns::{Column, between, column_at, columns_of};
use crate::frame::Region;
use glass_base::{Defect, Instance, Memory, Run};
use std::alloc::Global;
use std::marker::Model;

/// The defects of an instance. A query asks whether some defect of a plate stands in the way, or which is the first; touching a
/// defect's border is allowed. All lengths are in mm, and positions count the instance's defects from 0.
#[derive(Drop)]
pub struct DefectMap {
    defects: Run<Defect>,
    // A query looks at a few of them, and not at all defects.
    columns: Run<Column>,
}

impl Model for DefectMap {
    ghost use Rattle.std.specs.Prelude.{List, All, length};
    ghost use Rattle.glass_base.specs.declared.item.Defect.{Defect as GlassDefect};
    ghost use Rattle.glass_base.specs.Items.{IsDefectInRange};
    ghost use Rattle.defect_map.specs.inner.Columns.{AllStand};

    ghost Value = { List GlassDefect };

    ghost view = { λ m. m.defects.items };

    ghost invariant = { λ m. All IsDefectInRange m.defects.items × AllStand m.defects.items m.columns.items (length m.defects.items) };
}

impl DefectMap {
    ghost use Rattle.std.specs.Prelude.{◌≡◌, ◌+◌, ◌^◌, ◌<◌, IfOk, position};
    ghost use Rattle.std.specs.List.{list_any};
    ghost use Rattle.glass_base.specs.Defects.{crosses_x as crosses_x_at, crosses_y as crosses_y_at, hits as hits_at};
    ghost use Rattle.defect_map.specs.Queries.{crosses_x_all as crosses_x_everywhere, crosses_y_all as crosses_y_everywhere, hits_all as hits_everywhere};

    /// The defects of this instance.
    pub fn new(alloc: Global, instance: &Instance) -> Result<DefectMap, Memory>
        ensures { IfOk result (λ m. m ≡ instance.now.defects) }
    {
        let mut defects = Run::new(alloc);
        defects.extend_from_slice(instance.defects())?;
        let columns = columns_of(alloc, instance.defects())?;
        Ok(DefectMap { defects, columns })
    }

    /// Whether some defect of the plate ends behind `x.0` and begins before `x.1`, and the same along y. The later of `x.0` and
    /// the defect's left side lies in a column that both have.
    fn meets(&self, plate: u32, x: (u32, u32), y: (u32, u32)) -> bool
        ensures { result ≡ list_any (hits_at plate x.0 y.0 x.1 y.1) self.now }
    {
        let first = column_at(plate, x.0);
        let last = column_at(plate, x.0.max(x.1.saturating_sub(1)));
        let columns = between(self.columns.as_slice(), first, last);
        Region { plate, x, y }.is_met_among(self.defects.as_slice(), columns)
    }

    /// The position of the first defect that `meets` asks for, if there is one. Mostly there is none, and then the list is not
    /// gone over.
    fn first(&self, plate: u32, x: (u32, u32), y: (u32, u32)) -> Option<usize>
        ensures { result ≡ position (hits_at plate x.0 y.0 x.1 y.1) self.now }
    {
        if !self.meets(plate, x, y) {
            return None;
        }
        let frame = Region { plate, x, y };
        self.defects.as_slice().iter().position(|d| frame.is_met(d))
    }

    /// Whether the inside of some defect of the plate meets the inside of the rectangle from (x0, y0) to (x1, y1).
    pub fn hits(&self, plate: u32, x0: u32, y0: u32, x1: u32, y1: u32) -> bool
        requires wide { x0 < x1 }
        requires high { y0 < y1 }
        ensures { result ≡ list_any (hits_at plate x0 y0 x1 y1) self.now }
    {
        self.meets(plate, (x0, x1), (y0, y1))
    }

    /// The position of the first defect of the plate whose inside meets the inside of the rectangle from (x0, y0) to (x1, y1),
    /// if there is one.
    pub fn first_hit(&self, plate: u32, x0: u32, y0: u32, x1: u32, y1: u32) -> Option<usize>
        requires wide { x0 < x1 }
        requires high { y0 < y1 }
        ensures { result ≡ position (hits_at plate x0 y0 x1 y1) self.now }
    {
        self.first(plate, (x0, x1), (y0, y1))
    }

    /// Whether the upright line at x from y0 to y1 runs through the inside of some defect of the plate.
    pub fn crosses_x(&self, plate: u32, x: u32, y0: u32, y1: u32) -> bool
        requires { y0 < y1 }
        ensures { result ≡ list_any (crosses_x_at plate x y0 y1) self.now }
    {
        self.meets(plate, (x, x), (y0, y1))
    }

    /// The position of the first defect of the plate through whose inside the upright line at x from y0 to y1 runs, if there is
    /// one.
    pub fn first_crossing_x(&self, plate: u32, x: u32, y0: u32, y1: u32) -> Option<usize>
        requires { y0 < y1 }
        ensures { result ≡ position (crosses_x_at plate x y0 y1) self.now }
    {
        self.first(plate, (x, x), (y0, y1))
    }

    /// Whether the level line at y from x0 to x1 runs through the inside of some defect of the plate.
    pub fn crosses_y(&self, plate: u32, y: u32, x0: u32, x1: u32) -> bool
        requires { x0 < x1 }
        ensures { result ≡ list_any (crosses_y_at plate y x0 x1) self.now }
    {
        self.meets(plate, (x0, x1), (y, y))
    }

    /// The position of the first defect of the plate through whose inside the level line at y from x0 to x1 runs, if there is
    /// one.
    pub fn first_crossing_y(&self, plate: u32, y: u32, x0: u32, x1: u32) -> Option<usize>
        requires { x0 < x1 }
        ensures { result ≡ position (crosses_y_at plate y x0 x1) self.now }
    {
        self.first(plate, (x0, x1), (y, y))
    }

    /// Whether some defect of the plate meets a rectangle of width `w` and height `h` wherever its lower left corner lies in
    /// these ranges, the ends of a range included.
    pub fn hits_all(&self, plate: u32, x: (u32, u32), w: u32, y: (u32, u32), h: u32) -> bool
        requires wide { x.0 + w < 2 ^ 32 }
        requires high { y.0 + h < 2 ^ 32 }
        ensures { result ≡ list_any (hits_everywhere plate x.0 x.1 w y.0 y.1 h) self.now }
    {
        self.meets(plate, (x.1, x.0 + w), (y.1, y.0 + h))
    }

    /// Whether the upright line from `from` to `to` runs through some defect of the plate at every x of this range.
    pub fn crosses_x_all(&self, plate: u32, x: (u32, u32), from: u32, to: u32) -> bool
        ensures { result ≡ list_any (crosses_x_everywhere plate x.0 x.1 from to) self.now }
    {
        self.meets(plate, (x.1, x.0), (from, to))
    }

    /// Whether the level line from `from` to `to` runs through some defect of the plate at every y of this range.
    pub fn crosses_y_all(&self, plate: u32, y: (u32, u32), from: u32, to: u32) -> bool
        ensures { result ≡ list_any (crosses_y_everywhere plate y.0 y.1 from to) self.now }
    {
        self.meets(plate, (from, to), (y.1, y.0))
    }
}
