//! An instance with the map of its defects.

ghost use Rattle.std.specs.Prelude.{◌≡◌};

use crate::map::DefectMap;
use glass_base::Instance;

/// An instance, and the map of its own defects: what every question on the places of a plan is asked of. That the map is this
/// instance's goes with the two, so nobody who is handed them has to ask for it.
#[derive(Clone, Copy)]
pub struct Ground<'a> {
    pub instance: &'a Instance,
    pub map: &'a DefectMap,
    ghost mapped: { map.now ≡ instance.now.defects },
}

impl<'a> Ground<'a> {
    ghost use Rattle.std.specs.Prelude.{◌↔◌, ◌<◌, IsTrue};
    ghost use Rattle.defect_map.specs.Queries.{CrossesNoneX, CrossesNoneY, HitsNone};

    /// Whether the upright line at x from y0 to y1 runs through no defect of the plate.
    #[tactic(auto, using(crate::proofs::Clear::none_passes))]
    pub fn is_clear_x(self, plate: u32, x: u32, y0: u32, y1: u32) -> bool
        requires { y0 < y1 }
        ensures { IsTrue result ↔ CrossesNoneX self.entry.instance.now.defects plate x y0 y1 }
    {
        !self.map.crosses_x(plate, x, y0, y1)
    }

    /// Whether the level line at y from x0 to x1 runs through no defect of the plate.
    #[tactic(auto, using(crate::proofs::Clear::none_passes))]
    pub fn is_clear_y(self, plate: u32, y: u32, x0: u32, x1: u32) -> bool
        requires { x0 < x1 }
        ensures { IsTrue result ↔ CrossesNoneY self.entry.instance.now.defects plate y x0 x1 }
    {
        !self.map.crosses_y(plate, y, x0, x1)
    }

    /// Whether the inside of the rectangle from (x0, y0) to (x1, y1) meets no defect of the plate.
    #[tactic(auto, using(crate::proofs::Clear::none_passes))]
    pub fn is_clear(self, plate: u32, x0: u32, y0: u32, x1: u32, y1: u32) -> bool
        requires wide { x0 < x1 }
        requires high { y0 < y1 }
        ensures { IsTrue result ↔ HitsNone self.entry.instance.now.defects plate x0 y0 x1 y1 }
    {
        !self.map.hits(plate, x0, y0, x1, y1)
    }
}
