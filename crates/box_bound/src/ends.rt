//! The least values and the high ends of the cuts of a decided step.

ghost use Rattle.std.specs.Prelude.{◌≡◌, ◌+◌, ◌<◌, ◌≤◌, ◌^◌};
ghost use Rattle.plan_box.specs.Leasts.{band_known, cell_known, next_known, settled as settled_known, strip_known};
ghost use Rattle.plan_box.specs.Packed.{unpacked};
ghost use Rattle.box_bound.specs.declared.placed.Placed.{Placed as PlacedOf};
ghost use Rattle.box_bound.specs.Kept.{known_of, no_ends, place_in};
ghost use Rattle.plan_box.specs.Within.{AreRangesWithin};

use crate::placed::Placed;
use glass_base::Instance;
use glass_base::limits::{MOST_LENGTH, MOST_SIDE};
use plan_box::{Packed, Var};
use plan_trace::level::Level;

/// The least value and the high end of each cut of a decided step.
#[derive(Clone, Copy)]
pub struct Ends {
    pub least_a: u32,
    pub high_a: u32,
    pub least_b: u32,
    pub high_b: u32,
    pub least_c: u32,
    pub high_c: u32,
    pub least_d: u32,
    pub high_d: u32,
    pub least_e: u32,
    pub high_e: u32,
}

impl Ends {
    /// What stands before the first step.
    pub fn none() -> Ends
        ensures { result ≡ no_ends }
    {
        Ends {
            least_a: 0,
            high_a: 0,
            least_b: 0,
            high_b: 0,
            least_c: 0,
            high_c: 0,
            least_d: 0,
            high_d: 0,
            least_e: 0,
            high_e: 0,
        }
    }

    /// With a new cell whose left side is at `from` at least.
    fn with_cell(self, instance: &Instance, place: &Placed, from: u32, ranges: &Packed) -> Ends
        requires e { (unpacked ranges.now).e.low + place.now.cell_w < 2 ^ 32 }
        requires from { from + place.now.cell_w < 2 ^ 32 }
        requires d { self.least_c + place.now.cell_h < 2 ^ 32 }
        ensures { known_of place.now result ≡ cell_known instance.now (place_in place.now)
            (known_of place.now self) from (unpacked ranges.now) }
    {
        let e = ranges.range(Var::E);
        let left = e.0.max(from);
        Ends {
            least_b: self.least_b.max(left + place.cell_w),
            least_d: self.least_d.max(self.least_c + place.cell_h),
            least_e: left,
            high_e: e.1.min(instance.width(place.plate())),
            ..self
        }
    }

    /// With a new band whose lower side is at `from` at least, and its first cell.
    fn with_band(self, instance: &Instance, place: &Placed, from: u32, ranges: &Packed) -> Ends
        requires ranges { AreRangesWithin (unpacked ranges.now) }
        requires cell_w { place.now.cell_w ≤ MOST_SIDE }
        requires a { self.least_a ≤ MOST_LENGTH }
        requires from { from ≤ MOST_LENGTH }
        requires cell_h { place.now.cell_h ≤ MOST_LENGTH }
        ensures { known_of place.now result ≡ band_known instance.now (place_in place.now)
            (known_of place.now self) from (unpacked ranges.now) }
    {
        let c = ranges.range(Var::C);
        let d = ranges.range(Var::D);
        let low = c.0.max(from);
        let begun = Ends {
            least_c: low,
            high_c: c.1,
            least_d: d.0.max(low + instance.params().min2),
            high_d: d.1,
            ..self
        };
        begun.with_cell(instance, place, begun.least_a, ranges)
    }

    /// With a new strip whose left side is at `from` at least, and its first band and cell.
    fn with_strip(self, instance: &Instance, place: &Placed, from: u32, ranges: &Packed) -> Ends
        requires ranges { AreRangesWithin (unpacked ranges.now) }
        requires cell_w { place.now.cell_w ≤ MOST_SIDE }
        requires from { from ≤ MOST_LENGTH }
        requires cell_h { place.now.cell_h ≤ MOST_LENGTH }
        ensures { known_of place.now result ≡ strip_known instance.now (place_in place.now)
            (known_of place.now self) from (unpacked ranges.now) }
    {
        let a = ranges.range(Var::A);
        let b = ranges.range(Var::B);
        let width = instance.width(place.plate());
        let left = a.0.max(from);
        let begun = Ends {
            least_a: left,
            high_a: a.1.min(width),
            least_b: b.0.max(left + instance.params().min1),
            high_b: b.1.min(width),
            ..self
        };
        begun.with_band(instance, place, 0, ranges)
    }

    /// Those of the next step, which stands at `place` and begins this level; this step stands at `last`.
    pub fn next(
        self,
        instance: &Instance,
        level: Level,
        last: &Placed,
        place: &Placed,
        ranges: &Packed,
    ) -> Ends
        requires ranges { AreRangesWithin (unpacked ranges.now) }
        requires cell_w { place.now.cell_w ≤ MOST_SIDE }
        requires cell_h { place.now.cell_h ≤ MOST_LENGTH }
        requires a { self.least_a ≤ MOST_LENGTH }
        requires b { self.least_b ≤ MOST_LENGTH }
        requires d { self.least_d ≤ MOST_LENGTH }
        requires e { self.least_e + last.now.cell_w ≤ MOST_LENGTH }
        requires c { self.least_c ≤ MOST_LENGTH }
        ensures { known_of place.now result ≡ next_known instance.now level (place_in place.now)
            (known_of last.now self) (unpacked ranges.now) }
    {
        match level {
            Level::NewPlate => self.with_strip(instance, place, 0, ranges),
            Level::NewStrip => self.with_strip(instance, place, self.least_b, ranges),
            Level::NewBand => self.with_band(instance, place, self.least_d, ranges),
            Level::NewCell => self.with_cell(instance, place, self.least_e + last.cell_w, ranges),
            Level::Over => Ends {
                least_d: self.least_d.max(self.least_c + place.cell_h),
                ..self
            },
        }
    }

    /// With the least values that the next step, which begins this level, has for the same strip and band.
    pub fn settled(self, level: Level, next: &Ends) -> Ends
        ensures { (p q : PlacedOf) → known_of p result
            ≡ settled_known level (known_of p self) (known_of q next.now) }
    {
        match level {
            Level::NewPlate | Level::NewStrip => self,
            Level::NewBand => Ends {
                least_b: next.least_b,
                ..self
            },
            Level::NewCell | Level::Over => Ends {
                least_b: next.least_b,
                least_d: next.least_d,
                ..self
            },
        }
    }
}
