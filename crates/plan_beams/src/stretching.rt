//! Where the cells of a path come to lie once bands and strips are stretched.

use crate::gaps::lack;
use crate::measure::Length;
use crate::node::LaidCell;
use crate::sheet::Sheet;

/// Where a cell lies, and its strip and band. All lengths are in mm.
#[derive(Clone, Copy)]
pub struct Spot {
    pub a: Length,
    pub b: Length,
    pub c: Length,
    pub d: Length,
    pub e: Length,
}

/// The spots of a path's cells, which are asked for from the last one on.
///
/// The last cell of a strip or of a band settles its sides for the cells before it. Where too little is left over the
/// last band of a strip, all from `lax_d` on moves up by that, and where too little is left behind the last strip of
/// a plate, all from `lax_b` on moves right.
#[derive(Clone, Copy)]
pub struct Stretching {
    b: Length,
    d: Length,
    right: Length,
    up: Length,
    lax_b: Length,
    lax_d: Length,
    ends_plate: bool,
    ends_strip: bool,
    ends_band: bool,
}

/// `side`, moved by `by` where it lies at `from` or beyond it.
fn moved(side: Length, from: Length, by: Length) -> Length {
    if from <= side { side + by } else { side }
}

impl Stretching {
    /// No cell was asked for yet.
    pub fn new() -> Stretching {
        Stretching {
            b: Length::ZERO,
            d: Length::ZERO,
            right: Length::ZERO,
            up: Length::ZERO,
            lax_b: Length::ZERO,
            lax_d: Length::ZERO,
            ends_plate: true,
            ends_strip: true,
            ends_band: true,
        }
    }

    /// Takes in what a node settles that is the last one of its plate, strip or band.
    fn note(&mut self, sheet: &Sheet, node: &LaidCell) {
        if self.ends_plate {
            let wide = match sheet.plates.get(usize::from(node.plate)) {
                Some(plate) => plate.wide,
                None => Length::ZERO,
            };
            self.right = lack(sheet, node.b.into(), wide);
            self.lax_b = node.lax_b.into();
        }
        if self.ends_strip {
            self.b = node.b.into();
            self.up = lack(sheet, node.d.into(), sheet.high);
            self.lax_d = node.lax_d.into();
        }
        if self.ends_band {
            self.d = node.d.into();
        }
        self.ends_plate = node.begins.is_plate();
        self.ends_strip = node.begins.is_strip();
        self.ends_band = node.begins.is_band();
    }

    /// Where the cell of a node lies, which is the one before those that were asked for so far.
    pub fn spot_of(&mut self, sheet: &Sheet, node: &LaidCell) -> Spot {
        self.note(sheet, node);
        let a = Length::from(node.a);
        let e = Length::from(node.e);
        let aside = moved(a, self.lax_b, self.right);
        Spot {
            a: aside,
            b: moved(self.b, self.lax_b, self.right),
            c: moved(node.c.into(), self.lax_d, self.up),
            d: moved(self.d, self.lax_d, self.up),
            e: e + (aside - a),
        }
    }
}
