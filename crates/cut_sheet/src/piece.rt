//! A piece of glass on the table.

ghost use Rattle.std.specs.Prelude.{◌≡◌, ◌<◌, ◌≤◌};
ghost use Rattle.cut_sheet.specs.Pieces.{IsOnPlate, cut_off as cut_off_of, deeper as deeper_of, is_upright as is_upright_at, made_as, side_cut as side_cut_of, without as without_of};

use crate::instr::Made;

/// A piece of glass on the table. All lengths are in mm.
#[derive(Clone, Copy)]
pub struct Piece {
    /// The number of its plate, from 0.
    pub plate: u32,
    /// The left side on its plate.
    pub x: u32,
    /// The lower side on its plate.
    pub y: u32,
    pub width: u32,
    pub height: u32,
    /// 0 for a plate, and for a piece the level of the cut that makes it, 1 to 4.
    pub level: u32,
    /// Whether something was cut off it.
    pub begun: bool,
}

impl Piece {
    /// Whether it is cut vertically.
    fn is_upright(&self) -> bool
        ensures { result ≡ is_upright_at self.now.level }
    {
        self.level % 2 == 0
    }

    /// The side along which parts are cut off.
    pub(crate) fn side_cut(&self) -> u32
        ensures { result ≡ side_cut_of self.now }
    {
        if self.is_upright() {
            self.width
        } else {
            self.height
        }
    }

    /// The part of this size that is cut off it.
    pub(crate) fn cut_off(&self, size: u32) -> Piece
        requires { self.now.level < 4 }
        ensures { result ≡ cut_off_of size self.now }
    {
        let part = self.deeper();
        if self.is_upright() {
            Piece {
                width: size,
                ..part
            }
        } else {
            Piece {
                height: size,
                ..part
            }
        }
    }

    /// What is left of it once a part of this size is cut off.
    pub(crate) fn without(&self, size: u32) -> Piece
        requires place { IsOnPlate self.now }
        requires size { size ≤ side_cut_of self.now }
        ensures { result ≡ without_of size self.now }
    {
        if self.is_upright() {
            Piece {
                x: self.x + size,
                width: self.width - size,
                begun: true,
                ..*self
            }
        } else {
            Piece {
                y: self.y + size,
                height: self.height - size,
                begun: true,
                ..*self
            }
        }
    }

    /// All of it, as a piece of the next level.
    pub(crate) fn deeper(&self) -> Piece
        requires { self.now.level < 4 }
        ensures { result ≡ deeper_of self.now }
    {
        Piece {
            level: self.level + 1,
            begun: false,
            ..*self
        }
    }

    /// What it is once it has left the table as this type.
    pub(crate) fn made(&self, kind: i64) -> Made
        ensures { result ≡ made_as kind self.now }
    {
        Made {
            plate: self.plate,
            x: self.x,
            y: self.y,
            width: self.width,
            height: self.height,
            kind,
            cut: self.level,
        }
    }
}
