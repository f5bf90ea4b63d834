//! The strip and the band in which a cell is to be put. All lengths are in mm.

use crate::measure::Length;
use crate::node::{Begins, Candidate, LaidCell};
use crate::shapes::{Cell, ClosedBand, Reach, Rectangle};
use crate::task::Task;

/// For which beam and from which node a cell is to be put, and the strip and the band into which, as they are so far.
#[derive(Clone, Copy)]
pub struct Scene<'s> {
    /// What the beam is to do.
    pub task: &'s Task<'s>,
    /// The nodes before that one.
    pub arena: &'s [LaidCell],
    /// The node, by its place in the arena; none at the start.
    pub parent: Option<u32>,
    pub base: &'s Candidate,
    pub begins: Begins,
    pub plate: u16,
    /// The plate's width.
    pub wide: Length,
    /// The widths of the plates before together.
    pub before: Length,
    /// The strip's sides.
    pub a: Length,
    pub b: Length,
    /// The band's sides.
    pub c: Length,
    pub d: Length,
    /// The right side of the last closed strip, and the upper side of the last closed band, that may reach further by
    /// any number; or 0.
    pub lax: Reach,
    /// The defects that may stand in the way, from left to right.
    pub defects: &'s [Rectangle],
    /// The closed bands of the strip.
    pub bands: &'s [ClosedBand],
    /// The cells that the band has already.
    pub cells: &'s [Cell],
}

impl Scene<'_> {
    /// Whether the upright line at `x` runs through a defect.
    pub fn is_crossed_x(&self, x: Length) -> bool {
        self.defects.iter().any(|defect| defect.is_crossed_x(x))
    }

    /// The left side of a cell that is put right behind what there is.
    pub fn left(&self) -> Length {
        match self.begins {
            Begins::Cell => self.base.node.right(),
            Begins::Plate | Begins::Strip | Begins::Band => self.a,
        }
    }

    /// The strip or band begun at `side`, which is further on. What lies before it may be made greater.
    pub fn begun_at(&self, side: Length) -> Self {
        match self.begins {
            Begins::Band => Scene {
                c: side,
                d: side,
                lax: Reach {
                    d: side,
                    ..self.lax
                },
                ..*self
            },
            Begins::Plate | Begins::Strip | Begins::Cell => Scene {
                a: side,
                b: side,
                lax: Reach {
                    b: side,
                    ..self.lax
                },
                ..*self
            },
        }
    }
}
