//! Memory for the halves of a box.
ghost use Rattle.std.specs.Prelude.{◌<◌, IfOk};

use crate::blank::Blank;
use crate::frame::Frame;
use glass_base::Memory;
use std::alloc::Global;
use std::marker::Model;

/// Memory for two whole boxes of one frame. Contracts see the frame.
#[derive(Drop)]
pub struct Room {
    frame: Frame,
    lower: Blank,
    upper: Blank,
}

impl Model for Room {
    ghost use Rattle.std.specs.Prelude.{◌<◌};
    ghost use Rattle.plan_box.specs.declared.frame.Frame.{Frame};

    ghost Value = { Frame };

    ghost view = { λ r. r.frame };

    ghost invariant = { λ r. (r.frame.items < r.lower) × (r.frame.items < r.upper) };
}

/// Memory for all steps of a frame, and for one more, as a half of any box of the frame can be sure to find enough.
fn whole_of(alloc: Global, frame: Frame) -> Result<Blank, Memory>
    ensures { IfOk result (λ blank. frame.items < blank) }
{
    let mut blank = Blank::new(alloc);
    blank.reserve(frame.items as usize + 1)?;
    Ok(blank)
}

impl Room {
    ghost use Rattle.std.specs.Prelude.{◌≡◌, ◌<◌, IfOk};

    /// Memory for two boxes of this frame.
    pub(crate) fn new(alloc: Global, frame: Frame) -> Result<Room, Memory>
        ensures { IfOk result (λ room. room ≡ frame) }
    {
        let lower = whole_of(alloc, frame)?;
        let upper = whole_of(alloc, frame)?;
        Ok(Room {
            frame,
            lower,
            upper,
        })
    }

    /// The memory for each of the two boxes.
    pub(crate) fn blanks(self) -> (Blank, Blank)
        ensures lower { self.items < result.0 }
        ensures upper { self.items < result.1 }
    {
        (self.lower, self.upper)
    }
}
