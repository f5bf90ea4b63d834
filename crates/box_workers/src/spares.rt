//! Memory for the halves of boxes.
use crate::desk::Desk;
use glass_base::{Memory, Run};
use plan_box::{Blank, PlanBox, Var};
use std::alloc::Global;
use std::mem;

/// Memory for the halves of the next box that is split, and that of boxes which were closed, for later halves. So the handling of boxes
/// seldom asks the allocator, which all threads share.
#[derive(Drop)]
pub struct Spares {
    pub(crate) lower: Blank,
    pub(crate) upper: Blank,
    pub(crate) kept: Run<Blank>,
}

/// Memory of a box that was closed, or none where there is none.
fn next_of(kept: &mut Run<Blank>, alloc: Global) -> Blank {
    match kept.pop() {
        Some(blank) => blank,
        None => Blank::new(alloc),
    }
}

impl Spares {
    ghost use Rattle.std.specs.Prelude.{◌≡◌, OnOk, IsTrue};
    ghost use Rattle.plan_box.specs.Decisions.{is_free};
    ghost use Rattle.plan_box.specs.Frames.{frame_of};
    ghost use Rattle.plan_box.specs.Halves.{lower_half, upper_half, child_of};
    ghost use Rattle.box_workers.specs.inner.Spares.{HasRoomFor};

    /// No memory.
    pub fn new(alloc: Global) -> Spares {
        Spares {
            lower: Blank::new(alloc),
            upper: Blank::new(alloc),
            kept: Run::new(alloc),
        }
    }

    /// Takes memory for both halves of this box, and for a place to keep the box's own.
    pub(crate) fn prepare(&mut self, bx: &PlanBox) -> Result<(), Memory>
        ensures { OnOk result (HasRoomFor bx.now self.new) }
    {
        bx.reserve_half(&mut self.lower)?;
        bx.reserve_half(&mut self.upper)?;
        self.kept.reserve(1)?;
        Ok(())
    }

    /// Keeps the memory of a box that is closed.
    pub(crate) fn keep(&mut self, bx: PlanBox)
        requires { HasRoomFor bx self.old }
    {
        self.kept.put(bx.into_blank());
    }

    /// The halves of a box at a free variable of a step, with these identities.
    pub(crate) fn split<G>(
        &mut self,
        desk: &Desk<'_, G>,
        bx: PlanBox,
        at: (u32, Var),
        ids: (u64, u64),
    ) -> (PlanBox, PlanBox)
        requires room { HasRoomFor bx self.old }
        requires instance { bx.frame ≡ frame_of desk.now.ground.instance.now }
        requires free { IsTrue (is_free bx.ranges at.0 at.1) }
        ensures lower { result.0 ≡ child_of lower_half bx at.0 at.1 ids.0 }
        ensures upper { result.1 ≡ child_of upper_half bx at.0 at.1 ids.1 }
    {
        let instance = desk.ground.instance;
        let (step, var) = at;
        let below = mem::replace(&mut self.lower, Blank::new(desk.alloc));
        let next = next_of(&mut self.kept, desk.alloc);
        let above = mem::replace(&mut self.upper, next);
        let (lower, upper, left) = bx.split_over(instance, step, var, ids, (below, above));
        self.lower = left;
        (lower, upper)
    }
}
