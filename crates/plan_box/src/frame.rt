//! What the full ranges of a box come from.

use crate::var::Var;
use glass_base::Instance;

/// The numbers of an instance that give the full ranges. All lengths are in mm.
#[derive(Clone, Copy, Debug, PartialEq, Eq)]
pub struct Frame {
    /// The number of items, 1 to 800.
    pub items: u32,
    /// The number of stacks, at least 1.
    pub stacks: u32,
    /// The greatest width of a plate, at most 20,000.
    pub width: u32,
    /// The height of a plate, at most 20,000.
    pub height: u32,
}

impl Frame {
    ghost use Rattle.std.specs.Prelude.{◌≡◌};
    ghost use Rattle.plan_box.specs.Frames.{IsFrame};
    ghost use Rattle.plan_box.specs.Frames.{frame_of};
    ghost use Rattle.plan_box.specs.Ranges.{full_ranges, span_of};

    /// The frame of an instance.
    pub fn of(instance: &Instance) -> Frame
        ensures value { result ≡ frame_of instance.now }
        ensures limits { IsFrame result }
    {
        let params = instance.params();
        Frame {
            items: instance.items().len() as u32,
            stacks: instance.stacks(),
            width: instance.widest(),
            height: params.height,
        }
    }

    /// The full range of a variable.
    pub(crate) fn full(&self, var: Var) -> (u32, u32)
        ensures low { result.0 ≡ (span_of var (full_ranges self.now)).low }
        ensures high { result.1 ≡ (span_of var (full_ranges self.now)).high }
    {
        match var {
            Var::Stack => (0, self.stacks.saturating_sub(1)),
            Var::Turn => (0, 1),
            Var::Kind => (0, 4),
            Var::Lift => (0, 1),
            Var::A => (0, self.width),
            Var::B => (0, self.width),
            Var::C => (0, self.height),
            Var::D => (0, self.height),
            Var::E => (0, self.width),
        }
    }
}
