//! The ranges of a step in little room.

ghost use Rattle.std.specs.Prelude.{◌≡◌, ◌+◌, ◌*◌, ◌≤◌, ℕ};
ghost use Rattle.plan_box.specs.Decisions.{is_drawn as is_drawn_of};
ghost use Rattle.plan_box.specs.Packed.{limit_of, unpacked};
ghost use Rattle.plan_box.specs.Frames.{IsFrame};
ghost use Rattle.plan_box.specs.Ranges.{Span, span_of, with_span, full_ranges};

use crate::frame::Frame;
use crate::var::Var;

/// The ranges of a step, each as its low and its high end.
///
/// A box of 800 items is stored many times over, so turn, kind and lift share two bytes and each other end takes two.
#[derive(Clone, Copy, Debug, PartialEq, Eq)]
pub struct Packed {
    // The ends of turn, then those of lift, a bit each.
    turn_lift: u8,
    // The ends of kind, three bits each.
    kind: u8,
    stack: (u16, u16),
    a: (u16, u16),
    b: (u16, u16),
    c: (u16, u16),
    d: (u16, u16),
    e: (u16, u16),
}

/// A range whose ends are stored in two bytes each.
fn widened(ends: (u16, u16)) -> (u32, u32)
    ensures low { result.0 ≡ ends.0 }
    ensures high { result.1 ≡ ends.1 }
{
    (u32::from(ends.0), u32::from(ends.1))
}

impl Packed {
    /// The range of a variable.
    pub fn range(&self, var: Var) -> (u32, u32)
        ensures low { result.0 ≡ (span_of var (unpacked self.now)).low }
        ensures high { result.1 ≡ (span_of var (unpacked self.now)).high }
    {
        let turn_lift = u32::from(self.turn_lift);
        let kind = u32::from(self.kind);
        match var {
            Var::Stack => widened(self.stack),
            Var::Turn => (turn_lift / 8, turn_lift / 4 % 2),
            Var::Kind => (kind / 8, kind % 8),
            Var::Lift => (turn_lift / 2 % 2, turn_lift % 2),
            Var::A => widened(self.a),
            Var::B => widened(self.b),
            Var::C => widened(self.c),
            Var::D => widened(self.d),
            Var::E => widened(self.e),
        }
    }

    /// Whether the ranges of stack, turn, kind and lift are single numbers.
    pub fn is_drawn(&self) -> bool
        ensures { result ≡ is_drawn_of (unpacked self.now) }
    {
        let stack = self.range(Var::Stack);
        let turn = self.range(Var::Turn);
        let kind = self.range(Var::Kind);
        let lift = self.range(Var::Lift);
        stack.0 == stack.1 && (turn.0 == turn.1 && (kind.0 == kind.1 && lift.0 == lift.1))
    }

    /// These ranges with that of one variable replaced.
    pub fn with(self, var: Var, low: u32, high: u32) -> Packed
        requires order { low ≤ high }
        requires limit { high ≤ limit_of var }
        ensures { unpacked result ≡ with_span var (record { low = low; high = high })
            (unpacked self) }
    {
        let ends = (low as u16, high as u16);
        match var {
            Var::Stack => Packed {
                stack: ends,
                ..self
            },
            Var::Turn => self.with_turn(low, high),
            Var::Kind => Packed {
                kind: (low * 8 + high) as u8,
                ..self
            },
            Var::Lift => self.with_lift(low, high),
            Var::A => Packed { a: ends, ..self },
            Var::B => Packed { b: ends, ..self },
            Var::C => Packed { c: ends, ..self },
            Var::D => Packed { d: ends, ..self },
            Var::E => Packed { e: ends, ..self },
        }
    }

    fn with_turn(self, low: u32, high: u32) -> Packed
        requires order { low ≤ high }
        requires limit { high ≤ 1 }
        ensures { unpacked result ≡ with_span Var.Turn (record { low = low; high = high })
            (unpacked self) }
    {
        let lift = u32::from(self.turn_lift) % 4;
        Packed {
            turn_lift: (low * 8 + high * 4 + lift) as u8,
            ..self
        }
    }

    fn with_lift(self, low: u32, high: u32) -> Packed
        requires order { low ≤ high }
        requires limit { high ≤ 1 }
        ensures { unpacked result ≡ with_span Var.Lift (record { low = low; high = high })
            (unpacked self) }
    {
        let turn = u32::from(self.turn_lift) / 4;
        Packed {
            turn_lift: (turn * 4 + low * 2 + high) as u8,
            ..self
        }
    }

    /// The full ranges of a frame.
    pub fn full(frame: Frame) -> Packed
        requires { IsFrame frame }
        ensures { unpacked result ≡ full_ranges frame }
    {
        let along = (0, frame.width as u16);
        let up = (0, frame.height as u16);
        Packed {
            turn_lift: 5,
            kind: 4,
            stack: (0, frame.stacks.saturating_sub(1) as u16),
            a: along,
            b: along,
            c: up,
            d: up,
            e: along,
        }
    }
}
